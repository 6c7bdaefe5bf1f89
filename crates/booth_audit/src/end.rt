//! The ways in which the lines of a session end.

/// The way in which the lines of a session end.
#[derive(Clone, Copy)]
pub(crate) enum End {
    /// No call is left, or another start begins.
    Over,
    /// The next line has the requested call, but no answer to it.
    Cut,
    /// The next line has another call than the requested one.
    Differs,
}
