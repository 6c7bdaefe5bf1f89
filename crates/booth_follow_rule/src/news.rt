//! The news of a follower.

/// What an authentic list of this site's daemon shows of the ticket.
#[derive(Clone, Copy)]
pub enum Shown {
    /// This site holds it, until this clock reading in milliseconds.
    Here { until: u64 },
    /// Another site holds it, or none does.
    Elsewhere,
}

/// How a run of the program ended.
#[derive(Clone, Copy)]
pub enum RunEnd {
    /// The run ended with status 0: it did what its argument demands.
    Done,
    /// With another status, or it could not be started.
    Failed,
}

/// The news before a reading.
#[derive(Clone, Copy)]
pub enum News {
    Nothing,
    List(Shown),
    /// The run with this number ended.
    End { run: u64, how: RunEnd },
    /// The follower was asked to end.
    Stop,
}
