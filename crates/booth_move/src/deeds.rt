//! The next action of a move, and its end.

/// The end of a move.
#[derive(Clone, Copy, PartialEq, Eq)]
pub enum MoveEnd {
    /// The ticket was granted to the target.
    Moved,
    /// The target has begun the grant, and the move does not wait for the outcome.
    Asked,
    /// The reply to the revoke has this result, and no grant was sent.
    Refused(u32),
    /// The ticket was released, and the reply to the grant has this result.
    Stranded(u32),
    /// No answer came in time, or the reading at which the grant is repeated did not come.
    NoReply,
}

/// The action after a pair.
#[derive(Clone, Copy, PartialEq, Eq)]
pub enum MoveDeed {
    Nothing,
    /// Send the revoke: to the member at this place, or to the same member as `booth revoke`.
    Revoke { to: Option<u32>, request: u32 },
    /// Send the grant to the target.
    Grant { request: u32 },
    End(MoveEnd),
}
