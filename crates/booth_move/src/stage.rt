//! The stage of a move.

/// The last request, and the wait for its answer.
#[derive(Clone, Copy)]
pub struct Request {
    /// The number that an answer repeats.
    pub number: u32,
    /// The reading at which it was sent.
    pub start: u64,
    /// The number of pairs that this wait has had.
    pub pairs: u64,
    /// Whether a reply stated that the request was begun. The move then waits for its outcome.
    pub begun: bool,
}

/// The stage of a move, by the answer for which it waits.
#[derive(Clone, Copy)]
pub enum Stage {
    /// Nothing was sent yet.
    Opening { start: u64 },
    /// The revoke has no answer yet. `sent_on` is true if it was redirected to another member.
    Revoking { last: Request, sent_on: bool },
    /// The ticket was released, and the grant has no answer yet. `repeats` is the number of its repeats.
    Granting { last: Request, repeats: u32 },
    /// The target is busy, and the grant is repeated after a pause.
    Pausing { last: Request, repeats: u32 },
    Ended,
}
