//! The action of a rule, and the events of handlers and clients that a core notes.
use booth_rec::Record;
use booth_wire::Say;

/// The request of a rule to its caller, for what the lease rules do not decide.
#[derive(Clone, Copy, PartialEq, Eq)]
pub enum Want {
    Nothing,
    /// Renew the lease.
    Renew,
    /// Acquire the ticket.
    Acquire,
}

/// The result for the clients that wait.
#[derive(Clone, Copy, PartialEq, Eq)]
pub enum Told {
    Nothing,
    /// The member gained a lease. `sure` is true if its record was written.
    Gained { sure: bool },
    /// The round of this member ended without a majority.
    RoundFailed,
    /// The member opened no round.
    AskFailed,
    /// The member released the lease.
    Released,
    /// The write of a release failed.
    ReleaseFailed,
    /// The lease has run out.
    Lost,
    /// The handler failed or could not be started. No lease rule returns this; the caller that runs handlers does.
    HandlerFailed,
}

/// The action of a rule: first the write, then the message to members, then the result for clients.
#[derive(Drop)]
pub struct Deed {
    pub keep: Option<Record>,
    pub say: Say,
    pub want: Want,
    pub told: Told,
}

/// An event of a handler or of a client's request.
#[derive(Clone, Copy)]
pub enum Note {
    /// The member follows a client's request.
    Asked,
    /// A handler was started under this number, before an acquisition for this reason.
    JobStarted { job: u64, reason: u32 },
    /// The handler has ended.
    JobOver,
    /// No election could be started.
    AskFailed,
    /// The handler failed or could not be started.
    HandlerFailed,
    /// The ticket may not be acquired yet.
    Unready,
}
