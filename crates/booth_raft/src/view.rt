//! The view of one automatic ticket at one member. Times are in milliseconds of its own clock.
use crate::deed::Told;
use booth_base::{MEMBERS, MemberId};
use booth_rec::{Promise, Record};

/// From this term on a member starts no further election.
pub const LAST_TERM: u32 = 4_294_967_294;

/// The number of a round after which no renewal is opened.
pub const LAST_NUMBER: u32 = 4_294_967_295;

/// The role of a member for the ticket.
#[derive(Clone, Copy, PartialEq, Eq)]
pub enum Role {
    /// The member holds no lease and has no open round.
    Follower,
    /// A handler runs, and an election may follow it.
    Working,
    /// The member's round for a new term is open.
    Candidate,
    /// The member has a lease.
    Leader,
}

/// The purpose for which a round is opened.
#[derive(Clone, Copy, PartialEq, Eq)]
pub enum RoundKind {
    /// A round for votes in a new term. Its number is 0.
    Election,
    /// A round that prolongs a lease within its term. Its number is above 0.
    Renewal,
}

/// A round that this member opened.
#[derive(Clone, Copy, PartialEq, Eq)]
pub struct Round {
    pub term: u32,
    pub number: u32,
    /// The clock reading at which the round was opened. The lease runs from this reading.
    pub opened: u64,
    /// The members that answered: the list is true at the place of each.
    pub answers: [bool; MEMBERS],
    /// Whether the round gave a lease.
    pub won: bool,
}

/// An owner of the ticket that this member has heard of, or the member itself.
#[derive(Clone, Copy, PartialEq, Eq)]
pub struct Shown {
    pub owner: MemberId,
    pub until: u64,
}

/// A rule that requested a write, with its arguments.
#[derive(Clone, Copy, PartialEq, Eq)]
pub enum Rule {
    /// Gain, after a won round.
    Gain,
    /// Ask, for an election in a new term.
    Ask {
        reason: u32,
    },
    /// Release of the lease.
    Release {
        reason: u32,
    },
    /// The end of a candidate's round that had no majority.
    EndRound,
    /// The answer to a round. It is sent if the promise to the round's member was written. Clients get this result in
    /// either case.
    Answer {
        kind: RoundKind,
        to: MemberId,
        number: u32,
        request: u32,
        told: Told,
    },
    /// Renewal of the lease. A round with this number is opened if the own promise was written.
    Renew {
        number: u32,
    },
}

/// A write that was requested and has no result yet.
#[derive(Clone, Copy, PartialEq, Eq)]
pub struct Waiting {
    pub rule: Rule,
    /// The record of the write.
    pub tried: Record,
    /// The clock reading at which it was requested.
    pub now: u64,
}

/// The view of a ticket at one member.
#[derive(Clone, Copy, PartialEq, Eq)]
pub struct View {
    pub term: u32,
    /// The greatest term that the member has heard of.
    pub seen: u32,
    /// The only member whose rounds in `term` this member answers.
    pub bound: Option<MemberId>,
    pub promise: Option<Promise>,
    /// The member answers no round at readings below this.
    pub abstain: u64,
    /// The record that was written last. Before the first write, it is a record of version 1 with term 0 and no
    /// lease.
    pub kept: Record,
    /// Whether the last write succeeded.
    pub sure: bool,
    /// The latest end of a lease that may have been written, or 0 for none.
    pub force: u64,
    pub role: Role,
    pub round: Option<Round>,
    pub shown: Option<Shown>,
    /// Whether a site acquires the ticket if its lease is lost.
    pub managed: bool,
    /// Whether the member must still ask the others for their state.
    pub hello: bool,
    /// The number of times that the member will still repeat its release message, with the release's reason and term.
    pub repeat: u32,
    pub repeat_reason: u32,
    pub repeat_term: u32,
    /// The number of the handler that runs.
    pub job: Option<u64>,
    /// The reason for the acquisition under way.
    pub reason: u32,
    /// The time at which the rule for the member's role runs next.
    pub due: Option<u64>,
    pub waiting: Option<Waiting>,
}
