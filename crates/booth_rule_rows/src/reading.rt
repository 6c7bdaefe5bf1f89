//! Records, messages and starts from words.
ghost use Rattle.std.specs.Prelude.{◌≡◌, ◌<◌, ◌^◌, IsTrue};
ghost use Rattle.booth_raft.specs.Sound.{IsSound};

use booth_base::{MemberId, Name, Times};
use booth_host_rows::record_of;
use booth_rec::Record;
use booth_rows::Words;
use booth_wire::{Cmd, Head, Setup, TicketPart};

/// The length of each ticket's lease, in ms. A promise lasts 601,203 ms.
const EXPIRE: u64 = 600_000;

// Returns the times of a ticket that is renewed this often, in ms.
fn times_with(renewal: u64) -> Times
    ensures renewal { result.renewal ≡ renewal }
    ensures expire { result.expire ≡ 600000 }
    ensures after { result.after ≡ 0 }
    ensures timeout { result.timeout ≡ 5000 }
    ensures retries { result.retries ≡ 10 }
{
    Times {
        expire: EXPIRE,
        after: 0,
        timeout: 5_000,
        retries: 10,
        renewal,
    }
}

// Reads a record, or one `-` for no record.
fn record(words: &mut Words<'_>) -> Option<Record> {
    if words.is_none() {
        None
    } else {
        Some(record_of(words))
    }
}

// Returns the ticket of every line.
fn ticket() -> Name {
    match Name::read(b"ticket-db8") {
        Ok(name) => name,
        Err(_) => Name::default(),
    }
}

// Reads a command by its code.
fn command(words: &mut Words<'_>) -> Cmd {
    match Cmd::from_code(words.number()) {
        Some(command) => command,
        None => {
            words.refuse();
            Cmd::Stat
        }
    }
}

/// Reads the head of a message.
pub(crate) fn head(words: &mut Words<'_>) -> Head {
    Head {
        auth: words.flag(),
        secs: words.number(),
        usecs: words.number(),
        from: MemberId(words.number()),
        cmd: command(words),
        request: words.number(),
        options: words.number(),
        reason: words.number(),
        result: words.number(),
    }
}

/// Reads the body of a message.
pub(crate) fn part(words: &mut Words<'_>) -> TicketPart {
    TicketPart {
        ticket: ticket(),
        leader: MemberId(words.number()),
        term: words.number(),
        valid_for: words.number(),
    }
}

/// The arguments of a member's start.
#[derive(Drop)]
pub(crate) struct Start {
    pub(crate) now: u64,
    pub(crate) setup: Setup,
    pub(crate) kept: Option<Record>,
    ghost early: { now < 2 ^ 62 },
    ghost sound: { IsSound setup },
    ghost second: { IsTrue setup.second },
}

impl Start {
    /// Reads a start. It refuses one whose place, rank or time between renewals is too large.
    pub(crate) fn read(words: &mut Words<'_>) -> Option<Start> {
        let now = words.moment();
        let me = MemberId(words.number());
        let (place, members) = (words.number(), words.number());
        let (site, rank) = (words.flag(), words.number());
        let (steady, renewal) = (words.flag(), words.moment());
        if place >= members || members > 16 || rank >= 16 || renewal >= EXPIRE {
            words.refuse();
            return None;
        }
        let setup = Setup {
            ticket: ticket(),
            me,
            place,
            members,
            site,
            rank,
            times: times_with(renewal),
            second: true,
            steady,
        };
        let kept = record(words);
        Some(Start { now, setup, kept })
    }
}
