//! The counters of a node, and the number of its next job.
ghost use Rattle.std.specs.Prelude.{◌≡◌, ◌<◌};
ghost use Rattle.booth_node.specs.Jobs.{count_start};
ghost use Rattle.booth_node.specs.Counting.{place_of, count_drop, no_counts, counters_at, with_counters, counted, tried, count_send, nothing_counted};

use booth_auth::DropFault;
use booth_base::MEMBERS;
use booth_ticket::To;

/// The least reading that is too late to use, in milliseconds.
pub(crate) const READINGS_END: u64 = 1 << 62;

/// The counters of a member. A counter that reaches its greatest value stays there.
#[derive(Clone, Copy, PartialEq, Eq)]
pub struct Counters {
    /// The number of its datagrams that were accepted.
    pub accepted: u64,
    /// The number of sends to it that the network accepted.
    pub sent: u64,
    /// The number of sends to it that failed.
    pub errors: u64,
    /// The time at which the last of its datagrams was accepted, in seconds since 1970, or 0.
    pub last: u64,
}

/// The counters that belong to no ticket.
#[derive(Clone, Copy)]
pub struct Common {
    /// The number of datagrams that were dropped for each fault, in the gate's order.
    pub drops: [u64; 8],
    /// The counters of the members, in the order of the configuration. After the last member they are 0.
    pub members: [Counters; MEMBERS],
    /// The number of the next job (run of a handler). Jobs count from 1 in each daemon.
    pub next_job: u64,
}

/// Returns the place of a fault among the eight drop counters.
fn place_of(fault: DropFault) -> usize
    ensures place { result ≡ place_of fault }
    ensures within { result < 8 }
{
    match fault {
        DropFault::Frame(_) => 0,
        DropFault::NoMac => 1,
        DropFault::BadMac => 2,
        DropFault::TooOld => 3,
        DropFault::Stranger => 4,
        DropFault::Own => 5,
        DropFault::Ticket => 6,
        DropFault::Leader => 7,
    }
}

impl Counters {
    // The counters of a member for which nothing was counted.
    pub(crate) const NONE: Counters = Counters {
        accepted: 0,
        sent: 0,
        errors: 0,
        last: 0,
    };

    // Counts one more datagram that was accepted at this reading in ms.
    fn counted(&mut self, now: u64)
        ensures { self.new ≡ counted self.old now }
    {
        self.accepted = self.accepted.saturating_add(1);
        self.last = now / 1000;
    }

    // Counts one more message that was sent or failed to be sent.
    fn tried(&mut self, ok: bool)
        ensures { self.new ≡ tried self.old ok }
    {
        if ok {
            self.sent = self.sent.saturating_add(1);
        } else {
            self.errors = self.errors.saturating_add(1);
        }
    }
}

impl Common {
    /// Returns the counters before any event.
    pub(crate) fn nothing_counted() -> Common
        ensures { result ≡ nothing_counted }
    {
        Common {
            drops: [0; 8],
            members: [Counters::NONE; MEMBERS],
            next_job: 1,
        }
    }

    /// Raises the number of the next job by one. After the greatest number it is 1.
    pub(crate) fn count_start(&mut self)
        ensures { self.new ≡ count_start self.old }
    {
        self.next_job = if self.next_job == u64::MAX {
            1
        } else {
            self.next_job + 1
        };
    }

    /// Counts one more datagram that was dropped for this fault.
    pub(crate) fn count_drop(&mut self, fault: DropFault)
        ensures { self.new ≡ count_drop self.old fault }
    {
        let place = place_of(fault);
        self.drops[place] = self.drops[place].saturating_add(1);
    }

    /// Returns the counters of the member with this index.
    pub(crate) fn counters_at(&self, place: usize) -> Counters
        ensures { result ≡ counters_at self.now place }
    {
        self.members.get(place).copied().unwrap_or(Counters::NONE)
    }

    /// Counts one more accepted datagram of the member with this index, received at this reading in ms.
    pub(crate) fn count_accepted(&mut self, place: usize, now: u64)
        ensures { self.new ≡ with_counters self.old place (counted (counters_at self.old place) now) }
    {
        if place < MEMBERS {
            self.members[place].counted(now);
        }
    }

    /// Counts one more send, with this success. A reply to a client changes no counter.
    pub(crate) fn count_send(&mut self, to: To, ok: bool)
        ensures { self.new ≡ count_send self.old to ok }
    {
        let To::Member(place) = to else {
            return;
        };
        if (place as usize) < MEMBERS {
            self.members[place as usize].tried(ok);
        }
    }
}
