//! The host of a client that remembers the last answer: its member, and the holder that it names.
ghost use Rattle.std.specs.Prelude.{None};

use booth_base::{Address, ByteText, MemberId, NO_ONE, Name, Peer};
use booth_host::{Arrival, Datagram, Failed, Host, Job, Place, ReadFault};
use booth_rec::Record;
use booth_wire::{Body, decode};
use std::alloc::Global;

/// The last answer.
#[derive(Clone, Copy)]
pub struct Heard {
    pub member: Address,
    /// The holder in it, or `NO_ONE`.
    pub holder: MemberId,
    /// How many seconds of the holder's lease are left.
    pub seconds: u32,
}

/// A host that remembers the last answer. It does not record its calls.
///
/// A client ends with the first datagram that it accepts, so that one is the last of its run.
#[derive(Drop)]
pub struct HearingHost<H> {
    host: H,
    last: Option<Heard>,
}

// Returns the content of a datagram from this member.
fn heard_of(member: &Peer, bytes: &[u8]) -> Heard {
    let mut holder = NO_ONE;
    let mut seconds = 0;
    if let Ok(message) = &decode(bytes) {
        if let Body::Ticket(part) = &message.body {
            holder = part.leader;
            seconds = part.valid_for;
        }
    }
    Heard {
        member: member.address,
        holder,
        seconds,
    }
}

impl<H: Host> HearingHost<H> {
    /// Returns this host, before any answer.
    pub fn new(host: H) -> HearingHost<H> {
        HearingHost { host, last: None }
    }

    /// Returns the last answer.
    pub fn last(&self) -> Option<Heard> {
        self.last
    }

    /// Returns the host inside.
    pub fn inner(&self) -> &H {
        &self.host
    }
}

impl<H: Host> Host for HearingHost<H> {
    ghost past = { λ _. None };

    ghost faults = { λ host. H.faults host.host };

    fn open(&mut self, place: &Place) -> Result<(), Failed> {
        self.host.open(place)
    }

    fn next(&mut self, wait_ms: u64, into: &mut Datagram) -> Result<Arrival, Failed> {
        let answer = self.host.next(wait_ms, into);
        if let Ok(Arrival::Datagram(member)) = &answer {
            self.last = Some(heard_of(member, into.bytes()));
        }
        answer
    }

    fn now(&mut self) -> u64 {
        self.host.now()
    }

    fn send(&mut self, to: &Peer, bytes: &[u8]) -> Result<(), Failed> {
        self.host.send(to, bytes)
    }

    fn kept(&mut self, ticket: &Name) -> Result<Option<Record>, Failed> {
        self.host.kept(ticket)
    }

    fn keep(&mut self, ticket: &Name, rec: &Record) -> Result<(), Failed> {
        self.host.keep(ticket, rec)
    }

    fn start(&mut self, job: &Job) -> Result<(), Failed> {
        self.host.start(job)
    }

    fn read_file(&mut self, alloc: Global, path: &str) -> Result<ByteText, ReadFault> {
        self.host.read_file(alloc, path)
    }

    fn lock(&mut self, path: &str) -> Result<bool, Failed> {
        self.host.lock(path)
    }

    fn out(&mut self, bytes: &[u8]) -> Result<(), Failed> {
        self.host.out(bytes)
    }

    fn err(&mut self, bytes: &[u8]) -> Result<(), Failed> {
        self.host.err(bytes)
    }
}
