//! A host in memory whose calls for one record, one peer or one file fail.
use booth_base::{ByteText, Name, PathText, Peer};
use booth_host::{Arrival, Datagram, Failed, Host, Job, MemoryHost, Place, ReadFault};
use booth_host_rows::{name_of, path, peer};
use booth_rec::Record;
use booth_rows::Words;
use std::alloc::Global;

/// The failures of a host in addition to those in its script.
#[derive(Drop)]
pub(crate) struct Hindrances {
    /// The ticket whose record cannot be read.
    pub(crate) ticket: Option<Name>,
    /// The peer that nothing can be sent to.
    pub(crate) peer: Option<Peer>,
    /// The path of the file that there is no memory for.
    pub(crate) path: Option<PathText>,
}

impl Hindrances {
    /// Returns no further failure.
    pub(crate) fn none() -> Hindrances {
        Hindrances {
            ticket: None,
            peer: None,
            path: None,
        }
    }

    /// Sets what fails of one record, one peer or one file.
    pub(crate) fn take(&mut self, words: &mut Words<'_>) {
        match words.word() {
            "ticket" => self.ticket = Some(name_of(words)),
            "peer" => self.peer = Some(peer(words)),
            "path" => self.path = path(words),
            _ => words.refuse(),
        }
    }
}

/// A host in memory with more failures. Its count of faults stands at its end.
#[derive(Drop)]
pub(crate) struct Hindered {
    pub(crate) host: MemoryHost,
    pub(crate) hindrances: Hindrances,
    /// How many turns were begun.
    pub(crate) turns: u64,
}

impl Host for Hindered {
    ghost use Rattle.std.specs.Prelude.{None, ◌-◌, ◌^◌};

    ghost past = { λ _. None };

    ghost faults = { λ _. 2 ^ 64 - 1 };

    fn open(&mut self, place: &Place) -> Result<(), Failed> {
        self.host.open(place)
    }

    fn next(&mut self, wait_ms: u64, into: &mut Datagram) -> Result<Arrival, Failed> {
        self.turns = self.turns.saturating_add(1);
        self.host.next(wait_ms, into)
    }

    fn now(&mut self) -> u64 {
        self.host.now()
    }

    fn send(&mut self, to: &Peer, bytes: &[u8]) -> Result<(), Failed> {
        if self.hindrances.peer == Some(*to) {
            return Err(Failed);
        }
        self.host.send(to, bytes)
    }

    fn kept(&mut self, ticket: &Name) -> Result<Option<Record>, Failed> {
        let answer = self.host.kept(ticket);
        match &self.hindrances.ticket {
            Some(name) if name == ticket => Err(Failed),
            _ => answer,
        }
    }

    fn keep(&mut self, ticket: &Name, rec: &Record) -> Result<(), Failed> {
        self.host.keep(ticket, rec)
    }

    fn start(&mut self, job: &Job) -> Result<(), Failed> {
        self.host.start(job)
    }

    fn read_file(&mut self, alloc: Global, path: &str) -> Result<ByteText, ReadFault> {
        match &self.hindrances.path {
            Some(name) if name.as_str() == path => Err(ReadFault::NoMemory),
            _ => self.host.read_file(alloc, path),
        }
    }

    fn lock(&mut self, path: &str) -> Result<bool, Failed> {
        self.host.lock(path)
    }

    fn out(&mut self, bytes: &[u8]) -> Result<(), Failed> {
        self.host.out(bytes)
    }

    fn err(&mut self, bytes: &[u8]) -> Result<(), Failed> {
        self.host.err(bytes)
    }
}
