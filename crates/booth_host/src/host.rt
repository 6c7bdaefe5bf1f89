//! The trait of all devices (the environment). Each call adds its entry to the past, and each failure has a cause.
ghost use Rattle.std.specs.Prelude.{◌≡◌, ◌≤◌, List, [], ◌∷◌, ℕ, Result, Option};
ghost use Rattle.booth_host.specs.declared.entry.Entry.{Entry};
ghost use Rattle.booth_host.specs.Past.{GrewBy};
ghost use Rattle.booth_host.specs.Causes.{HasCause, HasReadCause};

use crate::{Datagram, Entry};
use booth_base::{Address, ByteText, Name, PathText, Peer};
use booth_rec::Record;
use std::alloc::Global;
use thiserror::Error;

/// A device failed.
#[derive(Clone, Copy, Debug, PartialEq, Eq, Drop, Error)]
#[error("a device failed")]
pub struct Failed;

/// Why a file could not be read.
#[derive(Clone, Copy, Debug, PartialEq, Eq, Drop, Error)]
pub enum ReadFault {
    #[error("the file could not be read")]
    Failed,
    #[error("there is no memory for the file")]
    NoMemory,
}

/// What arrived while the program waited.
#[derive(Clone, Copy, PartialEq, Eq)]
pub enum Arrival {
    /// A datagram from this peer.
    Datagram(Peer),
    /// The handler with this job number ended with this status.
    Handler { job: u64, status: i32 },
    /// Nothing arrived in the given time.
    Quiet,
    /// The environment asks for the end.
    Stop,
}

/// The address at which a host listens, and the paths of its files.
#[derive(Drop)]
pub struct Place {
    /// The address to listen at, or none for any.
    pub local: Option<Address>,
    /// The UDP port to listen at, or 0 for any.
    pub port: u16,
    /// The directory of the records.
    pub records: PathText,
    /// The file of the configuration.
    pub conf_path: PathText,
}

/// The run of a ticket's handler.
#[derive(Drop)]
pub struct Job {
    /// The number under which its result is reported.
    pub number: u64,
    pub ticket: Name,
    /// The path of the handler, or of a directory with several programs, and its arguments, between blanks.
    pub handler: PathText,
    /// The address of this member.
    pub local: Address,
    /// When the ticket's lease ends, in seconds since 1970, or 0 if it has none.
    pub expires: u64,
}

/// All devices of a program.
///
/// A host that records its calls after a call recorded them before it, and the call added its one entry. A call
/// returns `Failed` only if the count of faults rose.
pub trait Host {
    /// All calls so far, the oldest first, if the host records them.
    ghost past: { Self → Option (List Entry) };

    /// How often a device has failed. It never falls, and stays at the greatest u64.
    ghost faults: { Self → ℕ };

    /// Starts to listen at this place.
    fn open(&mut self, place: &Place) -> Result<(), Failed>
        ensures past { GrewBy (past self.old) (past self.new)
            (Entry.Open place.now.local place.now.port place.now.records place.now.conf_path result ∷ []) }
        ensures cause { HasCause (faults self.old) (faults self.new) result };

    /// Waits for at most this many milliseconds, and puts the bytes of a datagram into `into`.
    fn next(&mut self, wait_ms: u64, into: &mut Datagram) -> Result<Arrival, Failed>
        ensures past { GrewBy (past self.old) (past self.new) (Entry.Next wait_ms result into.new ∷ []) }
        ensures cause { HasCause (faults self.old) (faults self.new) result };

    /// Reads the clock: milliseconds since 1970.
    fn now(&mut self) -> u64
        ensures past { GrewBy (past self.old) (past self.new) (Entry.Now result ∷ []) }
        ensures later { faults self.old ≤ faults self.new };

    /// Passes a datagram to the network. It may never arrive.
    fn send(&mut self, to: &Peer, bytes: &[u8]) -> Result<(), Failed>
        ensures past { GrewBy (past self.old) (past self.new) (Entry.Send to.now bytes.now result ∷ []) }
        ensures cause { HasCause (faults self.old) (faults self.new) result };

    /// Reads the record of this ticket, if there is one.
    fn kept(&mut self, ticket: &Name) -> Result<Option<Record>, Failed>
        ensures past { GrewBy (past self.old) (past self.new) (Entry.Kept ticket.now result ∷ []) }
        ensures cause { HasCause (faults self.old) (faults self.new) result };

    /// Writes this record of this ticket to disk. If that fails, the record before or this one may be on the disk.
    fn keep(&mut self, ticket: &Name, rec: &Record) -> Result<(), Failed>
        ensures past { GrewBy (past self.old) (past self.new) (Entry.Keep ticket.now rec.now result ∷ []) }
        ensures cause { HasCause (faults self.old) (faults self.new) result };

    /// Starts the handler of a job. A later arrival has its exit status.
    fn start(&mut self, job: &Job) -> Result<(), Failed>
        ensures past { GrewBy (past self.old) (past self.new)
            (Entry.Start job.now.number job.now.ticket job.now.handler job.now.local job.now.expires result ∷ []) }
        ensures cause { HasCause (faults self.old) (faults self.new) result };

    /// Reads the bytes of a file.
    fn read_file(&mut self, alloc: Global, path: &str) -> Result<ByteText, ReadFault>
        ensures past { GrewBy (past self.old) (past self.new) (Entry.ReadFile path.now result ∷ []) }
        ensures cause { HasReadCause (faults self.old) (faults self.new) result };

    /// Takes the lock of a file, and returns true if this host has it now, and false if another process has it.
    fn lock(&mut self, path: &str) -> Result<bool, Failed>
        ensures past { GrewBy (past self.old) (past self.new) (Entry.Lock path.now result ∷ []) }
        ensures cause { HasCause (faults self.old) (faults self.new) result };

    /// Writes to standard output.
    fn out(&mut self, bytes: &[u8]) -> Result<(), Failed>
        ensures past { GrewBy (past self.old) (past self.new) (Entry.Out bytes.now result ∷ []) }
        ensures cause { HasCause (faults self.old) (faults self.new) result };

    /// Writes to standard error.
    fn err(&mut self, bytes: &[u8]) -> Result<(), Failed>
        ensures past { GrewBy (past self.old) (past self.new) (Entry.Err bytes.now result ∷ []) }
        ensures cause { HasCause (faults self.old) (faults self.new) result };
}
