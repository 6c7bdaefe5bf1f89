//! A host in memory that never fails.
ghost use Rattle.std.specs.Prelude.{◌≡◌, ◌≤◌, [], ◌∷◌, ◌++◌, Ok, IfOk, OnOk, OnErr, IsSome, not, option_map};
ghost use Rattle.booth_host.specs.Past.{GrewBy};
ghost use Rattle.booth_host.specs.Causes.{HasCause, HasReadCause};
ghost use Rattle.booth_host.specs.declared.entry.Entry.{Entry};

use crate::{
    Arrival, Datagram, Entry, Failed, Files, Host, Job, MemoryHost, Place, ReadFault, Records,
    Script, Step,
};
use booth_base::{ByteText, Name, Peer};
use booth_rec::Record;
use std::alloc::{AllocError, Global};

/// A host in memory without failures: its count of faults stays 0, a failing step gives Quiet, and a missing file is
/// empty.
#[derive(Drop)]
pub struct QuietHost {
    host: MemoryHost,
}

impl QuietHost {
    ghost use Rattle.booth_host.specs.Memory.{quiet_past, running, to_come, IsNew, SaysTheSame};
    ghost use Rattle.booth_host.specs.Records.{records_of};

    /// Returns a host that runs this script without its failures.
    pub fn new(
        alloc: Global,
        script: Script,
        files: Files,
        records: Records,
        room: u32,
    ) -> Result<QuietHost, AllocError>
        ensures { IfOk result (λ host. IsNew host.host script files.items records.items room) }
    {
        Ok(QuietHost {
            host: MemoryHost::new(alloc, script, files, records, room)?,
        })
    }

    /// Returns the calls so far, if they are recorded.
    pub fn past(&self) -> Option<&[Entry]>
        ensures { option_map (λ entries. entries.now) result ≡ quiet_past self.now }
    {
        self.host.past()
    }

    /// Returns the records.
    pub fn records(&self) -> &[(Name, Record)]
        ensures { result.now ≡ records_of self.now.host }
    {
        self.host.records()
    }

    /// Adds a step after the others. If the memory has run out, nothing changes.
    pub fn add(&mut self, step: Step) -> Result<(), AllocError>
        ensures ok { OnOk result
            (self.new.host.script.steps.items ≡ self.old.host.script.steps.items ++ step ∷ []) }
        ensures err { OnErr result
            (self.new.host.script.steps.items ≡ self.old.host.script.steps.items) }
        ensures script { SaysTheSame self.old.host.script self.new.host.script }
        ensures begun { self.new.host.begun ≡ self.old.host.begun }
        ensures files { self.new.host.files ≡ self.old.host.files }
        ensures records { self.new.host.records ≡ self.old.host.records }
        ensures room { self.new.host.told.room ≡ self.old.host.told.room }
        ensures past { quiet_past self.new ≡ quiet_past self.old }
    {
        self.host.add(step)
    }

    /// Drops the calls so far, and the steps that are over. The current step stays, so later calls have the same
    /// answers as without this call.
    pub fn forget(&mut self)
        ensures past { quiet_past self.new ≡ option_map (λ _. []) (quiet_past self.old) }
        ensures running { running self.new.host ≡ running self.old.host }
        ensures to_come { to_come self.new.host ≡ to_come self.old.host }
        ensures begun { self.new.host.begun ≤ 1 }
        ensures script { SaysTheSame self.old.host.script self.new.host.script }
        ensures files { self.new.host.files ≡ self.old.host.files }
        ensures records { self.new.host.records ≡ self.old.host.records }
        ensures room { self.new.host.told.room ≡ self.old.host.told.room }
    {
        self.host.forget();
    }
}

impl Host for QuietHost {
    ghost use Rattle.booth_host.specs.Memory.{quiet_past, reading_of, coming, file_of, IsQuietlyBrought, Stays, StaysButRecords, Begins, ReadsQuietly, taken_in};
    ghost use Rattle.booth_host.specs.Records.{records_of, record_of, stored, KeepsOrIsFull};

    ghost past = { quiet_past };

    ghost faults = { λ _. 0 };

    fn open(&mut self, place: &Place) -> Result<(), Failed>
        ensures past { GrewBy (quiet_past self.old) (quiet_past self.new)
            (Entry.Open place.now.local place.now.port place.now.records place.now.conf_path result ∷ []) }
        ensures cause { HasCause 0 0 result }
        ensures stays { Stays self.old.host self.new.host }
    {
        self.host.told.open(place, Ok(()));
        Ok(())
    }

    fn next(&mut self, wait_ms: u64, into: &mut Datagram) -> Result<Arrival, Failed>
        ensures past { GrewBy (quiet_past self.old) (quiet_past self.new)
            (Entry.Next wait_ms result into.new ∷ []) }
        ensures cause { HasCause 0 0 result }
        ensures brought { IsQuietlyBrought (coming self.old.host) result into.new }
        ensures begins { Begins self.old.host self.new.host }
    {
        let answer = match self.host.begin(into) {
            Ok(arrival) => Ok(arrival),
            Err(Failed) => Ok(Arrival::Quiet),
        };
        self.host.told.next(wait_ms, answer, into.bytes());
        answer
    }

    fn now(&mut self) -> u64
        ensures past { GrewBy (quiet_past self.old) (quiet_past self.new) (Entry.Now result ∷ []) }
        ensures reading { result ≡ reading_of self.old.host }
        ensures stays { Stays self.old.host self.new.host }
    {
        self.host.now()
    }

    fn send(&mut self, to: &Peer, bytes: &[u8]) -> Result<(), Failed>
        ensures past { GrewBy (quiet_past self.old) (quiet_past self.new)
            (Entry.Send to.now bytes.now result ∷ []) }
        ensures cause { HasCause 0 0 result }
        ensures stays { Stays self.old.host self.new.host }
    {
        self.host.told.send(to, bytes, Ok(()));
        Ok(())
    }

    fn kept(&mut self, ticket: &Name) -> Result<Option<Record>, Failed>
        ensures past { GrewBy (quiet_past self.old) (quiet_past self.new)
            (Entry.Kept ticket.now result ∷ []) }
        ensures cause { HasCause 0 0 result }
        ensures answer { result ≡ Ok (record_of (records_of self.old.host) ticket.now) }
        ensures stays { Stays self.old.host self.new.host }
    {
        let answer = Ok(self.host.record(ticket));
        self.host.told.kept(ticket, answer);
        answer
    }

    #[tactic(auto, using(crate::proofs::PastLemmas::one_behind_none))]
    fn keep(&mut self, ticket: &Name, rec: &Record) -> Result<(), Failed>
        ensures past { GrewBy (quiet_past self.old) (quiet_past self.new)
            (Entry.Keep ticket.now rec.now result ∷ []) }
        ensures cause { HasCause 0 0 result }
        ensures records { IsSome (quiet_past self.new) →
            records_of self.new.host ≡ stored (records_of self.old.host) ticket.now rec.now }
        ensures stays { StaysButRecords self.old.host self.new.host }
    {
        self.host.put(ticket, rec);
        self.host.told.keep(ticket, rec, Ok(()));
        Ok(())
    }

    fn start(&mut self, job: &Job) -> Result<(), Failed>
        ensures past { GrewBy (quiet_past self.old) (quiet_past self.new)
            (Entry.Start job.now.number job.now.ticket job.now.handler job.now.local job.now.expires result ∷ []) }
        ensures cause { HasCause 0 0 result }
        ensures stays { Stays self.old.host self.new.host }
    {
        self.host.told.start(job, Ok(()));
        Ok(())
    }

    fn read_file(&mut self, alloc: Global, path: &str) -> Result<ByteText, ReadFault>
        ensures past { GrewBy (quiet_past self.old) (quiet_past self.new)
            (Entry.ReadFile path.now result ∷ []) }
        ensures cause { HasReadCause 0 0 result }
        ensures file { ReadsQuietly (file_of self.old.host path.now) result }
        ensures stays { Stays self.old.host self.new.host }
    {
        let copy = match self.host.file(path) {
            Some(text) => ByteText::new(alloc, text.bytes()),
            None => ByteText::new(alloc, &[]),
        };
        let answer = match copy {
            Ok(text) => Ok(text),
            Err(_) => Err(ReadFault::NoMemory),
        };
        self.host.told.read_file(path, &answer);
        answer
    }

    fn lock(&mut self, path: &str) -> Result<bool, Failed>
        ensures past { GrewBy (quiet_past self.old) (quiet_past self.new)
            (Entry.Lock path.now result ∷ []) }
        ensures cause { HasCause 0 0 result }
        ensures answer { result ≡ Ok (not (taken_in self.old.host)) }
        ensures stays { Stays self.old.host self.new.host }
    {
        let answer = Ok(!self.host.is_taken());
        self.host.told.lock(path, answer);
        answer
    }

    fn out(&mut self, bytes: &[u8]) -> Result<(), Failed>
        ensures past { GrewBy (quiet_past self.old) (quiet_past self.new)
            (Entry.Out bytes.now result ∷ []) }
        ensures cause { HasCause 0 0 result }
        ensures stays { Stays self.old.host self.new.host }
    {
        self.host.told.out(bytes, Ok(()));
        Ok(())
    }

    fn err(&mut self, bytes: &[u8]) -> Result<(), Failed>
        ensures past { GrewBy (quiet_past self.old) (quiet_past self.new)
            (Entry.Err bytes.now result ∷ []) }
        ensures cause { HasCause 0 0 result }
        ensures stays { Stays self.old.host self.new.host }
    {
        self.host.told.err(bytes, Ok(()));
        Ok(())
    }
}
