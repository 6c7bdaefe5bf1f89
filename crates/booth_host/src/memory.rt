//! A host in memory, which runs a script and records its calls.
ghost use Rattle.std.specs.Prelude.{◌≡◌, ◌≤◌, [], ◌∷◌, ◌++◌, Some, None, IfOk, OnOk, OnErr, IsSome, MatchResult, false, true, not, is_err, length, option_map, if◌then◌else◌};
ghost use Rattle.booth_host.specs.Past.{GrewBy};
ghost use Rattle.booth_host.specs.Causes.{Rose, HasCause, HasReadCause};
ghost use Rattle.booth_host.specs.declared.entry.Entry.{Entry};

use crate::told::push;
use crate::{Arrival, Datagram, Entry, Failed, Host, Job, Place, ReadFault, Told};
use booth_base::{ByteText, Name, PathText, Peer};
use booth_rec::Record;
use std::alloc::{AllocError, Global};

/// The input of one turn: the arrival, the reading of the clock, and which of its calls fail.
#[derive(Drop)]
pub struct Step {
    pub arrival: Result<Arrival, Failed>,
    /// The bytes of the datagram that arrives.
    pub bytes: ByteText,
    /// Milliseconds since 1970.
    pub reading: u64,
    pub fail_send: bool,
    pub fail_keep: bool,
    pub fail_start: bool,
    pub fail_out: bool,
}

/// The script of a host in memory. Each `next` begins the next step; after the last it returns `Stop`.
#[derive(Drop)]
pub struct Script {
    /// The reading of the clock before the first step.
    pub first: u64,
    pub steps: Vec<Step>,
    /// Whether another process has the lock of each file.
    pub taken: bool,
    pub fail_open: bool,
    pub fail_lock: bool,
    pub fail_kept: bool,
    pub fail_err: bool,
    /// Whether a send before the first step fails.
    pub fail_send: bool,
    /// Whether a write to standard output before the first step fails.
    pub fail_out: bool,
}

/// The files of a host in memory, by their paths.
pub type Files = Vec<(PathText, ByteText)>;

/// The records of a host in memory, by their tickets' names.
pub type Records = Vec<(Name, Record)>;

/// A host in memory. It records its calls as long as there is room for entries, and nothing from then on.
#[derive(Drop)]
pub struct MemoryHost {
    pub(crate) told: Told,
    script: Script,
    files: Files,
    records: Records,
    begun: usize,
    faults: u64,
}

impl MemoryHost {
    ghost use Rattle.booth_host.specs.Memory.{memory_past, running, coming, to_come, file_of, IsBrought, IsNew, Stays, StaysButRecords, Begins, SaysTheSame, taken_in};
    ghost use Rattle.booth_host.specs.Records.{records_of, place_of, record_of, stored, kept_after, FindsNoPlace, KeepsOrIsFull};

    /// Returns a host that runs this script, has these files and records, and records at most `room` calls.
    pub fn new(
        alloc: Global,
        script: Script,
        files: Files,
        records: Records,
        room: u32,
    ) -> Result<MemoryHost, AllocError>
        ensures { IfOk result (λ host. IsNew host script files.items records.items room) }
    {
        Ok(MemoryHost {
            told: Told::new(alloc, room),
            script,
            files,
            records,
            begun: 0,
            faults: 0,
        })
    }

    /// Returns the calls so far, the oldest first, or none if the host no longer records them.
    pub fn past(&self) -> Option<&[Entry]>
        ensures { option_map (λ entries. entries.now) result ≡ memory_past self.now }
    {
        self.told.entries()
    }

    /// Returns the records.
    pub fn records(&self) -> &[(Name, Record)]
        ensures { result.now ≡ records_of self.now }
    {
        &self.records
    }

    /// Adds a step after the others. If the memory has run out, nothing changes.
    pub fn add(&mut self, step: Step) -> Result<(), AllocError>
        ensures ok { OnOk result (self.new.script.steps.items ≡ self.old.script.steps.items ++ step ∷ []) }
        ensures err { OnErr result (self.new.script.steps.items ≡ self.old.script.steps.items) }
        ensures script { SaysTheSame self.old.script self.new.script }
        ensures begun { self.new.begun ≡ self.old.begun }
        ensures files { self.new.files ≡ self.old.files }
        ensures records { self.new.records ≡ self.old.records }
        ensures room { self.new.told.room ≡ self.old.told.room }
        ensures past { memory_past self.new ≡ memory_past self.old }
        ensures faults { self.new.faults ≡ self.old.faults }
    {
        push(&mut self.script.steps, step)
    }

    /// Drops the calls so far, and the steps that have run. The current step stays, so later calls have the same
    /// answers as without this call.
    pub fn forget(&mut self)
        ensures past { memory_past self.new ≡ option_map (λ _. []) (memory_past self.old) }
        ensures running { running self.new ≡ running self.old }
        ensures to_come { to_come self.new ≡ to_come self.old }
        ensures begun { self.new.begun ≤ 1 }
        ensures script { SaysTheSame self.old.script self.new.script }
        ensures files { self.new.files ≡ self.old.files }
        ensures records { self.new.records ≡ self.old.records }
        ensures room { self.new.told.room ≡ self.old.told.room }
        ensures faults { self.new.faults ≡ self.old.faults }
    {
        self.told.clear();
        let run = self.begun.saturating_sub(1).min(self.script.steps.len());
        drop(self.script.steps.drain(..run));
        self.begun = self.begun.min(1);
    }

    // Counts a failure.
    fn fail(&mut self)
        ensures past { memory_past self.new ≡ memory_past self.old }
        ensures rose { Rose self.old.faults self.new.faults }
        ensures later { self.old.faults ≤ self.new.faults }
        ensures stays { Stays self.old self.new }
    {
        self.faults = self.faults.saturating_add(1);
    }

    // Fails if the script marks this call as failing.
    fn fail_if(&mut self, fails: bool) -> Result<(), Failed>
        ensures past { memory_past self.new ≡ memory_past self.old }
        ensures cause { HasCause self.old.faults self.new.faults result }
        ensures exact { is_err result ≡ fails }
        ensures stays { Stays self.old self.new }
    {
        if fails {
            self.fail();
            return Err(Failed);
        }
        Ok(())
    }

    // Begins the next step.
    pub(crate) fn begin(&mut self, into: &mut Datagram) -> Result<Arrival, Failed>
        ensures past { memory_past self.new ≡ memory_past self.old }
        ensures cause { HasCause self.old.faults self.new.faults result }
        ensures brought { IsBrought (coming self.old) result into.new }
        ensures begins { Begins self.old self.new }
    {
        let Some(step) = self.script.steps.get(self.begun) else {
            into.set(&[]);
            return Ok(Arrival::Stop);
        };
        into.set(step.bytes.bytes());
        let answer = step.arrival;
        self.begun = self.begun.saturating_add(1);
        if answer.is_err() {
            self.fail();
        }
        answer
    }

    // Returns the step that runs.
    fn step(&self) -> Option<&Step>
        ensures { option_map (λ step. step.now) result ≡ running self.now }
    {
        if self.begun == 0 {
            return None;
        }
        self.script.steps.get(self.begun - 1)
    }

    // Returns the place of a ticket's record, if there is one.
    fn place(&self, ticket: &Name) -> Option<usize>
        ensures { result ≡ place_of (records_of self.now) ticket.now }
    {
        self.records.iter().position(|(name, _)| name == ticket)
    }

    // Returns the record of a ticket.
    pub(crate) fn record(&self, ticket: &Name) -> Option<Record>
        ensures { result ≡ record_of (records_of self.now) ticket.now }
    {
        let place = self.place(ticket)?;
        let (_, record) = self.records.get(place)?;
        Some(*record)
    }

    // Stores a record, in place of the one before.
    pub(crate) fn store(&mut self, ticket: &Name, rec: &Record) -> Result<(), AllocError>
        ensures ok { OnOk result (records_of self.new ≡ stored (records_of self.old) ticket.now rec.now) }
        ensures err { OnErr result (FindsNoPlace self.old self.new ticket.now) }
        ensures past { memory_past self.new ≡ memory_past self.old }
        ensures faults { self.new.faults ≡ self.old.faults }
        ensures stays { StaysButRecords self.old self.new }
    {
        match self.place(ticket) {
            Some(place) => {
                self.records[place] = (ticket.copy(), *rec);
                Ok(())
            }
            None => push(&mut self.records, (ticket.copy(), *rec)),
        }
    }

    // Stores a record, or stops the recording of calls if there is no memory for it.
    pub(crate) fn put(&mut self, ticket: &Name, rec: &Record)
        ensures past { GrewBy (memory_past self.old) (memory_past self.new) [] }
        ensures faults { self.new.faults ≡ self.old.faults }
        ensures records { IsSome (memory_past self.new) →
            records_of self.new ≡ stored (records_of self.old) ticket.now rec.now }
        ensures untold { KeepsOrIsFull (Ok tt) self.old self.new ticket.now rec.now }
        ensures stays { StaysButRecords self.old self.new }
    {
        if self.store(ticket, rec).is_err() {
            self.told.end();
        }
    }

    // Stores a record if its write does not fail.
    fn put_if_ok(&mut self, answer: Result<(), Failed>, ticket: &Name, rec: &Record)
        ensures past { GrewBy (memory_past self.old) (memory_past self.new) [] }
        ensures faults { self.new.faults ≡ self.old.faults }
        ensures records { IsSome (memory_past self.new) →
            records_of self.new ≡ kept_after answer (records_of self.old) ticket.now rec.now }
        ensures untold { KeepsOrIsFull answer self.old self.new ticket.now rec.now }
        ensures stays { StaysButRecords self.old self.new }
    {
        match answer {
            Ok(()) => self.put(ticket, rec),
            Err(Failed) => {}
        }
    }

    // Returns whether another process has each lock.
    pub(crate) fn is_taken(&self) -> bool
        ensures { result ≡ taken_in self.now }
    {
        self.script.taken
    }

    // Returns the text of the file at this path.
    pub(crate) fn file(&self, path: &str) -> Option<&ByteText>
        ensures { option_map (λ text. text.now) result ≡ file_of self.now path.now }
    {
        let (_, text) = self.files.iter().find(|(name, _)| name.as_str() == path)?;
        Some(text)
    }
}

impl Host for MemoryHost {
    ghost use Rattle.booth_host.specs.Memory.{memory_past, reading_of, sends_fail, keeps_fail, starts_fail, outs_fail, coming, file_of, IsBrought, Stays, StaysButRecords, Begins, ReadsFile, taken_in};
    ghost use Rattle.booth_host.specs.Records.{records_of, record_of, kept_after, KeepsOrIsFull};

    ghost past = { memory_past };

    ghost faults = { λ host. host.faults };

    fn open(&mut self, place: &Place) -> Result<(), Failed>
        ensures past { GrewBy (memory_past self.old) (memory_past self.new)
            (Entry.Open place.now.local place.now.port place.now.records place.now.conf_path result ∷ []) }
        ensures cause { HasCause self.old.faults self.new.faults result }
        ensures fails { is_err result ≡ self.old.script.fail_open }
        ensures stays { Stays self.old self.new }
    {
        let answer = self.fail_if(self.script.fail_open);
        self.told.open(place, answer);
        answer
    }

    fn next(&mut self, wait_ms: u64, into: &mut Datagram) -> Result<Arrival, Failed>
        ensures past { GrewBy (memory_past self.old) (memory_past self.new)
            (Entry.Next wait_ms result into.new ∷ []) }
        ensures cause { HasCause self.old.faults self.new.faults result }
        ensures brought { IsBrought (coming self.old) result into.new }
        ensures begins { Begins self.old self.new }
    {
        let answer = self.begin(into);
        self.told.next(wait_ms, answer, into.bytes());
        answer
    }

    fn now(&mut self) -> u64
        ensures past { GrewBy (memory_past self.old) (memory_past self.new) (Entry.Now result ∷ []) }
        ensures later { self.old.faults ≤ self.new.faults }
        ensures reading { result ≡ reading_of self.old }
        ensures stays { Stays self.old self.new }
    {
        let reading = match self.step() {
            Some(step) => step.reading,
            None => self.script.first,
        };
        self.told.now(reading);
        reading
    }

    fn send(&mut self, to: &Peer, bytes: &[u8]) -> Result<(), Failed>
        ensures past { GrewBy (memory_past self.old) (memory_past self.new)
            (Entry.Send to.now bytes.now result ∷ []) }
        ensures cause { HasCause self.old.faults self.new.faults result }
        ensures fails { is_err result ≡ sends_fail self.old }
        ensures stays { Stays self.old self.new }
    {
        let fails = match self.step() {
            Some(step) => step.fail_send,
            None => self.script.fail_send,
        };
        let answer = self.fail_if(fails);
        self.told.send(to, bytes, answer);
        answer
    }

    fn kept(&mut self, ticket: &Name) -> Result<Option<Record>, Failed>
        ensures past { GrewBy (memory_past self.old) (memory_past self.new)
            (Entry.Kept ticket.now result ∷ []) }
        ensures cause { HasCause self.old.faults self.new.faults result }
        ensures answer { MatchResult result
            (λ found. (self.old.script.fail_kept ≡ false) × (found ≡ record_of (records_of self.old) ticket.now))
            (λ _. self.old.script.fail_kept ≡ true) }
        ensures stays { Stays self.old self.new }
    {
        let answer = match self.fail_if(self.script.fail_kept) {
            Ok(()) => Ok(self.record(ticket)),
            Err(Failed) => Err(Failed),
        };
        self.told.kept(ticket, answer);
        answer
    }

    #[tactic(auto, using(crate::proofs::PastLemmas::one_behind_none))]
    fn keep(&mut self, ticket: &Name, rec: &Record) -> Result<(), Failed>
        ensures past { GrewBy (memory_past self.old) (memory_past self.new)
            (Entry.Keep ticket.now rec.now result ∷ []) }
        ensures cause { HasCause self.old.faults self.new.faults result }
        ensures fails { is_err result ≡ keeps_fail self.old }
        ensures records { IsSome (memory_past self.new) →
            records_of self.new ≡ kept_after result (records_of self.old) ticket.now rec.now }
        ensures untold { KeepsOrIsFull result self.old self.new ticket.now rec.now }
        ensures stays { StaysButRecords self.old self.new }
    {
        let fails = match self.step() {
            Some(step) => step.fail_keep,
            None => false,
        };
        let answer = self.fail_if(fails);
        self.put_if_ok(answer, ticket, rec);
        self.told.keep(ticket, rec, answer);
        answer
    }

    fn start(&mut self, job: &Job) -> Result<(), Failed>
        ensures past { GrewBy (memory_past self.old) (memory_past self.new)
            (Entry.Start job.now.number job.now.ticket job.now.handler job.now.local job.now.expires result ∷ []) }
        ensures cause { HasCause self.old.faults self.new.faults result }
        ensures fails { is_err result ≡ starts_fail self.old }
        ensures stays { Stays self.old self.new }
    {
        let fails = match self.step() {
            Some(step) => step.fail_start,
            None => false,
        };
        let answer = self.fail_if(fails);
        self.told.start(job, answer);
        answer
    }

    fn read_file(&mut self, alloc: Global, path: &str) -> Result<ByteText, ReadFault>
        ensures past { GrewBy (memory_past self.old) (memory_past self.new)
            (Entry.ReadFile path.now result ∷ []) }
        ensures cause { HasReadCause self.old.faults self.new.faults result }
        ensures file { ReadsFile (file_of self.old path.now) result }
        ensures stays { Stays self.old self.new }
    {
        let answer = match self.file(path) {
            Some(text) => match ByteText::new(alloc, text.bytes()) {
                Ok(text) => Ok(text),
                Err(_) => Err(ReadFault::NoMemory),
            },
            None => {
                self.fail();
                Err(ReadFault::Failed)
            }
        };
        self.told.read_file(path, &answer);
        answer
    }

    fn lock(&mut self, path: &str) -> Result<bool, Failed>
        ensures past { GrewBy (memory_past self.old) (memory_past self.new)
            (Entry.Lock path.now result ∷ []) }
        ensures cause { HasCause self.old.faults self.new.faults result }
        ensures answer { MatchResult result
            (λ held. (self.old.script.fail_lock ≡ false) × (held ≡ not (taken_in self.old)))
            (λ _. self.old.script.fail_lock ≡ true) }
        ensures stays { Stays self.old self.new }
    {
        let taken = self.is_taken();
        let answer = match self.fail_if(self.script.fail_lock) {
            Ok(()) => Ok(!taken),
            Err(Failed) => Err(Failed),
        };
        self.told.lock(path, answer);
        answer
    }

    fn out(&mut self, bytes: &[u8]) -> Result<(), Failed>
        ensures past { GrewBy (memory_past self.old) (memory_past self.new)
            (Entry.Out bytes.now result ∷ []) }
        ensures cause { HasCause self.old.faults self.new.faults result }
        ensures fails { is_err result ≡ outs_fail self.old }
        ensures stays { Stays self.old self.new }
    {
        let fails = match self.step() {
            Some(step) => step.fail_out,
            None => self.script.fail_out,
        };
        let answer = self.fail_if(fails);
        self.told.out(bytes, answer);
        answer
    }

    fn err(&mut self, bytes: &[u8]) -> Result<(), Failed>
        ensures past { GrewBy (memory_past self.old) (memory_past self.new)
            (Entry.Err bytes.now result ∷ []) }
        ensures cause { HasCause self.old.faults self.new.faults result }
        ensures fails { is_err result ≡ self.old.script.fail_err }
        ensures stays { Stays self.old self.new }
    {
        let answer = self.fail_if(self.script.fail_err);
        self.told.err(bytes, answer);
        answer
    }
}
