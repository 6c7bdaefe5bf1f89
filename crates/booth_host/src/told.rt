//! The record of a host's calls, as long as there is room and memory for entries.
ghost use Rattle.std.specs.Prelude.{◌≡◌, ◌≤◌, [], ◌∷◌, ◌++◌, Some, None, IfOk, OnErr, OnOk, length, option_map, vec_capacity, vec_len};
ghost use Rattle.booth_host.specs.Past.{GrewBy};
ghost use Rattle.booth_host.specs.declared.entry.Entry.{Entry};

use crate::entry::{
    err_entry, keep_entry, kept_entry, lock_entry, next_entry, open_entry, out_entry,
    read_file_entry, send_entry, start_entry,
};
use crate::{Arrival, Entry, Failed, Job, Place, ReadFault};
use booth_base::{ByteText, Name, Peer};
use booth_rec::Record;
use std::alloc::{AllocError, Global};

/// The calls of a host so far. If there is no room or no memory for one, nothing is recorded from then on. Without
/// room no call allocates memory.
#[derive(Drop)]
pub struct Told {
    alloc: Global,
    room: u32,
    entries: Vec<Entry>,
    tells: bool,
    ghost few: { length entries.items ≤ room },
}

// Appends this, unless the memory has run out.
pub(crate) fn push<T: Drop>(list: &mut Vec<T>, last: T) -> Result<(), AllocError>
    ensures ok { OnOk result (list.new.items ≡ list.old.items ++ last ∷ []) }
    ensures err { OnErr result (list.new.items ≡ list.old.items) }
    ensures full { OnErr result (vec_capacity list.old ≤ vec_len list.old) }
{
    match list.push(last) {
        Ok(()) => Ok(()),
        Err(_) => Err(AllocError),
    }
}

impl Told {
    ghost use Rattle.booth_host.specs.Told.{told_past};

    /// Returns an empty record with room for this many calls.
    pub fn new(alloc: Global, room: u32) -> Told
        ensures past { told_past result ≡ Some [] }
        ensures room { result.room ≡ room }
    {
        Told {
            alloc,
            room,
            entries: Vec::new(alloc),
            tells: true,
        }
    }

    /// Returns the calls so far, the oldest first, or none if they are no longer recorded.
    pub fn entries(&self) -> Option<&[Entry]>
        ensures { option_map (λ entries. entries.now) result ≡ told_past self.now }
    {
        if self.tells {
            Some(&self.entries)
        } else {
            None
        }
    }

    /// Drops the calls so far.
    pub fn clear(&mut self)
        ensures past { told_past self.new ≡ option_map (λ _. []) (told_past self.old) }
        ensures room { self.new.room ≡ self.old.room }
    {
        self.entries.clear();
    }

    /// Stops the recording.
    pub fn end(&mut self)
        ensures past { told_past self.new ≡ None }
        ensures room { self.new.room ≡ self.old.room }
    {
        self.tells = false;
    }

    // Returns whether there is room for one more call.
    fn has_room(&self) -> bool {
        self.tells && self.entries.len() < self.room as usize
    }

    // Records this entry, or stops the recording.
    fn note(&mut self, entry: Result<Entry, AllocError>)
        ensures told { IfOk entry (λ entry. GrewBy (told_past self.old) (told_past self.new) (entry ∷ [])) }
        ensures untold { OnErr entry (told_past self.new ≡ None) }
        ensures room { self.new.room ≡ self.old.room }
    {
        let Ok(entry) = entry else {
            self.end();
            return;
        };
        if self.entries.len() >= self.room as usize || push(&mut self.entries, entry).is_err() {
            self.end();
        }
    }

    /// Records an `open` at this place.
    pub fn open(&mut self, place: &Place, answer: Result<(), Failed>)
        ensures past { GrewBy (told_past self.old) (told_past self.new)
            (Entry.Open place.now.local place.now.port place.now.records place.now.conf_path answer ∷ []) }
        ensures room { self.new.room ≡ self.old.room }
    {
        if !self.has_room() {
            self.end();
            return;
        }
        let entry = open_entry(self.alloc, place, answer);
        self.note(entry);
    }

    /// Records a `next` that waited this long and left these bytes.
    pub fn next(&mut self, wait_ms: u64, answer: Result<Arrival, Failed>, bytes: &[u8])
        ensures past { GrewBy (told_past self.old) (told_past self.new) (Entry.Next wait_ms answer bytes.now ∷ []) }
        ensures room { self.new.room ≡ self.old.room }
    {
        if !self.has_room() {
            self.end();
            return;
        }
        let entry = next_entry(self.alloc, wait_ms, answer, bytes);
        self.note(entry);
    }

    /// Records a reading of the clock.
    pub fn now(&mut self, reading: u64)
        ensures past { GrewBy (told_past self.old) (told_past self.new) (Entry.Now reading ∷ []) }
        ensures room { self.new.room ≡ self.old.room }
    {
        if !self.has_room() {
            self.end();
            return;
        }
        self.note(Ok(Entry::Now { reading }));
    }

    /// Records a `send` of these bytes.
    pub fn send(&mut self, to: &Peer, bytes: &[u8], answer: Result<(), Failed>)
        ensures past { GrewBy (told_past self.old) (told_past self.new) (Entry.Send to.now bytes.now answer ∷ []) }
        ensures room { self.new.room ≡ self.old.room }
    {
        if !self.has_room() {
            self.end();
            return;
        }
        let entry = send_entry(self.alloc, to, bytes, answer);
        self.note(entry);
    }

    /// Records a `kept` of this ticket.
    pub fn kept(&mut self, ticket: &Name, answer: Result<Option<Record>, Failed>)
        ensures past { GrewBy (told_past self.old) (told_past self.new) (Entry.Kept ticket.now answer ∷ []) }
        ensures room { self.new.room ≡ self.old.room }
    {
        if !self.has_room() {
            self.end();
            return;
        }
        let entry = kept_entry(self.alloc, ticket, answer);
        self.note(entry);
    }

    /// Records a `keep` of this ticket's record.
    pub fn keep(&mut self, ticket: &Name, rec: &Record, answer: Result<(), Failed>)
        ensures past { GrewBy (told_past self.old) (told_past self.new) (Entry.Keep ticket.now rec.now answer ∷ []) }
        ensures room { self.new.room ≡ self.old.room }
    {
        if !self.has_room() {
            self.end();
            return;
        }
        let entry = keep_entry(self.alloc, ticket, rec, answer);
        self.note(entry);
    }

    /// Records a `start` of this job's handler.
    pub fn start(&mut self, job: &Job, answer: Result<(), Failed>)
        ensures past { GrewBy (told_past self.old) (told_past self.new)
            (Entry.Start job.now.number job.now.ticket job.now.handler job.now.local job.now.expires answer ∷ []) }
        ensures room { self.new.room ≡ self.old.room }
    {
        if !self.has_room() {
            self.end();
            return;
        }
        let entry = start_entry(self.alloc, job, answer);
        self.note(entry);
    }

    /// Records a `read_file` of this path.
    pub fn read_file(&mut self, path: &str, answer: &Result<ByteText, ReadFault>)
        ensures past { GrewBy (told_past self.old) (told_past self.new) (Entry.ReadFile path.now answer.now ∷ []) }
        ensures room { self.new.room ≡ self.old.room }
    {
        if !self.has_room() {
            self.end();
            return;
        }
        let entry = read_file_entry(self.alloc, path, answer);
        self.note(entry);
    }

    /// Records a `lock` of this path.
    pub fn lock(&mut self, path: &str, answer: Result<bool, Failed>)
        ensures past { GrewBy (told_past self.old) (told_past self.new) (Entry.Lock path.now answer ∷ []) }
        ensures room { self.new.room ≡ self.old.room }
    {
        if !self.has_room() {
            self.end();
            return;
        }
        let entry = lock_entry(self.alloc, path, answer);
        self.note(entry);
    }

    /// Records an `out` of these bytes.
    pub fn out(&mut self, bytes: &[u8], answer: Result<(), Failed>)
        ensures past { GrewBy (told_past self.old) (told_past self.new) (Entry.Out bytes.now answer ∷ []) }
        ensures room { self.new.room ≡ self.old.room }
    {
        if !self.has_room() {
            self.end();
            return;
        }
        let entry = out_entry(self.alloc, bytes, answer);
        self.note(entry);
    }

    /// Records an `err` of these bytes.
    pub fn err(&mut self, bytes: &[u8], answer: Result<(), Failed>)
        ensures past { GrewBy (told_past self.old) (told_past self.new) (Entry.Err bytes.now answer ∷ []) }
        ensures room { self.new.room ≡ self.old.room }
    {
        if !self.has_room() {
            self.end();
            return;
        }
        let entry = err_entry(self.alloc, bytes, answer);
        self.note(entry);
    }
}
