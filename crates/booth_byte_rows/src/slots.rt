//! A record file on a disk in memory.
use crate::told::{fault, shown, spelled};
use booth_rec::{Lease, MemoryDisk, OpenFault, Record, Slots};
use booth_rows::{Answer, Player, Words};
use std::alloc::Global;

/// The calls that an open makes.
const CALLS_OF_OPEN: u64 = 2;

/// Plays lines about a record file: the last one that was opened.
#[derive(Drop)]
pub(crate) struct RecordFile {
    slots: Option<Slots<MemoryDisk>>,
}

// Opens the file with these bytes. On failure it appends why, and the bytes of the disk.
fn opened(
    alloc: Global,
    passes: u64,
    bytes: &[u8],
    answer: &mut Answer,
) -> Option<Slots<MemoryDisk>> {
    let Ok(disk) = MemoryDisk::new(alloc, bytes, passes) else {
        answer.tear();
        return None;
    };
    match Slots::open(disk) {
        Ok(slots) => return Some(slots),
        Err(OpenFault::Disk(disk)) => spelled(answer, "failed", disk.bytes()),
        Err(OpenFault::Torn(disk)) => spelled(answer, "torn", disk.bytes()),
    }
    None
}

// Reads a record: its version, its term, and the term and the end of its lease, or `-` for none.
fn record(words: &mut Words<'_>) -> Record {
    let (version, term) = (words.number(), words.number());
    let lease = if words.is_none() {
        None
    } else {
        Some(Lease {
            term: words.number(),
            until: words.long(),
        })
    };
    Record {
        version,
        ..Record::plain(term, lease)
    }
}

// Appends what the file holds, the bytes of its disk, and what a new open reads from them.
fn tell(alloc: Global, slots: &Slots<MemoryDisk>, answer: &mut Answer) {
    shown(answer, "holds", &slots.record());
    spelled(answer, "bytes", slots.disk().bytes());
    if let Some(again) = opened(alloc, CALLS_OF_OPEN, slots.disk().bytes(), answer) {
        shown(answer, "reads", &again.record());
    }
}

// `put RECORD`
fn put(slots: &mut Slots<MemoryDisk>, words: &mut Words<'_>, answer: &mut Answer) {
    if let Err(found) = slots.put(&record(words)) {
        fault(answer, &found);
    }
}

// `prepare`
fn prepare(slots: &mut Slots<MemoryDisk>, answer: &mut Answer) {
    if let Err(found) = slots.prepare() {
        fault(answer, &found);
    }
}

// `reopen`
fn reopen(slots: &mut Slots<MemoryDisk>, answer: &mut Answer) {
    if let Err(found) = slots.reopen() {
        fault(answer, &found);
    }
}

impl RecordFile {
    /// Returns a player that has no file yet.
    pub(crate) fn new() -> RecordFile {
        RecordFile { slots: None }
    }

    // `open PASSES BYTES`: a disk with these bytes, of which this many calls succeed.
    fn open(&mut self, words: &mut Words<'_>, answer: &mut Answer) {
        let passes = words.long();
        self.slots = opened(words.alloc(), passes, &words.bytes(), answer);
        if let Some(slots) = &self.slots {
            tell(words.alloc(), slots, answer);
        }
    }

    fn change(&mut self, call: &str, words: &mut Words<'_>, answer: &mut Answer) {
        let Some(slots) = &mut self.slots else {
            return words.refuse();
        };
        match call {
            "put" => put(slots, words, answer),
            "prepare" => prepare(slots, answer),
            "reopen" => reopen(slots, answer),
            _ => words.refuse(),
        }
        tell(words.alloc(), slots, answer);
    }
}

impl Player for RecordFile {
    fn play(&mut self, words: &mut Words<'_>, answer: &mut Answer) {
        match words.word() {
            "open" => self.open(words, answer),
            call => self.change(call, words, answer),
        }
    }
}
