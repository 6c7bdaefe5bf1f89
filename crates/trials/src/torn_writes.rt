//! Reads what torn writes leave of a record file: each byte string with one different byte in each place that a step
//! of a put writes, and with two in each second place, opened over a disk in memory. It prints how many were read,
//! and fails at the first that is neither record.
use booth_rec::{MemoryDisk, Record, Slots};
use std::alloc::Global;

const FILE_BYTES: usize = 336;

/// Where the slot begins to which the put goes, the first of version 2.
const SLOT: usize = 128;

/// Where its number begins, and where its record ends.
const ENTRY: std::ops::Range<usize> = 136..208;

/// An open reads once and syncs once.
const CALLS: u64 = 2;

/// The term of the record before the put.
const OLD: u32 = 6;

/// The term of the record of the put.
const NEW: u32 = 7;

type File = [u8; FILE_BYTES];

/// The version of the slot that the record before the put stands in.
#[derive(Clone, Copy)]
enum Before {
    First,
    Second,
}

// A file whose first slot of version 2 has this commit byte, number and term, and whose open slot has number 2.
fn file(before: Before, commit: u8, number: u8, term: u8) -> File {
    let mut bytes = [0u8; FILE_BYTES];
    bytes[SLOT] = commit;
    bytes[SLOT + 15] = number;
    bytes[SLOT + 19] = 2;
    bytes[SLOT + 23] = term;
    match before {
        Before::First => {
            bytes[0] = 1;
            bytes[15] = 2;
            bytes[19] = 1;
            bytes[23] = OLD as u8;
        }
        Before::Second => {
            bytes[256] = 1;
            bytes[271] = 2;
            bytes[275] = 2;
            bytes[279] = OLD as u8;
        }
    }
    bytes
}

// The record before the put.
fn old_record(before: Before) -> Record {
    match before {
        Before::First => Record::first(OLD, None),
        Before::Second => Record::plain(OLD, None),
    }
}

// Returns whether the file is opened, and stands for this record.
fn stands_for(alloc: Global, bytes: &File, record: Record) -> bool {
    let Ok(disk) = MemoryDisk::new(alloc, bytes, CALLS) else {
        return false;
    };
    match Slots::open(disk) {
        Ok(slots) => slots.record() == Some(record),
        Err(_) => false,
    }
}

// Closes the slot: it had a record with the number before, and stands for nothing, whatever the byte is.
fn closing(alloc: Global, before: Before) -> Option<u32> {
    let mut bytes = file(before, 1, 1, 5);
    let mut count = 0u32;
    for byte in 0..=255u8 {
        bytes[SLOT] = byte;
        if !stands_for(alloc, &bytes, old_record(before)) {
            return None;
        }
        count = count.saturating_add(1);
    }
    Some(count)
}

// Writes one byte of the number or the record, in a closed slot.
fn filling_one(alloc: Global, before: Before) -> Option<u32> {
    let mut count = 0u32;
    for place in ENTRY.start..ENTRY.end {
        let mut bytes = file(before, 0, 1, 5);
        for byte in 0..=255u8 {
            bytes[place] = byte;
            if !stands_for(alloc, &bytes, old_record(before)) {
                return None;
            }
            count = count.saturating_add(1);
        }
    }
    Some(count)
}

// Writes two bytes of them, next to each other, at each second place.
fn filling_two(alloc: Global, before: Before) -> Option<u32> {
    let mut count = 0u32;
    for pair in 0..(ENTRY.end - ENTRY.start) / 2 {
        let place = ENTRY.start + 2 * pair;
        let mut bytes = file(before, 0, 1, 5);
        for both in 0..=65_535u16 {
            let [first, second] = both.to_be_bytes();
            bytes[place] = first;
            bytes[place + 1] = second;
            if !stands_for(alloc, &bytes, old_record(before)) {
                return None;
            }
            count = count.saturating_add(1);
        }
    }
    Some(count)
}

// Opens the slot, with the new record in it: it counts by one byte alone.
fn committing(alloc: Global, before: Before) -> Option<u32> {
    let mut bytes = file(before, 0, 3, 7);
    let mut count = 0u32;
    for byte in 0..=255u8 {
        bytes[SLOT] = byte;
        let record = if byte == 1 {
            Record::plain(NEW, None)
        } else {
            old_record(before)
        };
        if !stands_for(alloc, &bytes, record) {
            return None;
        }
        count = count.saturating_add(1);
    }
    Some(count)
}

// Prints how many files of a step were read, or that one left another record. Returns whether none did.
fn print_step(rt: &impl Print, step: &str, count: Option<u32>) -> bool {
    match count {
        Some(count) => rt.println(format_args!("{step}: {count} files")).is_ok(),
        None => {
            let _ = rt.println(format_args!("{step}: another record"));
            false
        }
    }
}

/// Prints how many files of each step were read, up to the first step that left another record. Returns whether none
/// did.
pub fn print_torn_writes(rt: &HostRuntime) -> bool {
    let alloc = rt.alloc();
    let (first, second) = (Before::First, Before::Second);
    print_step(rt, "closing, after version 1", closing(alloc, first))
        && print_step(rt, "closing, after version 2", closing(alloc, second))
        && print_step(
            rt,
            "filling, one byte, after version 1",
            filling_one(alloc, first),
        )
        && print_step(
            rt,
            "filling, one byte, after version 2",
            filling_one(alloc, second),
        )
        && print_step(
            rt,
            "filling, two bytes, after version 2",
            filling_two(alloc, second),
        )
        && print_step(rt, "committing, after version 1", committing(alloc, first))
        && print_step(rt, "committing, after version 2", committing(alloc, second))
}
