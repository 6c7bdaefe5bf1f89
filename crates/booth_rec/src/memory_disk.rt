//! A disk in memory. It stores the calls that changed it, so that a crash may leave all that the trait allows.
ghost use Rattle.std.specs.Prelude.{refl, ◌≡◌, ◌⊎◌, ◌↔◌, ◌+◌, ◌-◌, ◌<◌, ◌≤◌, ◌++◌, ◌^◌, [], ◌∷◌, length, take, drop, min, max, true, nat_lt, IsTrue, IsOk, IsErr, IfOk, OnOk, OnErr, vec_len, vec_capacity};
ghost use Rattle.booth_rec.specs.Spelling.{zeros};
ghost use Rattle.booth_rec.specs.Disk.{IsRead, IsWritten, SameOutside, NoMore, Follows, Only, Elapses, HasCause, Rose};
ghost use Rattle.booth_rec.specs.Calls.{IsWriteOf, overwritten, seen_after, MayLeave, MightHaveLeft};

use crate::{Disk, DiskFault};
use std::alloc::{AllocError, Global};

/// The most bytes that one call writes.
const WRITE_BYTES: usize = 128;

/// The least number of bytes for which there is room.
const ROOM: usize = 4096;

/// A call that changed the disk.
#[derive(Clone, Copy)]
enum Call {
    /// These bytes were written at this place.
    Write {
        at: usize,
        bytes: [u8; WRITE_BYTES],
        len: usize,
    },
    Sync,
}

/// A disk in memory, whose calls succeed up to a given number and fail after that.
#[derive(Drop)]
pub struct MemoryDisk {
    /// What a read returns.
    bytes: Vec<u8>,
    /// What it began with.
    first: Vec<u8>,
    /// The calls that changed it, the oldest first.
    calls: Vec<Call>,
    /// How many bytes it has room for.
    room: usize,
    passes: u64,
    made: u64,
    faults: u64,
    ghost same: { bytes.items ≡ seen_after first.items calls.items },
    ghost wide: { vec_len bytes ≤ room },
    ghost roomy: { room ≤ vec_capacity bytes },
    ghost few: { length calls.items ≤ made },
    ghost enough: { passes ≤ vec_capacity calls },
}

// Returns the call of a write.
fn write_call(at: usize, bytes: &[u8]) -> Call
    requires { length bytes.now ≤ 128 }
    ensures { IsWriteOf at bytes.now result }
{
    let len = bytes.len();
    let mut kept = [0u8; WRITE_BYTES];
    kept[..len].copy_from_slice(bytes);
    Call::Write {
        at,
        bytes: kept,
        len,
    }
}

// Appends zeros to a list that is shorter than this.
#[tactic(auto, unfolding(crate::specs::Spelling::zeros))]
fn reach(list: &mut Vec<u8>, end: usize)
    requires { end ≤ vec_capacity list.old }
    ensures items { list.new.items ≡ list.old.items ++ zeros (end - length list.old.items) }
    ensures len { vec_len list.new ≡ max (vec_len list.old) end }
    ensures capacity { vec_capacity list.old ≤ vec_capacity list.new }
{
    if list.len() < end {
        list.resize(end, 0).unwrap();
    }
}

// Puts these bytes at a place within a list.
fn put_within(list: &mut [u8], at: usize, bytes: &[u8])
    requires { at + length bytes.now ≤ length list.old }
    ensures after { list.new ≡ take at list.old ++ bytes.now ++ drop (at + length bytes.now) list.old }
    ensures len { length list.new ≡ length list.old }
{
    list[at..at + bytes.len()].copy_from_slice(bytes);
}

// Writes these bytes at the offset `at`. If the list is shorter than that, fills it with zeros up to the offset.
fn overwrite(list: &mut Vec<u8>, at: usize, bytes: &[u8])
    requires { at + length bytes.now ≤ vec_capacity list.old }
    ensures items { list.new.items ≡ overwritten at bytes.now list.old.items }
    ensures len { vec_len list.new ≡ max (vec_len list.old) (at + length bytes.now) }
    ensures capacity { vec_capacity list.old ≤ vec_capacity list.new }
{
    reach(list, at + bytes.len());
    put_within(list, at, bytes);
}

// Copies the bytes from a place on, as many as fit, and returns how many.
fn give(bytes: &[u8], at: usize, into: &mut [u8]) -> usize
    ensures { IsRead bytes.now at result into.old into.new }
{
    if at >= bytes.len() {
        return 0;
    }
    let count = into.len().min(bytes.len() - at);
    into[..count].copy_from_slice(&bytes[at..at + count]);
    count
}

impl MemoryDisk {
    ghost use Rattle.booth_rec.specs.MemoryDisk.{memory_seen, IsNew, Keeps, HasRoom};

    /// Returns a disk with these bytes, all of them on the disk. It allocates all its memory now: for 4,096 bytes, or
    /// for these if they are more, and for all calls that succeed, each with up to 128 written bytes.
    pub fn new(alloc: Global, bytes: &[u8], passes: u64) -> Result<MemoryDisk, AllocError>
        ensures { IfOk result (λ disk. IsNew disk bytes.now passes (length bytes.now)) }
    {
        let Ok(most) = usize::try_from(passes) else {
            return Err(AllocError);
        };
        let room = bytes.len().max(ROOM);
        let mut seen = Vec::with_capacity(alloc, room)?;
        seen.extend_from_slice(bytes)?;
        Ok(MemoryDisk {
            bytes: seen,
            first: Vec::from_slice(alloc, bytes)?,
            calls: Vec::with_capacity(alloc, most)?,
            room,
            passes,
            made: 0,
            faults: 0,
        })
    }

    /// Returns all bytes that a read returns.
    pub fn bytes(&self) -> &[u8]
        ensures { result.now ≡ memory_seen self.now }
    {
        &self.bytes
    }

    // Counts a call, and returns whether it succeeds.
    fn passes(&mut self) -> bool
        ensures answer { result ≡ nat_lt self.old.made self.old.passes }
        ensures made { self.new.made ≡ min (self.old.made + 1) (2 ^ 64 - 1) }
        ensures keeps { Keeps self.old self.new }
        ensures faults { self.new.faults ≡ self.old.faults }
    {
        let passes = self.made < self.passes;
        self.made = self.made.saturating_add(1);
        passes
    }

    // Counts a failure.
    fn fail(&mut self) -> DiskFault
        ensures made { self.new.made ≡ self.old.made }
        ensures keeps { Keeps self.old self.new }
        ensures rose { Rose self.old.faults self.new.faults }
        ensures later { self.old.faults ≤ self.new.faults }
    {
        self.faults = self.faults.saturating_add(1);
        DiskFault
    }

    // Returns whether a write of this many bytes at this place ends within the room.
    fn has_room(&self, at: u64, len: usize) -> bool
        ensures { IsTrue result ↔ HasRoom self.now at len }
    {
        len <= WRITE_BYTES && len <= self.room && at <= (self.room - len) as u64
    }
}

impl Disk for MemoryDisk {
    ghost use Rattle.booth_rec.specs.CallLaws.{leaves_seen, now_counts, now_alone};
    ghost use Rattle.booth_rec.specs.MemoryDisk.{memory_seen, memory_may_leave, Passes, IsOver, FailsToWrite, Counts};

    ghost tells = { λ _. true };

    ghost seen = { memory_seen };

    ghost may_leave = { memory_may_leave };

    ghost moment = { λ disk. length disk.calls.items };

    ghost left_since = { λ disk. MightHaveLeft disk.first.items disk.calls.items };

    ghost faults = { λ disk. disk.faults };

    ghost may_leave_seen = { λ disk.
        leaves_seen disk.first.items (λ c. c ≡ disk.first.items) disk.calls.items refl };

    ghost counts_now = { λ disk. now_counts disk.first.items disk.calls.items };

    ghost only_now = { λ disk. now_alone disk.first.items disk.calls.items };

    fn read(&mut self, at: u64, into: &mut [u8]) -> Result<usize, DiskFault>
        ensures given { IfOk result (λ count. IsRead (memory_seen self.old) at count into.old into.new) }
        ensures same { memory_seen self.new ≡ memory_seen self.old }
        ensures crash { NoMore (memory_may_leave self.old) (memory_may_leave self.new) }
        ensures time { Passes self.old self.new }
        ensures cause { HasCause self.old.faults self.new.faults result }
        ensures fails { IsErr result ↔ IsOver self.old }
        ensures counts { Counts self.old self.new }
    {
        if !self.passes() {
            return Err(self.fail());
        }
        Ok(give(&self.bytes, at as usize, into))
    }

    fn write_at(&mut self, at: u64, bytes: &[u8]) -> Result<(), DiskFault>
        ensures written { OnOk result (IsWritten at bytes.now (memory_seen self.old) (memory_seen self.new)) }
        ensures crash { Follows (SameOutside at (length bytes.now))
            (memory_may_leave self.old) (memory_may_leave self.new) }
        ensures time { Passes self.old self.new }
        ensures cause { HasCause self.old.faults self.new.faults result }
        ensures fails { IsErr result ↔ FailsToWrite self.old at (length bytes.now) }
        ensures same { OnErr result (memory_seen self.new ≡ memory_seen self.old) }
        ensures counts { Counts self.old self.new }
    {
        let has_room = self.has_room(at, bytes.len());
        if !self.passes() || !has_room {
            return Err(self.fail());
        }
        overwrite(&mut self.bytes, at as usize, bytes);
        self.calls.push_reserved(write_call(at as usize, bytes));
        Ok(())
    }

    fn sync(&mut self) -> Result<(), DiskFault>
        ensures durable { OnOk result (Only (memory_seen self.new) (memory_may_leave self.new)) }
        ensures same { memory_seen self.new ≡ memory_seen self.old }
        ensures crash { NoMore (memory_may_leave self.old) (memory_may_leave self.new) }
        ensures time { Passes self.old self.new }
        ensures cause { HasCause self.old.faults self.new.faults result }
        ensures fails { IsErr result ↔ IsOver self.old }
        ensures counts { Counts self.old self.new }
    {
        if !self.passes() {
            return Err(self.fail());
        }
        self.calls.push_reserved(Call::Sync);
        Ok(())
    }
}
