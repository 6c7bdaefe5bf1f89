//! The store of a record file: one of its slots is in force, and a new record goes into another, of version 2.
ghost use Rattle.std.specs.Prelude.{◌≡◌, ◌+◌, ◌≤◌, ◌∷◌, [], List, length, true, false, Some, None, Option, IfOk, OnOk, IfErr, OnErr, IsErrOf, ◌↔◌, ℕ};
ghost use Rattle.booth_rec.specs.Record.{is_second, as_second};
ghost use Rattle.booth_rec.specs.Spelling.{FitsTypes, zeros};
ghost use Rattle.booth_rec.specs.Disk.{IsWritten, SameOutside, NoMore, Only, LeavesOnly, Rose, HasCause};
ghost use Rattle.booth_rec.specs.RecordFile.{stands_for, IsWhole};
ghost use Rattle.booth_rec.specs.Holding.{place_of, spare_of, record_of, number_of, open_of, IsHolding};
ghost use Rattle.booth_rec.specs.Slots.{ReadsAlike, next_number, StandsFor, IsOldOrNew, IsSettled, Blames, entry, Closes, Closing, after, closed_after};
ghost use Rattle.booth_rec.specs.declared.slots.PutFault.{PutFault};
ghost use Rattle.booth_rec.specs.declared.slots.ReopenFault.{ReopenFault};

use crate::record_file::{
    BODY_AT, FILE_BYTES, Half, Held, Holding, NUMBER_AT, OPEN, Standing, holding_in,
};
use crate::spelling::SECOND_BYTES;
use crate::{Disk, DiskFault, Record};
use thiserror::Error;

/// How many bytes a number and a record have in a slot.
const ENTRY_BYTES: usize = BODY_AT - NUMBER_AT + SECOND_BYTES;

/// Why a record file was not opened; the disk is returned.
#[derive(Drop)]
pub enum OpenFault<D> {
    /// A call of the disk failed.
    Disk(D),
    /// An open slot has no record.
    Torn(D),
}

/// Why a record file was not opened again.
#[derive(Clone, Copy, Debug, PartialEq, Eq, Drop, Error)]
pub enum ReopenFault {
    #[error("the disk failed")]
    Disk,
    #[error("an open slot holds no record")]
    Torn,
}

/// Why a record was not put.
#[derive(Clone, Copy, Debug, PartialEq, Eq, Drop, Error)]
pub enum PutFault {
    #[error("a put failed, and the file was not opened again")]
    Again,
    #[error("the greatest number of a slot is used already")]
    Spent,
    #[error("the disk failed")]
    Disk,
}

/// An open record file: the record for which it stands, and the place of the next one.
#[derive(Drop)]
pub struct Slots<D: Disk> {
    disk: D,
    holding: Holding,
    /// Whether a put failed, and the file was not opened again since.
    has_failed: bool,
    ghost settled: { has_failed ≡ false → D.tells disk ≡ true →
        IsSettled (D.seen disk) (D.may_leave disk) holding },
}

// Writes these bytes, and syncs the disk.
fn write_through<D: Disk>(disk: &mut D, at: u64, bytes: &[u8]) -> Result<(), DiskFault>
    requires { D.tells disk.old ≡ true → Only (D.seen disk.old) (D.may_leave disk.old) }
    ensures tells { D.tells disk.new ≡ D.tells disk.old }
    ensures written { D.tells disk.old ≡ true →
        OnOk result (IsWritten at bytes.now (D.seen disk.old) (D.seen disk.new)) }
    ensures durable { D.tells disk.old ≡ true → OnOk result (Only (D.seen disk.new) (D.may_leave disk.new)) }
    ensures any_moment { D.tells disk.old ≡ true → LeavesOnly D.moment D.left_since disk.old disk.new
        (SameOutside at (length bytes.now) (D.seen disk.old)) }
    ensures cause { HasCause (D.faults disk.old) (D.faults disk.new) result }
{
    disk.write_at(at, bytes)?;
    disk.sync()
}

// Closes an open slot. A byte that reads as closed is not written: until the sync it may hold anything, and the bytes
// after it may be no record.
fn close<D: Disk>(disk: &mut D, half: Half, is_open: bool) -> Result<(), DiskFault>
    requires { D.tells disk.old ≡ true → Only (D.seen disk.old) (D.may_leave disk.old) }
    ensures tells { D.tells disk.new ≡ D.tells disk.old }
    ensures closed { D.tells disk.old ≡ true →
        OnOk result (Closes half is_open (D.seen disk.old) (D.seen disk.new)) }
    ensures durable { D.tells disk.old ≡ true → OnOk result (Only (D.seen disk.new) (D.may_leave disk.new)) }
    ensures any_moment { D.tells disk.old ≡ true → LeavesOnly D.moment D.left_since disk.old disk.new
        (Closing half is_open (D.seen disk.old)) }
    ensures cause { HasCause (D.faults disk.old) (D.faults disk.new) result }
{
    if is_open {
        write_through(disk, half.place() as u64, &[0])
    } else {
        Ok(())
    }
}

// Returns a number and a record, in the form of a slot.
fn entry_of(number: u64, rec: Record) -> [u8; ENTRY_BYTES]
    requires { is_second rec ≡ true }
    ensures bytes { result ≡ entry number rec }
    ensures fits { FitsTypes rec }
{
    let mut bytes = [0u8; ENTRY_BYTES];
    bytes[..8].copy_from_slice(&number.to_be_bytes());
    bytes[8..].copy_from_slice(&rec.encode());
    bytes
}

// Writes a number and a record into a closed slot.
fn fill<D: Disk>(disk: &mut D, half: Half, number: u64, rec: &Record) -> Result<(), DiskFault>
    requires second { is_second rec.now ≡ true }
    requires synced { D.tells disk.old ≡ true → Only (D.seen disk.old) (D.may_leave disk.old) }
    ensures tells { D.tells disk.new ≡ D.tells disk.old }
    ensures filled { D.tells disk.old ≡ true →
        OnOk result (IsWritten (place_of half + 8) (entry number rec.now) (D.seen disk.old) (D.seen disk.new)) }
    ensures durable { D.tells disk.old ≡ true → OnOk result (Only (D.seen disk.new) (D.may_leave disk.new)) }
    ensures any_moment { D.tells disk.old ≡ true → LeavesOnly D.moment D.left_since disk.old disk.new
        (SameOutside (place_of half + 8) 72 (D.seen disk.old)) }
    ensures fits { FitsTypes rec.now }
    ensures cause { HasCause (D.faults disk.old) (D.faults disk.new) result }
{
    let bytes = entry_of(number, *rec);
    write_through(disk, (half.place() + NUMBER_AT) as u64, &bytes)
}

// Opens a slot.
fn commit<D: Disk>(disk: &mut D, half: Half) -> Result<(), DiskFault>
    requires { D.tells disk.old ≡ true → Only (D.seen disk.old) (D.may_leave disk.old) }
    ensures tells { D.tells disk.new ≡ D.tells disk.old }
    ensures opened { D.tells disk.old ≡ true →
        OnOk result (IsWritten (place_of half) (1 ∷ []) (D.seen disk.old) (D.seen disk.new)) }
    ensures durable { D.tells disk.old ≡ true → OnOk result (Only (D.seen disk.new) (D.may_leave disk.new)) }
    ensures any_moment { D.tells disk.old ≡ true → LeavesOnly D.moment D.left_since disk.old disk.new
        (SameOutside (place_of half) 1 (D.seen disk.old)) }
    ensures cause { HasCause (D.faults disk.old) (D.faults disk.new) result }
{
    write_through(disk, half.place() as u64, &[OPEN])
}

// Puts a record into the slot that is not in force: closes the slot, fills it and opens it, and syncs each step before
// the next one begins.
fn store<D: Disk>(
    disk: &mut D,
    holding: &Holding,
    number: u64,
    rec: &Record,
) -> Result<(), DiskFault>
    requires settled { D.tells disk.old ≡ true → IsSettled (D.seen disk.old) (D.may_leave disk.old) holding.now }
    requires second { is_second rec.now ≡ true }
    requires next { next_number (number_of holding.now.standing) ≡ Some number }
    ensures tells { D.tells disk.new ≡ D.tells disk.old }
    ensures stored { D.tells disk.old ≡ true → OnOk result (IsSettled (D.seen disk.new) (D.may_leave disk.new)
        (after holding.now number rec.now)) }
    ensures any_moment { D.tells disk.old ≡ true → LeavesOnly D.moment D.left_since disk.old disk.new
        (IsOldOrNew (record_of holding.now.standing) rec.now) }
    ensures cause { HasCause (D.faults disk.old) (D.faults disk.new) result }
{
    let half = holding.spare();
    close(disk, half, holding.is_open(half))?;
    fill(disk, half, number, rec)?;
    commit(disk, half)
}

// Returns what is known about a file after a put.
fn holding_after(holding: &Holding, number: u64, rec: &Record) -> Holding
    ensures { result ≡ after holding.now number rec.now }
{
    let half = holding.spare();
    Holding {
        standing: Some(Standing {
            half: Some(half),
            held: Held { number, kept: *rec },
        }),
        first_is_open: holding.first_is_open || half == Half::First,
        second_is_open: holding.second_is_open || half == Half::Second,
    }
}

// Closes the slot of the next put.
fn close_spare<D: Disk>(disk: &mut D, holding: &Holding, number: u64) -> Result<(), DiskFault>
    requires settled { D.tells disk.old ≡ true → IsSettled (D.seen disk.old) (D.may_leave disk.old) holding.now }
    requires next { next_number (number_of holding.now.standing) ≡ Some number }
    ensures tells { D.tells disk.new ≡ D.tells disk.old }
    ensures closed { D.tells disk.old ≡ true → OnOk result (IsSettled (D.seen disk.new) (D.may_leave disk.new)
        (closed_after holding.now)) }
    ensures any_moment { D.tells disk.old ≡ true → LeavesOnly D.moment D.left_since disk.old disk.new
        (StandsFor (record_of holding.now.standing)) }
    ensures cause { HasCause (D.faults disk.old) (D.faults disk.new) result }
{
    let half = holding.spare();
    close(disk, half, holding.is_open(half))
}

// Returns what is known about a file after its spare slot was closed.
fn holding_closed(holding: &Holding) -> Holding
    ensures { result ≡ closed_after holding.now }
{
    let half = holding.spare();
    Holding {
        standing: holding.standing,
        first_is_open: holding.first_is_open && half != Half::First,
        second_is_open: holding.second_is_open && half != Half::Second,
    }
}

// Returns the bytes of a file before anything is read.
#[tactic(auto, unfolding(crate::specs::Spelling::zeros))]
fn blank() -> [u8; FILE_BYTES]
    ensures { result ≡ zeros 336 }
{
    [0; FILE_BYTES]
}

// Reads the bytes of all slots, after a sync: what an earlier process wrote may not be on the disk before that.
fn read_slots<D: Disk>(disk: &mut D) -> Result<[u8; FILE_BYTES], DiskFault>
    ensures tells { D.tells disk.new ≡ D.tells disk.old }
    ensures bytes { D.tells disk.old ≡ true → IfOk result (λ bytes. ReadsAlike bytes (D.seen disk.old)) }
    ensures same { D.tells disk.old ≡ true → OnOk result (D.seen disk.new ≡ D.seen disk.old) }
    ensures durable { D.tells disk.old ≡ true → OnOk result (Only (D.seen disk.new) (D.may_leave disk.new)) }
    ensures any_moment { D.tells disk.old ≡ true →
        LeavesOnly D.moment D.left_since disk.old disk.new (D.may_leave disk.old) }
    ensures crash { D.tells disk.old ≡ true → NoMore (D.may_leave disk.old) (D.may_leave disk.new) }
    ensures cause { HasCause (D.faults disk.old) (D.faults disk.new) result }
{
    let mut bytes = blank();
    disk.sync()?;
    disk.read(0, &mut bytes)?;
    Ok(bytes)
}

// Reads the content of a file.
fn look<D: Disk>(disk: &mut D) -> Result<Holding, ReopenFault>
    ensures tells { D.tells disk.new ≡ D.tells disk.old }
    ensures found { D.tells disk.old ≡ true → IfOk result (λ holding.
        (D.seen disk.new ≡ D.seen disk.old) × IsSettled (D.seen disk.new) (D.may_leave disk.new) holding) }
    ensures torn { D.tells disk.old ≡ true → IsErrOf result ReopenFault.Torn →
        (D.seen disk.new ≡ D.seen disk.old) × (IsWhole (D.seen disk.old) → ⊥) }
    ensures any_moment { D.tells disk.old ≡ true →
        LeavesOnly D.moment D.left_since disk.old disk.new (D.may_leave disk.old) }
    ensures crash { D.tells disk.old ≡ true → NoMore (D.may_leave disk.old) (D.may_leave disk.new) }
    ensures later { D.faults disk.old ≤ D.faults disk.new }
    ensures failed { IsErrOf result ReopenFault.Disk → Rose (D.faults disk.old) (D.faults disk.new) }
{
    let Ok(bytes) = read_slots(disk) else {
        return Err(ReopenFault::Disk);
    };
    match holding_in(&bytes) {
        Ok(holding) => Ok(holding),
        Err(_) => Err(ReopenFault::Torn),
    }
}

// Returns the number of the next record, or none if the last one was used.
fn number_after(standing: Option<Standing>) -> Option<u64>
    ensures { result ≡ next_number (number_of standing) }
{
    match standing {
        Some(standing) => standing.held.number.checked_add(1),
        None => Some(1),
    }
}

impl<D: Disk> Slots<D> {
    /// Opens a record file. A crash at any moment of the open leaves only what a crash before the open might have left.
    ///
    /// # Errors
    ///
    /// `Torn` if an open slot has no record; `Disk` if a call of the disk failed.
    pub fn open(disk: D) -> Result<Slots<D>, OpenFault<D>>
        ensures opened { IfOk result (λ slots. slots.has_failed ≡ false) }
        ensures stands { IfOk result (λ slots. D.tells disk ≡ true → (D.tells slots.disk ≡ true)
            × (D.seen slots.disk ≡ D.seen disk) × StandsFor (record_of slots.holding.standing) (D.seen disk)) }
        // Each fault has its cause: an open slot without a record, or a call of the disk that failed.
        ensures fault { IfErr result (λ fault. Blames fault
            (λ failed. Rose (D.faults disk) (D.faults failed))
            (λ torn. D.tells disk ≡ true → (D.seen torn ≡ D.seen disk) × (IsWhole (D.seen disk) → ⊥))) }
        ensures later { IfOk result (λ slots. D.faults disk ≤ D.faults slots.disk) }
        ensures any_moment { IfOk result (λ slots. D.tells disk ≡ true →
            LeavesOnly D.moment D.left_since disk slots.disk (D.may_leave disk)) }
        ensures handed_back { IfErr result (λ fault. Blames fault
            (λ back. D.tells disk ≡ true → LeavesOnly D.moment D.left_since disk back (D.may_leave disk))
            (λ back. D.tells disk ≡ true → LeavesOnly D.moment D.left_since disk back (D.may_leave disk))) }
    {
        let mut disk = disk;
        match look(&mut disk) {
            Ok(holding) => Ok(Slots {
                disk,
                holding,
                has_failed: false,
            }),
            Err(ReopenFault::Disk) => Err(OpenFault::Disk(disk)),
            Err(ReopenFault::Torn) => Err(OpenFault::Torn(disk)),
        }
    }

    /// Returns the record of the file, or none if no slot is open. After a failed put, and until the file is opened
    /// again, this is the record before that put.
    pub fn record(&self) -> Option<Record>
        ensures kept { result ≡ record_of self.now.holding.standing }
        ensures stands { self.now.has_failed ≡ false → D.tells self.now.disk ≡ true →
            result ≡ stands_for (D.seen self.now.disk) }
    {
        self.holding.standing.map(|standing| standing.held.kept)
    }

    /// Returns the disk of the file.
    pub fn disk(&self) -> &D
        ensures { result.now ≡ self.now.disk }
    {
        &self.disk
    }

    /// Replaces the record by this one, in version 2. After a crash at any moment of the call, the record of the file
    /// is the old one or the new one.
    pub fn put(&mut self, rec: &Record) -> Result<(), PutFault>
        // Which fault it is.
        ensures again { IsErrOf result PutFault.Again ↔ (self.old.has_failed ≡ true) }
        ensures spent { IsErrOf result PutFault.Spent ↔
            (self.old.has_failed ≡ false) × (next_number (number_of self.old.holding.standing) ≡ None) }
        ensures failed { IsErrOf result PutFault.Disk →
            (self.new.has_failed ≡ true) × Rose (D.faults self.old.disk) (D.faults self.new.disk) }
        ensures spared { IsErrOf result PutFault.Spent → self.new ≡ self.old }
        ensures unchanged { IsErrOf result PutFault.Again → self.new ≡ self.old }
        ensures later { D.faults self.old.disk ≤ D.faults self.new.disk }
        ensures tells { D.tells self.new.disk ≡ D.tells self.old.disk }
        // What the store states then.
        ensures kept { OnOk result ((self.new.has_failed ≡ false)
            × (record_of self.new.holding.standing ≡ Some (as_second rec.now))
            × (number_of self.new.holding.standing ≡ next_number (number_of self.old.holding.standing))) }
        ensures before { OnErr result (self.new.holding ≡ self.old.holding) }
        // What a crash leaves: within the call, and after it.
        ensures any_moment { self.old.has_failed ≡ false → D.tells self.old.disk ≡ true →
            LeavesOnly D.moment D.left_since self.old.disk self.new.disk
            (IsOldOrNew (record_of self.old.holding.standing) (as_second rec.now)) }
        ensures durable { D.tells self.old.disk ≡ true →
            OnOk result ((c : List ℕ) → D.may_leave self.new.disk c → StandsFor (Some (as_second rec.now)) c) }
        ensures either { self.old.has_failed ≡ false → D.tells self.old.disk ≡ true →
            IsOldOrNew (record_of self.old.holding.standing) (as_second rec.now) (D.seen self.new.disk) }
    {
        if self.has_failed {
            return Err(PutFault::Again);
        }
        let Some(number) = number_after(self.holding.standing) else {
            return Err(PutFault::Spent);
        };
        let rec = rec.as_second();
        match store(&mut self.disk, &self.holding, number, &rec) {
            Ok(()) => {
                self.holding = holding_after(&self.holding, number, &rec);
                Ok(())
            }
            Err(DiskFault) => {
                self.has_failed = true;
                Err(PutFault::Disk)
            }
        }
    }

    /// Closes the slot of the next put ahead of time, so that this put has one sync less. The file stands for the same
    /// record before and after, and after a crash at any moment of the call.
    pub fn prepare(&mut self) -> Result<(), PutFault>
        // Which fault it is.
        ensures again { IsErrOf result PutFault.Again ↔ (self.old.has_failed ≡ true) }
        ensures spent { IsErrOf result PutFault.Spent ↔
            (self.old.has_failed ≡ false) × (next_number (number_of self.old.holding.standing) ≡ None) }
        ensures failed { IsErrOf result PutFault.Disk →
            (self.new.has_failed ≡ true) × Rose (D.faults self.old.disk) (D.faults self.new.disk) }
        ensures spared { IsErrOf result PutFault.Spent → self.new ≡ self.old }
        ensures unchanged { IsErrOf result PutFault.Again → self.new ≡ self.old }
        ensures later { D.faults self.old.disk ≤ D.faults self.new.disk }
        ensures tells { D.tells self.new.disk ≡ D.tells self.old.disk }
        ensures same { self.new.holding.standing ≡ self.old.holding.standing }
        ensures closed { OnOk result ((self.new.has_failed ≡ false)
            × (open_of self.new.holding (spare_of self.new.holding.standing) ≡ false)) }
        // What a crash leaves: within the call, and after it.
        ensures any_moment { self.old.has_failed ≡ false → D.tells self.old.disk ≡ true →
            LeavesOnly D.moment D.left_since self.old.disk self.new.disk
            (StandsFor (record_of self.old.holding.standing)) }
        ensures durable { D.tells self.old.disk ≡ true →
            OnOk result ((c : List ℕ) → D.may_leave self.new.disk c → StandsFor (record_of self.new.holding.standing) c) }
    {
        if self.has_failed {
            return Err(PutFault::Again);
        }
        let Some(number) = number_after(self.holding.standing) else {
            return Err(PutFault::Spent);
        };
        match close_spare(&mut self.disk, &self.holding, number) {
            Ok(()) => {
                self.holding = holding_closed(&self.holding);
                Ok(())
            }
            Err(DiskFault) => {
                self.has_failed = true;
                Err(PutFault::Disk)
            }
        }
    }

    /// Opens the file again, after which puts are possible again. A crash at any moment of it leaves what a crash
    /// before it might have left.
    pub fn reopen(&mut self) -> Result<(), ReopenFault>
        ensures opened { OnOk result (self.new.has_failed ≡ false) }
        ensures stands { D.tells self.old.disk ≡ true → OnOk result ((D.seen self.new.disk ≡ D.seen self.old.disk)
            × StandsFor (record_of self.new.holding.standing) (D.seen self.old.disk)) }
        ensures torn { IsErrOf result ReopenFault.Torn → D.tells self.old.disk ≡ true
            → IsWhole (D.seen self.old.disk) → ⊥ }
        ensures failed { IsErrOf result ReopenFault.Disk → Rose (D.faults self.old.disk) (D.faults self.new.disk) }
        ensures before { OnErr result ((self.new.has_failed ≡ self.old.has_failed)
            × (self.new.holding ≡ self.old.holding)) }
        ensures later { D.faults self.old.disk ≤ D.faults self.new.disk }
        ensures tells { D.tells self.new.disk ≡ D.tells self.old.disk }
        ensures any_moment { D.tells self.old.disk ≡ true →
            LeavesOnly D.moment D.left_since self.old.disk self.new.disk (D.may_leave self.old.disk) }
    {
        let holding = look(&mut self.disk)?;
        self.holding = holding;
        self.has_failed = false;
        Ok(())
    }
}
