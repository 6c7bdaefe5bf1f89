//! A disk: the bytes of one file, what a read returns, and what a crash may leave.
ghost use Rattle.std.specs.Prelude.{◌≡◌, ◌≤◌, List, ℕ, Bool, true, length, IfOk, OnOk};
ghost use Rattle.booth_rec.specs.Disk.{IsRead, IsWritten, SameOutside, NoMore, Follows, Only, Elapses, HasCause};

use thiserror::Error;

/// A call of a disk failed.
#[derive(Clone, Copy, Debug, Drop, Error)]
#[error("the disk failed")]
pub struct DiskFault;

/// The bytes of one file, which read as zeros past their end.
///
/// A disk may hide its bytes from contracts: a statement about them is about a disk that shows them, and a statement
/// about the count of faults is about every disk.
pub trait Disk {
    /// Whether contracts see its bytes.
    ghost tells: { Self → Bool };

    /// What a read returns.
    ghost seen: { Self → List ℕ };

    /// What a crash at this moment may leave.
    ghost may_leave: { Self → List ℕ → Type 0 };

    /// The moment, as a number that never falls.
    ghost moment: { Self → ℕ };

    /// What a crash at some moment from that one on might have left, within a call or between two.
    ghost left_since: { Self → ℕ → List ℕ → Type 0 };

    /// How often a call has failed. It never falls, and stays at the greatest u64.
    ghost faults: { Self → ℕ };

    /// Reads from this place on, and returns how many bytes it read. They are fewer if the file ends earlier.
    fn read(&mut self, at: u64, into: &mut [u8]) -> Result<usize, DiskFault>
        ensures tells { tells self.new ≡ tells self.old }
        ensures given { tells self.old ≡ true →
            IfOk result (λ count. IsRead (seen self.old) at count into.old into.new) }
        ensures same { tells self.old ≡ true → OnOk result (seen self.new ≡ seen self.old) }
        ensures crash { tells self.old ≡ true → NoMore (may_leave self.old) (may_leave self.new) }
        ensures time { tells self.old ≡ true →
            Elapses (moment self.old) (moment self.new)
            (left_since self.old) (left_since self.new) (may_leave self.new) }
        ensures cause { HasCause (faults self.old) (faults self.new) result };

    /// Writes these bytes at this place. Until a sync, a crash may leave any bytes there.
    fn write_at(&mut self, at: u64, bytes: &[u8]) -> Result<(), DiskFault>
        ensures tells { tells self.new ≡ tells self.old }
        ensures written { tells self.old ≡ true →
            OnOk result (IsWritten at bytes.now (seen self.old) (seen self.new)) }
        ensures crash { tells self.old ≡ true →
            Follows (SameOutside at (length bytes.now)) (may_leave self.old) (may_leave self.new) }
        ensures time { tells self.old ≡ true →
            Elapses (moment self.old) (moment self.new)
            (left_since self.old) (left_since self.new) (may_leave self.new) }
        ensures cause { HasCause (faults self.old) (faults self.new) result };

    /// Writes all bytes to the disk: after it, a crash leaves what a read returns.
    fn sync(&mut self) -> Result<(), DiskFault>
        ensures tells { tells self.new ≡ tells self.old }
        ensures durable { tells self.old ≡ true → OnOk result (Only (seen self.new) (may_leave self.new)) }
        ensures same { tells self.old ≡ true → OnOk result (seen self.new ≡ seen self.old) }
        ensures crash { tells self.old ≡ true → NoMore (may_leave self.old) (may_leave self.new) }
        ensures time { tells self.old ≡ true →
            Elapses (moment self.old) (moment self.new)
            (left_since self.old) (left_since self.new) (may_leave self.new) }
        ensures cause { HasCause (faults self.old) (faults self.new) result };

    /// What a read returns is one of the things that a crash may leave.
    ghost may_leave_seen: { (disk : Self) → may_leave disk (seen disk) };

    /// This moment is one of those since an earlier one.
    ghost counts_now: { (disk : Self) (t : ℕ) (c : List ℕ) →
        t ≤ moment disk → may_leave disk c → left_since disk t c };

    /// Since this moment there is no other.
    ghost only_now: { (disk : Self) (c : List ℕ) → left_since disk (moment disk) c → may_leave disk c };
}
