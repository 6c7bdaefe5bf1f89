//! The trait of a sink for a journal.
ghost use Rattle.std.specs.Prelude.{List, Option, ℕ, OnOk, OnErr};
ghost use Rattle.booth_host.specs.Causes.{HasCause};
ghost use Rattle.booth_journal.specs.Held.{HoldsMore, HoldsPart};

use booth_host::Failed;

/// A sink for the bytes of a journal.
pub trait Sink {
    /// All its bytes, if they are recorded.
    ghost held: { Self → Option (List ℕ) };

    /// How often an append has failed. It never falls, and stays at the greatest u64.
    ghost faults: { Self → ℕ };

    /// Appends bytes. If it fails, some first part of them was appended, or none.
    fn append(&mut self, bytes: &[u8]) -> Result<(), Failed>
        ensures ok { OnOk result (HoldsMore (held self.old) (held self.new) bytes.now) }
        ensures err { OnErr result (HoldsPart (held self.old) (held self.new) bytes.now) }
        ensures cause { HasCause (faults self.old) (faults self.new) result };
}
