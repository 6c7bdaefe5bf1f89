//! The writes to a sink, up to the first append that fails.
ghost use Rattle.std.specs.Prelude.{◌≡◌, false};
ghost use Rattle.booth_journal.specs.Journal.{Wrote};

use crate::Sink;

/// A sink, and whether an append to it has failed.
#[derive(Drop)]
pub struct Journal<S> {
    pub(crate) sink: S,
    pub(crate) failed: bool,
}

impl<S: Sink> Journal<S> {
    /// Returns a journal that writes to this sink.
    pub(crate) fn new(sink: S) -> Journal<S>
        ensures sink { result.sink ≡ sink }
        ensures works { result.failed ≡ false }
    {
        Journal {
            sink,
            failed: false,
        }
    }

    /// Writes these bytes, or nothing if an append has failed before.
    pub(crate) fn write(&mut self, bytes: &[u8])
        ensures { Wrote S.held S.faults self.old self.new bytes.now }
    {
        if !self.failed && self.sink.append(bytes).is_err() {
            self.failed = true;
        }
    }
}
