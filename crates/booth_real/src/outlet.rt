//! Streams for lines, written by a program that waits for no reader.
ghost use Rattle.std.specs.Prelude.{◌≡◌, Bool, IfSome, List, None, Option, ℕ};
ghost use Rattle.std.specs.Io.{WritesAtMost};
ghost use Rattle.std.specs.Io.KnownBytes.{WriteAppends};
ghost use Rattle.booth_real.specs.Outlet.{IsWritten, SaysFull};

use std::io;

/// A stream that can tell whether a write would wait for a reader, who may never come.
pub trait Outlet {
    /// The bytes that the stream took, if they are known.
    ghost taken: { Self → Option (List ℕ) } = { λ _. None };

    /// Whether a write would return without a wait, if that is known.
    ghost room: { Self → Option Bool } = { λ _. None };

    /// Returns whether a write would return without a wait.
    fn has_room(&mut self) -> bool
        ensures room { IfSome (room self.old) (λ there. result ≡ there) }
        ensures taken { taken self.new ≡ taken self.old };

    /// Writes these bytes, and returns how many of them the stream took, from the first.
    fn put(&mut self, bytes: &[u8]) -> io::Result<usize>
        ensures fits { WritesAtMost result bytes.now }
        ensures taken { WriteAppends (taken self.old) (taken self.new) result bytes.now };
}

/// Why a line was not written completely.
#[derive(Clone, Copy)]
pub enum Unwritten {
    /// The write would have waited, and none was made.
    Full,
    /// The stream took this number of bytes, from the first, and no more.
    Cut(usize),
    /// The write failed, and the stream took nothing.
    Failed,
}

/// Writes a line by one write, or does nothing if the write would wait.
pub fn write_at_once<O: Outlet>(outlet: &mut O, line: &[u8]) -> Result<(), Unwritten>
    ensures written { IsWritten (O.taken outlet.old) line.now result (O.taken outlet.new) }
    ensures full { SaysFull (O.room outlet.old) result }
{
    if !outlet.has_room() {
        return Err(Unwritten::Full);
    }
    match outlet.put(line) {
        Ok(count) => {
            if count < line.len() {
                Err(Unwritten::Cut(count))
            } else {
                Ok(())
            }
        }
        Err(_) => Err(Unwritten::Failed),
    }
}
