//! Log lines in memory.
ghost use Rattle.std.specs.Prelude.{◌≡◌, [], ◌∷◌, ◌++◌, OnOk, Some, option_map};
ghost use Rattle.booth_log.specs.Said.{SaidMore, told_lines};

use crate::Lines;
use booth_base::ByteText;
use std::alloc::{AllocError, Global};

/// Log lines in memory. They are recorded until memory or room runs out, and nothing is recorded from then on.
#[derive(Drop)]
pub struct MemoryLines {
    alloc: Global,
    room: u32,
    said: Vec<ByteText>,
    tells: bool,
}

impl MemoryLines {
    /// Returns a sink without lines, with room for this many.
    pub fn new(alloc: Global, room: u32) -> MemoryLines
        ensures said { told_lines result ≡ Some [] }
        ensures room { result.room ≡ room }
    {
        MemoryLines {
            alloc,
            room,
            said: Vec::new(alloc),
            tells: true,
        }
    }

    /// Returns the lines so far, the oldest first, or none if they are no longer recorded.
    pub fn said(&self) -> Option<&[ByteText]>
        ensures { option_map (λ said. said.now) result ≡ told_lines self.now }
    {
        if self.tells { Some(&self.said) } else { None }
    }

    // Adds a line, if there is room and memory for it.
    fn add(&mut self, line: &[u8]) -> Result<(), AllocError>
        ensures ok { OnOk result (self.new.said.items ≡ self.old.said.items ++ line.now ∷ []) }
        ensures tells { self.new.tells ≡ self.old.tells }
        ensures room { self.new.room ≡ self.old.room }
    {
        if self.said.len() >= self.room as usize {
            return Err(AllocError);
        }
        let line = ByteText::new(self.alloc, line)?;
        match self.said.push(line) {
            Ok(()) => Ok(()),
            Err(_) => Err(AllocError),
        }
    }
}

impl Lines for MemoryLines {
    ghost said = { told_lines };

    fn say(&mut self, line: &[u8])
        ensures said { SaidMore (told_lines self.old) (told_lines self.new) (line.now ∷ []) }
        ensures room { self.new.room ≡ self.old.room }
    {
        if self.add(line).is_err() {
            self.tells = false;
        }
    }
}
