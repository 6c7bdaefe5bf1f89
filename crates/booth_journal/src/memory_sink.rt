//! A sink in memory.
ghost use Rattle.std.specs.Prelude.{◌≡◌, ◌≤◌, ◌<◌, ◌+◌, ◌-◌, ◌++◌, ◌⊎◌, ◌↔◌, [], Some, IfOk, IsErr, OnErr, OnOk, length, vec_capacity};
ghost use Rattle.booth_host.specs.Causes.{HasCause, IsCounted};
ghost use Rattle.booth_journal.specs.Held.{HoldsMore, HoldsPart};

use crate::Sink;
use booth_host::Failed;
use std::alloc::{AllocError, Global};

/// Bytes in memory that is allocated once. Contracts see its fields.
#[derive(Drop)]
pub struct MemorySink {
    bytes: Vec<u8>,
    /// The most bytes.
    room: u32,
    /// How many more appends succeed.
    passes: u32,
    faults: u64,
    ghost few: { length bytes.items ≤ room },
    ghost fits: { room ≤ vec_capacity bytes },
}

impl MemorySink {
    /// Returns an empty sink, with room for this many bytes. This many appends succeed, if their bytes fit.
    pub fn new(alloc: Global, room: u32, passes: u32) -> Result<MemorySink, AllocError>
        ensures empty { IfOk result (λ sink. sink.bytes.items ≡ []) }
        ensures room { IfOk result (λ sink. sink.room ≡ room) }
        ensures passes { IfOk result (λ sink. sink.passes ≡ passes) }
        ensures faults { IfOk result (λ sink. sink.faults ≡ 0) }
    {
        Ok(MemorySink {
            bytes: Vec::with_capacity(alloc, room as usize)?,
            room,
            passes,
            faults: 0,
        })
    }

    /// Returns all bytes so far.
    pub fn bytes(&self) -> &[u8]
        ensures { result.now ≡ self.now.bytes.items }
    {
        &self.bytes
    }
}

impl Sink for MemorySink {
    ghost use Rattle.booth_journal.specs.Memory.{held_in};

    ghost held = { held_in };

    ghost faults = { λ sink. sink.faults };

    fn append(&mut self, bytes: &[u8]) -> Result<(), Failed>
        ensures ok { OnOk result (HoldsMore (held_in self.old) (held_in self.new) bytes.now) }
        ensures err { OnErr result (HoldsPart (held_in self.old) (held_in self.new) bytes.now) }
        ensures cause { HasCause self.old.faults self.new.faults result }
        ensures fails { IsErr result ↔ ((self.old.passes ≡ 0)
            ⊎ (self.old.room < length self.old.bytes.items + length bytes.now)) }
        ensures same { OnErr result (self.new.bytes.items ≡ self.old.bytes.items) }
        ensures counted { IsCounted self.old.faults self.new.faults result }
        ensures passed { OnOk result (self.new.passes + 1 ≡ self.old.passes) }
        ensures room { self.new.room ≡ self.old.room }
    {
        let free = self.room as usize - self.bytes.len();
        if self.passes == 0 || bytes.len() > free {
            self.faults = self.faults.saturating_add(1);
            return Err(Failed);
        }
        self.passes -= 1;
        self.bytes.extend_from_slice(bytes).unwrap();
        Ok(())
    }
}
