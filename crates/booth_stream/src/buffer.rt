//! The bytes of an unfinished frame, in memory that is allocated once.
ghost use Rattle.std.specs.Prelude.{◌≡◌, ◌≤◌, ◌+◌, ◌++◌, [], IfOk, length};

use booth_host::Datagram;
use booth_wire::FRAME_BYTES;
use std::alloc::{AllocError, Global};
use std::marker::Model;

/// Up to as many bytes as a frame has. Contracts see them as a list.
#[derive(Drop)]
pub(crate) struct Buffer {
    bytes: Vec<u8>,
}

impl Model for Buffer {
    ghost use Rattle.std.specs.Prelude.{List, ℕ, ◌≤◌, vec_len, vec_capacity};
    ghost use Rattle.booth_wire.specs.declared.frame.TheConstants.{FRAME_BYTES};

    ghost Value = { List ℕ };

    ghost view = { λ b. b.bytes.items };

    ghost invariant = { λ b. (FRAME_BYTES ≤ vec_capacity b.bytes) × (vec_len b.bytes ≤ FRAME_BYTES) };
}

impl Buffer {
    /// Returns an empty buffer, with all the memory that it will need.
    pub(crate) fn new(alloc: Global) -> Result<Buffer, AllocError>
        ensures { IfOk result (λ buffer. buffer ≡ []) }
    {
        Ok(Buffer {
            bytes: Vec::with_capacity(alloc, FRAME_BYTES)?,
        })
    }

    /// Returns its bytes.
    pub(crate) fn bytes(&self) -> &[u8]
        ensures value { result.now ≡ self.now }
        ensures short { length result.now ≤ FRAME_BYTES }
    {
        &self.bytes
    }

    /// Drops all bytes.
    pub(crate) fn clear(&mut self)
        ensures { self.new ≡ [] }
    {
        self.bytes.clear();
    }

    /// Appends these bytes.
    pub(crate) fn put(&mut self, more: &[u8])
        requires { length self.old + length more.now ≤ FRAME_BYTES }
        ensures { self.new ≡ self.old ++ more.now }
    {
        self.bytes.extend_from_slice(more).unwrap();
    }

    /// Moves all bytes into `into`.
    #[tactic(auto, using(crate::proofs::BufferLemmas::take_short))]
    pub(crate) fn give(&mut self, into: &mut Datagram)
        ensures given { into.new ≡ self.old }
        ensures left { self.new ≡ [] }
    {
        into.set(self.bytes());
        self.clear();
    }
}
