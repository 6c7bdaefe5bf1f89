//! The bytes of a frame, in memory that is allocated once.
ghost use Rattle.std.specs.Prelude.{◌≡◌, ◌≤◌, ◌+◌, ◌++◌, [], length, replicate, IfOk};
ghost use Rattle.booth_wire.specs.Layout.{word};
ghost use Rattle.booth_wire.specs.Spelling.{HasAuth, signed};

use crate::layout::AUTH_BYTES;
use std::alloc::{AllocError, Global};
use std::marker::Model;

/// The most bytes of a frame.
pub const FRAME_BYTES: usize = 16_460;

/// Memory for one frame. Contracts see its bytes.
#[derive(Drop)]
pub struct Frame {
    bytes: Vec<u8>,
}

impl Model for Frame {
    ghost use Rattle.std.specs.Prelude.{List, ℕ, ◌≤◌, vec_len, vec_capacity};
    ghost use Rattle.booth_wire.specs.declared.frame.TheConstants.{FRAME_BYTES};

    ghost Value = { List ℕ };

    ghost view = { λ f. f.bytes.items };

    ghost invariant = { λ f. (FRAME_BYTES ≤ vec_capacity f.bytes) × (vec_len f.bytes ≤ FRAME_BYTES) };
}

impl Frame {
    /// Returns an empty frame, with all the memory that it will need.
    ///
    /// # Errors
    ///
    /// `AllocError` if the memory has run out.
    pub fn new(alloc: Global) -> Result<Frame, AllocError>
        ensures { IfOk result (λ frame. frame ≡ []) }
    {
        Ok(Frame {
            bytes: Vec::with_capacity(alloc, FRAME_BYTES)?,
        })
    }

    /// Returns the bytes.
    pub fn bytes(&self) -> &[u8]
        ensures value { result.now ≡ self.now }
        ensures fits { length result.now ≤ FRAME_BYTES }
    {
        &self.bytes
    }

    /// Replaces the authentication part of the frame, which is its last 28 bytes.
    pub fn set_auth(&mut self, id: u32, hash: &[u8; 24])
        requires { HasAuth self.old }
        ensures signed { self.new ≡ signed self.old id hash.now }
        ensures auth { HasAuth self.new }
    {
        self.replace_auth(id, hash);
    }

    #[tactic(auto, unfolding(crate::specs::Layout::word))]
    fn replace_auth(&mut self, id: u32, hash: &[u8; 24])
        requires { 28 ≤ length self.old }
        ensures { self.new ≡ signed self.old id hash.now }
    {
        self.bytes.truncate(self.bytes.len() - AUTH_BYTES);
        self.put(&id.to_be_bytes());
        self.put(hash);
    }

    pub(crate) fn clear(&mut self)
        ensures { self.new ≡ [] }
    {
        self.bytes.clear();
    }

    pub(crate) fn put(&mut self, piece: &[u8])
        requires { length self.old + length piece.now ≤ FRAME_BYTES }
        ensures { self.new ≡ self.old ++ piece.now }
    {
        self.bytes.extend_from_slice(piece).unwrap();
    }

    pub(crate) fn put_zeros(&mut self, count: usize)
        requires { length self.old + count ≤ FRAME_BYTES }
        ensures { self.new ≡ self.old ++ replicate count 0 }
    {
        self.bytes.resize(self.bytes.len() + count, 0).unwrap();
    }
}
