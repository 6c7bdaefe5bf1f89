//! The bytes of one poll of links, in memory that is allocated once.
ghost use Rattle.std.specs.Prelude.{◌≡◌, ◌≤◌, [], IfOk, length, min, take};

use std::alloc::{AllocError, Global};
use std::marker::Model;

/// The most bytes of a piece.
pub const PIECE_BYTES: usize = 4_096;

/// Up to 4,096 bytes. Contracts see them as a list.
#[derive(Drop)]
pub struct Piece {
    bytes: Vec<u8>,
}

impl Model for Piece {
    ghost use Rattle.std.specs.Prelude.{List, ℕ, ◌≤◌, vec_len, vec_capacity};
    ghost use Rattle.booth_stream.specs.declared.piece.TheConstants.{PIECE_BYTES};

    ghost Value = { List ℕ };

    ghost view = { λ p. p.bytes.items };

    ghost invariant = { λ p. (PIECE_BYTES ≤ vec_capacity p.bytes) × (vec_len p.bytes ≤ PIECE_BYTES) };
}

impl Piece {
    /// Returns an empty piece, with all the memory that it will need.
    pub fn new(alloc: Global) -> Result<Piece, AllocError>
        ensures { IfOk result (λ piece. piece ≡ []) }
    {
        Ok(Piece {
            bytes: Vec::with_capacity(alloc, PIECE_BYTES)?,
        })
    }

    /// Drops all bytes.
    pub fn clear(&mut self)
        ensures { self.new ≡ [] }
    {
        self.bytes.clear();
    }

    /// Stores the first 4,096 of these bytes.
    pub fn set(&mut self, bytes: &[u8])
        ensures { self.new ≡ take (min (length bytes.now) PIECE_BYTES) bytes.now }
    {
        let len = bytes.len().min(PIECE_BYTES);
        self.bytes.clear();
        self.bytes.extend_from_slice(&bytes[..len]).unwrap();
    }

    /// Returns the bytes of the piece.
    pub fn bytes(&self) -> &[u8]
        ensures value { result.now ≡ self.now }
        ensures short { length result.now ≤ PIECE_BYTES }
    {
        &self.bytes
    }
}
