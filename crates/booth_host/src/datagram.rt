//! The bytes of a datagram that arrived, in memory that is allocated once.
ghost use Rattle.std.specs.Prelude.{◌≡◌, ◌≤◌, [], IfOk, length, min, take};

use std::alloc::{AllocError, Global};
use std::marker::Model;

/// The most bytes of a datagram that are stored: one more than a frame has.
pub const DATAGRAM_BYTES: usize = 16_461;

/// Up to 16,461 bytes. Contracts see them as a list.
#[derive(Drop)]
pub struct Datagram {
    bytes: Vec<u8>,
}

impl Model for Datagram {
    ghost use Rattle.std.specs.Prelude.{List, ℕ, ◌≤◌, vec_len, vec_capacity};
    ghost use Rattle.booth_host.specs.declared.datagram.TheConstants.{DATAGRAM_BYTES};

    ghost Value = { List ℕ };

    ghost view = { λ d. d.bytes.items };

    ghost invariant = { λ d. (DATAGRAM_BYTES ≤ vec_capacity d.bytes) × (vec_len d.bytes ≤ DATAGRAM_BYTES) };
}

impl Datagram {
    /// Returns an empty datagram, with all the memory that it will need.
    pub fn new(alloc: Global) -> Result<Datagram, AllocError>
        ensures { IfOk result (λ datagram. datagram ≡ []) }
    {
        Ok(Datagram {
            bytes: Vec::with_capacity(alloc, DATAGRAM_BYTES)?,
        })
    }

    /// Drops all bytes.
    pub fn clear(&mut self)
        ensures { self.new ≡ [] }
    {
        self.bytes.clear();
    }

    /// Stores the first 16,461 of these bytes.
    pub fn set(&mut self, bytes: &[u8])
        ensures { self.new ≡ take (min (length bytes.now) DATAGRAM_BYTES) bytes.now }
    {
        let len = bytes.len().min(DATAGRAM_BYTES);
        self.bytes.clear();
        self.bytes.extend_from_slice(&bytes[..len]).unwrap();
    }

    /// Returns the bytes of the datagram.
    pub fn bytes(&self) -> &[u8]
        ensures value { result.now ≡ self.now }
        ensures short { length result.now ≤ DATAGRAM_BYTES }
    {
        &self.bytes
    }
}
