//! The bytes of a line that is being written, in memory that is allocated once.
ghost use Rattle.std.specs.Prelude.{◌≡◌, ◌≤◌, ◌+◌, ◌++◌, [], ◌∷◌, IfOk, codes, decimal, length};
ghost use Rattle.std.specs.Fmt.{signed_decimal};
ghost use Rattle.hex.specs.Hex.{encode_lower};
ghost use Rattle.booth_base.specs.Address.{printed};
ghost use Rattle.booth_journal.specs.Lines.{peer_text};

use booth_base::{Address, Peer};
use itoa::Buffer;
use std::alloc::{AllocError, Global};
use std::marker::Model;

/// The most bytes of a draft: enough for a line with the bytes of a datagram in hexadecimal digits.
pub(crate) const DRAFT_BYTES: usize = 33_024;

/// The bytes of a line so far. Contracts see them as a list.
#[derive(Drop)]
pub struct Draft {
    bytes: Vec<u8>,
}

impl Model for Draft {
    ghost use Rattle.std.specs.Prelude.{List, ℕ, ◌≤◌, vec_len, vec_capacity};
    ghost use Rattle.booth_journal.specs.declared.draft.TheConstants.{DRAFT_BYTES};

    ghost Value = { List ℕ };

    ghost view = { λ d. d.bytes.items };

    ghost invariant = { λ d. (DRAFT_BYTES ≤ vec_capacity d.bytes) × (vec_len d.bytes ≤ DRAFT_BYTES) };
}

// Returns the two hexadecimal digits of a byte.
fn digits_of(byte: u8) -> [u8; 2]
    ensures { result ≡ encode_lower (byte ∷ []) }
{
    let mut digits = [0; 2];
    hex::encode_to_slice([byte].as_slice(), &mut digits).unwrap();
    digits
}

impl Draft {
    /// Returns an empty draft, with all its memory.
    pub fn new(alloc: Global) -> Result<Draft, AllocError>
        ensures { IfOk result (λ draft. draft ≡ []) }
    {
        Ok(Draft {
            bytes: Vec::with_capacity(alloc, DRAFT_BYTES)?,
        })
    }

    /// Returns the bytes.
    pub fn bytes(&self) -> &[u8]
        ensures value { result.now ≡ self.now }
        ensures short { length result.now ≤ DRAFT_BYTES }
    {
        &self.bytes
    }

    /// Drops all bytes, and appends these.
    pub(crate) fn begin(&mut self, piece: &[u8])
        requires { length piece.now ≤ DRAFT_BYTES }
        ensures { self.new ≡ piece.now }
    {
        self.bytes.clear();
        self.put(piece);
    }

    /// Appends a text.
    pub(crate) fn put(&mut self, piece: &[u8])
        requires { length self.old + length piece.now ≤ DRAFT_BYTES }
        ensures { self.new ≡ self.old ++ piece.now }
    {
        self.bytes.extend_from_slice(piece).unwrap();
    }

    /// Appends a number.
    pub(crate) fn put_number(&mut self, number: u64)
        requires { length self.old + 40 ≤ DRAFT_BYTES }
        ensures bytes { self.new ≡ self.old ++ decimal number }
        ensures len { length self.new ≤ length self.old + 40 }
    {
        let mut digits = Buffer::new();
        self.put(digits.format(number).as_bytes());
    }

    /// Appends the status of a program, with its sign if it is below 0.
    pub(crate) fn put_status(&mut self, status: i32)
        requires { length self.old + 40 ≤ DRAFT_BYTES }
        ensures bytes { self.new ≡ self.old ++ signed_decimal status }
        ensures len { length self.new ≤ length self.old + 40 }
    {
        let mut digits = Buffer::new();
        self.put(digits.format(status).as_bytes());
    }

    /// Appends an address.
    pub(crate) fn put_address(&mut self, address: &Address)
        requires { length self.old + 39 ≤ DRAFT_BYTES }
        ensures bytes { self.new ≡ self.old ++ printed address.now }
        ensures len { length self.new ≤ length self.old + 39 }
    {
        self.put(address.print().as_bytes());
    }

    /// Appends an address and a port.
    pub(crate) fn put_peer(&mut self, peer: &Peer)
        requires { length self.old + 80 ≤ DRAFT_BYTES }
        ensures bytes { self.new ≡ self.old ++ peer_text peer.now }
        ensures len { length self.new ≤ length self.old + 80 }
    {
        self.put_address(&peer.address);
        self.put(b" ");
        self.put_number(u64::from(peer.port));
    }

    /// Appends bytes in hexadecimal digits.
    pub(crate) fn put_hex(&mut self, bytes: &[u8])
        requires { length self.old + (length bytes.now + length bytes.now) ≤ DRAFT_BYTES }
        ensures bytes { self.new ≡ self.old ++ encode_lower bytes.now }
        ensures len { length self.new ≡ length self.old + (length bytes.now + length bytes.now) }
    {
        for byte in bytes {
            self.put(&digits_of(*byte));
        }
    }
}
