//! The key that the members and their clients share.
ghost use Rattle.std.specs.Prelude.{◌≡◌, ◌≤◌, length};
ghost use Rattle.std.specs.List.{list_all, prefix_len, suffix_len};
ghost use Rattle.booth_keys.specs.Key.{is_blank, is_plain, begun, ended, kept, key_read};
ghost use Rattle.booth_keys.specs.Pads.{ArePads};

use crate::pads::Pads;
use arrayvec::ArrayVec;
use std::marker::Model;
use thiserror::Error;

/// The fewest bytes of a key.
pub const LEAST_BYTES: usize = 8;

/// The largest number of bytes of a key: the size of a block of the hash.
pub const BLOCK_BYTES: usize = 64;

/// A key of 8 to 64 bytes, and the hashes after its pads. Contracts see its bytes.
#[derive(Drop)]
pub struct Key {
    bytes: ArrayVec<u8, BLOCK_BYTES>,
    pads: Pads,
}

impl Model for Key {
    ghost use Rattle.std.specs.Prelude.{List, ℕ, ◌≤◌, length};
    ghost use Rattle.booth_keys.specs.declared.key.TheConstants.{LEAST_BYTES, BLOCK_BYTES};
    ghost use Rattle.booth_keys.specs.Pads.{ArePads};

    ghost Value = { List ℕ };

    ghost view = { λ k. k.bytes.items };

    ghost invariant = { λ k. (LEAST_BYTES ≤ length k.bytes.items) × (length k.bytes.items ≤ BLOCK_BYTES)
        × ArePads k.bytes.items k.pads };
}

/// Why bytes are not a key. The sizes are those without the blanks at both ends.
#[derive(Clone, Copy, Debug, PartialEq, Eq, Drop, Error)]
pub enum KeyFault {
    #[error("the key has fewer than 8 bytes")]
    TooShort,
    #[error("the key has more than 64 bytes")]
    TooLong,
}

fn is_blank(byte: u8) -> bool
    ensures { result ≡ is_blank byte }
{
    matches!(byte, 0x09..=0x0D | 0x20)
}

fn are_plain(bytes: &[u8]) -> bool
    ensures { result ≡ list_all is_plain bytes.now }
{
    bytes
        .iter()
        .all(|b| matches!(*b, 0x09..=0x0D | 0x20..=0x7E))
}

fn first_blanks(bytes: &[u8]) -> usize
    ensures { result ≡ prefix_len is_blank bytes.now }
{
    bytes.iter().take_while(|b| is_blank(**b)).count()
}

#[tactic(auto, using(crate::proofs::KeyLemmas::cuts))]
fn begun(bytes: &[u8]) -> &[u8]
    ensures { result.now ≡ begun bytes.now }
{
    &bytes[first_blanks(bytes)..]
}

fn last_blanks(bytes: &[u8]) -> usize
    ensures { result ≡ suffix_len is_blank bytes.now }
{
    bytes.iter().rev().take_while(|b| is_blank(**b)).count()
}

#[tactic(auto, using(crate::proofs::KeyLemmas::cuts))]
fn ended(bytes: &[u8]) -> &[u8]
    ensures { result.now ≡ ended bytes.now }
{
    &bytes[..bytes.len() - last_blanks(bytes)]
}

// Returns the content of a key file. A file with other bytes than text is used unchanged.
fn kept(bytes: &[u8]) -> &[u8]
    ensures { result.now ≡ kept bytes.now }
{
    if are_plain(bytes) {
        ended(begun(bytes))
    } else {
        bytes
    }
}

impl Key {
    /// Returns the key in a key file's bytes. If each byte is from 0x09 to 0x0D or from 0x20 to 0x7E, the blanks at
    /// both ends, 0x09 to 0x0D and 0x20, are not part of the key.
    ///
    /// # Errors
    ///
    /// The key is too short or too long.
    pub fn read(bytes: &[u8]) -> Result<Key, KeyFault>
        ensures { result ≡ key_read bytes.now }
    {
        let key = kept(bytes);
        if key.len() < LEAST_BYTES {
            return Err(KeyFault::TooShort);
        }
        if key.len() > BLOCK_BYTES {
            return Err(KeyFault::TooLong);
        }
        Ok(Key::of(key))
    }

    /// Returns the key with exactly these bytes.
    pub(crate) fn of(bytes: &[u8]) -> Key
        requires enough { LEAST_BYTES ≤ length bytes.now }
        requires fits { length bytes.now ≤ BLOCK_BYTES }
        ensures { result ≡ bytes.now }
    {
        let mut key = ArrayVec::new();
        key.try_extend_from_slice(bytes).unwrap();
        Key {
            bytes: key,
            pads: Pads::new(bytes),
        }
    }

    /// Returns an equal key.
    pub fn copy(&self) -> Key
        ensures { result ≡ self.now }
    {
        Key::of(&self.bytes)
    }

    /// Returns the hashes after its pads.
    pub(crate) fn pads(&self) -> &Pads
        ensures { ArePads self.now result.now }
    {
        &self.pads
    }
}
