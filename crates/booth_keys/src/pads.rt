//! The hashes of a key, each after one of the key's pads (RFC 2104, section 4).
ghost use Rattle.std.specs.Prelude.{◌≡◌, ◌≤◌, ◌-◌, ◌++◌, ℕ, List, length, replicate};
ghost use Rattle.sha1.specs.Sha1.{sha1};
ghost use Rattle.sha1.specs.Sha1 as first;
ghost use Rattle.sha2.specs.Sha256.{sha256};
ghost use Rattle.sha2.specs.Hashers.{Holds256};
ghost use Rattle.booth_keys.specs.Mac.{block, padded};
ghost use Rattle.booth_keys.specs.Pads.{ArePads};

use crate::key::BLOCK_BYTES;
use crate::mac::{MAC_BYTES, MAC256_BYTES};
use sha1::Sha1;
use sha2::{Digest, Sha256};

// RFC 2104, section 2: the bytes that make the inner and the outer pad of a key's block.
const INNER: u8 = 0x36;

const OUTER: u8 = 0x5C;

/// The state of each hash after the inner pad of a key, and after the outer pad. Each MAC by this key starts from these
/// states.
#[derive(Drop)]
pub(crate) struct Pads {
    pub(crate) inner: Sha1,
    pub(crate) outer: Sha1,
    pub(crate) inner256: Sha256,
    pub(crate) outer256: Sha256,
}

// Returns the key's block: its bytes, then zeros.
fn block(key: &[u8]) -> [u8; BLOCK_BYTES]
    requires { length key.now ≤ BLOCK_BYTES }
    ensures { result ≡ block key.now }
{
    let mut block = [0; BLOCK_BYTES];
    block[..key.len()].copy_from_slice(key);
    block
}

fn pad(key: &[u8], with: u8) -> [u8; BLOCK_BYTES]
    requires { length key.now ≤ BLOCK_BYTES }
    ensures { result ≡ padded with key.now }
{
    let mut pad = block(key);
    for byte in &mut pad {
        *byte ^= with;
    }
    pad
}

// Returns SHA-1 after these bytes.
fn begun(bytes: &[u8]) -> Sha1
    ensures { first.Holds result bytes.now }
{
    let mut hasher = Sha1::new();
    hasher.update(bytes);
    hasher
}

// Returns SHA-256 after these bytes.
fn begun256(bytes: &[u8]) -> Sha256
    ensures { Holds256 result bytes.now }
{
    Sha256::new_with_prefix(bytes)
}

impl Pads {
    /// Returns the hashes after the pads of this key.
    pub(crate) fn new(key: &[u8]) -> Pads
        requires { length key.now ≤ BLOCK_BYTES }
        ensures { ArePads key.now result }
    {
        let inner = pad(key, INNER);
        let outer = pad(key, OUTER);
        Pads {
            inner: begun(&inner),
            outer: begun(&outer),
            inner256: begun256(&inner),
            outer256: begun256(&outer),
        }
    }
}

/// Returns the SHA-1 digest of the bytes that this hash has processed, followed by these.
pub(crate) fn digest_behind(taken: &Sha1, bytes: &[u8]) -> [u8; MAC_BYTES]
    ensures { (before : List ℕ) → first.Holds taken.now before → result ≡ sha1 (before ++ bytes.now) }
{
    let mut hasher = taken.clone().unwrap();
    hasher.update(bytes);
    hasher.finalize()
}

/// Returns the SHA-256 digest of the bytes that this hash has processed, followed by these.
pub(crate) fn digest256_behind(taken: &Sha256, bytes: &[u8]) -> [u8; MAC256_BYTES]
    ensures { (before : List ℕ) → Holds256 taken.now before → result ≡ sha256 (before ++ bytes.now) }
{
    let mut hasher = taken.clone().unwrap();
    hasher.update(bytes);
    hasher.finalize()
}
