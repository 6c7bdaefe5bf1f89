//! The MACs of a message under a key: HMAC-SHA1 and HMAC-SHA-256 (RFC 2104).
ghost use Rattle.std.specs.Prelude.{◌≡◌, ◌↔◌, IsTrue, length, bytes_eq, fold, bit_xor, bit_or};
ghost use Rattle.std.specs.List.{zip};
ghost use Rattle.booth_keys.specs.Mac.{mac, mac256};

use crate::key::Key;
use crate::pads::{digest_behind, digest256_behind};

/// The bytes of a MAC by SHA-1.
pub const MAC_BYTES: usize = 20;

/// The bytes of a MAC by SHA-256, of which a frame has the first 24.
pub(crate) const MAC256_BYTES: usize = 32;

/// Returns the HMAC-SHA1 of these bytes under the key (RFC 2104, with FIPS 180-4's SHA-1).
pub fn hmac(key: &Key, bytes: &[u8]) -> [u8; MAC_BYTES]
    ensures { result ≡ mac key.now bytes.now }
{
    let pads = key.pads();
    digest_behind(&pads.outer, &digest_behind(&pads.inner, bytes))
}

/// Returns the HMAC-SHA-256 of these bytes under the key (RFC 2104, with FIPS 180-4's SHA-256).
pub fn hmac256(key: &Key, bytes: &[u8]) -> [u8; MAC256_BYTES]
    ensures { result ≡ mac256 key.now bytes.now }
{
    let pads = key.pads();
    digest256_behind(&pads.outer256, &digest256_behind(&pads.inner256, bytes))
}

fn difference(a: &[u8], b: &[u8]) -> u8
    ensures { result ≡ fold (λ found p. bit_or found (bit_xor p.0 p.1)) 0 (zip a.now b.now) }
{
    a.iter().zip(b).fold(0, |found, (x, y)| found | (x ^ y))
}

/// Returns whether two MACs are equal. It always compares all bytes, so that the time does not show where the first
/// difference is.
pub fn are_equal(a: &[u8], b: &[u8]) -> bool
    requires { length a.now ≡ length b.now }
    ensures answer { result ≡ bytes_eq a.now b.now }
    ensures equal { IsTrue result ↔ (a.now ≡ b.now) }
{
    difference(a, b) == 0
}
