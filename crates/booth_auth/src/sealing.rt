//! The seal: the time and the MAC of a message that is sent.
ghost use Rattle.std.specs.Prelude.{◌≡◌, ◌++◌, true, is_some};
ghost use Rattle.std.specs.Option.{option_copied};
ghost use Rattle.booth_wire.specs.Command.{kind_of};
ghost use Rattle.booth_wire.specs.PlainMessage.{plain_of, content_of, kind_in, is_named, has_text};
ghost use Rattle.booth_wire.specs.Spelling.{Fits, before_auth, HasAuth};
ghost use Rattle.booth_keys.specs.declared.ring.Hash.TheVariants.{Sha1, Sha256};
ghost use Rattle.booth_auth.specs.Sealed.{stamped_head, stamped, number_of, hash_of, auth_part, sealed};

use booth_keys::{Hash, Key, MAC_BYTES, Ring, hmac, hmac256};
use booth_wire::{AUTH_BYTES, Frame, Head, Message, encode};

/// The bytes of the hash in an authentication part.
pub(crate) const HASH_BYTES: usize = 24;

/// The number that stands for SHA-256 in an authentication part.
pub(crate) const SHA256_ID: u32 = 3;

// The number that stands for SHA-1 there.
const SHA1_ID: u32 = 2;

fn stamped_head(head: &Head, auth: bool, now: u64) -> Head
    ensures { result ≡ stamped_head auth now head.now }
{
    Head {
        auth,
        secs: (now / 1000).min(u64::from(u32::MAX)) as u32,
        usecs: (now % 1000 * 1000) as u32,
        ..*head
    }
}

fn stamped<'a>(message: &Message<'a>, ring: Option<&Ring>, now: u64) -> Message<'a>
    ensures { plain_of result ≡ stamped (option_copied ring.entry) now (plain_of message.now) }
{
    Message {
        head: stamped_head(&message.head, ring.is_some(), now),
        body: message.body.copy(),
    }
}

fn number_of(hash: Hash) -> u32
    ensures { result ≡ number_of hash }
{
    match hash {
        Hash::Sha1 => SHA1_ID,
        Hash::Sha256 => SHA256_ID,
    }
}

fn short_hash(key: &Key, bytes: &[u8]) -> [u8; HASH_BYTES]
    ensures { result ≡ hash_of Sha1 key.now bytes.now }
{
    let mut hash = [0; HASH_BYTES];
    hash[..MAC_BYTES].copy_from_slice(&hmac(key, bytes));
    hash
}

/// Returns the first bytes of a MAC by SHA-256, as many as a frame has.
pub(crate) fn long_hash(key: &Key, bytes: &[u8]) -> [u8; HASH_BYTES]
    ensures { result ≡ hash_of Sha256 key.now bytes.now }
{
    let code = hmac256(key, bytes);
    let mut hash = [0; HASH_BYTES];
    hash.copy_from_slice(&code[..HASH_BYTES]);
    hash
}

fn hash_of(hash: Hash, key: &Key, bytes: &[u8]) -> [u8; HASH_BYTES]
    ensures { result ≡ hash_of hash key.now bytes.now }
{
    match hash {
        Hash::Sha1 => short_hash(key, bytes),
        Hash::Sha256 => long_hash(key, bytes),
    }
}

fn sign(frame: &mut Frame, ring: &Ring)
    requires { HasAuth frame.old }
    ensures { frame.new ≡ before_auth frame.old ++ auth_part ring.now (before_auth frame.old) }
{
    let bytes = frame.bytes();
    let code = hash_of(ring.hash, &ring.first, &bytes[..bytes.len() - AUTH_BYTES]);
    frame.set_auth(number_of(ring.hash), &code);
}

/// Writes the message as it is sent at this reading in ms: with the time and, if there is a ring, with the MAC by its
/// first key. The message's own `auth`, `secs` and `usecs` are ignored.
///
/// `secs` becomes the whole seconds of the reading, at most 2^32 - 1, and `usecs` the rest.
pub fn ring_seal(message: &Message<'_>, ring: Option<&Ring>, now: u64, into: &mut Frame)
    requires kind { kind_in (content_of message.now.body) ≡ kind_of message.now.head.cmd }
    requires named { is_named message.now.head.cmd (content_of message.now.body) ≡ true }
    requires text { has_text (content_of message.now.body) ≡ true }
    ensures bytes { into.new ≡ sealed (option_copied ring.entry)
        (stamped (option_copied ring.entry) now (plain_of message.now)) }
    ensures fits { Fits (stamped (option_copied ring.entry) now (plain_of message.now)) }
{
    let message = stamped(message, ring, now);
    encode(&message, into);
    if let Some(ring) = ring {
        sign(into, ring);
    }
}
