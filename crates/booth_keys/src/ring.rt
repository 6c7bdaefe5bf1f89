//! The keys that a member has.
ghost use Rattle.std.specs.Prelude.{◌≡◌};
ghost use Rattle.booth_keys.specs.Ring.{alone};

use crate::key::Key;

/// The hash for the MACs of messages that a member sends.
#[derive(Clone, Copy, PartialEq, Eq, Drop)]
pub enum Hash {
    /// HMAC-SHA1, of 20 bytes.
    Sha1,
    /// The first 24 bytes of HMAC-SHA-256.
    Sha256,
}

/// The keys that a member has.
#[derive(Drop)]
pub struct Ring {
    /// The key with which it seals its messages.
    pub first: Key,
    /// The other key, while the key is changed: messages that are sealed with it are accepted as well.
    pub old: Option<Key>,
    /// The hash with which it seals. It makes no difference for the messages that are accepted.
    pub hash: Hash,
}

impl Ring {
    /// Returns the ring with one key, which seals with HMAC-SHA1.
    pub fn of(key: Key) -> Ring
        ensures { result ≡ alone key }
    {
        Ring {
            first: key,
            old: None,
            hash: Hash::Sha1,
        }
    }

    /// Returns an equal ring.
    pub fn copy(&self) -> Ring
        ensures { result ≡ self.now }
    {
        Ring {
            first: self.first.copy(),
            old: self.old.as_ref().map(Key::copy),
            hash: self.hash,
        }
    }
}
