//! The part of the clock that is stored across restarts, and its one spelling: 60 bytes, numbers in network byte
//! order.
ghost use Rattle.std.specs.Prelude.{◌≡◌, ◌+◌, ◌≤◌, ◌↔◌, length, Some, IfSome, IsTrue};
ghost use Rattle.booth_clock.specs.Kept.{spelling, long_at, Spells};

/// How many bytes spell a clock.
const KEPT_BYTES: usize = 60;

/// The version of the file.
const VERSION: u64 = 1;

/// The id of a boot of the machine, as the kernel writes it.
#[derive(Clone, Copy, PartialEq, Eq)]
pub struct BootId(pub [u8; 36]);

/// The stored clock.
#[derive(Clone, Copy)]
pub struct KeptClock {
    /// The boot in which the offset was determined.
    pub boot: BootId,
    /// How far the clock is ahead of the time since the boot, in milliseconds.
    pub offset: u64,
    /// A reading that was reached, in milliseconds since 1970.
    pub reached: u64,
}

impl KeptClock {
    /// Returns the one spelling.
    pub fn encode(&self) -> [u8; 60]
        ensures { result ≡ spelling self.now }
    {
        let mut bytes = [0; 60];
        bytes[0..8].copy_from_slice(&VERSION.to_be_bytes());
        bytes[8..16].copy_from_slice(&self.offset.to_be_bytes());
        bytes[16..24].copy_from_slice(&self.reached.to_be_bytes());
        bytes[24..].copy_from_slice(&self.boot.0);
        bytes
    }

    /// Returns the clock that these bytes spell, or none if they spell no clock.
    pub fn decode(bytes: &[u8]) -> Option<KeptClock>
        ensures found { IfSome result (Spells bytes.now) }
        ensures again { (kept : KeptClock) → Spells bytes.now kept → result ≡ Some kept }
    {
        if bytes.len() != KEPT_BYTES {
            return None;
        }
        let mut boot = [0; 36];
        boot.copy_from_slice(&bytes[24..60]);
        let kept = KeptClock {
            boot: BootId(boot),
            offset: long_at(bytes, 8),
            reached: long_at(bytes, 16),
        };
        if kept.is_spelled_by(bytes) {
            Some(kept)
        } else {
            None
        }
    }

    fn is_spelled_by(&self, bytes: &[u8]) -> bool
        ensures { IsTrue result ↔ (bytes.now ≡ spelling self.now) }
    {
        bytes == self.encode().as_slice()
    }
}

// Returns the number of 8 bytes at a place.
fn long_at(bytes: &[u8], at: usize) -> u64
    requires { at + 8 ≤ length bytes.now }
    ensures { result ≡ long_at at bytes.now }
{
    u64::from_be_bytes([
        bytes[at],
        bytes[at + 1],
        bytes[at + 2],
        bytes[at + 3],
        bytes[at + 4],
        bytes[at + 5],
        bytes[at + 6],
        bytes[at + 7],
    ])
}
