//! The gate and the seal of a member that has one key, or none.
ghost use Rattle.std.specs.Prelude.{◌≡◌, true};
ghost use Rattle.std.specs.Option.{option_copied};
ghost use Rattle.booth_wire.specs.Command.{kind_of};
ghost use Rattle.booth_wire.specs.PlainMessage.{plain_of, content_of, kind_in, is_named, has_text};
ghost use Rattle.booth_wire.specs.Spelling.{Fits};
ghost use Rattle.booth_auth.specs.Sealed.{stamped, sealed};
ghost use Rattle.booth_auth.specs.Verdict.{verdict, Passes};
ghost use Rattle.booth_auth.specs.WithKey.{ring_with};

use crate::admission::{DropFault, ring_gate};
use crate::sealing::ring_seal;
use booth_base::MemberId;
use booth_conf::Config;
use booth_keys::{Key, Ring};
use booth_wire::{Frame, Message};

fn ring_with(key: Option<&Key>) -> Option<Ring>
    ensures { result ≡ ring_with (option_copied key.entry) }
{
    match key {
        Some(key) => Some(Ring::of(key.copy())),
        None => None,
    }
}

/// Returns the message of a datagram, for a member that has this key and no other, or none. `now` is its clock reading
/// in ms.
///
/// # Errors
///
/// The first of the eight faults, in the order of `DropFault`.
pub fn gate<'a>(
    config: &Config,
    key: Option<&Key>,
    me: MemberId,
    now: u64,
    bytes: &'a [u8],
) -> Result<Message<'a>, DropFault>
    ensures { Passes result (verdict config.now (ring_with (option_copied key.entry)) me now bytes.now) }
{
    ring_gate(config, ring_with(key).as_ref(), me, now, bytes)
}

/// Writes the message as a member with this key sends it at this reading in ms: with the time and, if there is a key,
/// with the HMAC-SHA1 by it. The message's own `auth`, `secs` and `usecs` are ignored.
pub fn seal(message: &Message<'_>, key: Option<&Key>, now: u64, into: &mut Frame)
    requires kind { kind_in (content_of message.now.body) ≡ kind_of message.now.head.cmd }
    requires named { is_named message.now.head.cmd (content_of message.now.body) ≡ true }
    requires text { has_text (content_of message.now.body) ≡ true }
    ensures bytes { into.new ≡ sealed (ring_with (option_copied key.entry))
        (stamped (ring_with (option_copied key.entry)) now (plain_of message.now)) }
    ensures fits { Fits (stamped (ring_with (option_copied key.entry)) now (plain_of message.now)) }
{
    ring_seal(message, ring_with(key).as_ref(), now, into);
}
