//! Constants and functions that reading and writing share: sizes, fixed numbers, and the bits of opts.
ghost use Rattle.std.specs.Prelude.{◌≡◌};
ghost use Rattle.booth_wire.specs.Layout.{auth_bit, attr_bit, auth_len, opts_of};

use crate::command::Kind;

/// The bytes of a header.
pub(crate) const HEADER_BYTES: usize = 48;

/// The number with which each frame begins.
pub(crate) const MAGIC: u32 = 0x5F1B_A08C;

/// The version of the protocol.
pub(crate) const VERSION: u32 = 0x0001_0003;

/// The bytes of a name's field.
pub(crate) const NAME_BYTES: usize = 64;

/// The bytes of a value's field.
pub(crate) const VALUE_BYTES: usize = 128;

/// The bytes of a ticket's body: a name and three numbers.
pub(crate) const TICKET_BYTES: usize = 76;

/// The bytes of an attribute's body: two names and a value.
pub(crate) const ATTR_BYTES: usize = 256;

/// The bytes of an authentication part: a number and a hash.
pub const AUTH_BYTES: usize = 28;

/// Returns the size of the authentication part, if there is one.
pub(crate) fn auth_len(auth: bool) -> usize
    ensures { result ≡ auth_len auth }
{
    if auth { AUTH_BYTES } else { 0 }
}

fn auth_bit(auth: bool) -> u32
    ensures { result ≡ auth_bit auth }
{
    if auth { 1 } else { 0 }
}

fn attr_bit(kind: Kind) -> u32
    ensures { result ≡ attr_bit kind }
{
    match kind {
        Kind::Bare | Kind::Ticket | Kind::Text => 0,
        Kind::Attr => 4,
    }
}

/// Returns the opts of a frame with this body.
pub(crate) fn opts_of(auth: bool, kind: Kind) -> u32
    ensures { result ≡ opts_of auth kind }
{
    attr_bit(kind) + auth_bit(auth)
}
