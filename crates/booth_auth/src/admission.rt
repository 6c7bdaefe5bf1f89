//! The gate: it accepts a datagram, or drops it for its first fault.
ghost use Rattle.std.specs.Prelude.{◌≡◌, ◌≤◌, ◌+◌, not, length};
ghost use Rattle.booth_wire.specs.Layout.{word_at};
ghost use Rattle.std.specs.List.{list_any};
ghost use Rattle.std.specs.Option.{option_copied};
ghost use Rattle.booth_wire.specs.Command.{direction_of};
ghost use Rattle.booth_wire.specs.PlainMessage.{plain_of, content_of};
ghost use Rattle.booth_auth.specs.Verdict.{lacks_mac, hash_id, is_sha1_right, is_sha256_right, is_mac_right, is_old_right, has_wrong_mac, is_signed, is_too_old, is_member, is_stranger, member_part, part_of_member, names_no_ticket, is_site_of, may_lead, leads, names_no_leader, admitted, verdict, Passes};

use crate::sealing::{HASH_BYTES, SHA256_ID, long_hash};
use booth_base::{MemberId, NO_ONE};
use booth_conf::{Config, Member};
use booth_keys::{Key, MAC_BYTES, Ring, are_equal, hmac};
use booth_wire::{AUTH_BYTES, Body, Cmd, Direction, FrameFault, Head, Message, TicketPart, decode};
use thiserror::Error;

/// The bytes of the number of the hash.
const ID_BYTES: usize = 4;

/// Why a datagram is dropped. If several faults apply, the first in this order is returned.
#[derive(Clone, Copy, Debug, PartialEq, Eq, Drop, Error)]
pub enum DropFault {
    #[error("it is no frame: {0}")]
    Frame(FrameFault),
    #[error("there is a key, and no MAC")]
    NoMac,
    #[error("the MAC is wrong")]
    BadMac,
    #[error("the sender's clock is too far behind")]
    TooOld,
    #[error("this sender may not send this command")]
    Stranger,
    #[error("the sender's id is this member's own")]
    Own,
    #[error("the ticket is not in the configuration")]
    Ticket,
    #[error("the message names a holder that is not a site")]
    Leader,
}

fn lacks_mac(ring: Option<&Ring>, head: &Head) -> bool
    ensures { result ≡ lacks_mac (option_copied ring.entry) head.now }
{
    ring.is_some() && !head.auth
}

fn hash_id(bytes: &[u8]) -> u32
    requires { AUTH_BYTES ≤ length bytes.now }
    ensures { result ≡ hash_id bytes.now }
{
    let at = bytes.len() - AUTH_BYTES;
    u32::from_be_bytes([bytes[at], bytes[at + 1], bytes[at + 2], bytes[at + 3]])
}

fn is_sha1_right(key: &Key, bytes: &[u8]) -> bool
    requires { AUTH_BYTES ≤ length bytes.now }
    ensures { result ≡ is_sha1_right key.now bytes.now }
{
    let before = bytes.len() - AUTH_BYTES;
    let shown = before + ID_BYTES;
    are_equal(
        &bytes[shown..shown + MAC_BYTES],
        &hmac(key, &bytes[..before]),
    )
}

fn is_sha256_right(key: &Key, bytes: &[u8]) -> bool
    requires { AUTH_BYTES ≤ length bytes.now }
    ensures { result ≡ is_sha256_right key.now bytes.now }
{
    let before = bytes.len() - AUTH_BYTES;
    let shown = before + ID_BYTES;
    are_equal(
        &bytes[shown..shown + HASH_BYTES],
        &long_hash(key, &bytes[..before]),
    )
}

fn is_mac_right(key: &Key, bytes: &[u8]) -> bool
    requires { AUTH_BYTES ≤ length bytes.now }
    ensures { result ≡ is_mac_right key.now bytes.now }
{
    if hash_id(bytes) == SHA256_ID {
        is_sha256_right(key, bytes)
    } else {
        is_sha1_right(key, bytes)
    }
}

fn is_old_right(key: Option<&Key>, bytes: &[u8]) -> bool
    requires { AUTH_BYTES ≤ length bytes.now }
    ensures { result ≡ is_old_right (option_copied key.entry) bytes.now }
{
    match key {
        Some(key) => is_mac_right(key, bytes),
        None => false,
    }
}

// Both keys are always tried, so that the time does not show which one is right.
fn has_wrong_mac(ring: Option<&Ring>, bytes: &[u8]) -> bool
    requires { AUTH_BYTES ≤ length bytes.now }
    ensures { result ≡ has_wrong_mac (option_copied ring.entry) bytes.now }
{
    match ring {
        Some(ring) => {
            let first = is_mac_right(&ring.first, bytes);
            let old = is_old_right(ring.old.as_ref(), bytes);
            !(first | old)
        }
        None => false,
    }
}

/// Returns whether a frame is signed as it must be: with a ring it needs the MAC by one of its keys, and without a
/// ring anything is accepted. `head` is the head of the message that these bytes spell.
pub fn is_signed(ring: Option<&Ring>, head: &Head, bytes: &[u8]) -> bool
    requires { AUTH_BYTES ≤ length bytes.now }
    ensures { result ≡ is_signed (option_copied ring.entry) head.now bytes.now }
{
    !lacks_mac(ring, head) && !has_wrong_mac(ring, bytes)
}

fn is_too_old(ring: Option<&Ring>, skew: u64, now: u64, head: &Head) -> bool
    ensures { result ≡ is_too_old (option_copied ring.entry) skew now head.now }
{
    ring.is_some() && u64::from(head.secs).saturating_add(skew) < now / 1000
}

fn is_stranger(config: &Config, head: &Head) -> bool
    ensures { result ≡ is_stranger config.now head.now }
{
    match head.cmd.direction() {
        Direction::ToDaemon => head.from.0 != 0,
        Direction::BetweenMembers => config.member(head.from).is_none(),
        Direction::ToClient => true,
    }
}

fn part_of_member<'m>(message: &'m Message<'_>) -> Option<&'m TicketPart>
    ensures { option_copied result ≡ part_of_member (plain_of message.now) }
{
    match message.head.cmd.direction() {
        Direction::BetweenMembers => match &message.body {
            Body::Ticket(part) => Some(part),
            Body::Bare | Body::Attr(_) | Body::Text(_) => None,
        },
        Direction::ToDaemon | Direction::ToClient => None,
    }
}

fn is_site_of(id: MemberId, member: &Member) -> bool
    ensures { result ≡ is_site_of id member.now }
{
    member.site && member.id == id
}

fn is_site(config: &Config, id: MemberId) -> bool
    ensures { result ≡ list_any (is_site_of id) config.now.members }
{
    config.members().iter().any(|member| is_site_of(id, member))
}

fn may_lead(config: &Config, id: MemberId) -> bool
    ensures { result ≡ may_lead config.now id }
{
    id == NO_ONE || is_site(config, id)
}

fn leads(cmd: Cmd) -> bool
    ensures { result ≡ leads cmd }
{
    match cmd {
        Cmd::RVot | Cmd::HrtB | Cmd::UpdE => true,
        Cmd::Stat | Cmd::MIdx | Cmd::VtFr | Cmd::Ack | Cmd::Revk | Cmd::Rjc => false,
        Cmd::CLst | Cmd::CTkt | Cmd::Peer | Cmd::CGnt | Cmd::CRvk => false,
        Cmd::ASet | Cmd::AGet | Cmd::ADel | Cmd::ALst => false,
        Cmd::RLst | Cmd::RTkt | Cmd::RPer | Cmd::RALs => false,
        Cmd::RGnt | Cmd::RRvk | Cmd::RAtr => false,
    }
}

fn names_no_ticket(config: &Config, part: Option<&TicketPart>) -> bool
    ensures { result ≡ names_no_ticket config.now (option_copied part.entry) }
{
    match part {
        Some(part) => config.ticket(&part.ticket).is_none(),
        None => false,
    }
}

fn names_no_leader(config: &Config, head: &Head, part: Option<&TicketPart>) -> bool
    ensures { result ≡ names_no_leader config.now head.now (option_copied part.entry) }
{
    match part {
        Some(part) => {
            !may_lead(config, part.leader) || leads(head.cmd) && part.leader != head.from
        }
        None => false,
    }
}

fn admitted<'a>(
    config: &Config,
    me: MemberId,
    message: Message<'a>,
) -> Result<Message<'a>, DropFault>
    ensures { Passes result (admitted config.now me (plain_of message.entry)) }
{
    if is_stranger(config, &message.head) {
        return Err(DropFault::Stranger);
    }
    if message.head.from == me {
        return Err(DropFault::Own);
    }
    if names_no_ticket(config, part_of_member(&message)) {
        return Err(DropFault::Ticket);
    }
    if names_no_leader(config, &message.head, part_of_member(&message)) {
        return Err(DropFault::Leader);
    }
    Ok(message)
}

/// Returns the message of a datagram. `now` is this member's clock reading in ms.
///
/// With a ring, the frame must carry the MAC by one of its keys, and the sender's clock may not be further behind
/// this one than the configuration allows. Without a ring the authentication part is ignored.
///
/// # Errors
///
/// The first of the eight faults, in the order of `DropFault`.
pub fn ring_gate<'a>(
    config: &Config,
    ring: Option<&Ring>,
    me: MemberId,
    now: u64,
    bytes: &'a [u8],
) -> Result<Message<'a>, DropFault>
    ensures { Passes result (verdict config.now (option_copied ring.entry) me now bytes.now) }
{
    let message = match decode(bytes) {
        Ok(spelled) => spelled,
        Err(fault) => return Err(DropFault::Frame(fault)),
    };
    if lacks_mac(ring, &message.head) {
        return Err(DropFault::NoMac);
    }
    if has_wrong_mac(ring, bytes) {
        return Err(DropFault::BadMac);
    }
    if is_too_old(ring, config.skew(), now, &message.head) {
        return Err(DropFault::TooOld);
    }
    admitted(config, me, message)
}
