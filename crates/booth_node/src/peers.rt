//! The text of the list of members.
ghost use Rattle.std.specs.Prelude.{◌≡◌, ◌≤◌, ◌<◌, ◌+◌, ◌*◌, ◌++◌, ◌∷◌, [], length, codes, decimal};
ghost use Rattle.std.specs.List.{flat_map, zip};
ghost use Rattle.booth_base.specs.Address.{IsAddress, printed};
ghost use Rattle.booth_base.specs.declared.buffer.TheConstants.{TEXT_BYTES};
ghost use Rattle.booth_node.specs.Replies.{spaced, drops_line, role_of, peer_line, other_line, peers_text};

use crate::{Common, Counters, NodeConfig};
use booth_base::{Address, TextBuf};
use booth_conf::Member;
use itoa::Buffer;

/// Appends a number after a blank.
pub(crate) fn put_number(number: u64, text: &mut TextBuf)
    requires { length text.old + 21 ≤ TEXT_BYTES }
    ensures bytes { text.new ≡ text.old ++ spaced number }
    ensures len { length text.new ≤ length text.old + 21 }
{
    let mut digits = Buffer::new();
    text.put(b" ");
    text.put(digits.format(number).as_bytes());
}

fn put_numbers(numbers: &[u64], text: &mut TextBuf)
    requires { length text.old + 21 * length numbers.now ≤ TEXT_BYTES }
    ensures bytes { text.new ≡ text.old ++ flat_map spaced numbers.now }
    ensures len { length text.new ≤ length text.old + 21 * length numbers.now }
{
    for number in numbers {
        put_number(*number, text);
    }
}

fn put_drops(drops: &[u64; 8], text: &mut TextBuf)
    requires { length text.old + 176 ≤ TEXT_BYTES }
    ensures bytes { text.new ≡ text.old ++ drops_line drops.now }
    ensures len { length text.new ≤ length text.old + 176 }
{
    text.put(b"dropped");
    put_numbers(drops, text);
    text.put(b"\n");
}

fn put_role(site: bool, text: &mut TextBuf)
    requires { length text.old + 11 ≤ TEXT_BYTES }
    ensures bytes { text.new ≡ text.old ++ role_of site }
    ensures len { length text.new ≤ length text.old + 11 }
{
    if site {
        text.put(b"site ");
    } else {
        text.put(b"arbitrator ");
    }
}

// Returns whether an address has 4 or 16 bytes.
fn is_whole(address: Address)
    ensures { IsAddress address }
{
    match address {
        Address::V4(_) | Address::V6(_) => {}
    }
}

/// Appends an address.
pub(crate) fn put_address(address: Address, text: &mut TextBuf)
    requires { length text.old + 39 ≤ TEXT_BYTES }
    ensures bytes { text.new ≡ text.old ++ printed address }
    ensures len { length text.new ≤ length text.old + 39 }
{
    is_whole(address);
    text.put(address.print().as_bytes());
}

// Appends the line of a member.
fn put_peer(member: &Member, counters: &Counters, text: &mut TextBuf)
    requires { length text.old + 135 ≤ TEXT_BYTES }
    ensures bytes { text.new ≡ text.old ++ peer_line (member.now, counters.now) }
    ensures len { length text.new ≤ length text.old + 135 }
{
    put_role(member.site, text);
    put_address(member.address, text);
    put_numbers(
        &[
            counters.last,
            counters.accepted,
            counters.sent,
            counters.errors,
        ],
        text,
    );
    text.put(b"\n");
}

// Appends the line of a member, if it is not this one.
fn put_other(node: &NodeConfig, member: &Member, counters: &Counters, text: &mut TextBuf)
    requires { length text.old + 135 ≤ TEXT_BYTES }
    ensures bytes { text.new ≡ text.old ++ other_line node.now (member.now, counters.now) }
    ensures len { length text.new ≤ length text.old + 135 }
{
    if member.id.0 != node.me.0 {
        put_peer(member, counters, text);
    }
}

/// Writes the text with the dropped datagrams and the other members.
pub(crate) fn write_peers(node: &NodeConfig, common: &Common, text: &mut TextBuf)
    ensures { text.new ≡ peers_text node.now common.now }
{
    text.clear();
    put_drops(&common.drops, text);
    for (member, counters) in node.config.members().iter().zip(&common.members) {
        put_other(node, member, counters, text);
    }
}
