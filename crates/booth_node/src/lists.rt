//! The text of a list of tickets, part by part.
ghost use Rattle.std.specs.Prelude.{◌≡◌, ◌≤◌, ◌+◌, ◌++◌, length, codes, option_copied};
ghost use Rattle.booth_base.specs.declared.buffer.TheConstants.{TEXT_BYTES};
ghost use Rattle.booth_ticket.specs.Ticket.{owner};
ghost use Rattle.booth_node.specs.Replies.{owner_at, owner_in, owner_text, list_line, list_lines};
ghost use Rattle.booth_node.specs.Lists.{IsPart};

use crate::NodeConfig;
use crate::peers::{put_address, put_number};
use booth_base::{Name, TEXT_BYTES, TextBuf};
use booth_conf::{Config, Member};
use booth_ticket::{Owner, Ticket};

// Appends the owner's address and the end of its lease, or a text for no owner.
fn put_owner_at(member: Option<&Member>, until_secs: u64, text: &mut TextBuf)
    requires { length text.old + 60 ≤ TEXT_BYTES }
    ensures bytes { text.new ≡ text.old ++ owner_at (option_copied member.entry) until_secs }
    ensures len { length text.new ≤ length text.old + 60 }
{
    match member {
        Some(member) => {
            put_address(member.address, text);
            put_number(until_secs, text);
        }
        None => text.put(b"none 0"),
    }
}

// Appends the address of the member with this index, or `none`.
fn put_owner_in(members: &[Member], place: Option<usize>, until_secs: u64, text: &mut TextBuf)
    requires { length text.old + 60 ≤ TEXT_BYTES }
    ensures bytes { text.new ≡ text.old ++ owner_in members.now place until_secs }
    ensures len { length text.new ≤ length text.old + 60 }
{
    match place {
        Some(place) => put_owner_at(members.get(place), until_secs, text),
        None => text.put(b"none 0"),
    }
}

// Appends the known owner of a ticket.
fn put_owner(config: &Config, shown: Option<Owner>, text: &mut TextBuf)
    requires { length text.old + 60 ≤ TEXT_BYTES }
    ensures bytes { text.new ≡ text.old ++ owner_text config.now shown }
    ensures len { length text.new ≤ length text.old + 60 }
{
    match shown {
        Some(shown) => {
            let place = config.member(shown.site);
            put_owner_in(config.members(), place, shown.until_secs, text);
        }
        None => text.put(b"none 0"),
    }
}

#[tactic(auto, using(booth_base::proofs::TextLemmas::line_of_name))]
fn put_name(name: &Name, text: &mut TextBuf)
    requires { length text.old + 63 ≤ TEXT_BYTES }
    ensures bytes { text.new ≡ text.old ++ name.now }
    ensures len { length text.new ≤ length text.old + 63 }
{
    text.put(name.bytes());
}

// Appends the line of a ticket.
fn put_ticket(config: &Config, ticket: &Ticket, now: u64, text: &mut TextBuf)
    requires { length text.old + 125 ≤ TEXT_BYTES }
    ensures bytes { text.new ≡ text.old ++ list_line config.now now ticket.now }
    ensures len { length text.new ≤ length text.old + 125 }
{
    put_name(&ticket.setup().ticket, text);
    text.put(b" ");
    put_owner(config, ticket.owner(now), text);
    text.put(b"\n");
}

/// Writes the text of the first part of a list of these tickets, at this reading in ms, with as many whole lines as
/// the text holds. Returns the number of its lines.
pub(crate) fn write_part(
    node: &NodeConfig,
    tickets: &[Ticket],
    now: u64,
    line: &mut TextBuf,
    text: &mut TextBuf,
) -> usize
    ensures part { IsPart (list_lines node.now now tickets.now) result text.new }
{
    text.clear();
    for place in 0..tickets.len() {
        line.clear();
        put_ticket(&node.config, &tickets[place], now, line);
        if text.bytes().len() + line.bytes().len() > TEXT_BYTES {
            return place;
        }
        text.put(line.bytes());
    }
    tickets.len()
}
