//! The text of the holdings.
ghost use Rattle.std.specs.Prelude.{◌≡◌, ◌≤◌, ◌+◌, ◌++◌, decimal, length, IfOk};
ghost use Rattle.booth_daemon.specs.declared.holdings_text.TheConstants.{LINE_BYTES};
ghost use Rattle.booth_daemon.specs.Auditing.{held_text, holding_text, holdings_text, site_at, span_text, ticket_at};

use arrayvec::{ArrayString, ArrayVec};
use booth_audit::Holding;
use booth_conf::Config;
use itoa::Buffer;
use std::alloc::{AllocError, Global};

/// The maximal number of bytes in a line.
pub(crate) const LINE_BYTES: usize = 400;

/// Appends these bytes to a line.
pub(crate) fn put(line: &mut ArrayVec<u8, LINE_BYTES>, piece: &[u8])
    requires { length line.old.items + length piece.now ≤ LINE_BYTES }
    ensures { line.new.items ≡ line.old.items ++ piece.now }
{
    line.try_extend_from_slice(piece).unwrap();
}

/// Appends the digits of a number to a line.
pub(crate) fn put_number(line: &mut ArrayVec<u8, LINE_BYTES>, number: u64)
    requires { length line.old.items + 20 ≤ LINE_BYTES }
    ensures bytes { line.new.items ≡ line.old.items ++ decimal number }
    ensures len { length line.new.items ≤ length line.old.items + 20 }
{
    let mut digits = Buffer::new();
    put(line, digits.format(number).as_bytes());
}

/// Returns the name of the ticket at this place.
pub(crate) fn ticket_at(config: &Config, place: u32) -> &[u8]
    ensures value { result.now ≡ ticket_at config.now place }
    ensures short { length result.now ≤ 63 }
{
    let Some(ticket) = config.tickets().get(place as usize) else {
        return b"";
    };
    ticket.name.bytes()
}

// Returns the address of the member at this place.
fn site_at(config: &Config, place: u32) -> ArrayString<39>
    ensures { result.bytes ≡ site_at config.now place }
{
    match config.members().get(place as usize) {
        Some(member) => member.address.print(),
        None => ArrayString::new(),
    }
}

// Returns the text that names the ticket that was held, and the site.
fn held_text(config: &Config, held: &Holding) -> ArrayVec<u8, LINE_BYTES>
    ensures bytes { result.items ≡ held_text config.now held.now }
    ensures len { length result.items ≤ 116 }
{
    let mut line = ArrayVec::new();
    put(&mut line, b"ticket ");
    put(&mut line, ticket_at(config, held.ticket));
    put(&mut line, b", site ");
    put(&mut line, site_at(config, held.member).as_bytes());
    line
}

// Appends the start and the end of a holding.
fn put_span(line: &mut ArrayVec<u8, LINE_BYTES>, held: &Holding)
    requires { length line.old.items ≤ 116 }
    ensures { line.new.items ≡ line.old.items ++ span_text held.now }
{
    put(line, b", from ");
    put_number(line, held.from);
    put(line, b" until ");
    put_number(line, held.until);
    put(line, b"\n");
}

fn holding_text(config: &Config, held: &Holding) -> ArrayVec<u8, LINE_BYTES>
    ensures { result.items ≡ holding_text config.now held.now }
{
    let mut line = held_text(config, held);
    put_span(&mut line, held);
    line
}

/// Returns a line for each holding.
#[tactic(auto, using(std::proofs::lemmas::List::flat_map_more))]
pub(crate) fn holdings_text(
    alloc: Global,
    config: &Config,
    holdings: &[Holding],
) -> Result<Vec<u8>, AllocError>
    ensures { IfOk result (λ text. text.items ≡ holdings_text config.now holdings.now) }
{
    let mut text = Vec::new(alloc);
    for held in holdings {
        text.extend_from_slice(&holding_text(config, held))?;
    }
    Ok(text)
}
