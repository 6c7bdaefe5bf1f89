//! The request, as it is sent at a reading of the clock.
ghost use Rattle.std.specs.Prelude.{◌≡◌, true, option_map};
ghost use Rattle.booth_wire.specs.Command.{kind_of};
ghost use Rattle.booth_wire.specs.PlainMessage.{Attr, content_of, has_text, is_named, kind_in, plain_of};
ghost use Rattle.booth_talk.specs.Asking.{asked_attribute, asked_content, asked_part, number_of, request, request_bytes};

use crate::{Asking, Order};
use booth_base::{AttrValue, MemberId, NO_ONE, Name};
use booth_wire::{AttrPart, Body, Frame, Head, Message, TicketPart};

/// Returns the number of a request that is sent at this reading.
pub(crate) fn number_of(start: u64) -> u32
    ensures { result ≡ number_of start }
{
    (start % (1 << 32)) as u32
}

fn part_of(ticket: &Name) -> TicketPart
    ensures { result ≡ asked_part ticket.now }
{
    TicketPart {
        ticket: ticket.copy(),
        leader: NO_ONE,
        term: 0,
        valid_for: 0,
    }
}

// Returns an attribute of a ticket for a request.
fn attribute_of(ticket: &Name, name: Option<&Name>, value: AttrValue) -> Body<'static>
    ensures { content_of result
        ≡ Attr (asked_attribute ticket.now (option_map (λ n. n.now) name.entry) value) }
{
    Body::Attr(AttrPart {
        ticket: ticket.copy(),
        name: name.map(Name::copy),
        value,
    })
}

fn body_of(order: &Order) -> Body<'static>
    ensures { content_of result ≡ asked_content order.now }
{
    match order {
        Order::List | Order::Peers | Order::Status => Body::Bare,
        Order::Show(ticket, _) => Body::Ticket(part_of(ticket)),
        Order::Grant(ticket, _) | Order::Revoke(ticket, _) => Body::Ticket(part_of(ticket)),
        Order::SetAttribute {
            ticket,
            name,
            value,
        } => attribute_of(ticket, Some(name), value.copy()),
        Order::GetAttribute { ticket, name } | Order::DeleteAttribute { ticket, name } => {
            attribute_of(ticket, Some(name), AttrValue::default())
        }
        Order::ListAttributes(ticket) => attribute_of(ticket, None, AttrValue::default()),
    }
}

fn message_of(order: &Order, start: u64) -> Message<'static>
    ensures same { plain_of result ≡ request order.now start }
    ensures kind { kind_in (content_of result.body) ≡ kind_of result.head.cmd }
    ensures named { is_named result.head.cmd (content_of result.body) ≡ true }
    ensures text { has_text (content_of result.body) ≡ true }
{
    Message {
        head: Head {
            auth: false,
            secs: 0,
            usecs: 0,
            from: MemberId(0),
            cmd: order.cmd(),
            request: number_of(start),
            options: order.options().bits(),
            reason: 0,
            result: 0,
        },
        body: body_of(order),
    }
}

/// Writes the request as it is sent at this reading: with its time, and with the MAC if there is a key.
pub(crate) fn put_request(asking: &Asking, start: u64, frame: &mut Frame)
    ensures { frame.new ≡ request_bytes asking.now start }
{
    let message = message_of(&asking.order, start);
    booth_auth::ring_seal(&message, asking.ring.as_ref(), start, frame);
}
