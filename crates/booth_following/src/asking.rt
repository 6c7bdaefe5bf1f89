//! The requests for a ticket and for a list, as they are sent at a reading.
ghost use Rattle.std.specs.Prelude.{◌≡◌, true};
ghost use Rattle.booth_wire.specs.Command.{kind_of};
ghost use Rattle.booth_wire.specs.PlainMessage.{content_of, has_text, is_named, kind_in, plain_of};
ghost use Rattle.booth_following.specs.Asking.{list_bytes, list_request, number_of, request_bytes, request_head, ticket_request};

use crate::following::Following;
use booth_base::{MemberId, NO_ONE, Name};
use booth_wire::{Body, Cmd, Frame, Head, Message, TicketPart};

/// Returns the number of the requests that are sent at this reading.
pub(crate) fn number_of(start: u64) -> u32
    ensures { result ≡ number_of start }
{
    (start % (1 << 32)) as u32
}

fn head_of(cmd: Cmd, start: u64) -> Head
    ensures { result ≡ request_head cmd start }
{
    Head {
        auth: false,
        secs: 0,
        usecs: 0,
        from: MemberId(0),
        cmd,
        request: number_of(start),
        options: 0,
        reason: 0,
        result: 0,
    }
}

fn ticket_request(ticket: &Name, start: u64) -> Message<'static>
    ensures same { plain_of result ≡ ticket_request ticket.now start }
    ensures kind { kind_in (content_of result.body) ≡ kind_of result.head.cmd }
    ensures named { is_named result.head.cmd (content_of result.body) ≡ true }
    ensures text { has_text (content_of result.body) ≡ true }
{
    Message {
        head: head_of(Cmd::CTkt, start),
        body: Body::Ticket(TicketPart {
            ticket: ticket.copy(),
            leader: NO_ONE,
            term: 0,
            valid_for: 0,
        }),
    }
}

fn list_request(start: u64) -> Message<'static>
    ensures same { plain_of result ≡ list_request start }
    ensures kind { kind_in (content_of result.body) ≡ kind_of result.head.cmd }
    ensures named { is_named result.head.cmd (content_of result.body) ≡ true }
    ensures text { has_text (content_of result.body) ≡ true }
{
    Message {
        head: head_of(Cmd::CLst, start),
        body: Body::Bare,
    }
}

/// Writes the request for the ticket as it is sent at this reading: with its time, and with the MAC if there is a
/// key.
pub(crate) fn put_request(f: &Following, start: u64, frame: &mut Frame)
    ensures { frame.new ≡ request_bytes f.now start }
{
    let message = ticket_request(&f.ticket, start);
    booth_auth::ring_seal(&message, f.ring.as_ref(), start, frame);
}

/// Writes the request for a list in the same way.
pub(crate) fn put_list_request(f: &Following, start: u64, frame: &mut Frame)
    ensures { frame.new ≡ list_bytes f.now start }
{
    let message = list_request(start);
    booth_auth::ring_seal(&message, f.ring.as_ref(), start, frame);
}
