//! The requests of clients in a simulation.
ghost use Rattle.std.specs.Prelude.{◌≡◌, true, None};
ghost use Rattle.booth_wire.specs.Command.{kind_of};
ghost use Rattle.booth_wire.specs.declared.command.Kind.TheVariants.{Ticket as TicketKind};
ghost use Rattle.booth_wire.specs.PlainMessage.{content_of, has_text, is_named, kind_in, plain_of};
ghost use Rattle.booth_auth.specs.Sealed.{sealed};
ghost use Rattle.booth_sim.specs.Happenings.{request};

use booth_auth::ring_seal;
use booth_base::{Address, MemberId, NO_ONE, Name, Peer};
use booth_wire::{Body, Cmd, Frame, Head, Message, TicketPart};

/// The address of all clients.
pub(crate) const CLIENT: Peer = Peer {
    address: Address::V4([0, 0, 0, 0]),
    port: 0,
};

// Returns a request about a ticket, for the event with this number.
fn message_of(cmd: Cmd, ticket: &Name, event: u32) -> Message<'static>
    requires { kind_of cmd ≡ TicketKind }
    ensures same { plain_of result ≡ request cmd ticket.now event }
    ensures kind { kind_in (content_of result.body) ≡ kind_of result.head.cmd }
    ensures named { is_named result.head.cmd (content_of result.body) ≡ true }
    ensures text { has_text (content_of result.body) ≡ true }
{
    Message {
        head: Head {
            auth: false,
            secs: 0,
            usecs: 0,
            from: MemberId(0),
            cmd,
            request: event,
            options: 0,
            reason: 0,
            result: 0,
        },
        body: Body::Ticket(TicketPart {
            ticket: ticket.copy(),
            leader: NO_ONE,
            term: 0,
            valid_for: 0,
        }),
    }
}

/// Writes a client's request about a ticket.
pub(crate) fn put_request(cmd: Cmd, ticket: &Name, event: u32, frame: &mut Frame)
    requires { kind_of cmd ≡ TicketKind }
    ensures { frame.new ≡ sealed None (request cmd ticket.now event) }
{
    ring_seal(&message_of(cmd, ticket, event), None, 0, frame);
}
