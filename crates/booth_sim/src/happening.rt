//! The event that follows from its draws.
ghost use Rattle.std.specs.Prelude.{◌≡◌, ◌<◌, [], None, IfOk, length, option_map};
ghost use Rattle.booth_conf.specs.Sound.{IsSound};
ghost use Rattle.booth_host.specs.declared.host.Arrival.{Arrival};
ghost use Rattle.booth_wire.specs.Command.{kind_of};
ghost use Rattle.booth_wire.specs.declared.command.Kind.TheVariants.{Ticket as TicketKind};
ghost use Rattle.booth_auth.specs.Sealed.{sealed};
ghost use Rattle.booth_sim.specs.Happenings.{Turns, arrives, client, peer_in, request, ticket_name};
ghost use Rattle.booth_sim.specs.Clusters.{IsWhatHappens, says};

use crate::drawing::{Draw, Kind};
use crate::frames::{SentFrame, SentFrames};
use crate::request::{CLIENT, put_request};
use booth_base::{ByteText, Peer};
use booth_conf::Config;
use booth_host::Arrival;
use booth_wire::{Cmd, Frame};
use std::alloc::{AllocError, Global};

/// An event.
#[derive(Drop)]
pub enum Happening {
    /// The member with this index makes a turn, with this input.
    Turn {
        place: usize,
        arrival: Arrival,
        bytes: ByteText,
    },
    /// The member with this index is stopped, and starts again.
    Restart(usize),
}

// Returns a turn of a member without an arrival.
fn quiet(alloc: Global, place: usize) -> Result<Happening, AllocError>
    ensures { IfOk result (λ happening. says happening ≡ Turns place Arrival.Quiet []) }
{
    Ok(Happening::Turn {
        place,
        arrival: Arrival::Quiet,
        bytes: ByteText::new(alloc, &[])?,
    })
}

// Returns the address at which the member with this index listens.
fn peer_in(config: &Config, place: usize) -> Peer
    ensures { result ≡ peer_in config.now place }
{
    match config.members().get(place) {
        Some(member) => Peer {
            address: member.address,
            port: config.port(),
        },
        None => CLIENT,
    }
}

// Returns the arrival of a frame at its receiver. Without a frame, returns a turn without an arrival of the member with
// this index.
fn arrives(
    alloc: Global,
    config: &Config,
    place: usize,
    frame: Option<&SentFrame>,
) -> Result<Happening, AllocError>
    ensures { IfOk result (λ happening.
        says happening ≡ arrives config.now place (option_map (λ frame. frame.now) frame.entry)) }
{
    let Some(frame) = frame else {
        return quiet(alloc, place);
    };
    Ok(Happening::Turn {
        place: frame.to,
        arrival: Arrival::Datagram(peer_in(config, frame.from)),
        bytes: ByteText::new(alloc, frame.bytes.bytes())?,
    })
}

// Returns a client's request, at one place, for the ticket at another.
fn asks(
    alloc: Global,
    config: &Config,
    cmd: Cmd,
    ticket: usize,
    event: u32,
    place: usize,
    into: &mut Frame,
) -> Result<Happening, AllocError>
    requires ticket { ticket < length config.now.tickets }
    requires kind { kind_of cmd ≡ TicketKind }
    ensures { IfOk result (λ happening. says happening ≡ Turns place (Arrival.Datagram client)
        (sealed None (request cmd (ticket_name config.now ticket) event))) }
{
    put_request(cmd, &config.tickets()[ticket].name, event, into);
    Ok(Happening::Turn {
        place,
        arrival: Arrival::Datagram(CLIENT),
        bytes: ByteText::new(alloc, into.bytes())?,
    })
}

/// Returns the event with this number, if these frames were sent. Requests are written into a frame.
pub fn what_happens(
    alloc: Global,
    config: &Config,
    frames: &SentFrames,
    event: u32,
    draw: &Draw,
    into: &mut Frame,
) -> Result<Happening, AllocError>
    requires { IsSound config.now }
    ensures { IfOk result (IsWhatHappens config.now frames.now event draw.now) }
{
    let place = draw.member(config.members().len());
    let ticket = draw.ticket(config.tickets().len());
    match draw.kind() {
        Kind::Frame => arrives(alloc, config, place, frames.chosen(draw.first)),
        Kind::Quiet => quiet(alloc, place),
        Kind::Grant => asks(alloc, config, Cmd::CGnt, ticket, event, place, into),
        Kind::Revoke => asks(alloc, config, Cmd::CRvk, ticket, event, place, into),
        Kind::Restart => Ok(Happening::Restart(place)),
    }
}
