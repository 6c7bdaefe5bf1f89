//! A move over a host: its requests, and the pairs that it receives.
ghost use Rattle.std.specs.Prelude.{◌≡◌, ◌≤◌, ◌<◌, [], true, length, map, option_map, slice_get, IfErr, IfOk, IfSome, IsSomeAnd, IsTrue, Some};
ghost use Rattle.booth_wire.specs.Command.{kind_of};
ghost use Rattle.booth_wire.specs.declared.command.Kind.{Kind};
ghost use Rattle.booth_wire.specs.PlainMessage.{content_of, has_text, is_named, kind_in, plain_of};
ghost use Rattle.booth_host.specs.Past.{GrewSome};
ghost use Rattle.booth_host.specs.Causes.{HasCause};
ghost use Rattle.booth_move.specs.Bound.{Lessens};
ghost use Rattle.booth_move.specs.Carrying.{Goes, IsCarried, IsPair, IsSent, answer_at, answer_in, cmd_of, end_of, member_peer, request, sending_to, sent_for, setup_of, step_at};
ghost use Rattle.booth_move.specs.Move.{is_answer};

use crate::deeds::{MoveDeed, MoveEnd};
use crate::mover::Mover;
use booth_auth::is_signed;
use booth_base::{MemberId, NO_ONE, Name, Peer};
use booth_conf::Config;
use booth_host::{Arrival, Datagram, Failed, Host};
use booth_keys::Ring;
use booth_talk::MOST_PAIRS;
use booth_wire::{Body, Cmd, Frame, Head, Message, TicketPart, decode, options};
use std::alloc::{AllocError, Global};

/// The greatest number of pairs of a move after its start: the pairs of two revokes, eleven grants and ten pauses. A
/// request has two waits.
const MOVE_PAIRS: u64 = 36 * MOST_PAIRS;

/// A move, and the cluster in which it is made.
#[derive(Drop)]
pub struct Moving {
    pub config: Config,
    pub ring: Option<Ring>,
    pub ticket: Name,
    /// The place of the site to which the ticket is moved.
    pub target: usize,
    /// Whether the move waits for outcomes.
    pub wait: bool,
    /// The member that is asked for the ticket first.
    pub to: Peer,
}

/// The memory of a move: a frame to send, and a datagram that arrives.
#[derive(Drop)]
pub struct MoveRoom {
    frame: Frame,
    datagram: Datagram,
}

impl MoveRoom {
    /// Allocates all memory of a move.
    pub fn new(alloc: Global) -> Result<MoveRoom, AllocError>
        ensures { IfOk result (λ room. room.datagram ≡ []) }
    {
        let frame = Frame::new(alloc)?;
        let datagram = Datagram::new(alloc)?;
        Ok(MoveRoom { frame, datagram })
    }
}

// ---- requests

/// The kind of a request to a member.
#[derive(Clone, Copy)]
pub(crate) enum Asks {
    Revoke,
    Grant,
}

/// The message for an action.
#[derive(Clone, Copy)]
pub(crate) struct Sending {
    to: Peer,
    what: Asks,
    number: u32,
}

fn cmd_of(what: Asks) -> Cmd
    ensures is { result ≡ cmd_of what }
    ensures kind { kind_of result ≡ Kind.Ticket }
{
    match what {
        Asks::Revoke => Cmd::CRvk,
        Asks::Grant => Cmd::CGnt,
    }
}

fn message_of(moving: &Moving, what: Asks, number: u32) -> Message<'static>
    ensures same { plain_of result ≡ request moving.now what number }
    ensures kind { kind_in (content_of result.body) ≡ kind_of result.head.cmd }
    ensures named { is_named result.head.cmd (content_of result.body) ≡ true }
    ensures text { has_text (content_of result.body) ≡ true }
{
    Message {
        head: Head {
            auth: false,
            secs: 0,
            usecs: 0,
            from: MemberId(0),
            cmd: cmd_of(what),
            request: number,
            options: if moving.wait { options::WAIT } else { 0 },
            reason: 0,
            result: 0,
        },
        body: Body::Ticket(TicketPart {
            ticket: moving.ticket.copy(),
            leader: NO_ONE,
            term: 0,
            valid_for: 0,
        }),
    }
}

fn member_peer(moving: &Moving, place: usize) -> Option<Peer>
    ensures { result ≡ member_peer moving.now place }
{
    moving.config.members().get(place).map(|member| Peer {
        address: member.address,
        port: moving.config.port(),
    })
}

fn to_member(moving: &Moving, place: usize, what: Asks, number: u32) -> Option<Sending>
    ensures { result ≡ option_map (sending_to what number) (member_peer moving.now place) }
{
    match member_peer(moving, place) {
        Some(to) => Some(Sending { to, what, number }),
        None => None,
    }
}

fn sent_for(moving: &Moving, deed: MoveDeed) -> Option<Sending>
    ensures { result ≡ sent_for moving.now deed }
{
    match deed {
        MoveDeed::Nothing | MoveDeed::End(_) => None,
        MoveDeed::Revoke { to: None, request } => Some(Sending {
            to: moving.to,
            what: Asks::Revoke,
            number: request,
        }),
        MoveDeed::Revoke {
            to: Some(place),
            request,
        } => to_member(moving, place as usize, Asks::Revoke, request),
        MoveDeed::Grant { request } => to_member(moving, moving.target, Asks::Grant, request),
    }
}

// ---- replies

// Returns the answer in these bytes, if they are one.
#[tactic(auto, unfolding(crate::specs::Carrying::answer_in))]
fn answer_in<'a>(moving: &Moving, mover: &Mover, bytes: &'a [u8]) -> Option<Message<'a>>
    requires { mover.now.setup ≡ setup_of moving.now }
    ensures same { option_map plain_of result ≡ answer_in moving.now mover.now.stage bytes.now }
    ensures answer { IfSome (option_map plain_of result)
        (λ m. is_answer mover.now.setup mover.now.stage m ≡ true) }
{
    match decode(bytes) {
        Ok(message) => {
            if is_signed(moving.ring.as_ref(), &message.head, bytes) && mover.is_answer(&message) {
                Some(message)
            } else {
                None
            }
        }
        Err(_) => None,
    }
}

// Returns the answer in an arrival, if it has one.
fn answer_at<'a>(
    moving: &Moving,
    mover: &Mover,
    answer: &Result<Arrival, Failed>,
    datagram: &'a Datagram,
) -> Option<Message<'a>>
    requires { mover.now.setup ≡ setup_of moving.now }
    ensures same { option_map plain_of result
        ≡ answer_at moving.now mover.now.stage answer.now datagram.now }
    ensures answer { IfSome (option_map plain_of result)
        (λ m. is_answer mover.now.setup mover.now.stage m ≡ true) }
{
    match answer {
        Ok(Arrival::Datagram(_)) => answer_in(moving, mover, datagram.bytes()),
        Ok(Arrival::Handler { .. }) => None,
        Ok(Arrival::Quiet) => None,
        Ok(Arrival::Stop) => None,
        Err(_) => None,
    }
}

// Returns the action after an arrival and a reading.
fn told(
    moving: &Moving,
    mover: &mut Mover,
    answer: &Result<Arrival, Failed>,
    datagram: &Datagram,
    reading: u64,
) -> MoveDeed
    requires { mover.old.setup ≡ setup_of moving.now }
    ensures deed { result ≡ (step_at moving.now mover.old.stage
        (record { answer = answer.now; bytes = datagram.now; reading = reading })).deed }
    ensures stage { mover.new.stage ≡ (step_at moving.now mover.old.stage
        (record { answer = answer.now; bytes = datagram.now; reading = reading })).stage }
    ensures setup { mover.new.setup ≡ setup_of moving.now }
    ensures lessens { Lessens mover.old.stage result mover.new.stage }
{
    let reply = answer_at(moving, mover, answer, datagram);
    mover.step(reading, reply.as_ref())
}

// ---- the calls

// Sends the message for an action, at this reading.
fn send_for<H: Host>(
    moving: &Moving,
    deed: MoveDeed,
    start: u64,
    room: &mut MoveRoom,
    host: &mut H,
) -> Result<(), Failed>
    ensures past { GrewSome (IsSent moving.now start (sent_for moving.now deed) result)
        (H.past host.old) (H.past host.new) }
    ensures cause { HasCause (H.faults host.old) (H.faults host.new) result }
{
    match sent_for(moving, deed) {
        Some(sending) => {
            let message = message_of(moving, sending.what, sending.number);
            booth_auth::ring_seal(&message, moving.ring.as_ref(), start, &mut room.frame);
            host.send(&sending.to, room.frame.bytes())
        }
        None => Ok(()),
    }
}

fn end_of(deed: MoveDeed) -> Option<MoveEnd>
    ensures { result ≡ end_of deed }
{
    match deed {
        MoveDeed::End(end) => Some(end),
        MoveDeed::Nothing | MoveDeed::Revoke { .. } | MoveDeed::Grant { .. } => None,
    }
}

// Makes one pair of calls, and sends the message for the next action. Returns the end, if the move has reached it.
fn one_pair<H: Host>(
    moving: &Moving,
    mover: &mut Mover,
    room: &mut MoveRoom,
    host: &mut H,
) -> Result<Option<MoveEnd>, Failed>
    requires { mover.old.setup ≡ setup_of moving.now }
    ensures past { GrewSome (IsPair moving.now mover.old.stage mover.new.stage result)
        (H.past host.old) (H.past host.new) }
    ensures setup { mover.new.setup ≡ setup_of moving.now }
    ensures goes { Goes mover.old.stage result mover.new.stage }
    ensures cause { HasCause (H.faults host.old) (H.faults host.new) result }
{
    let answer = host.next(100, &mut room.datagram);
    let reading = host.now();
    let deed = told(moving, mover, &answer, &room.datagram, reading);
    match end_of(deed) {
        Some(end) => Ok(Some(end)),
        None => match send_for(moving, deed, reading, room, host) {
            Ok(()) => Ok(None),
            Err(failed) => Err(failed),
        },
    }
}

/// Carries out a move, from its start at this reading to its end.
///
/// # Errors
///
/// Returns `Failed` only if a request could not be sent.
pub fn carry_out<H: Host>(
    moving: &Moving,
    start: u64,
    room: &mut MoveRoom,
    host: &mut H,
) -> Result<MoveEnd, Failed>
    requires { IsSomeAnd (slice_get moving.now.config.members moving.now.target) (λ m. IsTrue m.site) }
    ensures past { GrewSome (IsCarried moving.now start result) (H.past host.old) (H.past host.new) }
    ensures cause { HasCause (H.faults host.old) (H.faults host.new) result }
{
    let ticket = moving.ticket.copy();
    let mut mover = Mover::start(&moving.config, ticket, moving.target, moving.wait, start);
    let first = mover.step(start, None);
    match send_for(moving, first, start, room, host) {
        Ok(()) => {}
        Err(failed) => return Err(failed),
    }
    for _pair in 0..MOVE_PAIRS {
        match one_pair(moving, &mut mover, room, host) {
            Ok(None) => {}
            Ok(Some(end)) => return Ok(end),
            Err(failed) => return Err(failed),
        }
    }
    unreachable!()
}
