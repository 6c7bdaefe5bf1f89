//! A request and the wait for its answer, and the one redirection of a revoke.
ghost use Rattle.std.specs.Prelude.{◌≡◌, ◌≤◌, [], false, IfOk, Ok};
ghost use Rattle.booth_host.specs.Past.{GrewSome};
ghost use Rattle.booth_host.specs.Causes.{HasCause};
ghost use Rattle.booth_talk.specs.Asking.{is_list};
ghost use Rattle.booth_talk.specs.Talk.{AsksOn, GoesOn, IsAnswerHeld, IsAsking, IsHeld, IsTalk, IsWait, is_revoke, redirected};

use crate::request::put_request;
use crate::wait::{Waited, is_begun, wait_final, wait_first};
use crate::{Asking, Order};
use booth_base::Peer;
use booth_host::{Datagram, Failed, Host};
use booth_wire::{Frame, results};
use std::alloc::{AllocError, Global};

/// The memory of a talk: a frame to send, and a datagram that arrives.
#[derive(Drop)]
pub struct Room {
    frame: Frame,
    /// The bytes of the last arrival.
    pub datagram: Datagram,
}

impl Room {
    /// Allocates all memory of a talk. No datagram has arrived.
    pub fn new(alloc: Global) -> Result<Room, AllocError>
        ensures { IfOk result (λ room. room.datagram ≡ []) }
    {
        let frame = Frame::new(alloc)?;
        let datagram = Datagram::new(alloc)?;
        Ok(Room { frame, datagram })
    }
}

// Continues after the wait for the first reply: waits for the outcome, if the client wants it and the request was
// begun.
fn go_on<H: Host>(
    asking: &Asking,
    start: u64,
    first: Waited,
    datagram: &mut Datagram,
    host: &mut H,
) -> Waited
    requires { IsHeld asking.now first datagram.old }
    ensures past { GrewSome (GoesOn asking.now start first datagram.old result datagram.new)
        (H.past host.old) (H.past host.new) }
    ensures held { IsHeld asking.now result datagram.new }
    ensures later { H.faults host.old ≤ H.faults host.new }
{
    match first {
        Waited::Came { reply, reading } => {
            if asking.order.options().is_waiting() && is_begun(&reply) {
                wait_final(asking, start, datagram, host)
            } else {
                Waited::Came { reply, reading }
            }
        }
        Waited::Over => Waited::Over,
    }
}

fn wait<H: Host>(asking: &Asking, start: u64, datagram: &mut Datagram, host: &mut H) -> Waited
    ensures past { GrewSome (IsWait asking.now start result datagram.new) (H.past host.old) (H.past host.new) }
    ensures held { IsHeld asking.now result datagram.new }
    ensures later { H.faults host.old ≤ H.faults host.new }
{
    let first = wait_first(asking, start, datagram, host);
    go_on(asking, start, first, datagram, host)
}

// Sends a request to this peer, at this reading, and waits for its answer.
fn ask<H: Host>(
    asking: &Asking,
    to: &Peer,
    start: u64,
    room: &mut Room,
    host: &mut H,
) -> Result<Waited, Failed>
    ensures past { GrewSome (IsAsking asking.now to.now start result room.new.datagram)
        (H.past host.old) (H.past host.new) }
    ensures held { IsAnswerHeld asking.now result room.new.datagram }
    ensures cause { HasCause (H.faults host.old) (H.faults host.new) result }
{
    put_request(asking, start, &mut room.frame);
    match host.send(to, room.frame.bytes()) {
        Ok(()) => Ok(wait(asking, start, &mut room.datagram, host)),
        Err(failed) => Err(failed),
    }
}

fn is_revoke(order: &Order) -> bool
    ensures { result ≡ is_revoke order.now }
{
    match order {
        Order::Revoke(_, _) => true,
        Order::List | Order::Show(_, _) | Order::Peers | Order::Status => false,
        Order::Grant(_, _) => false,
        Order::SetAttribute { .. } | Order::GetAttribute { .. } => false,
        Order::DeleteAttribute { .. } | Order::ListAttributes(_) => false,
    }
}

// Returns the member to which a revoke is redirected, and the reading at which it is sent.
fn redirected(asking: &Asking, first: &Waited) -> Option<(Peer, u64)>
    ensures { result ≡ redirected asking.now first.now }
{
    match first {
        Waited::Came { reply, reading } => {
            if is_revoke(&asking.order) && reply.result == results::REDR {
                asking.peer(reply.leader).map(|peer| (peer, *reading))
            } else {
                None
            }
        }
        Waited::Over => None,
    }
}

// Continues after the first request, which was sent: sends one more, if it is redirected.
fn ask_on<H: Host>(
    asking: &Asking,
    first: Waited,
    room: &mut Room,
    host: &mut H,
) -> Result<Waited, Failed>
    requires { IsHeld asking.now first room.old.datagram }
    ensures past { GrewSome (AsksOn asking.now (Ok first) room.old.datagram result room.new.datagram)
        (H.past host.old) (H.past host.new) }
    ensures held { IsAnswerHeld asking.now result room.new.datagram }
    ensures cause { HasCause (H.faults host.old) (H.faults host.new) result }
{
    match redirected(asking, &first) {
        Some((peer, start)) => ask(asking, &peer, start, room, host),
        None => Ok(first),
    }
}

/// Sends the request to this peer, at this reading, and waits for its answer.
///
/// If the answer to a revoke names another owner, the revoke is redirected to that member, once, as a new request.
/// The bytes of the last answer are then in the room's datagram. A list, which comes in parts, is requested by
/// `talk_list`.
///
/// # Errors
///
/// Returns `Failed` only if a request could not be sent.
pub fn talk<H: Host>(
    asking: &Asking,
    to: &Peer,
    start: u64,
    room: &mut Room,
    host: &mut H,
) -> Result<Waited, Failed>
    requires { is_list asking.now.order ≡ false }
    ensures past { GrewSome (IsTalk asking.now to.now start result room.new.datagram)
        (H.past host.old) (H.past host.new) }
    ensures held { IsAnswerHeld asking.now result room.new.datagram }
    ensures cause { HasCause (H.faults host.old) (H.faults host.new) result }
{
    match ask(asking, to, start, room, host) {
        Ok(first) => ask_on(asking, first, room, host),
        Err(failed) => Err(failed),
    }
}
