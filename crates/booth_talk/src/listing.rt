//! A request for a list, the wait for its parts, and its output.
ghost use Rattle.std.specs.Prelude.{◌≡◌, true, IfOk, MatchBool};
ghost use Rattle.booth_host.specs.Past.{GrewSome};
ghost use Rattle.booth_host.specs.Causes.{HasCause};
ghost use Rattle.booth_talk.specs.Asking.{is_list};
ghost use Rattle.booth_talk.specs.Listing.{IsListTalk};
ghost use Rattle.booth_talk.specs.Owner.{ShowsOwner};
ghost use Rattle.booth_talk.specs.Parts.{AreNone, text_of};
ghost use Rattle.booth_talk.specs.Report.{IsListReport};

use crate::Asking;
use crate::list_wait::{Listed, wait_list};
use crate::owner::shows_owner;
use crate::parts::Parts;
use crate::reports::list_report;
use crate::request::put_request;
use booth_base::{Address, ByteText, Name, Peer};
use booth_host::{Datagram, Failed, Host};
use booth_wire::Frame;
use std::alloc::{AllocError, Global};

/// The memory for a list: a frame to send, a datagram that arrives, and all parts.
#[derive(Drop)]
pub struct ListRoom {
    frame: Frame,
    datagram: Datagram,
    /// The parts that have arrived.
    pub parts: Parts,
}

impl ListRoom {
    /// Allocates all memory that the reception of a list needs. No part has arrived.
    pub fn new(alloc: Global) -> Result<ListRoom, AllocError>
        ensures { IfOk result (λ room. AreNone room.parts) }
    {
        let frame = Frame::new(alloc)?;
        let datagram = Datagram::new(alloc)?;
        let parts = Parts::new(alloc)?;
        Ok(ListRoom {
            frame,
            datagram,
            parts,
        })
    }

    /// Returns the output for the list whose parts have arrived: their texts, joined by number, line by line, with
    /// dates. A text that is not a list is printed unchanged.
    pub fn report(&self, alloc: Global) -> Result<ByteText, AllocError>
        ensures { IfOk result (λ report. IsListReport (text_of self.now.parts) report) }
    {
        let text = self.parts.text(alloc)?;
        list_report(alloc, &text)
    }

    /// Returns true if, according to the parts of the list that have arrived, the member at this address owns the
    /// ticket.
    pub fn shows_owner(
        &self,
        alloc: Global,
        ticket: &Name,
        owner: &Address,
    ) -> Result<bool, AllocError>
        ensures { IfOk result (λ shows. MatchBool shows (ShowsOwner ticket.now owner.now (text_of self.now.parts))
            (ShowsOwner ticket.now owner.now (text_of self.now.parts) → ⊥)) }
    {
        let text = self.parts.text(alloc)?;
        Ok(shows_owner(ticket, owner, &text))
    }
}

/// Requests the list from this peer, at this reading, and waits until all its parts have arrived. The parts are then
/// in the room.
///
/// # Errors
///
/// Returns `Failed` only if the request could not be sent.
pub fn talk_list<H: Host>(
    asking: &Asking,
    to: &Peer,
    start: u64,
    room: &mut ListRoom,
    host: &mut H,
) -> Result<Listed, Failed>
    requires list { is_list asking.now.order ≡ true }
    requires none { AreNone room.old.parts }
    ensures past { GrewSome (IsListTalk asking.now to.now start result (text_of room.new.parts))
        (H.past host.old) (H.past host.new) }
    ensures cause { HasCause (H.faults host.old) (H.faults host.new) result }
{
    put_request(asking, start, &mut room.frame);
    match host.send(to, room.frame.bytes()) {
        Ok(()) => Ok(wait_list(asking, start, &mut room.datagram, &mut room.parts, host)),
        Err(failed) => Err(failed),
    }
}
