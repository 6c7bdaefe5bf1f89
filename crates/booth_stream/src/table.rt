//! The places of a host over streams: which links are open.
ghost use Rattle.std.specs.Prelude.{◌≡◌, ◌≤◌, List, IfOk, IsTrue, None, ◌∷◌, [], replicate};
ghost use Rattle.std.specs.List.{All};
ghost use Rattle.booth_host.specs.Causes.{HasCause};
ghost use Rattle.booth_stream.specs.Calls.{CallsGrewBy};
ghost use Rattle.booth_stream.specs.Known.{KnowsEmpty, KnowsRest};
ghost use Rattle.booth_stream.specs.Places.{after_event, after_poll, closings, unbroken, without};
ghost use Rattle.booth_stream.specs.Slot.{IsAtRest, IsDry};
ghost use Rattle.booth_stream.specs.Slots.{GivesOne, GivesOrRests, Reaches};
ghost use Rattle.booth_stream.specs.declared.link_call.LinkCall.{LinkCall};

use crate::slot::{Caller, Slot};
use crate::slots::{add, are_free, close_broken, end, free_slots, give_first, leave, open, reach};
use crate::{LinkEvent, Links, Piece};
use booth_base::Peer;
use booth_host::{Datagram, Failed};
use std::alloc::{AllocError, Global};

/// Facts about all seats together, so that a turn without an event examines no seat.
#[derive(Clone, Copy)]
pub(crate) enum Known {
    /// No link is open.
    Empty,
    /// No link has a whole frame, and none is broken.
    AtRest,
    Nothing,
}

/// The places of all links.
#[derive(Drop)]
pub(crate) struct Table {
    slots: Vec<Slot>,
    known: Known,
    ghost rest: { KnowsRest known slots.items },
    ghost empty: { KnowsEmpty known slots.items },
}

impl Table {
    ghost use Rattle.booth_stream.specs.Table.{places_of};

    /// Returns free places, with the memory for all links.
    pub(crate) fn new(alloc: Global) -> Result<Table, AllocError>
        ensures { IfOk result (λ table. places_of table ≡ replicate 16 None) }
    {
        Ok(Table {
            slots: free_slots(alloc)?,
            known: Known::Nothing,
        })
    }

    // Returns whether no link has a whole frame and none is broken, as far as is known.
    fn is_at_rest(&self) -> bool
        ensures { IsTrue result → All IsAtRest self.now.slots.items }
    {
        match self.known {
            Known::Empty | Known::AtRest => true,
            Known::Nothing => false,
        }
    }

    // Moves the next whole frame of a link to `into`, and returns the link's peer. Only the link whose bytes arrived
    // last can have one.
    fn give(&mut self, into: &mut Datagram) -> Option<Peer>
        ensures { GivesOne self.old.slots.items result into.new self.new.slots.items }
    {
        match self.known {
            Known::Empty | Known::AtRest => None,
            Known::Nothing => give_first(&mut self.slots, into),
        }
    }

    // Closes each broken link.
    fn close_broken<L: Links>(&mut self, links: &mut L)
        requires { All IsDry self.old.slots.items }
        ensures places { places_of self.new ≡ unbroken (places_of self.old) }
        ensures rests { All IsAtRest self.new.slots.items }
        ensures calls { CallsGrewBy (L.past links.old) (L.past links.new) (closings (places_of self.old)) }
        ensures later { L.faults links.old ≤ L.faults links.new }
    {
        match self.known {
            Known::Empty | Known::AtRest => {}
            Known::Nothing => {
                close_broken(&mut self.slots, links);
                self.known = if are_free(&self.slots) {
                    Known::Empty
                } else {
                    Known::AtRest
                };
            }
        }
    }

    /// Moves the next whole frame of a link to `into`, and returns the link's peer. If no link has a whole frame,
    /// closes each broken link, and all places are at rest.
    pub(crate) fn give_or_rest<L: Links>(
        &mut self,
        into: &mut Datagram,
        links: &mut L,
    ) -> Option<Peer>
        ensures does { (calls : List LinkCall) × CallsGrewBy (L.past links.old) (L.past links.new) calls
            × GivesOrRests self.old.slots.items result into.new calls self.new.slots.items }
        ensures later { L.faults links.old ≤ L.faults links.new }
    {
        if self.is_at_rest() {
            return None;
        }
        self.give_or_close(into, links)
    }

    /// Does the same after a poll. Each of the two is called at one place, so nothing is called if all places are at
    /// rest.
    pub(crate) fn give_polled<L: Links>(
        &mut self,
        into: &mut Datagram,
        links: &mut L,
    ) -> Option<Peer>
        ensures does { (calls : List LinkCall) × CallsGrewBy (L.past links.old) (L.past links.new) calls
            × GivesOrRests self.old.slots.items result into.new calls self.new.slots.items }
        ensures later { L.faults links.old ≤ L.faults links.new }
    {
        if self.is_at_rest() {
            return None;
        }
        self.give_or_close(into, links)
    }

    // Does the same if a link may have a whole frame or may be broken.
    fn give_or_close<L: Links>(&mut self, into: &mut Datagram, links: &mut L) -> Option<Peer>
        ensures does { (calls : List LinkCall) × CallsGrewBy (L.past links.old) (L.past links.new) calls
            × GivesOrRests self.old.slots.items result into.new calls self.new.slots.items }
        ensures later { L.faults links.old ≤ L.faults links.new }
    {
        if let Some(peer) = self.give(into) {
            return Some(peer);
        }
        self.close_broken(links);
        None
    }

    // Handles an event. No slot may still hold bytes of an earlier event.
    fn take<L: Links>(&mut self, event: LinkEvent, piece: &Piece, links: &mut L)
        requires { All IsAtRest self.old.slots.items }
        ensures places { places_of self.new ≡ (after_event event piece.now (places_of self.old)).places }
        ensures calls { CallsGrewBy (L.past links.old) (L.past links.new)
            (after_event event piece.now (places_of self.old)).calls }
        ensures later { L.faults links.old ≤ L.faults links.new }
    {
        match event {
            LinkEvent::Opened { link, peer } => {
                self.known = Known::Nothing;
                open(&mut self.slots, Caller { number: link, peer }, links);
            }
            LinkEvent::Bytes(link) => {
                self.known = Known::Nothing;
                add(&mut self.slots, link, piece);
            }
            LinkEvent::Ended(link) => {
                self.known = Known::Nothing;
                end(&mut self.slots, link, links);
            }
            LinkEvent::Quiet => {}
        }
    }

    /// Polls once if all links are at rest, and handles the event.
    pub(crate) fn poll<L: Links>(
        &mut self,
        piece: &mut Piece,
        links: &mut L,
    ) -> Result<LinkEvent, Failed>
        requires { All IsAtRest self.old.slots.items }
        ensures places { places_of self.new ≡ (after_poll result piece.new (places_of self.old)).places }
        ensures calls { CallsGrewBy (L.past links.old) (L.past links.new)
            (LinkCall.Poll result piece.new ∷ (after_poll result piece.new (places_of self.old)).calls) }
        ensures cause { HasCause (L.faults links.old) (L.faults links.new) result }
    {
        let polled = links.poll(piece);
        match polled {
            Ok(event) => self.take(event, piece, links),
            Err(Failed) => {}
        }
        polled
    }

    /// Returns the number of a link that is open to this peer.
    pub(crate) fn reach(&self, peer: &Peer) -> Option<u32>
        ensures { Reaches (places_of self.now) peer.now result }
    {
        match self.known {
            Known::Empty => None,
            Known::AtRest | Known::Nothing => reach(&self.slots, peer),
        }
    }

    /// Closes the link with this number.
    pub(crate) fn close<L: Links>(&mut self, number: u32, links: &mut L)
        ensures places { places_of self.new ≡ without number (places_of self.old) }
        ensures calls { CallsGrewBy (L.past links.old) (L.past links.new) (LinkCall.Close number ∷ []) }
        ensures later { L.faults links.old ≤ L.faults links.new }
    {
        self.known = Known::Nothing;
        leave(&mut self.slots, number);
        links.close(number);
    }
}
