//! The slots of a host over streams, one after the other.
ghost use Rattle.std.specs.Prelude.{◌≡◌, ◌≤◌, IfOk, IsFalse, IsTrue, None, replicate};
ghost use Rattle.std.specs.List.{All, list_all, list_any, position};
ghost use Rattle.booth_stream.specs.Calls.{CallsGrewBy};
ghost use Rattle.booth_stream.specs.Places.{added, closing, closings, ended, has_number, is_free, opened, unbroken, unless_broken, without};
ghost use Rattle.booth_stream.specs.Slot.{IsAtRest, IsFed, link_in};
ghost use Rattle.booth_stream.specs.Slots.{GivesOne, Reaches, links_in};

use crate::memory_links::push;
use crate::slot::{Caller, Slot};
use crate::{Links, Piece};
use booth_base::Peer;
use booth_host::Datagram;
use std::alloc::{AllocError, Global};

/// How many links are served at a time.
pub const LINKS: usize = 16;

/// Moves a frame to `into` and returns its peer: the next whole frame of the first link that has one.
pub(crate) fn give_first(slots: &mut [Slot], into: &mut Datagram) -> Option<Peer>
    ensures { GivesOne slots.old result into.new slots.new }
{
    for place in 0..slots.len() {
        if let Some(peer) = slots[place].give(into) {
            return Some(peer);
        }
    }
    None
}

// Closes the link of this place if it is broken.
fn close_if_broken<L: Links>(slot: &mut Slot, links: &mut L)
    requires { IsFed slot.old }
    ensures link { link_in slot.new ≡ unless_broken (link_in slot.old) }
    ensures rests { IsAtRest slot.new }
    ensures calls { CallsGrewBy (L.past links.old) (L.past links.new) (closing (link_in slot.old)) }
    ensures later { L.faults links.old ≤ L.faults links.new }
{
    if let Some(number) = slot.drop_broken() {
        links.close(number);
    }
}

/// Closes each broken link.
pub(crate) fn close_broken<L: Links>(slots: &mut [Slot], links: &mut L)
    requires { All IsFed slots.old }
    ensures places { links_in slots.new ≡ unbroken (links_in slots.old) }
    ensures rests { All IsAtRest slots.new }
    ensures calls { CallsGrewBy (L.past links.old) (L.past links.new) (closings (links_in slots.old)) }
    ensures later { L.faults links.old ≤ L.faults links.new }
{
    for place in 0..slots.len() {
        close_if_broken(&mut slots[place], links);
    }
}

/// Frees the places of this number, and returns whether there was one.
pub(crate) fn leave(slots: &mut [Slot], number: u32) -> bool
    ensures places { links_in slots.new ≡ without number (links_in slots.old) }
    ensures found { result ≡ list_any (has_number number) (links_in slots.old) }
{
    let mut found = false;
    for place in 0..slots.len() {
        if slots[place].leave(number) {
            found = true;
        }
    }
    found
}

/// Appends bytes to the link with this number.
pub(crate) fn add(slots: &mut [Slot], number: u32, piece: &Piece)
    requires { All IsAtRest slots.old }
    ensures { links_in slots.new ≡ added number piece.now (links_in slots.old) }
{
    for place in 0..slots.len() {
        slots[place].add(number, piece);
    }
}

/// Returns whether no link is open.
pub(crate) fn are_free(slots: &[Slot]) -> bool
    ensures { result ≡ list_all (λ slot. is_free (link_in slot)) slots.now }
{
    slots.iter().all(|slot| slot.is_free())
}

// Returns the first free place.
fn free_place(slots: &[Slot]) -> Option<usize>
    ensures { result ≡ position (λ slot. is_free (link_in slot)) slots.now }
{
    slots.iter().position(|slot| slot.is_free())
}

/// Starts a link in the first free place. If there is none, closes the link.
pub(crate) fn open<L: Links>(slots: &mut [Slot], caller: Caller, links: &mut L)
    ensures places { links_in slots.new ≡ (opened caller.number caller.peer (links_in slots.old)).places }
    ensures calls { CallsGrewBy (L.past links.old) (L.past links.new)
        (opened caller.number caller.peer (links_in slots.old)).calls }
    ensures later { L.faults links.old ≤ L.faults links.new }
{
    leave(slots, caller.number);
    match free_place(slots) {
        Some(place) => slots[place].begin(caller),
        None => links.close(caller.number),
    }
}

/// Closes the link with this number, if it is open.
pub(crate) fn end<L: Links>(slots: &mut [Slot], number: u32, links: &mut L)
    ensures places { links_in slots.new ≡ (ended number (links_in slots.old)).places }
    ensures calls { CallsGrewBy (L.past links.old) (L.past links.new) (ended number (links_in slots.old)).calls }
    ensures later { L.faults links.old ≤ L.faults links.new }
{
    if leave(slots, number) {
        links.close(number);
    }
}

fn is_same(one: &Peer, other: &Peer) -> bool
    ensures same { IsTrue result → one.now ≡ other.now }
    ensures differ { IsFalse result → one.now ≡ other.now → ⊥ }
{
    one == other
}

/// Returns the number of a link that is open to this peer.
pub(crate) fn reach(slots: &[Slot], peer: &Peer) -> Option<u32>
    ensures { Reaches (links_in slots.now) peer.now result }
{
    for slot in slots {
        if let Some(caller) = slot.caller() {
            if is_same(&caller.peer, peer) {
                return Some(caller.number);
            }
        }
    }
    None
}

/// Returns free places.
pub(crate) fn free_slots(alloc: Global) -> Result<Vec<Slot>, AllocError>
    ensures { IfOk result (λ slots. links_in slots.items ≡ replicate 16 None) }
{
    let mut slots = Vec::with_capacity(alloc, LINKS)?;
    for place in 0..LINKS {
        push(&mut slots, Slot::new(alloc)?)?;
    }
    Ok(slots)
}
