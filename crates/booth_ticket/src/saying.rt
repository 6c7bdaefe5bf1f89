//! The messages of the rules, to members and to clients.
ghost use Rattle.std.specs.Prelude.{◌≡◌, ◌==◌, ◌<◌, ◌++◌, ◌∷◌, [], cond};
ghost use Rattle.std.specs.Int.{bit_at};
ghost use Rattle.arrayvec.specs.ArrayVec.{array_vec_len};
ghost use Rattle.booth_wire.specs.Command.{kind_of};
ghost use Rattle.booth_wire.specs.declared.command.Kind.{Kind};
ghost use Rattle.booth_raft.specs.Sound.{IsSound};
ghost use Rattle.booth_raft.specs.Speech.{IsSpeech};
ghost use Rattle.booth_base.specs.declared.limits.TheConstants.{MEMBERS};
ghost use Rattle.booth_ticket.specs.Acts.{Did};
ghost use Rattle.booth_ticket.specs.Saying.{others, places_in, say, say_back};

use crate::hands::{Hands, To};
use arrayvec::ArrayVec;
use booth_base::MEMBERS;
use booth_wire::{Head, Say, Setup, TicketPart};

type Places = ArrayVec<u32, MEMBERS>;

// Adds a place to the others, if `looked_for` is true.
fn add_where(places: &mut Places, place: u32, looked_for: bool)
    requires room { array_vec_len places.old < MEMBERS }
    ensures { places.new.items ≡ places.old.items ++ cond looked_for (place ∷ []) [] }
{
    if looked_for {
        places.push(place);
    }
}

// Returns the places of the other members.
fn others(setup: &Setup) -> Places
    requires sound { IsSound setup.now }
    ensures { result.items ≡ others setup.now }
{
    let mut places = ArrayVec::new();
    for place in 0..setup.members {
        add_where(&mut places, place, place != setup.place);
    }
    places
}

fn is_set(bits: u16, place: u32) -> bool
    requires { place < 16 }
    ensures { result ≡ (bit_at bits place == 1) }
{
    (bits >> place) & 1 == 1
}

// Returns the indices of the set bits.
fn places_in(bits: u16) -> Places
    ensures { result.items ≡ places_in bits }
{
    let mut places = ArrayVec::new();
    for place in 0..MEMBERS as u32 {
        add_where(&mut places, place, is_set(bits, place));
    }
    places
}

// Answers the member that sent the message.
#[tactic(auto, using(crate::proofs::DidLemmas::did_end))]
fn say_back<W: Hands>(from: Option<u32>, head: &Head, part: &TicketPart, hands: &mut W)
    requires kind { kind_of head.now.cmd ≡ Kind.Ticket }
    ensures did { Did W.did (say_back from head.now part.now) tt hands.old hands.new }
{
    if let Some(from) = from {
        hands.say(To::Member(from), head, part);
    }
}

/// Sends the message of a rule, after a message of the member at the place `from` or without one.
pub(crate) fn say<W: Hands>(setup: &Setup, from: Option<u32>, words: &Say, hands: &mut W)
    requires sound { IsSound setup.now }
    requires speech { IsSpeech setup.now words.now }
    ensures did { Did W.did (say setup.now from words.now) tt hands.old hands.new }
{
    match words {
        Say::Nothing => {}
        Say::Reply(head, part) => say_back(from, head, part, hands),
        Say::All(head, part) => hands.say_each(&others(setup), head, part),
        Say::Unanswered(head, part, bits) => hands.say_each(&places_in(*bits), head, part),
    }
}
