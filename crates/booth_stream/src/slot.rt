//! A place of a host over streams: the cutter of one link, and the piece that is being cut.
ghost use Rattle.std.specs.Prelude.{◌≡◌, ◌≤◌, [], IfOk, IsSome, IsTrue, Some, None, length};
ghost use Rattle.booth_stream.specs.Places.{closing, has_number, is_free, unless_broken, unless_number, with_more};
ghost use Rattle.booth_stream.specs.Slot.{GivesFrom, IsAtRest, IsFed, IsIdle, closes, link_in};

use crate::{Cutter, Got, Piece};
use booth_base::Peer;
use booth_host::Datagram;
use std::alloc::{AllocError, Global};
use std::marker::Model;

/// Who opened a link, and the number of the link.
#[derive(Clone, Copy)]
pub(crate) struct Caller {
    pub(crate) number: u32,
    pub(crate) peer: Peer,
}

/// A place for a link, with all the memory that it will need.
#[derive(Drop)]
pub(crate) struct Slot {
    caller: Option<Caller>,
    cutter: Cutter,
    piece: Piece,
    /// How many bytes of the piece the cutter has taken.
    taken: usize,
}

impl Model for Slot {
    ghost use Rattle.std.specs.Prelude.{◌≡◌, ◌≤◌, None, drop, length, []};
    ghost use Rattle.booth_stream.specs.Slot.{PlainSlot};

    ghost Value = { PlainSlot };

    ghost view = { λ s. record { caller = s.caller; held = s.cutter; later = drop s.taken s.piece } };

    ghost invariant = { λ s. (s.taken ≤ length s.piece) × (s.caller ≡ None → drop s.taken s.piece ≡ []) };
}

impl Slot {
    /// Returns a free place.
    pub(crate) fn new(alloc: Global) -> Result<Slot, AllocError>
        ensures { IfOk result (λ slot. link_in slot ≡ None) }
    {
        Ok(Slot {
            caller: None,
            cutter: Cutter::new(alloc)?,
            piece: Piece::new(alloc)?,
            taken: 0,
        })
    }

    /// Returns whether no link is here.
    pub(crate) fn is_free(&self) -> bool
        ensures { result ≡ is_free (link_in self.now) }
    {
        self.caller.is_none()
    }

    /// Returns who opened the link that is here.
    pub(crate) fn caller(&self) -> Option<Caller>
        ensures { result ≡ self.now.caller }
    {
        self.caller
    }

    /// Starts a link without bytes.
    pub(crate) fn begin(&mut self, caller: Caller)
        ensures link { link_in self.new ≡
            Some (record { number = caller.number; peer = caller.peer; rest = [] }) }
    {
        self.free();
        self.caller = Some(caller);
    }

    /// Drops the link that is here, with its bytes.
    pub(crate) fn free(&mut self)
        ensures link { link_in self.new ≡ None }
        ensures held { self.new.held.rest ≡ [] }
        ensures idle { IsIdle self.new }
    {
        self.caller = None;
        self.cutter.restart();
        self.piece.clear();
        self.taken = 0;
    }

    // Returns whether the link with this number is here.
    fn has(&self, number: u32) -> bool
        ensures link { result ≡ has_number number (link_in self.now) }
        ensures there { IsTrue result → IsSome self.now.caller }
    {
        match self.caller {
            Some(caller) => caller.number == number,
            None => false,
        }
    }

    /// Drops the link that is here if it has this number, and returns whether it had.
    pub(crate) fn leave(&mut self, number: u32) -> bool
        ensures link { link_in self.new ≡ unless_number number (link_in self.old) }
        ensures here { result ≡ has_number number (link_in self.old) }
    {
        let here = self.has(number);
        if here {
            self.free();
        }
        here
    }

    /// Appends bytes to the link that is here, if it has this number. The cutter must have taken all earlier bytes.
    pub(crate) fn add(&mut self, number: u32, piece: &Piece)
        requires { IsAtRest self.old }
        ensures { link_in self.new ≡ with_more number piece.now (link_in self.old) }
    {
        if self.has(number) {
            self.piece.set(piece.bytes());
            self.taken = 0;
        }
    }

    /// Returns the link's peer if the next frame is whole, and puts the frame into `into`.
    pub(crate) fn give(&mut self, into: &mut Datagram) -> Option<Peer>
        ensures { GivesFrom self.old result into.new self.new }
    {
        let Some(caller) = self.caller else {
            return None;
        };
        let (_, later) = self.piece.bytes().split_at(self.taken);
        let fed = self.cutter.feed(later, into);
        self.taken += fed.taken;
        match fed.got {
            Got::Frame => Some(caller.peer),
            Got::Nothing => None,
            Got::Broken => None,
        }
    }

    /// Drops the link that is here if it is broken, and returns its number.
    pub(crate) fn drop_broken(&mut self) -> Option<u32>
        requires { IsFed self.old }
        ensures link { link_in self.new ≡ unless_broken (link_in self.old) }
        ensures number { closes result ≡ closing (link_in self.old) }
        ensures rests { IsAtRest self.new }
    {
        let Some(caller) = self.caller else {
            return None;
        };
        if !self.cutter.is_broken() {
            return None;
        }
        self.free();
        Some(caller.number)
    }
}
