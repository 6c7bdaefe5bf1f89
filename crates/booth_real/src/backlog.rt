//! Datagrams that were taken from the system before anybody asked for them, in the order of arrival.
//!
//! While a turn writes thousands of records, answers arrive faster than the system's queue of one socket can hold
//! them.
ghost use Rattle.std.specs.Prelude.{◌≡◌, ◌≤◌, ◌<◌, ◌+◌, ◌/◌, ◌++◌, [], ◌∷◌, length, IfOk, IsFalse, IsTrue};
ghost use Rattle.std.specs.Prelude.{vec_capacity, vec_len};
ghost use Rattle.std.specs.List.{All};
ghost use Rattle.std.specs.VecDeque.{deque_capacity};
ghost use Rattle.booth_host.specs.declared.datagram.TheConstants.{DATAGRAM_BYTES};
ghost use Rattle.booth_real.specs.declared.backlog.TheConstants.{BACKLOG_BYTES, BACKLOG_DATAGRAMS, SOCKETS};
ghost use Rattle.booth_real.specs.Waiting.{GivesFirst, HasRoom, total, waits};
ghost use Rattle.booth_real.specs.Waiting.{AreCounted, AreWithin, filled_by, room_of};

use booth_base::{MEMBERS, Peer};
use booth_host::{DATAGRAM_BYTES, Datagram};
use std::alloc::{AllocError, Global};
use std::collections::VecDeque;

/// The capacity in bytes.
pub(crate) const BACKLOG_BYTES: usize = 4_194_304;

/// The most datagrams that wait.
pub(crate) const BACKLOG_DATAGRAMS: usize = 16_384;

/// The most sockets that datagrams come from: one for each member, and one for all others.
pub(crate) const SOCKETS: usize = MEMBERS + 1;

/// The least room that a datagram takes up: an equal part of the capacity for each of the most datagrams.
pub(crate) const LEAST_ROOM: usize = 256;

/// A quarter of the capacity: when this many bytes were returned, their room is freed.
const GIVEN_BYTES: usize = 1_048_576;

/// One datagram that waits: its sender, how many bytes it has, and the place of the socket that it came from.
#[derive(Clone, Copy)]
struct Held {
    from: Peer,
    length: usize,
    place: usize,
}

// Returns how much room a datagram with this many bytes takes up.
fn room_of(bytes: usize) -> usize
    ensures { result ≡ room_of bytes }
{
    bytes.max(LEAST_ROOM)
}

/// The datagrams that wait. All memory is allocated at the start.
#[derive(Drop)]
pub(crate) struct Backlog {
    held: VecDeque<Held>,
    /// The bytes of everything that waits, behind those that were returned.
    bytes: Vec<u8>,
    /// How many bytes were returned.
    given: usize,
    /// The part of the capacity that the datagrams of one socket may take up.
    share: usize,
    /// How much room the datagrams of each socket take up, by the place of the socket.
    filled: [usize; SOCKETS],
    ghost places: { BACKLOG_DATAGRAMS ≤ deque_capacity held },
    ghost few: { length held.items ≤ BACKLOG_DATAGRAMS },
    ghost room: { BACKLOG_BYTES ≤ vec_capacity bytes },
    ghost short: { vec_len bytes ≤ BACKLOG_BYTES },
    ghost whole: { given + total held.items ≡ length bytes.items },
    ghost each: { All (λ one. (one.length ≤ DATAGRAM_BYTES) × (one.place < SOCKETS)) held.items },
    ghost part: { share ≤ BACKLOG_BYTES },
    ghost counted: { AreCounted filled held.items },
    ghost fair: { AreWithin share held.items },
}

impl Backlog {
    /// Returns an empty backlog with all its memory.
    pub(crate) fn new(alloc: Global) -> Result<Backlog, AllocError>
        ensures { IfOk result (λ backlog. waits backlog.held.items backlog.given backlog.bytes.items ≡ []) }
    {
        Ok(Backlog {
            held: VecDeque::with_capacity(alloc, BACKLOG_DATAGRAMS)?,
            bytes: Vec::with_capacity(alloc, BACKLOG_BYTES)?,
            given: 0,
            share: BACKLOG_BYTES,
            filled: [0; SOCKETS],
        })
    }

    /// Returns whether there is room for one more datagram of any length.
    pub(crate) fn has_room(&self) -> bool
        ensures room { IsTrue result → HasRoom (vec_len self.now.bytes) (length self.now.held.items) }
        ensures full { IsFalse result → HasRoom (vec_len self.now.bytes) (length self.now.held.items) → ⊥ }
    {
        self.bytes.len() <= BACKLOG_BYTES - DATAGRAM_BYTES && self.held.len() < BACKLOG_DATAGRAMS
    }

    /// Returns whether there is room for one more datagram of any length from the socket at this place.
    pub(crate) fn has_room_at(&self, place: usize) -> bool
        requires { place < SOCKETS }
        ensures room { IsTrue result → HasRoom (vec_len self.now.bytes) (length self.now.held.items) }
        ensures part { IsTrue result → filled_by place self.now.held.items < self.now.share }
        ensures full { IsFalse result → HasRoom (vec_len self.now.bytes) (length self.now.held.items)
            → filled_by place self.now.held.items < self.now.share → ⊥ }
    {
        self.has_room() && self.filled[place] < self.share
    }

    /// Returns whether nothing waits.
    pub(crate) fn is_empty(&self) -> bool
        ensures { IsTrue result → waits self.now.held.items self.now.given self.now.bytes.items ≡ [] }
    {
        self.held.is_empty()
    }

    /// Appends a datagram from the socket at this place.
    pub(crate) fn put(&mut self, place: usize, from: &Peer, bytes: &[u8])
        requires room { HasRoom (vec_len self.old.bytes) (length self.old.held.items) }
        requires short { length bytes.now ≤ DATAGRAM_BYTES }
        requires place { place < SOCKETS }
        requires part { filled_by place self.old.held.items < self.old.share }
        ensures { waits self.new.held.items self.new.given self.new.bytes.items
            ≡ waits self.old.held.items self.old.given self.old.bytes.items ++ (from.now, bytes.now) ∷ [] }
    {
        self.bytes.extend_from_slice(bytes).unwrap();
        self.filled[place] += room_of(bytes.len());
        self.held.push_back_reserved(Held {
            from: *from,
            length: bytes.len(),
            place,
        });
    }

    /// Puts the first datagram that waits into `into`, if one waits, and returns its sender.
    pub(crate) fn give(&mut self, into: &mut Datagram) -> Option<Peer>
        ensures { GivesFirst (waits self.old.held.items self.old.given self.old.bytes.items) result into.new
            (waits self.new.held.items self.new.given self.new.bytes.items) }
    {
        let first = self.held.pop_front()?;
        let end = self.given + first.length;
        into.set(&self.bytes[self.given..end]);
        self.given = end;
        self.filled[first.place] -= room_of(first.length);
        self.tidy();
        Some(first.from)
    }

    /// Drops everything that waits.
    pub(crate) fn clear(&mut self)
        ensures nothing { waits self.new.held.items self.new.given self.new.bytes.items ≡ [] }
        ensures empty { self.new.held.items ≡ [] }
    {
        self.held.clear();
        self.bytes.clear();
        self.given = 0;
        self.filled = [0; SOCKETS];
    }

    /// Drops everything that waits. From now on the datagrams of each socket may take up an equal part of the capacity;
    /// there are this many sockets.
    pub(crate) fn divide(&mut self, sockets: usize)
        requires { 0 < sockets }
        ensures nothing { waits self.new.held.items self.new.given self.new.bytes.items ≡ [] }
        ensures share { self.new.share ≡ BACKLOG_BYTES / sockets }
    {
        self.clear();
        self.share = BACKLOG_BYTES / sockets;
    }

    // Frees the room of the returned bytes, if there are many or nothing waits.
    fn tidy(&mut self)
        ensures { waits self.new.held.items self.new.given self.new.bytes.items
            ≡ waits self.old.held.items self.old.given self.old.bytes.items }
    {
        if self.given >= GIVEN_BYTES || self.held.is_empty() {
            self.bytes.drain(..self.given);
            self.given = 0;
        }
    }
}
