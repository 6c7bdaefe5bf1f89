//! Pending peers: connections that were accepted and have no seat yet. A peer gets a seat once it has sent a whole
//! frame. A peer that sends less is closed when many others came after it, or when it has waited for too long. A peer
//! that sends bytes of no frame is closed at once.
ghost use Rattle.std.specs.Prelude.{◌≡◌, take};

use crate::seats::IDLE_MS;
use booth_base::Peer;
use booth_host::Datagram;
use booth_stream::{Cutter, Got, LINKS, PIECE_BYTES};
use mio::net::TcpStream;
use mio::{Interest, Registry, Token};
use std::alloc::{AllocError, Global};
use std::io;
use std::io::ErrorKind;

/// The most pending peers.
pub(crate) const PENDING: usize = 512;

/// The time between two searches for peers that have waited for too long, in milliseconds.
const SWEEP_MS: u64 = 1_000;

/// The token of the first place. The smaller tokens belong to the seats and the listener.
pub(crate) const FIRST: usize = LINKS + 1;

/// A connection that was accepted.
#[derive(Drop)]
pub(crate) struct PendingPeer {
    stream: TcpStream,
    peer: Peer,
    /// When it was accepted.
    since: u64,
    /// Whether it has sent a whole frame.
    is_ready: bool,
}

/// Looks at the bytes that a peer has sent, and leaves them to its link.
#[derive(Drop)]
struct Preview {
    cutter: Cutter,
    frame: Datagram,
    buffer: Vec<u8>,
}

/// Places of pending peers. Each new peer gets the place that was given out longest ago.
#[derive(Drop)]
pub(crate) struct Pending {
    places: Vec<Option<PendingPeer>>,
    /// The place that is given out next.
    next: usize,
    /// Whether a peer may be pending. If not, the search for pending peers is skipped.
    is_used: bool,
    /// Whether a peer may have sent a whole frame.
    may_be_ready: bool,
    /// When peers that had waited for too long were last looked for.
    swept_at: u64,
    preview: Preview,
}

/// What a peer has sent so far.
#[derive(Clone, Copy)]
enum Said {
    /// A whole frame, or as many bytes as are read ahead.
    Enough,
    Less,
    /// Bytes with which no frame begins, or the end of the stream.
    End,
}

impl Preview {
    fn new(alloc: Global) -> Result<Preview, AllocError> {
        Ok(Preview {
            cutter: Cutter::new(alloc)?,
            frame: Datagram::new(alloc)?,
            buffer: vec![in alloc; 0; PIECE_BYTES]?,
        })
    }

    // Returns what the first `count` bytes of the buffer are. `is_last`: their peer sends no more.
    fn judge(&mut self, count: usize, is_last: bool) -> Said {
        let count = count.min(self.buffer.len());
        self.cutter.restart();
        match self.cutter.feed(&self.buffer[..count], &mut self.frame).got {
            Got::Frame => Said::Enough,
            Got::Nothing if count == self.buffer.len() => Said::Enough,
            Got::Nothing if count == 0 || is_last => Said::End,
            Got::Nothing => Said::Less,
            Got::Broken => Said::End,
        }
    }

    // Returns what the peer of a stream has sent. `is_last`: it sends no more.
    fn look(&mut self, stream: &TcpStream, is_last: bool) -> Said {
        match stream.peek(&mut self.buffer) {
            Ok(count) => self.judge(count, is_last),
            Err(error) => match error.kind() {
                ErrorKind::WouldBlock | ErrorKind::Interrupted => Said::Less,
                _ => Said::End,
            },
        }
    }
}

// Returns whether the peer of a place has waited for too long.
fn is_over(place: &Option<PendingPeer>, now: u64) -> bool {
    match place {
        Some(waiting) => waiting.since.saturating_add(IDLE_MS) <= now,
        None => false,
    }
}

fn is_ready(place: &Option<PendingPeer>) -> bool {
    match place {
        Some(waiting) => waiting.is_ready,
        None => false,
    }
}

// Notes what the peer of a place has sent. A peer that sends no frame is closed.
fn note(place: &mut Option<PendingPeer>, said: Said) {
    match said {
        Said::Enough => {
            if let Some(waiting) = place {
                waiting.is_ready = true;
            }
        }
        Said::Less => {}
        Said::End => *place = None,
    }
}

impl PendingPeer {
    /// Returns a peer that was accepted at this moment.
    pub(crate) fn new(stream: TcpStream, peer: Peer, now: u64) -> PendingPeer {
        PendingPeer {
            stream,
            peer,
            since: now,
            is_ready: false,
        }
    }

    /// Returns its stream and its address.
    pub(crate) fn into_parts(self) -> (TcpStream, Peer) {
        let PendingPeer {
            stream,
            peer,
            since: _,
            is_ready: _,
        } = self;
        (stream, peer)
    }
}

impl Pending {
    /// Returns free places.
    pub(crate) fn new(alloc: Global) -> Result<Pending, AllocError> {
        let mut places = Vec::with_capacity(alloc, PENDING)?;
        for _ in 0..PENDING {
            if places.push(None).is_err() {
                return Err(AllocError);
            }
        }
        Ok(Pending {
            places,
            next: 0,
            is_used: false,
            may_be_ready: false,
            swept_at: 0,
            preview: Preview::new(alloc)?,
        })
    }

    /// Leaves at most `count` places. It is called before any peer is pending.
    pub(crate) fn limit(&mut self, count: usize)
        ensures { self.new.places.items ≡ take count self.old.places.items }
    {
        self.places.truncate(count);
    }

    /// Returns whether there is no place at all.
    pub(crate) fn is_closed(&self) -> bool {
        self.places.is_empty()
    }

    /// Returns whether a peer may be pending.
    pub(crate) fn has_peers(&self) -> bool {
        self.is_used
    }

    /// Gives a peer the next place, closes the peer that was there, and has the system report the new one.
    pub(crate) fn take_in(&mut self, waiting: PendingPeer, registry: &Registry) -> io::Result<()> {
        let mut waiting = waiting;
        let next = self.next;
        let token = Token(FIRST.saturating_add(next));
        registry.register(&mut waiting.stream, token, Interest::READABLE)?;
        let after = next.saturating_add(1);
        self.next = if after < self.places.len() { after } else { 0 };
        if let Some(place) = self.places.get_mut(next) {
            *place = Some(waiting);
            self.is_used = true;
        }
        Ok(())
    }

    /// Notes what the peer with this token has sent. `is_last`: it sends no more.
    pub(crate) fn hear(&mut self, token: usize, is_last: bool) {
        let Some(place) = self.places.get_mut(token.saturating_sub(FIRST)) else {
            return;
        };
        let said = match place {
            Some(waiting) => self.preview.look(&waiting.stream, is_last),
            None => return,
        };
        self.may_be_ready = self.may_be_ready || matches!(said, Said::Enough);
        note(place, said);
    }

    /// Closes the peers that have waited for too long.
    pub(crate) fn clear_over(&mut self, now: u64) {
        if !self.is_used || now < self.swept_at.saturating_add(SWEEP_MS) {
            return;
        }
        self.swept_at = now;
        for place in &mut self.places {
            if is_over(place, now) {
                *place = None;
            }
        }
        self.is_used = self.places.iter().any(|place| place.is_some());
    }

    /// Returns whether a pending peer may have sent a whole frame.
    pub(crate) fn has_ready(&self) -> bool {
        self.may_be_ready
    }

    // Returns the place of the first peer that has sent a whole frame.
    fn first_ready(&self) -> Option<usize> {
        let next = self.next.min(self.places.len());
        let (late, early) = self.places.split_at(next);
        match early.iter().position(|place| is_ready(place)) {
            Some(place) => Some(next.saturating_add(place)),
            None => late.iter().position(|place| is_ready(place)),
        }
    }

    /// Takes the first peer that has sent a whole frame.
    pub(crate) fn take_ready(&mut self) -> Option<PendingPeer> {
        let Some(place) = self.first_ready() else {
            self.may_be_ready = false;
            return None;
        };
        self.places.get_mut(place)?.take()
    }
}
