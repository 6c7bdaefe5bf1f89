//! The listener of a place, and the pending peers.
ghost use Rattle.std.specs.Prelude.{◌≡◌, None, IfOk, take};

use crate::addresses::{listen, peer_at};
use crate::pending::{Pending, PendingPeer};
use booth_host::Place;
use booth_stream::LINKS;
use mio::net::{TcpListener, TcpStream};
use mio::{Interest, Registry, Token};
use std::alloc::{AllocError, Global};
use std::io;
use std::io::ErrorKind;
use std::net::SocketAddr;

/// The token of the listener. The lines have those of their seats.
pub(crate) const LISTENER: usize = LINKS;

/// How long no connection is accepted after an accept failed, in milliseconds.
const REST_MS: u64 = 1_000;

/// The most connections that are accepted at once.
const AT_ONCE: u32 = 32;

/// When the next connection is accepted.
#[derive(Clone, Copy)]
enum Accepting {
    AtOnce,
    /// An accept failed. It is tried again at this moment.
    From(u64),
}

/// The listener of a place, once one was opened, and the pending peers.
#[derive(Drop)]
pub(crate) struct Entrance {
    listener: Option<TcpListener>,
    accepting: Accepting,
    /// The port of the place: all daemons have the same port.
    port: u16,
    pending: Pending,
}

/// Returns the error of a call before a place is opened.
pub(crate) fn unopened() -> io::Error {
    io::Error::from(ErrorKind::NotConnected)
}

impl Entrance {
    /// Returns an entrance without a listener.
    pub(crate) fn new(alloc: Global) -> Result<Entrance, AllocError>
        ensures { IfOk result (λ entrance. entrance.listener ≡ None) }
    {
        Ok(Entrance {
            listener: None,
            accepting: Accepting::AtOnce,
            port: 0,
            pending: Pending::new(alloc)?,
        })
    }

    /// Leaves room for at most `count` pending peers. It is called before a place is opened.
    pub(crate) fn limit(&mut self, count: usize)
        ensures { self.new.pending.places.items ≡ take count self.old.pending.places.items }
    {
        self.pending.limit(count);
    }

    /// Starts to listen at this place. A listener from before is closed first, and pending peers stay.
    pub(crate) fn listen_at(
        &mut self,
        rt: &HostRuntime,
        place: &Place,
        registry: &Registry,
    ) -> io::Result<()> {
        self.listener = None;
        self.accepting = Accepting::AtOnce;
        let mut listener = listen(rt, place)?;
        registry.register(&mut listener, Token(LISTENER), Interest::READABLE)?;
        self.listener = Some(listener);
        self.port = place.port;
        Ok(())
    }

    // Has the system report the next connection, or a connection that waits already.
    fn watch(&mut self, registry: &Registry) -> io::Result<()> {
        self.accepting = Accepting::AtOnce;
        match &mut self.listener {
            Some(listener) => registry.reregister(listener, Token(LISTENER), Interest::READABLE),
            None => Err(unopened()),
        }
    }

    // Makes a connection pending. A connection from the daemons' port is closed: messages to a daemon there would go
    // into the link.
    fn admit(
        &mut self,
        stream: TcpStream,
        from: SocketAddr,
        now: u64,
        registry: &Registry,
    ) -> io::Result<()> {
        let peer = peer_at(from);
        if peer.port == self.port {
            return Ok(());
        }
        stream.set_nodelay(true)?;
        self.pending
            .take_in(PendingPeer::new(stream, peer, now), registry)
    }

    // Handles an accept that failed. If the system has no room for a connection, it is tried again after a rest.
    fn miss(&mut self, error: io::Error, now: u64) -> io::Result<()> {
        match error.kind() {
            ErrorKind::WouldBlock | ErrorKind::Interrupted | ErrorKind::ConnectionAborted => Ok(()),
            _ => {
                self.accepting = Accepting::From(now.saturating_add(REST_MS));
                Err(error)
            }
        }
    }

    /// Accepts the waiting connections, and no more than `AT_ONCE`: others are reported again.
    ///
    /// # Errors
    ///
    /// An accept failed.
    pub(crate) fn accept(&mut self, now: u64, registry: &Registry) -> io::Result<()> {
        if self.pending.is_closed() {
            return Ok(());
        }
        self.watch(registry)?;
        for _ in 0..AT_ONCE {
            let Some(listener) = &self.listener else {
                return Err(unopened());
            };
            match listener.accept() {
                // (one that has gone already does not count)
                Ok((stream, from)) => {
                    let _ = self.admit(stream, from, now, registry);
                }
                Err(error) => return self.miss(error, now),
            }
        }
        Ok(())
    }

    /// Accepts again when the rest after a failed accept has passed.
    pub(crate) fn end_rest(&mut self, now: u64, registry: &Registry) -> io::Result<()> {
        match self.accepting {
            Accepting::From(moment) if moment <= now => self.watch(registry),
            Accepting::From(_) | Accepting::AtOnce => Ok(()),
        }
    }

    /// Returns whether connections are accepted again after a rest, or a peer is pending.
    pub(crate) fn is_timed(&self) -> bool {
        matches!(self.accepting, Accepting::From(_)) || self.pending.has_peers()
    }

    /// Notes the bytes that the peer with this token has sent. `is_last`: it sends no more.
    pub(crate) fn hear(&mut self, token: usize, is_last: bool) {
        self.pending.hear(token, is_last);
    }

    /// Closes the peers that have waited for too long.
    pub(crate) fn clear_over(&mut self, now: u64) {
        self.pending.clear_over(now);
    }

    /// Returns whether a pending peer may have sent a whole frame.
    pub(crate) fn has_ready(&self) -> bool {
        self.pending.has_ready()
    }

    /// Takes the first peer that has sent a whole frame.
    pub(crate) fn take_ready(&mut self) -> Option<PendingPeer> {
        self.pending.take_ready()
    }
}
