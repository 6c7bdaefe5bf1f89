//! The link over TCP of a client to one member.

use booth_base::Peer;
use booth_host::Datagram;
use booth_stream::{Cutter, Got, PIECE_BYTES};
use mio::net::TcpStream;
use mio::{Events, Interest, Poll, Token};
use std::alloc::Global;
use std::io;
use std::io::{ErrorKind, Read, Write};
use std::net::SocketAddr;
use std::time::Duration;

/// How long a link may take to open, in milliseconds.
const CONNECT_MS: u64 = 1_000;

/// How many pieces one call reads: the pieces of the longest frame, and one more.
const READS: u32 = 6;

/// An open link, and the bytes that arrived over it.
#[derive(Drop)]
pub(crate) struct ClientLink {
    peer: Peer,
    stream: TcpStream,
    poll: Poll,
    events: Events,
    cutter: Cutter,
    piece: Vec<u8>,
    /// The beginning and the end of the piece's bytes that the cutter has not taken.
    seen: usize,
    count: usize,
}

/// What arrived over a link.
#[derive(Clone, Copy, PartialEq, Eq)]
pub(crate) enum Received {
    Frame,
    Nothing,
    /// The link has ended.
    End,
}

// Waits until the stream is connected.
fn wait_for(stream: &TcpStream, poll: &mut Poll, events: &mut Events) -> io::Result<()> {
    poll.poll(events, Some(Duration::from_millis(CONNECT_MS)))?;
    if let Some(error) = stream.take_error()? {
        return Err(error);
    }
    match stream.peer_addr() {
        Ok(_) => Ok(()),
        Err(error) if error.kind() == ErrorKind::NotConnected => {
            Err(io::Error::from(ErrorKind::TimedOut))
        }
        Err(error) => Err(error),
    }
}

// Connects a stream to this member, and watches it for bytes.
fn connect(
    rt: &HostRuntime,
    peer: &Peer,
    poll: &mut Poll,
    events: &mut Events,
) -> io::Result<TcpStream> {
    let mut stream = TcpStream::connect(rt, SocketAddr::new(peer.address.to_ip(), peer.port))?;
    poll.registry()
        .register(&mut stream, Token(0), Interest::WRITABLE)?;
    wait_for(&stream, poll, events)?;
    stream.set_nodelay(true)?;
    poll.registry()
        .reregister(&mut stream, Token(0), Interest::READABLE)?;
    Ok(stream)
}

impl ClientLink {
    /// Connects to this member, within a second.
    ///
    /// # Errors
    ///
    /// The member refuses the link or does not answer, or the process has no memory or descriptor left.
    pub(crate) fn open(rt: &HostRuntime, alloc: Global, peer: &Peer) -> io::Result<ClientLink> {
        let mut poll = Poll::new(rt)?;
        let mut events = Events::with_capacity(alloc, 1)?;
        let cutter = Cutter::new(alloc)?;
        let piece = vec![in alloc; 0; PIECE_BYTES]?;
        let stream = connect(rt, peer, &mut poll, &mut events)?;
        Ok(ClientLink {
            peer: *peer,
            stream,
            poll,
            events,
            cutter,
            piece,
            seen: 0,
            count: 0,
        })
    }

    /// Returns the member at its other end.
    pub(crate) fn peer(&self) -> &Peer {
        &self.peer
    }

    /// Sends all of these bytes.
    ///
    /// # Errors
    ///
    /// The link has ended, or takes no more.
    pub(crate) fn write(&mut self, bytes: &[u8]) -> io::Result<()> {
        self.stream.write_all(bytes)
    }

    // Takes the next frame of the bytes that arrived, if it is whole.
    fn feed(&mut self, into: &mut Datagram) -> Received {
        let count = self.count.min(self.piece.len());
        let seen = self.seen.min(count);
        let fed = self.cutter.feed(&self.piece[seen..count], into);
        self.seen = seen.saturating_add(fed.taken);
        match fed.got {
            Got::Frame => Received::Frame,
            Got::Nothing => Received::Nothing,
            Got::Broken => Received::End,
        }
    }

    // Reads the next piece.
    fn read(&mut self) -> io::Result<usize> {
        self.seen = 0;
        self.count = 0;
        let count = self.stream.read(&mut self.piece)?;
        self.count = count;
        Ok(count)
    }

    // Returns the next frame that arrived, if it is whole.
    fn next(&mut self, into: &mut Datagram) -> Received {
        for _ in 0..READS {
            match self.feed(into) {
                Received::Nothing => {}
                received => return received,
            }
            match self.read() {
                Ok(0) => return Received::End,
                Ok(_) => {}
                Err(error) => return match error.kind() {
                    ErrorKind::WouldBlock | ErrorKind::Interrupted => Received::Nothing,
                    _ => Received::End,
                },
            }
        }
        Received::Nothing
    }

    /// Waits for at most this many milliseconds. If the next frame is whole then, writes it to `into`.
    pub(crate) fn receive(&mut self, wait_ms: u64, into: &mut Datagram) -> Received {
        match self.next(into) {
            Received::Nothing => {
                let wait = Some(Duration::from_millis(wait_ms));
                match self.poll.poll(&mut self.events, wait) {
                    Ok(()) => self.next(into),
                    Err(_) => Received::End,
                }
            }
            received => received,
        }
    }
}
