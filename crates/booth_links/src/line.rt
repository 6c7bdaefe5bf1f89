//! The stream of one link, and the bytes that its peer has not taken yet.
ghost use Rattle.std.specs.Prelude.{◌≡◌, ◌≤◌, [], IfNone, IfSome, IsFalse, IsTrue, drop, length};
ghost use Rattle.booth_links.specs.Queue.{KeepsOrder};

use crate::queue::Queue;
use mio::net::TcpStream;
use mio::{Interest, Registry, Token};
use std::alloc::{AllocError, Global};
use std::io;
use std::io::{ErrorKind, Read, Write};

/// The event for which the system watches a line.
#[derive(Clone, Copy)]
enum Watch {
    Bytes,
    /// Room for what is queued.
    Room,
}

/// The stream at a seat, if there is one.
#[derive(Drop)]
pub(crate) struct Line {
    stream: Option<TcpStream>,
    queue: Queue,
    watch: Watch,
}

/// The result of looking at a line.
#[derive(Clone, Copy)]
pub(crate) enum Heard {
    /// This many bytes arrived.
    Bytes(usize),
    /// The peer took some of the queued bytes.
    Took,
    Nothing,
    /// The stream has ended.
    End,
}

// Writes as many of these bytes as the system takes at once, and returns how many, or none if the stream has ended.
fn give(stream: &mut TcpStream, bytes: &[u8]) -> Option<usize>
    ensures { IfSome result (λ given. given ≤ length bytes.now) }
{
    match stream.write(bytes) {
        Ok(given) => Some(given),
        Err(error) => match error.kind() {
            ErrorKind::WouldBlock | ErrorKind::Interrupted => Some(0),
            _ => None,
        },
    }
}

// Reads the bytes that arrived into the buffer.
fn take(stream: &mut TcpStream, buffer: &mut [u8]) -> Heard {
    match stream.read(buffer) {
        Ok(0) => Heard::End,
        Ok(count) => Heard::Bytes(count),
        Err(error) => match error.kind() {
            ErrorKind::WouldBlock | ErrorKind::Interrupted => Heard::Nothing,
            _ => Heard::End,
        },
    }
}

// Queues the bytes that the system did not take, as far as they fit. Returns how many bytes the system and the queue
// took together.
#[tactic(auto, using(crate::proofs::QueueLemmas::some_given))]
fn queue_rest(queue: &mut Queue, bytes: &[u8], given: usize) -> usize
    requires empty { queue.old ≡ [] }
    requires within { given ≤ length bytes.now }
    ensures fits { result ≤ length bytes.now }
    ensures order { KeepsOrder queue.old bytes.now result queue.new }
{
    let (_, rest) = bytes.split_at(given);
    given + queue.put(rest)
}

impl Line {
    /// Returns a line without a stream, with the memory of its queue.
    pub(crate) fn new(alloc: Global) -> Result<Line, AllocError> {
        Ok(Line {
            stream: None,
            queue: Queue::new(alloc)?,
            watch: Watch::Bytes,
        })
    }

    /// Starts a link over this stream. The system watches the stream for bytes.
    pub(crate) fn begin(&mut self, stream: TcpStream) {
        self.queue.clear();
        self.watch = Watch::Bytes;
        self.stream = Some(stream);
    }

    /// Closes the stream, and drops the queued bytes.
    pub(crate) fn end(&mut self) {
        self.queue.clear();
        self.stream = None;
    }

    /// Returns whether bytes are queued.
    pub(crate) fn has_queued(&self) -> bool
        ensures nothing { IsFalse result → self.now.queue ≡ [] }
        ensures some { IsTrue result → self.now.queue ≡ [] → ⊥ }
    {
        !self.queue.is_empty()
    }

    // Writes queued bytes to the peer, and returns how many it took, or none if the stream has ended.
    fn drain(&mut self) -> Option<usize>
        ensures passed { IfSome result (λ count. (count ≤ length self.old.queue)
            × (self.new.queue ≡ drop count self.old.queue)) }
        ensures over { IfNone result (self.new.queue ≡ self.old.queue) }
    {
        let stream = self.stream.as_mut()?;
        let given = give(stream, self.queue.bytes())?;
        self.queue.pass(given);
        Some(given)
    }

    /// Looks at this line. Nothing is read before the peer has taken the queued bytes: from a peer that sends
    /// requests and does not read, the daemon does not read either.
    pub(crate) fn hear(&mut self, buffer: &mut [u8]) -> Heard {
        if self.queue.is_empty() {
            return match &mut self.stream {
                Some(stream) => take(stream, buffer),
                None => Heard::End,
            };
        }
        match self.drain() {
            Some(0) => Heard::Nothing,
            Some(_) => Heard::Took,
            None => Heard::End,
        }
    }

    // The same, except for the queued bytes that the peer takes now.
    #[tactic(auto, using(crate::proofs::QueueLemmas::nothing_taken, crate::proofs::QueueLemmas::all_queued))]
    fn add(&mut self, bytes: &[u8]) -> usize
        ensures fits { result ≤ length bytes.now }
        ensures order { KeepsOrder self.old.queue bytes.now result self.new.queue }
    {
        let Some(stream) = &mut self.stream else {
            return 0;
        };
        if !self.queue.is_empty() {
            return self.queue.put(bytes);
        }
        let Some(given) = give(stream, bytes) else {
            return 0;
        };
        queue_rest(&mut self.queue, bytes, given)
    }

    /// Writes as many of these bytes as the peer takes at once, and queues as many of the others as fit. Returns how
    /// many bytes that is: none if the stream has ended or the queue is full.
    #[tactic(auto, using(crate::proofs::QueueLemmas::nothing_taken, crate::proofs::QueueLemmas::first_passed))]
    pub(crate) fn write(&mut self, bytes: &[u8]) -> usize
        ensures fits { result ≤ length bytes.now }
        ensures order { KeepsOrder self.old.queue bytes.now result self.new.queue }
    {
        if !self.queue.is_empty() && self.drain().is_none() {
            return 0;
        }
        self.add(bytes)
    }

    /// Returns whether the system reports this line by itself when more arrives: it is watched for bytes, and a read
    /// with room for more took all that were there (epoll(7), "Do I need to continuously read").
    pub(crate) fn is_read_out(&self, heard: Heard, room: usize) -> bool {
        match (heard, self.watch) {
            (Heard::Bytes(count), Watch::Bytes) => count < room,
            (Heard::Bytes(_), Watch::Room) | (Heard::Took | Heard::Nothing | Heard::End, _) =>
                false,
        }
    }

    /// Has the system report this line: when there is room for the queued bytes, or else when bytes arrive. What
    /// holds already is reported at once.
    pub(crate) fn watch(&mut self, registry: &Registry, seat: usize) -> io::Result<()> {
        let wanted = if self.queue.is_empty() {
            self.watch = Watch::Bytes;
            Interest::READABLE
        } else {
            self.watch = Watch::Room;
            Interest::WRITABLE
        };
        match &mut self.stream {
            Some(stream) => registry.reregister(stream, Token(seat), wanted),
            None => Ok(()),
        }
    }
}
