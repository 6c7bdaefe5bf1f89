//! The transport of a client's requests: datagrams, or a link over TCP.
ghost use Rattle.std.specs.Prelude.{◌≡◌, IfNone, IfSome};
ghost use Rattle.booth_links.specs.Transport.{name_of};

use crate::client_link::{ClientLink, Received};
use booth_base::Peer;
use booth_host::Datagram;
use std::alloc::Global;
use std::io;
use std::io::{ErrorKind, Write};
use std::time::Instant;

/// How long a member is silent before a request is repeated over TCP, in milliseconds.
const SILENCE_MS: u128 = 1_000;

/// How long one look at a link waits, in milliseconds: an answer may arrive as a datagram as well.
const LOOK_MS: u64 = 20;

/// The transport of requests.
#[derive(Clone, Copy, PartialEq, Eq)]
pub enum Transport {
    /// As datagrams.
    Udp,
    /// Over TCP, and as datagrams to a member that accepts no link.
    Tcp,
    /// As datagrams; a request that is not answered within a second is repeated over TCP, and later ones of the same
    /// run go there.
    Either,
}

/// A request that went as a datagram and was not answered.
#[derive(Drop)]
struct Unanswered {
    to: Peer,
    bytes: Vec<u8>,
    /// When it was sent, if the clock could be read.
    since: Option<Instant>,
}

/// The result of repeating a request that was not answered.
#[derive(Drop)]
enum Repeated {
    /// It went over a link.
    Went(Peer),
    /// There is no link, for this reason.
    NoLink(Peer, io::Error),
}

/// A client's transport: its link, and the requests to repeat over one.
#[derive(Drop)]
pub(crate) struct Ways {
    rt: HostRuntime,
    /// The name of the program, with which its lines begin.
    name: &'static str,
    transport: Transport,
    link: Option<ClientLink>,
    unanswered: Option<Unanswered>,
    /// The result of the last repetition, until a member answers.
    repeated: Option<Repeated>,
}

impl Transport {
    /// Returns the transport of this name: `udp`, `tcp`, or no byte for either. Every other name has none.
    pub fn named(name: &str) -> Option<Transport>
        ensures some { IfSome result (λ transport. name.now ≡ name_of transport) }
        ensures none { IfNone result ((transport : Transport) → name.now ≡ name_of transport → ⊥) }
    {
        match name {
            "udp" => Some(Transport::Udp),
            "tcp" => Some(Transport::Tcp),
            "" => Some(Transport::Either),
            _ => None,
        }
    }
}

impl Ways {
    pub(crate) fn new(rt: HostRuntime, name: &'static str, transport: Transport) -> Ways {
        Ways {
            rt,
            name,
            transport,
            link: None,
            unanswered: None,
            repeated: None,
        }
    }

    // Returns whether a link to this member is open.
    fn is_linked(&self, to: &Peer) -> bool {
        match &self.link {
            Some(link) => link.peer() == to,
            None => false,
        }
    }

    // Writes these bytes to the link. If the link does not take them, it has ended.
    fn write(&mut self, bytes: &[u8]) -> io::Result<()> {
        let written = match &mut self.link {
            Some(link) => link.write(bytes),
            None => Ok(()),
        };
        if written.is_err() {
            self.link = None;
        }
        written
    }

    // Sends these bytes over TCP.
    fn link_and_write(&mut self, to: &Peer, bytes: &[u8]) -> io::Result<()> {
        if !self.is_linked(to) {
            self.link = None;
            self.link = Some(ClientLink::open(&self.rt, self.rt.alloc(), to)?);
        }
        self.write(bytes)
    }

    // Prints why there is no link that the arguments demand.
    fn tell(&self, to: &Peer, error: &io::Error) {
        let address = to.address.print();
        let mut stderr = self.rt.stderr();
        let _ = stderr.write_all(self.name.as_bytes());
        let _ = stderr.write_all(b": no link over TCP to ");
        let _ = stderr.write_all(address.as_bytes());
        let _ = write!(stderr, ": {error}; it is asked by UDP\n");
    }

    /// Sends these bytes over TCP if that is their transport, and returns whether they went.
    pub(crate) fn sends(&mut self, to: &Peer, bytes: &[u8]) -> bool {
        self.unanswered = None;
        match self.transport {
            Transport::Udp => false,
            Transport::Tcp => match self.link_and_write(to, bytes) {
                Ok(()) => true,
                Err(error) => {
                    self.tell(to, &error);
                    false
                }
            },
            Transport::Either => self.is_linked(to) && self.write(bytes).is_ok(),
        }
    }

    /// Notes that these bytes went as a datagram.
    pub(crate) fn went(&mut self, to: &Peer, bytes: &[u8]) {
        if self.transport != Transport::Either {
            return;
        }
        let mut copy = Vec::new(self.rt.alloc());
        if copy.extend_from_slice(bytes).is_ok() {
            let since = Instant::now(&self.rt).ok();
            self.unanswered = Some(Unanswered {
                to: *to,
                bytes: copy,
                since,
            });
        }
    }

    /// Notes that a member answered.
    pub(crate) fn heard(&mut self) {
        self.unanswered = None;
        self.repeated = None;
    }

    // Returns a request that was not answered for so long that it is repeated.
    fn overdue(&mut self) -> Option<Unanswered> {
        let since = match &self.unanswered {
            Some(request) => request.since,
            None => return None,
        };
        let passed = since?.elapsed(&self.rt).ok()?;
        if passed.as_millis() < SILENCE_MS {
            return None;
        }
        self.unanswered.take()
    }

    /// Repeats over TCP a request that was not answered for a second, once.
    pub(crate) fn repeat(&mut self) {
        if let Some(request) = self.overdue() {
            self.repeated = Some(match self.link_and_write(&request.to, &request.bytes) {
                Ok(()) => Repeated::Went(request.to),
                Err(error) => Repeated::NoLink(request.to, error),
            });
        }
    }

    // Prints this text about a member, after the program's name and the member's address.
    fn say_of(&self, member: &Peer, text: &str) {
        let address = member.address.print();
        let mut stderr = self.rt.stderr();
        let _ = stderr.write_all(self.name.as_bytes());
        let _ = stderr.write_all(b": ");
        let _ = stderr.write_all(address.as_bytes());
        let _ = stderr.write_all(text.as_bytes());
    }

    // Prints why there is no link to this member.
    fn say_no_link(&self, member: &Peer, error: &io::Error) {
        if error.kind() == ErrorKind::ConnectionRefused {
            self.say_of(
                member,
                " refuses links over TCP too: does the daemon run there?\n",
            );
            return;
        }
        self.say_of(member, " takes no link over TCP either: ");
        let mut stderr = self.rt.stderr();
        let _ = write!(stderr, "{error}\n");
    }

    /// Prints what is known about why no member answered.
    pub(crate) fn say_silence(&self) {
        match &self.repeated {
            Some(Repeated::Went(member)) => {
                let text =
                    " takes links over TCP, and does not answer: compare its key and its clock with those here\n";
                self.say_of(member, text);
            }
            Some(Repeated::NoLink(member, error)) => self.say_no_link(member, error),
            None => {}
        }
    }

    /// Waits briefly for the next frame of the link, and returns its sender.
    pub(crate) fn receive(&mut self, wait_ms: u64, into: &mut Datagram) -> Option<Peer> {
        let Some(link) = &mut self.link else {
            return None;
        };
        match link.receive(wait_ms.min(LOOK_MS), into) {
            Received::Frame => {
                let peer = *link.peer();
                self.heard();
                Some(peer)
            }
            Received::Nothing => None,
            Received::End => {
                self.link = None;
                None
            }
        }
    }

    /// Returns how long the host may wait for a datagram: not at all if there is a link, since the link waits next.
    pub(crate) fn wait_beside(&self, wait_ms: u64) -> u64 {
        if self.link.is_some() { 0 } else { wait_ms }
    }
}
