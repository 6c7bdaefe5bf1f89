//! The host of a client: any host, and links over TCP to members that do not answer datagrams.
ghost use Rattle.std.specs.Prelude.{None};

use crate::transport::{Transport, Ways};
use booth_base::{ByteText, Name, Peer};
use booth_host::{Arrival, Datagram, Failed, Host, Job, Place, ReadFault};
use booth_rec::Record;
use std::alloc::Global;

/// A host whose requests go over TCP if the transport says so. It does not record its calls.
///
/// A datagram that arrives over a link was sent by the member of that link. A request that is repeated over a link
/// counts as one that the network delivers twice.
#[derive(Drop)]
pub struct ClientHost<H> {
    host: H,
    ways: Ways,
}

impl<H: Host> ClientHost<H> {
    /// Returns this host for the program with this name, without a link.
    pub fn new(
        rt: HostRuntime,
        name: &'static str,
        transport: Transport,
        host: H,
    ) -> ClientHost<H> {
        ClientHost {
            host,
            ways: Ways::new(rt, name, transport),
        }
    }

    /// Prints on standard error why no member answered, if this is known: how its TCP port answered the repeated
    /// request.
    pub fn say_silence(&self) {
        self.ways.say_silence();
    }
}

impl<H: Host> Host for ClientHost<H> {
    ghost past = { λ _. None };

    ghost faults = { λ host. H.faults host.host };

    fn open(&mut self, place: &Place) -> Result<(), Failed> {
        self.host.open(place)
    }

    /// `next` returns frames of the link before datagrams. It waits only briefly while a link is open.
    fn next(&mut self, wait_ms: u64, into: &mut Datagram) -> Result<Arrival, Failed> {
        if let Some(peer) = self.ways.receive(wait_ms, into) {
            return Ok(Arrival::Datagram(peer));
        }
        let answer = self.host.next(self.ways.wait_beside(wait_ms), into);
        match answer {
            Ok(Arrival::Datagram(_)) => self.ways.heard(),
            Ok(Arrival::Quiet) => self.ways.repeat(),
            Ok(Arrival::Handler { .. } | Arrival::Stop) | Err(Failed) => {}
        }
        answer
    }

    fn now(&mut self) -> u64 {
        self.host.now()
    }

    fn send(&mut self, to: &Peer, bytes: &[u8]) -> Result<(), Failed> {
        if self.ways.sends(to, bytes) {
            return Ok(());
        }
        self.host.send(to, bytes)?;
        self.ways.went(to, bytes);
        Ok(())
    }

    fn kept(&mut self, ticket: &Name) -> Result<Option<Record>, Failed> {
        self.host.kept(ticket)
    }

    fn keep(&mut self, ticket: &Name, rec: &Record) -> Result<(), Failed> {
        self.host.keep(ticket, rec)
    }

    fn start(&mut self, job: &Job) -> Result<(), Failed> {
        self.host.start(job)
    }

    fn read_file(&mut self, alloc: Global, path: &str) -> Result<ByteText, ReadFault> {
        self.host.read_file(alloc, path)
    }

    fn lock(&mut self, path: &str) -> Result<bool, Failed> {
        self.host.lock(path)
    }

    fn out(&mut self, bytes: &[u8]) -> Result<(), Failed> {
        self.host.out(bytes)
    }

    fn err(&mut self, bytes: &[u8]) -> Result<(), Failed> {
        self.host.err(bytes)
    }
}
