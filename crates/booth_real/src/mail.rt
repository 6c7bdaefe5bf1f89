//! The datagrams of a host: its socket, and what was taken from the socket before anybody asked.
ghost use Rattle.std.specs.Prelude.{◌≡◌, ◌⊎◌, [], None, Some, IfOk, IfSome, IsTrue, MatchOption, OnErr, OnOk, vec_len};
ghost use Rattle.booth_host.specs.declared.datagram.TheConstants.{DATAGRAM_BYTES};
ghost use Rattle.booth_real.specs.Hearing.{BringsTo, hearing, turned_to};
ghost use Rattle.booth_real.specs.Taking.{IsGiven, TakesIn, WaitsFor, waiting};

use crate::backlog::Backlog;
use crate::socket::Socket;
use crate::wake::Wake;
use booth_base::Peer;
use booth_host::{Arrival, DATAGRAM_BYTES, Datagram};
use std::alloc::{AllocError, Global};
use std::cell::Cell;
use std::io;
use std::io::ErrorKind;
use std::os::fd::RawFd;
use std::rc::Rc;

/// A socket once a place is open, and the datagrams that wait.
#[derive(Drop)]
pub(crate) struct Mail {
    socket: Option<Socket>,
    /// The other file that ends a receive's wait.
    wake: Wake,
    buffer: Vec<u8>,
    /// The datagrams that arrived before anybody asked for them.
    backlog: Backlog,
    /// The error of a receive that failed in the meantime.
    unreceived: Option<io::Error>,
    ghost size: { vec_len buffer ≡ DATAGRAM_BYTES },
    ghost heard: { WaitsFor (hearing socket) (waiting backlog) },
}

/// Returns the error of a call at a place that was not opened.
pub(crate) fn unopened() -> io::Error {
    io::Error::from(ErrorKind::NotConnected)
}

impl Mail {
    /// Returns no socket, with all memory for the datagrams that wait.
    pub(crate) fn new(alloc: Global) -> Result<Mail, AllocError>
        ensures closed { IfOk result (λ mail. mail.socket ≡ None) }
        ensures nothing { IfOk result (λ mail. waiting mail.backlog ≡ []) }
    {
        let buffer = vec![in alloc; 0; DATAGRAM_BYTES]?;
        let backlog = Backlog::new(alloc)?;
        Ok(Mail {
            socket: None,
            wake: Wake::nothing(),
            buffer,
            backlog,
            unreceived: None,
        })
    }

    /// Makes this file end a wait, and sets the mark when the file can be read.
    pub(crate) fn wake_on(&mut self, file: RawFd, mark: Rc<Cell<bool>>)
        ensures wake { self.new.wake.file ≡ file }
        ensures socket { self.new.socket ≡ self.old.socket }
        ensures backlog { self.new.backlog ≡ self.old.backlog }
    {
        self.wake = Wake::on(file, mark);
    }

    /// Returns whether that file is known to be readable.
    pub(crate) fn is_woken(&self) -> bool {
        self.wake.is_known()
    }

    /// Closes the socket, and drops the datagrams that wait.
    pub(crate) fn close(&mut self)
        ensures closed { self.new.socket ≡ None }
        ensures nothing { waiting self.new.backlog ≡ [] }
        ensures wake { self.new.wake ≡ self.old.wake }
    {
        self.socket = None;
        self.backlog.clear();
        self.unreceived = None;
    }

    /// Begins with this socket, from which nothing waits yet.
    pub(crate) fn begin(&mut self, socket: Socket)
        ensures hears { hearing self.new.socket ≡ Some socket.takes }
        ensures nothing { waiting self.new.backlog ≡ [] }
        ensures wake { self.new.wake ≡ self.old.wake }
    {
        self.close();
        self.backlog.divide(socket.drained());
        self.socket = Some(socket);
    }

    // Returns whether nothing waits and no receive failed.
    fn is_empty(&self) -> bool
        ensures { IsTrue result → waiting self.now.backlog ≡ [] }
    {
        self.backlog.is_empty() && self.unreceived.is_none()
    }

    // Returns the first datagram that waits, or the error of a receive that failed behind them.
    fn give(&mut self, into: &mut Datagram) -> Option<io::Result<Arrival>>
        ensures given { MatchOption result
            ((waiting self.old.backlog ≡ []) × (waiting self.new.backlog ≡ []))
            (λ answer. IsGiven (waiting self.old.backlog) answer into.new (waiting self.new.backlog)) }
        ensures brings { IfSome result (λ answer. IfOk answer (λ arrival. BringsTo (hearing self.old.socket) arrival)) }
        ensures socket { self.new.socket ≡ self.old.socket }
    {
        match self.backlog.give(into) {
            Some(from) => Some(Ok(Arrival::Datagram(from))),
            None => self.unreceived.take().map(Err),
        }
    }

    /// Returns the first datagram that waits, or the error of a receive that failed in the meantime, or what arrives
    /// within this time.
    pub(crate) fn receive(&mut self, wait_ms: u64, into: &mut Datagram) -> io::Result<Arrival>
        ensures given { IsGiven (waiting self.old.backlog) result into.new (waiting self.new.backlog) }
        ensures brings { IfOk result (λ arrival. BringsTo (hearing self.old.socket) arrival) }
        ensures socket { self.new.socket ≡ self.old.socket }
    {
        into.clear();
        if self.is_empty() {
            return self.receive_new(wait_ms, into);
        }
        match self.give(into) {
            Some(answer) => {
                if let Some(socket) = &self.socket {
                    socket.look_at(&self.wake);
                }
                answer
            }
            None => self.receive_new(wait_ms, into),
        }
    }

    // Returns what arrives within this time, if nothing waits.
    fn receive_new(&mut self, wait_ms: u64, into: &mut Datagram) -> io::Result<Arrival>
        ensures brings { IfOk result (λ arrival. BringsTo (hearing self.old.socket) arrival) }
        ensures socket { self.new.socket ≡ self.old.socket }
        ensures backlog { self.new.backlog ≡ self.old.backlog }
    {
        match &self.socket {
            Some(socket) => socket.receive(wait_ms, &self.wake, &mut self.buffer, into),
            None => Err(unopened()),
        }
    }

    /// Takes datagrams from the system as long as they have room. The system's queue holds a few hundred datagrams,
    /// and a datagram that is lost there is sent again only after a time-out. After a failed receive it takes nothing
    /// until that failure was reported.
    pub(crate) fn take_in(&mut self)
        ensures taken { TakesIn (hearing self.old.socket) (waiting self.old.backlog) (waiting self.new.backlog) }
        ensures socket { self.new.socket ≡ self.old.socket }
        ensures wake { self.new.wake ≡ self.old.wake }
    {
        if self.unreceived.is_some() {
            return;
        }
        if let Some(socket) = &self.socket {
            self.unreceived = socket.drain(&mut self.buffer, &mut self.backlog).err();
        }
    }

    /// Returns whether there is no room for one more datagram.
    pub(crate) fn is_full(&self) -> bool {
        !self.backlog.has_room()
    }

    /// Sends these bytes.
    pub(crate) fn send(&mut self, rt: &HostRuntime, to: &Peer, bytes: &[u8]) -> io::Result<()>
        ensures sent { OnOk result (hearing self.new.socket ≡ turned_to to.now (hearing self.old.socket)) }
        ensures unsent { OnErr result ((hearing self.new.socket ≡ hearing self.old.socket)
            ⊎ (hearing self.new.socket ≡ turned_to to.now (hearing self.old.socket))) }
        ensures backlog { self.new.backlog ≡ self.old.backlog }
    {
        match &mut self.socket {
            Some(socket) => socket.send(rt, to, bytes),
            None => Err(unopened()),
        }
    }
}
