//! The UDP socket, and addresses in the system's form.
ghost use Rattle.std.specs.Prelude.{◌≡◌, ◌≤◌, ◌<◌, ◌⊎◌, Some, None, IfOk, IsFalse, IsTrue, OnErr, OnOk, length};
ghost use Rattle.booth_host.specs.declared.datagram.TheConstants.{DATAGRAM_BYTES};
ghost use Rattle.booth_real.specs.Hearing.{BringsTo, Hears, HearsAt, IsToAsk, turned};
ghost use Rattle.booth_real.specs.Taking.{TakesIn, waiting};
ghost use Rattle.booth_real.specs.declared.backlog.TheConstants.{BACKLOG_DATAGRAMS, SOCKETS};
ghost use Rattle.booth_real.specs.declared.socket.Takes.{Takes};

use crate::backlog::{BACKLOG_DATAGRAMS, Backlog, SOCKETS};
use crate::member_sockets::{Reading, member_sockets};
use crate::socket_room::{ROOM, ask_to_receive, ask_to_send};
use crate::wake::{Wake, asked};
use booth_base::{Address, Peer};
use booth_host::{Arrival, Datagram, Place};
use libc::net::poll;
use std::alloc::Global;
use std::io;
use std::io::ErrorKind;
use std::net::{IpAddr, Ipv4Addr, Ipv6Addr, SocketAddr, UdpSocket};
use std::os::fd::AsRawFd;

/// The most datagrams that one `drain` takes from each socket, if members have sockets of their own.
const IN_A_DRAIN: usize = 32;

/// The most files that a wait watches: the file that ends it, and all sockets.
const WATCHED: usize = SOCKETS + 1;

/// Which peers a socket reaches.
#[derive(Clone, Copy)]
enum Reach {
    /// IPv4 peers.
    V4,
    /// IPv6 peers.
    V6,
    /// Peers of both families: an IPv6 socket, which writes IPv4 addresses as `::ffff:a.b.c.d` (RFC 4291, 2.5.5.2).
    Both,
}

/// Which senders a socket accepts datagrams from.
#[derive(Clone, Copy)]
enum Takes {
    /// All senders.
    All,
    /// The peer that was asked last, once one was: no other user of the machine can answer in its place.
    Asked(Option<Peer>),
}

impl Takes {
    // Returns whether the socket accepts what this peer sent.
    fn hears(&self, from: &Peer) -> bool
        ensures { IsTrue result → Hears self.now from.now }
    {
        match self {
            Takes::All => true,
            Takes::Asked(asked) => *asked == Some(*from),
        }
    }
}

/// A UDP socket, with the sockets of members at the same address and port.
#[derive(Drop)]
pub(crate) struct Socket {
    /// The socket at place 0. It makes all sends, and receives what no socket of a member receives.
    udp: UdpSocket,
    /// The sockets of members, from place 1 on. Each one receives what its member sends.
    members: Vec<UdpSocket>,
    /// Whether each other member has a socket. Then only strangers send to the socket at place 0.
    is_apart: bool,
    /// Which socket is read next.
    reading: Reading,
    reach: Reach,
    takes: Takes,
    /// A socket of the other family, only to send, once one was needed.
    beside: Option<UdpSocket>,
}

// Returns the wildcard address of the other family.
fn any_beside(address: Address) -> IpAddr {
    match address {
        Address::V4(_) => IpAddr::V4(Ipv4Addr::UNSPECIFIED),
        Address::V6(_) => IpAddr::V6(Ipv6Addr::UNSPECIFIED),
    }
}

// Returns an address in the form of a socket of both families.
fn widened(address: IpAddr) -> IpAddr {
    match address {
        IpAddr::V4(address) => IpAddr::V6(address.to_ipv6_mapped()),
        IpAddr::V6(address) => IpAddr::V6(address),
    }
}

// Opens a socket with all the room that it can get. Neither a send nor a receive waits; only `Socket::wait` does.
fn bind_udp(rt: &HostRuntime, address: IpAddr, port: u16) -> io::Result<UdpSocket> {
    let udp = UdpSocket::bind(rt, SocketAddr::new(address, port))?;
    udp.set_nonblocking(true)?;
    ask_to_send(&udp, ROOM);
    Ok(udp)
}

fn bind(rt: &HostRuntime, address: IpAddr, port: u16, reach: Reach) -> io::Result<Socket>
    ensures { IfOk result (λ socket. socket.takes ≡ Takes.All) }
{
    let udp = bind_udp(rt, address, port)?;
    ask_to_receive(&udp, ROOM);
    Ok(Socket {
        udp,
        members: Vec::new(rt.alloc()),
        is_apart: false,
        reading: Reading::new(),
        reach,
        takes: Takes::All,
        beside: None,
    })
}

// Opens a socket at any address that reaches both families, or IPv4 alone if the machine has no IPv6.
fn bind_anywhere(rt: &HostRuntime, port: u16) -> io::Result<Socket>
    ensures { IfOk result (λ socket. socket.takes ≡ Takes.All) }
{
    match bind(rt, IpAddr::V6(Ipv6Addr::UNSPECIFIED), port, Reach::Both) {
        Ok(socket) => Ok(socket),
        Err(_) => bind(rt, IpAddr::V4(Ipv4Addr::UNSPECIFIED), port, Reach::V4),
    }
}

// Returns which peers a socket at this address reaches.
fn reach_from(address: Address) -> Reach {
    match address {
        Address::V4(_) => Reach::V4,
        Address::V6(_) => Reach::V6,
    }
}

// Opens a socket that receives only this peer's datagrams.
fn bind_to_ask(rt: &HostRuntime, peer: &Peer) -> io::Result<Socket>
    ensures { IfOk result (λ socket. socket.takes ≡ Takes.Asked (Some peer.now)) }
{
    let address = peer.address;
    let mut socket = bind(rt, any_beside(address), 0, reach_from(address))?;
    let at = SocketAddr::new(address.to_ip(), peer.port);
    socket.udp.connect(at)?;
    socket.takes = Takes::Asked(Some(*peer));
    Ok(socket)
}

// Returns whether a place is a client's: it has no address, no port and no records, so nobody can know it in advance.
fn is_to_ask(place: &Place) -> bool
    ensures asks { IsTrue result → IsToAsk place.now }
    ensures others { IsToAsk place.now → IsTrue result }
{
    place.local.is_none() && place.port == 0 && place.records.as_str().is_empty()
}

// Opens a socket to send to peers of this one's family, at a port that the system chooses. Nothing is received by it,
// so it gets the least room for arrivals.
fn bind_to_send(rt: &HostRuntime, peer: &Peer) -> io::Result<UdpSocket> {
    let udp = bind_udp(rt, any_beside(peer.address), 0)?;
    ask_to_receive(&udp, 0);
    Ok(udp)
}

// Sends these bytes, again if a signal interrupted the call or the call reported that an earlier datagram was
// refused.
fn send_by(udp: &UdpSocket, to: SocketAddr, bytes: &[u8]) -> io::Result<()> {
    for _ in 0..u64::MAX {
        match udp.send_to(bytes, to) {
            Ok(_) => return Ok(()),
            Err(error) => match error.kind() {
                ErrorKind::Interrupted | ErrorKind::ConnectionRefused => {}
                _ => return Err(error),
            },
        }
    }
    Err(io::Error::from(ErrorKind::Interrupted))
}

// Returns whether an error is the network's answer to an earlier datagram: that nobody listens at the asked peer, or
// that no network path leads there. Another answer may still arrive.
fn is_told(kind: ErrorKind) -> bool {
    matches!(
        kind,
        ErrorKind::ConnectionRefused
            | ErrorKind::HostUnreachable
            | ErrorKind::NetworkUnreachable
            | ErrorKind::PermissionDenied
    )
}

impl Socket {
    /// Opens a socket at this place. Without an address the socket reaches peers of both families, or IPv4 peers on a
    /// machine without IPv6. Without an address, a port and records it accepts datagrams only from the peer that it
    /// sent to last.
    pub(crate) fn open(rt: &HostRuntime, place: &Place) -> io::Result<Socket>
        ensures { IfOk result (λ socket. HearsAt place.now socket.takes) }
    {
        if let Some(address) = place.local {
            let reach = reach_from(address);
            return bind(rt, address.to_ip(), place.port, reach);
        }
        let mut socket = bind_anywhere(rt, place.port)?;
        if is_to_ask(place) {
            socket.takes = Takes::Asked(None);
        }
        Ok(socket)
    }

    /// Gives each of these members a socket of its own, as far as the system has them. Then datagrams of others take
    /// no room from what these members send.
    pub(crate) fn set_apart(&mut self, alloc: Global, place: &Place, members: &[Address])
        ensures { self.new.takes ≡ self.old.takes }
    {
        self.members = member_sockets(alloc, &self.udp, place, members);
        for udp in &self.members {
            ask_to_receive(udp, ROOM);
        }
        self.is_apart = !self.members.is_empty() && self.count() >= members.len();
    }

    // Returns the number of sockets.
    fn count(&self) -> usize
        ensures { result ≤ SOCKETS }
    {
        self.members.len().saturating_add(1).min(SOCKETS)
    }

    // Returns the socket at this place.
    fn at(&self, place: usize) -> &UdpSocket {
        match place.checked_sub(1) {
            Some(member) => self.members.get(member).unwrap_or(&self.udp),
            None => &self.udp,
        }
    }

    // Returns the place of the first socket that is drained. What only strangers send to stays with the system.
    fn first_drained(&self) -> usize {
        if self.is_apart { 1 } else { 0 }
    }

    /// Returns how many sockets are drained, and at least 1.
    pub(crate) fn drained(&self) -> usize
        ensures { 0 < result }
    {
        self.count().saturating_sub(self.first_drained()).max(1)
    }

    // Returns the most datagrams that one `drain` takes from each socket.
    fn quota(&self) -> usize {
        if self.members.is_empty() {
            BACKLOG_DATAGRAMS
        } else {
            IN_A_DRAIN
        }
    }

    // Makes a socket that accepts one sender alone accept this peer. It opens another socket for that, since a
    // connected socket keeps its own address, from which not every peer can be reached.
    fn turn_to(&mut self, rt: &HostRuntime, peer: &Peer) -> io::Result<()>
        ensures ok { OnOk result (self.new.takes ≡ turned self.old.takes peer.now) }
        ensures err { OnErr result (self.new.takes ≡ self.old.takes) }
    {
        match self.takes {
            Takes::All => {}
            Takes::Asked(asked) => {
                if asked != Some(*peer) {
                    *self = bind_to_ask(rt, peer)?;
                }
            }
        }
        Ok(())
    }

    // Waits for this many milliseconds, but no longer than until a datagram has arrived or the other file can be
    // read, which is noted. Returns whether a datagram may have arrived. A signal also ends the wait.
    fn wait(&self, wait_ms: u64, wake: &Wake) -> bool {
        let mut watched = [asked(-1); WATCHED];
        watched[0] = asked(wake.file());
        watched[1] = asked(self.udp.as_raw_fd());
        for (one, udp) in watched[2..].iter_mut().zip(self.members.iter()) {
            *one = asked(udp.as_raw_fd());
        }
        let end = self.count() + 1;
        let limit = i32::try_from(wait_ms).unwrap_or(i32::MAX);
        let count = poll(&mut watched[..end], limit);
        if watched[0].revents != 0 {
            wake.note();
        }
        // (what poll does not report, a receive does)
        let is_there = count < 0 || watched[1..end].iter().any(|one| one.revents != 0);
        if is_there {
            wake.go_ahead();
        } else {
            wake.stay();
        }
        is_there
    }

    fn peer_at(&self, from: SocketAddr) -> Peer {
        let ip = match self.reach {
            Reach::V4 | Reach::V6 => from.ip(),
            Reach::Both => from.ip().to_canonical(),
        };
        Peer {
            address: Address::from_ip(ip),
            port: from.port(),
        }
    }

    // Returns a peer's address in the form of the socket that sends to it.
    fn address_to(&self, to: &Peer) -> SocketAddr {
        let ip = to.address.to_ip();
        let ip = match self.reach {
            Reach::V4 | Reach::V6 => ip,
            Reach::Both => widened(ip),
        };
        SocketAddr::new(ip, to.port)
    }

    // Returns whether this socket itself reaches the peer.
    fn reaches(&self, to: &Peer) -> bool {
        match (self.reach, to.address) {
            (Reach::Both, _) => true,
            (Reach::V4, Address::V4(_)) | (Reach::V6, Address::V6(_)) => true,
            (Reach::V4, Address::V6(_)) | (Reach::V6, Address::V4(_)) => false,
        }
    }

    // Sends to a peer of the other family, by a second socket that is opened when it is first needed.
    fn send_beside(&mut self, rt: &HostRuntime, to: &Peer, bytes: &[u8]) -> io::Result<()>
        ensures { self.new.takes ≡ self.old.takes }
    {
        let at = self.address_to(to);
        match &self.beside {
            Some(udp) => send_by(udp, at, bytes),
            None => {
                let udp = bind_to_send(rt, to)?;
                let sent = send_by(&udp, at, bytes);
                self.beside = Some(udp);
                sent
            }
        }
    }

    // Returns the meaning of an error of a receive at this place. At a member's socket it is always the network's
    // answer to an earlier datagram, which anybody can forge.
    fn unreceived(&self, place: usize, error: io::Error) -> io::Result<Arrival>
        ensures { IfOk result (λ arrival. arrival ≡ Arrival.Quiet) }
    {
        match error.kind() {
            ErrorKind::WouldBlock | ErrorKind::Interrupted => Ok(Arrival::Quiet),
            kind => {
                if place > 0 || (self.asks() && is_told(kind)) {
                    Ok(Arrival::Quiet)
                } else {
                    Err(error)
                }
            }
        }
    }

    // Returns whether the socket accepts one sender alone.
    fn asks(&self) -> bool
        ensures { IsFalse result → self.now.takes ≡ Takes.All }
    {
        match self.takes {
            Takes::All => false,
            Takes::Asked(_) => true,
        }
    }

    /// Returns what arrives within this time, read through the buffer. Returns `Quiet` if nothing acceptable arrived,
    /// if a signal interrupted the call, or if the other file can be read. It does not wait if that file is known to
    /// be readable. After a datagram arrived, some receives ask for the next one before they wait.
    pub(crate) fn receive(
        &self,
        wait_ms: u64,
        wake: &Wake,
        buffer: &mut [u8],
        into: &mut Datagram,
    ) -> io::Result<Arrival>
        ensures { IfOk result (λ arrival. BringsTo (Some self.now.takes) arrival) }
    {
        if wake.is_known() {
            return self.take(buffer, into);
        }
        if wake.goes_ahead() {
            match self.take(buffer, into) {
                Ok(Arrival::Quiet) => {}
                answer => return answer,
            }
        }
        if self.wait(wait_ms, wake) {
            self.take(buffer, into)
        } else {
            Ok(Arrival::Quiet)
        }
    }

    // Reads what has arrived at the socket at this place. Returns `Quiet` if nothing acceptable has, or after a signal.
    fn take_at(&self, place: usize, buffer: &mut [u8], into: &mut Datagram) -> io::Result<Arrival>
        ensures { IfOk result (λ arrival. BringsTo (Some self.now.takes) arrival) }
    {
        match self.at(place).recv_from(buffer) {
            Ok((count, from)) => {
                let from = self.peer_at(from);
                if !self.takes.hears(&from) {
                    return Ok(Arrival::Quiet);
                }
                into.set(&buffer[..count]);
                Ok(Arrival::Datagram(from))
            }
            Err(error) => self.unreceived(place, error),
        }
    }

    // Reads what has arrived, and returns it. Members come first, each in its turn: what a client sent because of a
    // member's message must not be read before that message. After several of members it reads one of a stranger.
    fn take(&self, buffer: &mut [u8], into: &mut Datagram) -> io::Result<Arrival>
        ensures { IfOk result (λ arrival. BringsTo (Some self.now.takes) arrival) }
    {
        for _ in 1..self.count() {
            let Some(place) = self.reading.next_member(self.count()) else {
                break;
            };
            match self.take_at(place, buffer, into) {
                Ok(Arrival::Quiet) => {}
                answer => {
                    self.reading.note();
                    return answer;
                }
            }
        }
        self.reading.note_stranger();
        self.take_at(0, buffer, into)
    }

    /// Checks without a wait whether the other file can be read, and notes the result; it skips the check if one was
    /// made shortly before.
    pub(crate) fn look_at(&self, wake: &Wake) {
        if !wake.goes_ahead() {
            self.wait(0, wake);
            wake.go_ahead();
        }
    }

    // Moves some datagrams from the socket at this place into the backlog, as long as its part has room.
    #[tactic(auto, using(crate::proofs::WaitingLemmas::as_many))]
    fn drain_one(&self, place: usize, buffer: &mut [u8], backlog: &mut Backlog) -> io::Result<()>
        requires hears { self.now.takes ≡ Takes.All }
        requires place { place < SOCKETS }
        requires buffer { length buffer.old ≡ DATAGRAM_BYTES }
        ensures buffer { length buffer.new ≡ DATAGRAM_BYTES }
        ensures behind { TakesIn (Some self.now.takes) (waiting backlog.old) (waiting backlog.new) }
    {
        'taking: for _ in 0..self.quota() {
            if !backlog.has_room_at(place) {
                return Ok(());
            }
            match self.at(place).recv_from(buffer) {
                Ok((count, from)) => backlog.put(place, &self.peer_at(from), &buffer[..count]),
                Err(error) => return self.unreceived(place, error).map(|_| ()),
            }
        }
        Ok(())
    }

    /// Moves the system's datagrams for these sockets into the backlog, without a wait: a few of each socket, as long
    /// as its part of the backlog has room. If each member has a socket, all datagrams of strangers stay with the
    /// system, so none waits ahead of a member's. A client's socket moves nothing. Fails if a receive fails.
    #[tactic(auto, using(crate::proofs::WaitingLemmas::as_many))]
    pub(crate) fn drain(&self, buffer: &mut [u8], backlog: &mut Backlog) -> io::Result<()>
        requires { length buffer.old ≡ DATAGRAM_BYTES }
        ensures buffer { length buffer.new ≡ DATAGRAM_BYTES }
        ensures behind { TakesIn (Some self.now.takes) (waiting backlog.old) (waiting backlog.new) }
        ensures bounded { length (waiting backlog.new) ≤ BACKLOG_DATAGRAMS }
    {
        if self.asks() {
            return Ok(());
        }
        'sockets: for place in self.first_drained()..self.count() {
            self.drain_one(place, buffer, backlog)?;
        }
        Ok(())
    }

    /// Sends these bytes. Fails if there is no room, or if the system has no socket of the peer's family.
    pub(crate) fn send(&mut self, rt: &HostRuntime, to: &Peer, bytes: &[u8]) -> io::Result<()>
        ensures sent { OnOk result (self.new.takes ≡ turned self.old.takes to.now) }
        ensures unsent { OnErr result
            ((self.new.takes ≡ self.old.takes) ⊎ (self.new.takes ≡ turned self.old.takes to.now)) }
    {
        self.turn_to(rt, to)?;
        if self.reaches(to) {
            send_by(&self.udp, self.address_to(to), bytes)
        } else {
            self.send_beside(rt, to, bytes)
        }
    }
}
