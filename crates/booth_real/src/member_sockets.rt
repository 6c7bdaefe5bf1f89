//! Sockets of members. Each has the address and the port of the place, and is connected to one member. The system then
//! has a queue for that member's datagrams alone, and datagrams of others do not fill it.
ghost use Rattle.std.specs.Prelude.{◌≤◌, ◌+◌, length};

use booth_base::{Address, MEMBERS};
use booth_host::Place;
use libc::net::{
    _SS_SIZE, AF_INET, AF_INET6, SO_REUSEPORT, SOCK_CLOEXEC, SOCK_DGRAM, SOCK_NONBLOCK, SOL_SOCKET,
    bind, setsockopt, socket,
};
use os::FromRawFd;
use std::alloc::Global;
use std::cell::Cell;
use std::net::{IpAddr, SocketAddr, UdpSocket};
use std::os::fd::AsRawFd;

/// How many datagrams of members are read before one of a stranger is read.
const IN_A_ROW: u32 = 16;

/// The values of an option that can be on or off.
const ON: i32 = 1;

const OFF: i32 = 0;

/// The sizes of C's `sockaddr_in` and `sockaddr_in6` in bytes.
const V4_BYTES: u32 = 16;

const V6_BYTES: u32 = 28;

/// Whose socket is read next. Place 0 is the first socket, which strangers send to; members have the places after it.
#[derive(Drop)]
pub(crate) struct Reading {
    /// The place of the member whose socket was read last.
    place: Cell<usize>,
    /// How many datagrams of members were read since the first socket was read last.
    count: Cell<u32>,
}

impl Reading {
    /// Returns a reading that begins with the first member.
    pub(crate) fn new() -> Reading {
        Reading {
            place: Cell::new(0),
            count: Cell::new(0),
        }
    }

    /// Returns the place of the next member, or nothing if so many datagrams of members were read that it is the turn
    /// of strangers. There are this many sockets.
    pub(crate) fn next_member(&self, sockets: usize) -> Option<usize> {
        if self.count.get() >= IN_A_ROW {
            return None;
        }
        let next = self.place.get().saturating_add(1);
        let next = if next < sockets { next } else { 1 };
        self.place.set(next);
        Some(next)
    }

    /// Notes that a member's datagram was read.
    pub(crate) fn note(&self) {
        self.count.set(self.count.get().saturating_add(1));
    }

    /// Notes that the first socket is read.
    pub(crate) fn note_stranger(&self) {
        self.count.set(0);
    }
}

// Puts bytes at this place of an address.
fn put(raw: &mut [u8; _SS_SIZE], at: usize, bytes: &[u8])
    requires { at + length bytes.now ≤ 128 }
{
    raw[at..at + bytes.len()].copy_from_slice(bytes);
}

// Returns an address in the form that bind(2) takes (ip(7), ipv6(7)), and its size in bytes.
fn socket_address(address: IpAddr, port: u16) -> ([u8; _SS_SIZE], u32)
    ensures { result.1 ≤ 128 }
{
    let mut raw = [0u8; _SS_SIZE];
    put(&mut raw, 2, &port.to_be_bytes());
    match address {
        IpAddr::V4(address) => {
            put(&mut raw, 0, &(AF_INET as u16).to_ne_bytes());
            put(&mut raw, 4, &address.octets());
            (raw, V4_BYTES)
        }
        IpAddr::V6(address) => {
            put(&mut raw, 0, &(AF_INET6 as u16).to_ne_bytes());
            put(&mut raw, 8, &address.octets());
            (raw, V6_BYTES)
        }
    }
}

// Returns a socket of this address's family, without an address. No call waits on it, and no program that is started
// inherits it.
fn unbound(address: IpAddr) -> Option<UdpSocket> {
    let kind = SOCK_DGRAM | SOCK_NONBLOCK | SOCK_CLOEXEC;
    let fd = match address {
        IpAddr::V4(_) => unsafe { socket(AF_INET, kind, 0) },
        IpAddr::V6(_) => unsafe { socket(AF_INET6, kind, 0) },
    };
    if fd < 0 {
        return None;
    }
    Some(unsafe { UdpSocket::from_raw_fd(fd) })
}

// Allows or forbids other sockets of this user at the address and the port of this one. Returns whether the system
// accepted it.
fn share(udp: &UdpSocket, value: i32) -> bool {
    let mut raw = [0u8; 16];
    raw[..4].copy_from_slice(&value.to_ne_bytes());
    unsafe { setsockopt(udp.as_raw_fd(), SOL_SOCKET, SO_REUSEPORT, &raw, 4) == 0 }
}

// Returns a socket at this address and port that is connected to the same port of a member.
fn connected(local: IpAddr, port: u16, member: IpAddr) -> Option<UdpSocket> {
    let udp = unbound(local)?;
    if !share(&udp, ON) {
        return None;
    }
    let (raw, size) = socket_address(local, port);
    let status = unsafe { bind(udp.as_raw_fd(), &raw, size) };
    if status != 0 || udp.connect(SocketAddr::new(member, port)).is_err() {
        return None;
    }
    Some(udp)
}

/// Returns a socket for each of these members except the place's own, as far as the system has them. `beside` is the
/// socket that was bound at the place. After this call no other socket can be bound there.
pub(crate) fn member_sockets(
    alloc: Global,
    beside: &UdpSocket,
    place: &Place,
    members: &[Address],
) -> Vec<UdpSocket> {
    let mut sockets = Vec::new(alloc);
    let Some(local) = place.local else {
        return sockets;
    };
    if !share(beside, ON) {
        return sockets;
    }
    for member in members {
        if *member != local && sockets.len() < MEMBERS {
            if let Some(udp) = connected(local.to_ip(), place.port, member.to_ip()) {
                let _ = sockets.push(udp);
            }
        }
    }
    share(beside, OFF);
    for udp in &sockets {
        share(udp, OFF);
    }
    sockets
}
