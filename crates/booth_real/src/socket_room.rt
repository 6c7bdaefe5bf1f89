//! The room that the system gives a socket for datagrams.

use libc::net::{SO_RCVBUF, SO_SNDBUF, SOL_SOCKET, setsockopt};
use std::net::UdpSocket;
use std::os::fd::AsRawFd;

/// The room that is requested for datagrams that were not sent or not received yet. The system grants as much as it
/// allows (net.core.wmem_max and net.core.rmem_max), and doubles it.
pub(crate) const ROOM: i32 = 1 << 30;

fn room_bytes(room: i32) -> [u8; 16] {
    let mut value = [0u8; 16];
    value[..4].copy_from_slice(&room.to_ne_bytes());
    value
}

/// Requests this much room for what is sent. If the system refuses, the room stays as it is.
pub(crate) fn ask_to_send(udp: &UdpSocket, room: i32) {
    let _ = unsafe { setsockopt(udp.as_raw_fd(), SOL_SOCKET, SO_SNDBUF, &room_bytes(room), 4) };
}

/// Requests this much room for what arrives. If the system refuses, the room stays as it is.
pub(crate) fn ask_to_receive(udp: &UdpSocket, room: i32) {
    let _ = unsafe { setsockopt(udp.as_raw_fd(), SOL_SOCKET, SO_RCVBUF, &room_bytes(room), 4) };
}
