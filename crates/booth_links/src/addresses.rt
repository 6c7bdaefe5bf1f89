//! The listener at a place, and the conversion of peers to and from the system's socket addresses.

use booth_base::{Address, Peer};
use booth_host::Place;
use mio::net::TcpListener;
use std::io;
use std::net::{IpAddr, Ipv4Addr, Ipv6Addr, SocketAddr};

/// Returns the peer at this socket address. An IPv4 peer of an IPv6 socket counts as IPv4 (RFC 4291, section 2.5.5.2).
pub(crate) fn peer_at(from: SocketAddr) -> Peer {
    Peer {
        address: Address::from_ip(from.ip().to_canonical()),
        port: from.port(),
    }
}

/// Returns a listener at this place. If the place has no address, peers of both families reach it; on a machine without
/// IPv6 only IPv4 peers do. It binds at once, even if links of an earlier process have not ended yet.
pub(crate) fn listen(rt: &HostRuntime, place: &Place) -> io::Result<TcpListener> {
    if let Some(address) = place.local {
        return TcpListener::bind(rt, SocketAddr::new(address.to_ip(), place.port));
    }
    let any = SocketAddr::new(IpAddr::V6(Ipv6Addr::UNSPECIFIED), place.port);
    match TcpListener::bind(rt, any) {
        Ok(listener) => Ok(listener),
        Err(_) => {
            let any = SocketAddr::new(IpAddr::V4(Ipv4Addr::UNSPECIFIED), place.port);
            TcpListener::bind(rt, any)
        }
    }
}
