//! Addresses, peers and paths as words: an address in its printed form, a port in decimal, the bytes of a path.
use booth_base::{Address, PathText, Peer};
use booth_rows::{Answer, Words};

/// Reads an address.
pub fn address(words: &mut Words<'_>) -> Address {
    match Address::read(words.word().as_bytes()) {
        Ok(address) => address,
        Err(_) => {
            words.refuse();
            Address::V4([0; 4])
        }
    }
}

/// Reads a peer: its address and its port.
pub fn peer(words: &mut Words<'_>) -> Peer {
    Peer {
        address: address(words),
        port: words.short(),
    }
}

/// Reads a path from its bytes.
pub fn path(words: &mut Words<'_>) -> Option<PathText> {
    match PathText::read(words.text().as_str()) {
        Ok(path) => Some(path),
        Err(_) => {
            words.refuse();
            None
        }
    }
}

/// Appends an address.
pub fn put_address(answer: &mut Answer, address: &Address) {
    answer.word(address.print().as_str());
}

/// Appends a peer's address and port.
pub fn put_peer(answer: &mut Answer, peer: &Peer) {
    put_address(answer, &peer.address);
    answer.number(u64::from(peer.port));
}
