//! Links over TCP: the real `Links` of booth_stream, which a daemon uses with the real host; and the host of a client,
//! which opens one link.
#![tactic(auto)]

mod addresses;
mod client_host;
mod client_link;
mod entrance;
mod line;
mod pending;
mod queue;
mod real_links;
mod reports;
mod seats;
mod transport;
mod turn;

pub use client_host::ClientHost;
pub use real_links::RealLinks;
pub use transport::Transport;
