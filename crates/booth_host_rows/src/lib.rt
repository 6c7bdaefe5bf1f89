//! Plays calls of any host: each line is a call, and the answer is the host's result.
//!
//! The calls are `open LOCAL PORT RECORDS CONF`, `next WAIT`, `now`, `send ADDRESS PORT BYTES`, `kept TICKET`, `keep
//! TICKET RECORD`, `start NUMBER TICKET HANDLER LOCAL EXPIRES`, `read PATH`, `lock PATH`, `out BYTES` and `err
//! BYTES`. Paths, tickets, handlers and texts are in hexadecimal.
//!
//! The contents of a host in memory are `first READING`, `file PATH BYTES`, `fails CALL ..`, `room COUNT`, `record
//! TICKET RECORD` and `step READING FAILS ARRIVAL`. There a ticket is not in hexadecimal.
#![tactic(auto)]

mod answers;
mod calls;
mod given;
mod past;
mod peers;
mod records;
mod steps;

pub use answers::{put_arrival, put_done, put_kept, put_locked};
pub use calls::play_call;
pub use given::{Given, name_of};
pub use past::{put_call, put_past};
pub use peers::{address, path, peer, put_address, put_peer};
pub use records::{put_member, put_promise, put_record, record_of};
pub use steps::step_of;
