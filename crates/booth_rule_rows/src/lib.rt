//! Players of the rules of tickets: the lease rules, the rules of manual tickets, and whole tickets.
//!
//! A record is nine words: its version, its term, its lease's term and end, the member that it voted for, its
//! promise's member, term and end, and until when its member abstains. `-` stands for each word of a missing part. A
//! start is the moment, the member's id, its place, the number of members, 1 for a site, its rank, and the record, or
//! one `-` for no record. A message is its twelve numbers, from `auth` to the seconds.
#![tactic(auto)]

mod lease;
mod manual;
mod printed;
mod reading;
mod ticket;
mod view;

use crate::lease::CorePlayer;
use crate::manual::ManualPlayer;
use crate::ticket::TicketPlayer;
use booth_rows::play_lines;

/// Plays standard input with the player of this name. Returns whether there is one, and it played all lines.
pub fn play(rt: &(impl Input + Print + AllocGlobal), name: &str) -> bool {
    match name {
        "core" => play_lines(rt, &mut CorePlayer::new()),
        "manual" => play_lines(rt, &mut ManualPlayer::new()),
        "ticket" => play_lines(rt, &mut TicketPlayer::new()),
        _ => false,
    }
}
