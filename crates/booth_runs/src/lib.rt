//! Whole runs of Booth's programs over a host in memory. Lines describe this host: what it has, what arrives, what
//! fails. And what the replay of a journal tallies.
//!
//! The lines before a `run` make its host, and the run's answer is each call of that host, and how the run ended.
#![tactic(auto)]

mod hindered;
mod runs;
mod tallies;

use crate::runs::Runs;
use crate::tallies::Tallies;
use booth_rows::play_lines;

/// Plays standard input with the player of this name. Returns whether there is one, and it played all lines.
pub fn play(rt: &(impl Input + Print + AllocGlobal), name: &str) -> bool {
    match name {
        "runs" => play_lines(rt, &mut Runs::new(rt.alloc())),
        "tallies" => play_lines(rt, &mut Tallies),
        _ => false,
    }
}
