//! Players for parts that run step by step: a service that follows its ticket, a planned move, a daemon's clock,
//! attributes, a pool and a timer.
#![tactic(auto)]

mod attributes;
mod clock;
mod follows;
mod moves;
mod pools;
mod reading;
mod timers;

use crate::attributes::Attributes;
use crate::clock::Clock;
use crate::follows::Follows;
use crate::moves::Moves;
use crate::pools::Pools;
use crate::timers::Timers;
use booth_rows::play_lines;

/// Plays standard input with the player of this name. Returns whether there is one, and it played all lines.
pub fn play(rt: &(impl Input + Print + AllocGlobal), name: &str) -> bool {
    match name {
        "attributes" => play_lines(rt, &mut Attributes::new()),
        "clock" => play_lines(rt, &mut Clock::new()),
        "follows" => play_lines(rt, &mut Follows::new()),
        "moves" => play_lines(rt, &mut Moves::new()),
        "pools" => play_lines(rt, &mut Pools::new()),
        "timers" => play_lines(rt, &mut Timers::new()),
        _ => false,
    }
}
