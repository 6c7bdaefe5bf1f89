//! Players for bytes: names and addresses, frames and records, record files, the configuration, the gate and the
//! seal.
//!
//! A fault is printed as two lines: `fault` with its name, and its text.
#![tactic(auto)]

mod bytes;
mod configuration;
mod frames;
mod gate;
mod slots;
mod told;

use crate::bytes::Bytes;
use crate::configuration::Configuration;
use crate::gate::Gate;
use crate::slots::RecordFile;
use booth_rows::play_lines;

// Each player is dropped in a function of its own, which is cheaper to prove.
fn play_bytes(rt: &(impl Input + Print + AllocGlobal)) -> bool {
    match Bytes::new(rt.alloc()) {
        Ok(mut bytes) => play_lines(rt, &mut bytes),
        Err(_) => false,
    }
}

fn play_gate(rt: &(impl Input + Print + AllocGlobal)) -> bool {
    play_lines(rt, &mut Gate::new())
}

fn play_slots(rt: &(impl Input + Print + AllocGlobal)) -> bool {
    play_lines(rt, &mut RecordFile::new())
}

/// Plays standard input with the player of this name. Returns whether there is one, and it played all lines.
pub fn play(rt: &(impl Input + Print + AllocGlobal), name: &str) -> bool {
    match name {
        "bytes" => play_bytes(rt),
        "conf" => play_lines(rt, &mut Configuration {}),
        "gate" => play_gate(rt),
        "slots" => play_slots(rt),
        _ => false,
    }
}
