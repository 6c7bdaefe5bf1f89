//! Plays a script on standard input, and prints the answer to each of its lines.
use crate::real::Real;
use booth_rows::play_lines;

// Plays calls of the real host.
fn play_real(rt: &HostRuntime) -> bool {
    match Real::new(rt) {
        Some(mut real) => play_lines(rt, &mut real),
        None => false,
    }
}

/// Plays the script with the player of this name. Returns whether there is one, and it played all lines.
pub fn play(rt: &HostRuntime, name: &str) -> bool {
    if name == "host" {
        return play_real(rt);
    }
    booth_byte_rows::play(rt, name)
        || booth_rule_rows::play(rt, name)
        || booth_line_rows::play(rt, name)
        || booth_step_rows::play(rt, name)
        || booth_runs::play(rt, name)
}
