//! What tests and benches run of the product's parts.
//!
//! `trials play PLAYER` plays a script on standard input. `trials keeps DIRECTORY COUNT` writes records with the real
//! host. `trials torn` opens what torn writes leave of a record file. `trials remove ITEMS` removes items from the
//! middle of one list; `trials ask SLOTS UNTIL` asks a timer in which nothing is due; `trials renew SLOTS SPREAD UNTIL`
//! sets each slot again once it is due. Without arguments it runs `torn`, and the last three at small sizes.
#![tactic(auto)]

mod asking;
mod keeps;
mod playing;
mod real;
mod removing;
mod renewing;
mod torn_writes;

use crate::asking::ask_at_each_moment;
use crate::keeps::keep_each;
use crate::playing::play;
use crate::removing::remove_from_the_middle;
use crate::renewing::renew_each;
use crate::torn_writes::print_torn_writes;
use std::env;
use std::process::ExitCode;

fn print_removed(rt: &HostRuntime, items: u32) -> bool {
    match remove_from_the_middle(rt.alloc(), items) {
        Some(removed) => println!(rt; "{removed} items left the middle of {items}").is_ok(),
        None => false,
    }
}

fn print_asked(rt: &HostRuntime, slots: u32, until: u32) -> bool {
    match ask_at_each_moment(rt.alloc(), slots, until) {
        Some(none) => println!(rt; "{none} answers none at {slots} slots").is_ok(),
        None => false,
    }
}

fn print_renewed(rt: &HostRuntime, slots: u32, spread: u32, until: u32) -> bool {
    match renew_each(rt.alloc(), slots, spread, until) {
        Some(renewed) => println!(rt; "{renewed} times a slot of {slots} was due").is_ok(),
        None => false,
    }
}

// Runs what prints the same on each machine, at small sizes.
fn print_small(rt: &HostRuntime) -> bool {
    print_torn_writes(rt)
        && print_removed(rt, 4_000)
        && print_asked(rt, 1_000, 600)
        && print_renewed(rt, 64, 1_000, 2_999)
}

fn number(word: &str) -> Option<u32> {
    word.parse().ok()
}

// Runs a command. Returns whether nothing went wrong, or None if it has a number that cannot be read.
fn run_command(rt: &HostRuntime, command: &str, given: &[String]) -> Option<bool> {
    Some(match (command, given) {
        ("torn", []) => print_torn_writes(rt),
        ("play", [player]) => play(rt, player.as_str()),
        ("keeps", [directory, count]) => keep_each(rt, directory.as_str(), number(count)?),
        ("remove", [items]) => print_removed(rt, number(items)?),
        ("ask", [slots, until]) => print_asked(rt, number(slots)?, number(until)?),
        ("renew", [slots, spread, until]) => {
            print_renewed(rt, number(slots)?, number(spread)?, number(until)?)
        }
        _ => false,
    })
}

fn run(rt: &HostRuntime, words: &[String]) -> bool {
    match words {
        [] => print_small(rt),
        [command, given @ ..] => run_command(rt, command.as_str(), given).unwrap_or(false),
    }
}

fn main(rt: HostRuntime) -> ExitCode {
    let Ok(words) = env::args(&rt) else {
        return ExitCode::FAILURE;
    };
    let words: Result<Vec<String>, _> = words.skip(1).collect(rt.alloc());
    match words {
        Ok(words) if run(&rt, &words) => ExitCode::SUCCESS,
        _ => ExitCode::FAILURE,
    }
}
