//! The program `booth-follow`: its arguments over the real host, and the lines about its turns.

use booth_cli::{Asked, Program, ask};
use booth_followers::{Outcome, booth_follow};
use booth_following::Setting;
use booth_host::Host;
use booth_programs::Watcher;
use booth_real::{Notifier, RealHost, Speaker};
use std::alloc::{AllocError, Global};
use std::env::Env;
use std::{fs, str};

/// The argument of the program whose runs may overlap with other runs of its ticket.
const BESIDE: &str = "renew";

/// The variable that names the file with the end until which an earlier follower left the service running.
const END_FILE: &str = "BOOTH_FOLLOW_END";

// Has each reading be one of the clock of this site's daemon: an end from the daemon is a time of that clock.
fn shares_clock(alloc: Global, words: &[String], host: &mut RealHost) -> bool {
    let mut is_shared = true;
    if let Ok(Asked::Follow(asked)) = &ask(alloc, Program::BoothFollow, words) {
        is_shared = host.share_clock(&asked.records);
    }
    is_shared
}

// Returns the end in milliseconds for a text with whole seconds before a line feed.
fn end_in(text: &[u8]) -> Option<u64> {
    let Ok(text) = str::from_utf8(text) else {
        return None;
    };
    let seconds = text.strip_suffix('\n')?.parse::<u64>().ok()?;
    seconds.checked_mul(1000)
}

// Returns the end until which an earlier follower left the service running, if a file has one.
fn left_end(rt: &HostRuntime, alloc: Global, host: &mut RealHost) -> Option<u64> {
    let mut room = [0u8; 256];
    let Ok(count) = rt.var(END_FILE, &mut room) else {
        return None;
    };
    let Ok(path) = str::from_utf8(&room[..count]) else {
        return None;
    };
    // (the host prints for each file why it is not read, and a missing file is no fault)
    if fs::metadata(rt, path).is_err() {
        return None;
    }
    match host.read_file(alloc, path) {
        Ok(text) => end_in(text.bytes()),
        Err(_) => None,
    }
}

/// Runs `booth-follow` with these arguments, the first of which is its name, and returns how that ended.
pub(crate) fn run_follower(
    rt: HostRuntime,
    alloc: Global,
    words: &[String],
) -> Result<Outcome, AllocError> {
    let name = Program::BoothFollow.name();
    let mut host = RealHost::new(rt, alloc)?;
    host.speak_as(name);
    host.run_beside(BESIDE);
    if !shares_clock(alloc, words, &mut host) {
        return Ok(Outcome::OpenFault);
    }
    let mut setting = Setting {
        left: left_end(&rt, alloc, &mut host),
        watch: Watcher::new(Speaker::new(rt, name), Notifier::new(rt, name)),
    };
    Ok(booth_follow(alloc, words, &mut setting, &mut host))
}
