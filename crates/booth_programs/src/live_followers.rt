//! Whether a follower of a ticket lives on this machine, by its files and its process.

ghost use Rattle.std.specs.Prelude.{◌≤◌, length, IfOk};

use booth_cli::{Asked, MoveWords, Program, ask};
use std::alloc::{AllocError, Global};
use std::env::VarError;
use std::fs::File;
use std::io::Read;
use std::{env, fs, str};

/// The folder of the followers' files.
const FOLDER: &str = "/run/booth-follow";

/// The variable of the environment that names another folder, for tests.
const FOLDER_VARIABLE: &str = "BOOTH_FOLLOW_RUN";

/// The most bytes of a command line that are read. The longest one of a follower has fewer.
const LINE_BYTES: usize = 4_096;

fn folder(rt: &HostRuntime) -> Result<String, AllocError> {
    match env::var(rt, FOLDER_VARIABLE) {
        Ok(path) if !path.is_empty() => Ok(path),
        Err(VarError::OutOfMemory) => Err(AllocError),
        Ok(_) | Err(VarError::NotPresent | VarError::NotUnicode) => String::from_str(
            rt.alloc(),
            FOLDER,
        ),
    }
}

fn is_there(
    rt: &HostRuntime,
    folder: &str,
    ticket: &str,
    ending: &str,
) -> Result<bool, AllocError> {
    let path = format!(in rt.alloc(); "{folder}/{ticket}.{ending}")?;
    Ok(fs::exists(rt, path.as_str()).unwrap_or(false))
}

// Returns whether a service follows the ticket here and is not paused. There is no file for a ticket whose name has a
// slash, or a dot in front.
fn is_followed(rt: &HostRuntime, ticket: &str) -> Result<bool, AllocError> {
    if ticket.starts_with('.') || ticket.contains('/') {
        return Ok(false);
    }
    let folder = folder(rt)?;
    let folder = folder.as_str();
    Ok(is_there(rt, folder, ticket, "state")? && !is_there(rt, folder, ticket, "paused")?)
}

// Returns the arguments of a command line as the system has them. An argument that is not UTF-8 matches none.
fn words_in(alloc: Global, line: &[u8]) -> Result<Vec<String>, AllocError> {
    let mut words = Vec::new(alloc);
    let Ok(line) = str::from_utf8(line) else {
        return Ok(words);
    };
    for word in line.trim_end_matches('\0').split('\0') {
        words.push(String::from_str(alloc, word)?)?;
    }
    Ok(words)
}

fn is_booth_follow(name: &str) -> bool {
    name == "booth-follow" || name.ends_with("/booth-follow")
}

// Returns whether this is the command line of a follower of the ticket, with the same configuration.
fn follows(alloc: Global, line: &[u8], asked: &MoveWords) -> Result<bool, AllocError> {
    let words = words_in(alloc, line)?;
    let [name, ..] = words.as_slice() else {
        return Ok(false);
    };
    if !is_booth_follow(name.as_str()) {
        return Ok(false);
    }
    let mut is_same = false;
    if let Ok(Asked::Follow(follow)) = &ask(alloc, Program::BoothFollow, &words) {
        is_same = follow.ticket.bytes() == asked.ticket.bytes()
            && follow.conf.as_str() == asked.conf.as_str();
    }
    Ok(is_same)
}

// Reads the command line of the process with this folder. A process that ends has none.
fn read_line(rt: &HostRuntime, process: &str, line: &mut [u8]) -> Result<usize, AllocError>
    ensures { IfOk result (λ count. count ≤ length line.new) }
{
    let path = format!(in rt.alloc(); "/proc/{process}/cmdline")?;
    let Ok(mut file) = File::open(rt, path.as_str()) else {
        return Ok(0);
    };
    match file.read(line) {
        Ok(count) => Ok(count),
        Err(_) => Ok(0),
    }
}

/// Returns whether a follower of the ticket to move lives on this machine, as far as this user sees its processes. A
/// follower that is paused or stopped does not count.
pub fn has_follower(rt: &HostRuntime, asked: &MoveWords) -> Result<bool, AllocError> {
    let Ok(ticket) = str::from_utf8(asked.ticket.bytes()) else {
        return Ok(false);
    };
    if !is_followed(rt, ticket)? {
        return Ok(false);
    }
    let Ok(processes) = fs::read_dir(rt, "/proc") else {
        return Ok(false);
    };
    let mut line = [0u8; LINE_BYTES];
    for process in processes {
        let Ok(process) = process else {
            continue;
        };
        let count = read_line(rt, process.file_name(), &mut line)?;
        if follows(rt.alloc(), &line[..count], asked)? {
            return Ok(true);
        }
    }
    Ok(false)
}
