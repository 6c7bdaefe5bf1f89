//! The daemon that a client asks if its arguments name none: the member of this machine, if the environment names it.

use crate::explaining::{config_at, say};
use crate::unmade::Unmade;
use crate::word_lists::{push_word, push_words};
use booth_base::{Address, PathText};
use booth_causes::{bad_address, members_of, sites_of};
use booth_cli::{Asked, Program, ask};
use booth_conf::Config;
use booth_talk::Order;
use booth_tools::passed;
use std::alloc::{AllocError, Global};
use std::env;
use std::env::VarError;

/// The variable that names the address of this machine's member.
const ADDRESS: &str = "BOOTH_ADDRESS";

/// A request to a daemon that the arguments do not name.
#[derive(Drop)]
struct Question {
    /// Whether every member answers it, and not only a site.
    of_any: bool,
    conf: PathText,
}

// Returns the address in the environment. One that is not UTF-8 is no address.
fn named(rt: &HostRuntime) -> Result<Option<String>, AllocError> {
    match env::var(rt, ADDRESS) {
        Ok(text) if text.is_empty() => Ok(None),
        Ok(text) => Ok(Some(text)),
        Err(VarError::NotPresent) => Ok(None),
        Err(VarError::NotUnicode) => Ok(Some(String::from_str(rt.alloc(), "?")?)),
        Err(VarError::OutOfMemory) => Err(AllocError),
    }
}

// Returns whether every member answers this, and not only a site.
fn is_of_any(order: &Order) -> bool {
    matches!(
        order,
        Order::List | Order::Show(_, _) | Order::Peers | Order::Status
    )
}

// Returns the request of these arguments to a daemon that they do not name.
fn question_in(alloc: Global, program: Program, words: &[String]) -> Option<Question> {
    let mut question = None;
    match &ask(alloc, program, words) {
        Ok(Asked::Client(asked)) => {
            if asked.site.is_none() {
                question = Some(Question {
                    of_any: is_of_any(&asked.order),
                    conf: asked.conf.copy(),
                });
            }
        }
        Ok(Asked::Move(asked)) => {
            if asked.site.is_none() {
                question = Some(Question {
                    of_any: false,
                    conf: asked.conf.copy(),
                });
            }
        }
        Ok(Asked::Daemon(_)) | Ok(Asked::Status(_)) | Ok(Asked::Simulation(_)) => {}
        Ok(Asked::Audit(_)) | Ok(Asked::Follow(_)) | Err(_) => {}
    }
    question
}

fn has(config: &Config, address: &Address, of_any: bool) -> bool {
    for member in config.members() {
        if member.address == *address && (member.site || of_any) {
            return true;
        }
    }
    false
}

// Prints that no such member has the address.
fn refuse(
    rt: HostRuntime,
    program: Program,
    address: &Address,
    question: &Question,
    config: &Config,
) {
    let text = address.print();
    let text = text.as_str();
    let kind = if question.of_any { "member" } else { "site" };
    let line = format!(in rt.alloc(); "{ADDRESS}: {text} is not a {kind}");
    if let Ok(line) = line {
        say(rt, program, line.as_bytes());
    }
    let path = question.conf.as_str();
    let cause = if question.of_any {
        members_of(path, config)
    } else {
        sites_of(path, config)
    };
    say(rt, program, cause.bytes());
}

// Refuses an address that is invalid or that no such member has. If the configuration cannot be read, the command
// prints why.
fn check(rt: HostRuntime, program: Program, text: &str, question: &Question) -> Result<(), Unmade> {
    let Ok(address) = Address::read(text.as_bytes()) else {
        say(rt, program, b"BOOTH_ADDRESS: bad site");
        if let Some(cause) = bad_address(ADDRESS, text) {
            say(rt, program, cause.bytes());
        }
        return Err(Unmade::Told);
    };
    let Some(config) = config_at(&rt, rt.alloc(), question.conf.as_str()) else {
        return Ok(());
    };
    if has(&config, &address, question.of_any) {
        return Ok(());
    }
    refuse(rt, program, &address, question, &config);
    Err(Unmade::Told)
}

// Returns the arguments with this site after the command, which follows this many others.
fn with_site(
    alloc: Global,
    words: &[String],
    before: usize,
    site: &str,
) -> Result<Vec<String>, AllocError> {
    let place = before.saturating_add(1).min(words.len());
    let mut all = Vec::new(alloc);
    push_words(alloc, &mut all, &words[..place])?;
    push_word(alloc, &mut all, "-s")?;
    push_word(alloc, &mut all, site)?;
    push_words(alloc, &mut all, &words[place..])?;
    Ok(all)
}

/// Returns the arguments of a client with the address in the environment as the daemon to ask, if they need one and
/// name none. Refuses an address that cannot be meant, and prints that.
pub fn with_default_site(
    rt: HostRuntime,
    alloc: Global,
    program: Program,
    words: Vec<String>,
) -> Result<Vec<String>, Unmade> {
    let Some(address) = named(&rt)? else {
        return Ok(words);
    };
    let asking = match program {
        Program::Booth => passed(words.as_slice()),
        Program::Geostore | Program::Boothd | Program::BoothFollow => words.as_slice(),
    };
    let Some(question) = question_in(alloc, program, asking) else {
        return Ok(words);
    };
    let before = words.len().saturating_sub(asking.len());
    check(rt, program, address.as_str(), &question)?;
    Ok(with_site(alloc, &words, before, address.as_str())?)
}
