//! The transport of a client's requests: from its arguments, or else from its environment.

use crate::unmade::Unmade;
use crate::word_lists::push_word;
use booth_links::Transport;
use std::alloc::Global;
use std::env;
use std::env::VarError;

/// The variable that names the transport of requests.
const TRANSPORT: &str = "BOOTH_TRANSPORT";

// Returns the transport in the environment.
fn transport_named(rt: &HostRuntime) -> Result<Transport, Unmade> {
    match env::var(rt, TRANSPORT) {
        Ok(name) => Transport::named(name.as_str()).ok_or(Unmade::UnknownTransport),
        Err(VarError::OutOfMemory) => Err(Unmade::OutOfMemory),
        Err(VarError::NotPresent) => Ok(Transport::Either),
        Err(VarError::NotUnicode) => Err(Unmade::UnknownTransport),
    }
}

// Returns the transport in an argument.
fn option_in(word: &str) -> Option<Transport> {
    if word == "--tcp" {
        return Some(Transport::Tcp);
    }
    if word == "--udp" {
        return Some(Transport::Udp);
    }
    None
}

/// The arguments of a client without those for the transport, and the transport that they name.
#[derive(Drop)]
pub struct Parted {
    pub words: Vec<String>,
    pub transport: Option<Transport>,
}

/// Takes `--tcp` and `--udp` out of arguments, up to `--`. They may not name both.
pub fn part(alloc: Global, words: &[String]) -> Result<Parted, Unmade> {
    let mut rest = Vec::new(alloc);
    let mut named: Option<Transport> = None;
    let mut takes_options = true;
    for word in words {
        takes_options = takes_options && word.as_str() != "--";
        match option_in(word.as_str()) {
            Some(transport) if takes_options => {
                if named.unwrap_or(transport) != transport {
                    return Err(Unmade::BothTransports);
                }
                named = Some(transport);
            }
            Some(_) | None => push_word(alloc, &mut rest, word.as_str())?,
        }
    }
    Ok(Parted {
        words: rest,
        transport: named,
    })
}

/// Returns the transport in the arguments, or else the one in the environment.
pub fn chosen_transport(rt: &HostRuntime, named: Option<Transport>) -> Result<Transport, Unmade> {
    match named {
        Some(transport) => Ok(transport),
        None => transport_named(rt),
    }
}
