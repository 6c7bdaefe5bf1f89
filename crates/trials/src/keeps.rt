//! Writes one record of a ticket after another with the real host, and prints each once it is written.
//!
//! Tests kill it at any moment and read the file that it leaves.

use booth_base::{Name, PathText};
use booth_host::{Failed, Host, Place};
use booth_real::RealHost;
use booth_rec::{Lease, Record};
use std::alloc::Global;

fn say(alloc: Global, host: &mut RealHost, what: &str, term: u32) -> Result<(), Failed> {
    match format!(in alloc; "{what} {term}\n") {
        Ok(line) => host.out(line.as_bytes()),
        Err(_) => Err(Failed),
    }
}

// Returns the term of the record, or 0 if there is none.
fn kept_term(host: &mut RealHost, ticket: &Name) -> Result<u32, Failed> {
    match host.kept(ticket)? {
        Some(record) => Ok(record.term),
        None => Ok(0),
    }
}

// Writes a record of this term, and prints the term.
fn keep(alloc: Global, host: &mut RealHost, ticket: &Name, term: u32) -> Result<(), Failed> {
    let until = u64::from(term);
    host.keep(ticket, &Record::plain(term, Some(Lease { term, until })))?;
    say(alloc, host, "kept", term)
}

// Prints the record, and writes the terms that follow.
fn keep_on(alloc: Global, host: &mut RealHost, ticket: &Name, count: u32) -> Result<(), Failed> {
    let first = kept_term(host, ticket)?;
    say(alloc, host, "read", first)?;
    for further in 1..=count {
        keep(alloc, host, ticket, first.saturating_add(further))?;
    }
    Ok(())
}

// Opens the host, and writes records.
fn open_and_keep(alloc: Global, host: &mut RealHost, place: &Place, count: u32) -> bool {
    match Name::read(b"ticket-db8") {
        Ok(ticket) => { host.open(place).is_ok() && keep_on(alloc, host, &ticket, count).is_ok() }
        Err(_) => false,
    }
}

// Returns the place of this directory.
fn place_in(directory: &str) -> Option<Place> {
    match (PathText::read(directory), PathText::read("")) {
        (Ok(records), Ok(conf_path)) => Some(Place {
            local: None,
            port: 0,
            records,
            conf_path,
        }),
        _ => None,
    }
}

fn new_host(rt: &HostRuntime) -> Option<RealHost> {
    RealHost::new(rt.clone().ok()?, rt.alloc()).ok()
}

/// Prints the record of this directory, and then writes and prints `count` further ones. Returns whether each was
/// written.
pub fn keep_each(rt: &HostRuntime, directory: &str, count: u32) -> bool {
    match (new_host(rt), place_in(directory)) {
        (Some(mut host), Some(place)) => open_and_keep(rt.alloc(), &mut host, &place, count),
        _ => false,
    }
}
