//! The lines of the log.
ghost use Rattle.std.specs.Prelude.{◌≡◌, ◌≤◌, ◌+◌, ◌/◌, ◌++◌, codes, length};
ghost use Rattle.booth_talk.specs.Civil.{date_text};
ghost use Rattle.booth_log.specs.Texts.{begins_text, end_text, happening_text, lease_text, line, of_ticket, printed_local, ready_text, status_text, stray_text, unstarted_text};

use crate::happening::Happening;
use crate::line::Line;
use booth_base::{Address, Name};
use booth_host::Place;
use booth_manual::NO_END;
use booth_rec::Lease;

/// The version of the daemon.
const VERSION: &str = "0.2.0";

// Appends the local address.
fn put_local(local: &Option<Address>, line: &mut Line)
    requires { length line.old ≤ 100 }
    ensures bytes { line.new ≡ line.old ++ printed_local local.now }
    ensures len { length line.new ≤ length line.old + 39 }
{
    match local {
        Some(address) => line.put(address.print().as_bytes()),
        None => line.put(b"any"),
    }
}

/// Returns the first line of a daemon.
pub(crate) fn begins_line(place: &Place) -> Line
    ensures { result ≡ line (begins_text place.now.local place.now.port place.now.records place.now.conf_path) }
{
    let mut line = Line::begin();
    line.put(b"begins: version ");
    line.put(VERSION.as_bytes());
    line.put(b", address ");
    put_local(&place.local, &mut line);
    line.put(b", port ");
    line.put_number(u64::from(place.port));
    line.put(b", records ");
    line.put_path(&place.records);
    line.put(b", configuration ");
    line.put_path(&place.conf_path);
    line.end();
    line
}

/// Returns the line that all records were read, with the number of tickets.
pub(crate) fn ready_line(tickets: usize) -> Line
    ensures { result ≡ line (ready_text tickets) }
{
    let mut line = Line::begin();
    line.put(b"ready, tickets: ");
    line.put_number(tickets as u64);
    line.end();
    line
}

// Starts a line about a ticket.
fn begin_of(ticket: &Name) -> Line
    ensures bytes { result ≡ codes "boothd: " ++ (codes "ticket " ++ ticket.now ++ codes ": ") }
    ensures len { length result ≤ 100 }
{
    let mut line = Line::begin();
    line.put(b"ticket ");
    line.put(ticket.bytes());
    line.put(b": ");
    line
}

// Appends a moment in milliseconds since 1970 as the end of a lease.
fn put_until(until: u64, line: &mut Line)
    requires { length line.old ≤ 300 }
    ensures bytes { line.new ≡ line.old ++ (codes " until " ++ date_text (until / 1000) ++ codes " UTC") }
    ensures len { length line.new ≤ length line.old + 50 }
{
    line.put(b" until ");
    line.put_date(until / 1000);
    line.put(b" UTC");
}

// Appends when a lease ends.
fn put_end(until: u64, line: &mut Line)
    requires { length line.old ≤ 300 }
    ensures bytes { line.new ≡ line.old ++ end_text until }
    ensures len { length line.new ≤ length line.old + 50 }
{
    if until == NO_END {
        line.put(b" without an end");
    } else {
        put_until(until, line);
    }
}

// Appends how a lease changed.
fn put_lease(words: &[u8], lease: &Lease, line: &mut Line)
    requires begun { length line.old ≤ 100 }
    requires short { length words.now ≤ 20 }
    ensures bytes { line.new ≡ line.old ++ (words.now ++ lease_text lease.now) }
    ensures len { length line.new ≤ length line.old + 140 }
{
    line.put(words);
    line.put(b" the lease of term ");
    line.put_number(u64::from(lease.term));
    put_end(lease.until, line);
}

fn put_happening(happening: &Happening, line: &mut Line)
    requires { length line.old ≤ 100 }
    ensures bytes { line.new ≡ line.old ++ happening_text happening.now }
    ensures len { length line.new ≤ length line.old + 140 }
{
    match happening {
        Happening::Gains(lease) => put_lease(b"gains", lease, line),
        Happening::GivesBack(lease) => put_lease(b"gives back", lease, line),
        Happening::FailsToKeep(lease) => put_lease(b"fails to keep", lease, line),
        Happening::FailsToGiveBack(lease) => put_lease(b"fails to give back", lease, line),
        Happening::Begins(lease) => put_lease(b"begins with", lease, line),
    }
}

/// Returns the line for a change of a ticket's lease.
pub(crate) fn happening_line(ticket: &Name, happening: &Happening) -> Line
    ensures { result ≡ line (of_ticket ticket.now (happening_text happening.now)) }
{
    let mut line = begin_of(ticket);
    put_happening(happening, &mut line);
    line.end();
    line
}

/// Returns the line that the handler of a ticket could not be started.
pub(crate) fn unstarted_line(ticket: &Name) -> Line
    ensures { result ≡ line (of_ticket ticket.now unstarted_text) }
{
    let mut line = begin_of(ticket);
    line.put(b"its handler cannot be started");
    line.end();
    line
}

// Appends how a handler ended.
fn put_status_text(status: i32, line: &mut Line)
    requires { length line.old ≤ 100 }
    ensures bytes { line.new ≡ line.old ++ status_text status }
    ensures len { length line.new ≤ length line.old + 80 }
{
    line.put(b"its handler ended with status ");
    line.put_status(status);
}

/// Returns the line for the status of a ticket's handler.
pub(crate) fn status_line(ticket: &Name, status: i32) -> Line
    ensures { result ≡ line (of_ticket ticket.now (status_text status)) }
{
    let mut line = begin_of(ticket);
    put_status_text(status, &mut line);
    line.end();
    line
}

/// Returns the line for the status of a handler whose ticket is not known.
pub(crate) fn stray_line(job: u64, status: i32) -> Line
    ensures { result ≡ line (stray_text job status) }
{
    let mut line = Line::begin();
    line.put(b"the handler of job ");
    line.put_number(job);
    line.put(b" ended with status ");
    line.put_status(status);
    line.end();
    line
}
