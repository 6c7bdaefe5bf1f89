//! Simulations of other clusters: their counts, as far as the rules say them.
ghost use Rattle.std.specs.Prelude.{◌≤◌};
ghost use Rattle.booth_sim.specs.declared.summary.TheConstants.{MOST_EVENTS};

use booth_conf::Config;
use booth_sim::{Summary, simulate};
use std::alloc::Global;
use std::process::Abort;

const THREE: &str =
    "site=\"192.168.201.100\"\nsite=\"192.168.202.100\"\narbitrator=\"192.168.203.100\"\n\
    ticket=\"ticket-db8\"\n";

const ALONE: &str = "site=\"10.0.0.1\"\nticket=\"web\"\n";

/// A ticket with a handler, one with a prerequisite, and one that is granted manually.
const MANY_RULES: &str = "site=\"10.0.0.1\"\nsite=\"10.0.0.2\"\narbitrator=\"10.0.0.3\"\n\
    ticket=\"web\"\nbefore-acquire-handler=\"/bin/check\"\n\
    ticket=\"db\"\nattr-prereq=\"manual ready eq yes\"\n\
    ticket=\"hand\"\nmode=\"manual\"\n";

fn summary_of(rt: &impl Abort, alloc: Global, file: &str, events: u64, number: u64) -> Summary
    requires { events ≤ MOST_EVENTS }
{
    let config = Config::parse(alloc, file.as_bytes()).expect(rt, "a configuration");
    simulate(alloc, config, events, number).expect(rt, "memory")
}

#[test]
fn without_events_nothing_is_counted(rt: HostRuntime) {
    let nothing = Summary {
        events: 0,
        number: 1,
        delivered: 0,
        restarts: 0,
        gains: 0,
        releases: 0,
        greatest_term: 0,
        most_holders: 0,
    };
    assert!(rt; summary_of(&rt, rt.alloc(), THREE, 0, 1) == nothing);
}

#[test]
fn a_number_makes_one_simulation(rt: HostRuntime) {
    let one = summary_of(&rt, rt.alloc(), THREE, 300, 7);
    // the first event is a turn of a member that greets, and 175 of the others bring a frame
    assert!(rt; one.delivered == 175);
    assert!(rt; summary_of(&rt, rt.alloc(), THREE, 300, 7) == one);
    assert!(rt; summary_of(&rt, rt.alloc(), THREE, 300, 8).delivered == 178);
}

#[test]
fn a_member_that_is_alone_hears_of_no_other(rt: HostRuntime) {
    let summary = summary_of(&rt, rt.alloc(), ALONE, 300, 3);
    assert!(rt; summary.delivered == 0);
}

#[test]
fn sixteen_members(rt: HostRuntime) {
    let alloc = rt.alloc();
    let mut file = String::new(alloc);
    for place in 1..17 {
        let line = format!(in alloc; "site=\"10.0.0.{place}\"\n").expect(&rt, "memory");
        file.push_str(&line).expect(&rt, "memory");
    }
    file.push_str("ticket=\"web\"\n").expect(&rt, "memory");
    // the first event is a turn of a member that greets, and 122 of the others bring a frame
    let summary = summary_of(&rt, alloc, &file, 200, 5);
    assert!(rt; summary.delivered == 122);
    assert!(rt; summary.most_holders <= 1);
}

#[test]
fn handlers_prerequisites_and_tickets_by_hand(rt: HostRuntime) {
    // Clients ask for each ticket once, at the second site: the prerequisite does not hold, the manual ticket is
    // granted, and the handler never reports its end.
    let gained = Summary {
        gains: 1,
        greatest_term: 1,
        ..summary_of(&rt, rt.alloc(), MANY_RULES, 250, 38)
    };
    assert!(rt; summary_of(&rt, rt.alloc(), MANY_RULES, 250, 38) == gained);
    assert!(rt; gained.releases == 0);
    assert!(rt; gained.most_holders == 0);
}
