//! The events of a cluster, drawn from a seed.
ghost use Rattle.std.specs.Prelude.{◌≡◌, ◌≤◌, IfOk};
ghost use Rattle.booth_sim.specs.Clusters.{IsNothing};
ghost use Rattle.booth_sim.specs.Laws.{IsSummary};
ghost use Rattle.booth_sim.specs.declared.summary.TheConstants.{MOST_EVENTS};

use crate::Summary;
use crate::cluster::Cluster;
use crate::drawing::{Draw, generator_of};
use crate::laws::{at_most_one_holds, simulations_are_worlds};
use booth_conf::Config;
use std::alloc::{AllocError, Global};

/// Returns a summary in which nothing is counted.
pub fn nothing_counted(events: u64, number: u64) -> Summary
    ensures nothing { IsNothing result }
    ensures events { result.events ≡ events }
    ensures number { result.number ≡ number }
{
    Summary {
        events,
        number,
        delivered: 0,
        restarts: 0,
        gains: 0,
        releases: 0,
        greatest_term: 0,
        most_holders: 0,
    }
}

/// Runs the members of a configuration through this many events, drawn from a seed, and counts the events of its
/// tickets.
pub fn simulate(
    alloc: Global,
    config: Config,
    events: u64,
    number: u64,
) -> Result<Summary, AllocError>
    requires { events ≤ MOST_EVENTS }
    ensures counts { IfOk result (λ summary. IsSummary config events number summary) }
    ensures one_holder { IfOk result (λ summary. summary.most_holders ≤ 1) }
{
    config.sound();
    simulations_are_worlds();
    at_most_one_holds();
    let mut generator = generator_of(number);
    let mut cluster = Cluster::new(alloc, config, nothing_counted(events, number))?;
    for event in 0..events {
        let draw = Draw::next(&mut generator);
        cluster.event(event as u32, &draw)?;
    }
    Ok(cluster.summary)
}
