//! A member's turn, and its counts.
ghost use Rattle.std.specs.Prelude.{◌≡◌, ◌+◌, ◌<◌, ◌^◌, [], Ok, OnOk, length};
ghost use Rattle.booth_conf.specs.Sound.{IsSound};
ghost use Rattle.booth_host.specs.declared.entry.Entry.{Entry};
ghost use Rattle.booth_node.specs.Session.{Makes};
ghost use Rattle.booth_sim.specs.Counts.{is_delivery, one_if};
ghost use Rattle.booth_sim.specs.Standing.{KeepsAll};
ghost use Rattle.booth_sim.specs.Turning.{HasRoom, MadeTurn, Sees};

use crate::Summary;
use crate::counting::count;
use crate::daemon::{Coming, Daemon, take_turn};
use crate::frames::{SentFrames, place_of};
use booth_conf::Config;
use booth_host::{Arrival, Entry};
use booth_rec::Record;
use std::alloc::{AllocError, Global};

// Counts the arrival of a frame from a member.
fn count_arrival(config: &Config, arrival: &Arrival, summary: &mut Summary)
    requires { summary.old.delivered + 1 < 2 ^ 64 }
    ensures { summary.new ≡ record summary.old {
      delivered = summary.old.delivered
          + one_if (is_delivery config.now (Makes (Entry.Next 100 (Ok arrival.now) [])));
    } }
{
    if let Arrival::Datagram(from) = arrival
        && place_of(config, from).is_some()
    {
        summary.delivered += 1;
    }
}

// Applies the actions of the member with this index.
fn count_all(
    config: &Config,
    from: usize,
    deeds: &[Entry],
    kept: &mut [Option<Record>],
    frames: &mut SentFrames,
    summary: &mut Summary,
) -> Result<(), AllocError>
    requires sound { IsSound config.now }
    requires all { length kept.old ≡ length config.now.tickets }
    requires gains { summary.old.gains + length deeds.now < 2 ^ 64 }
    requires releases { summary.old.releases + length deeds.now < 2 ^ 64 }
    ensures { OnOk result (Sees config.now from deeds.now kept.old kept.new frames.old frames.new
        summary.old summary.new) }
{
    for deed in deeds {
        count(config, from, deed, kept, frames, summary)?;
    }
    Ok(())
}

/// Makes the member with this index take a turn, and counts its actions.
pub(crate) fn turn(
    alloc: Global,
    config: &Config,
    place: usize,
    coming: &Coming<'_>,
    daemon: &mut Daemon,
    frames: &mut SentFrames,
    summary: &mut Summary,
) -> Result<(), AllocError>
    requires sound { IsSound config.now }
    requires all { KeepsAll config.now daemon.old }
    requires room { HasRoom summary.old }
    ensures { OnOk result (MadeTurn config.now place coming.now daemon.old daemon.new frames.old frames.new
        summary.old summary.new) }
{
    let deeds = take_turn(alloc, &mut daemon.node, &mut daemon.host, coming)?;
    count_arrival(config, &coming.arrival, summary);
    count_all(config, place, deeds, &mut daemon.kept, frames, summary)?;
    Ok(())
}
