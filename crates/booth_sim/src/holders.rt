//! The number of sites that hold a ticket.
ghost use Rattle.std.specs.Prelude.{◌≡◌, ◌<◌, ◌≤◌, ℕ, List, length, count_by, slice_get, Some};
ghost use Rattle.std.specs.List.{All, range_with_len};
ghost use Rattle.booth_conf.specs.declared.tickets.TicketConf.{TicketConf};
ghost use Rattle.booth_rec.specs.Record.{record_or_none};
ghost use Rattle.booth_node.specs.World.{WorldEntry, last_time};
ghost use Rattle.booth_sim.specs.Counts.{is_holder, is_in_force, most_of};
ghost use Rattle.booth_sim.specs.Standing.{AreDaemons, IsDaemon, KeepsAll};
ghost use Rattle.booth_sim.specs.declared.clock.TheConstants.{TIMES_END};

use crate::clock::reading_at;
use crate::counting::lease_of;
use crate::daemon::Daemon;
use booth_conf::Config;
use booth_rec::Record;

// Returns whether a record is in force at a reading.
fn is_in_force(kept: &Option<Record>, reading: u64) -> bool
    ensures { result ≡ is_in_force (record_or_none kept.now).lease reading }
{
    lease_of(kept).is_some_and(|lease| reading < lease.until)
}

// Returns whether the member with this index is a site that holds the ticket with that index at a true time.
fn is_holder(config: &Config, daemon: &Daemon, place: usize, ticket: usize, time: u64) -> bool
    requires member { place < length config.now.members }
    requires records { KeepsAll config.now daemon.now }
    requires ticket { ticket < length config.now.tickets }
    requires time { time < TIMES_END }
    ensures { (before : List WorldEntry) (conf : TicketConf) → slice_get config.now.tickets ticket ≡ Some conf
        → IsDaemon config.now before place daemon.now → time ≡ last_time 0 before
        → result ≡ is_holder config.now before conf place }
{
    config.members()[place].site && is_in_force(&daemon.kept[ticket], reading_at(place, time))
}

// Returns the number of sites that hold the ticket with this index at a true time.
fn holders(config: &Config, daemons: &[Daemon], ticket: usize, time: u64) -> u64
    requires all { length daemons.now ≡ length config.now.members }
    requires records { All (KeepsAll config.now) daemons.now }
    requires ticket { ticket < length config.now.tickets }
    requires time { time < TIMES_END }
    ensures exact { (before : List WorldEntry) (conf : TicketConf) → slice_get config.now.tickets ticket ≡ Some conf
        → AreDaemons config.now before 0 daemons.now → time ≡ last_time 0 before
        → result ≡ count_by (is_holder config.now before conf) (range_with_len 0 (length config.now.members)) }
    ensures few { result ≤ length config.now.members }
{
    let mut holders = 0;
    for (place, daemon) in daemons.iter().enumerate() {
        if is_holder(config, daemon, place, ticket, time) {
            holders += 1;
        }
    }
    holders
}

/// Returns the greatest number of sites that hold the same automatic ticket at a true time.
pub(crate) fn most_holders(config: &Config, daemons: &[Daemon], time: u64) -> u64
    requires all { length daemons.now ≡ length config.now.members }
    requires records { All (KeepsAll config.now) daemons.now }
    requires time { time < TIMES_END }
    ensures { (before : List WorldEntry) → AreDaemons config.now before 0 daemons.now → time ≡ last_time 0 before
        → result ≡ most_of config.now before config.now.tickets }
{
    let mut most = 0;
    for (place, ticket) in config.tickets().iter().enumerate() {
        if !ticket.manual {
            most = holders(config, daemons, place, time).max(most);
        }
    }
    most
}
