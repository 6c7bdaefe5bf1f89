//! The changes by the actions of a turn: written records, sent frames, and their counts.
ghost use Rattle.std.specs.Prelude.{◌≡◌, ◌+◌, ◌<◌, ◌≤◌, ◌^◌, ◌++◌, ◌∷◌, [], ℕ, List, length, max, position, IfOk, IfSome, Ok, false};
ghost use Rattle.booth_rec.specs.Record.{record_or_none};
ghost use Rattle.booth_conf.specs.Lookups.{is_called};
ghost use Rattle.booth_conf.specs.Sound.{IsSound};
ghost use Rattle.booth_host.specs.declared.entry.Entry.{Entry};
ghost use Rattle.booth_node.specs.Session.{Makes};
ghost use Rattle.booth_node.specs.World.{WorldEntry};
ghost use Rattle.booth_sim.specs.Counts.{gains, is_delivery, one_if, releases};
ghost use Rattle.booth_sim.specs.Kept.{all_kept};
ghost use Rattle.booth_sim.specs.Simulation.{entry_at};
ghost use Rattle.booth_sim.specs.Standing.{IsCounted, IsSeen, RisesByOne};

use crate::Summary;
use crate::frames::{SentFrames, place_of};
use booth_conf::Config;
use booth_host::Entry;
use booth_rec::{Lease, Record};
use std::alloc::AllocError;

// Returns whether a record gives a lease, and the record before it had no lease, or a lease that ends earlier.
fn gains(old: Option<Lease>, new: Option<Lease>) -> bool
    ensures { result ≡ gains old new }
{
    match (old, new) {
        (_, None) => false,
        (None, Some(_)) => true,
        (Some(old), Some(new)) => old.until < new.until,
    }
}

// Returns whether a record has no lease, and the record before had one.
fn releases(old: Option<Lease>, new: Option<Lease>) -> bool
    ensures { result ≡ releases old new }
{
    old.is_some() && new.is_none()
}

/// Returns the lease of a written record, if it has one.
pub(crate) fn lease_of(kept: &Option<Record>) -> Option<Lease>
    ensures { result ≡ (record_or_none kept.now).lease }
{
    match kept {
        Some(record) => record.lease,
        None => None,
    }
}

// Counts the write of a record for a ticket that had this lease before.
fn count_keep(summary: &mut Summary, old: Option<Lease>, rec: &Record)
    requires gains { summary.old.gains + 1 < 2 ^ 64 }
    requires releases { summary.old.releases + 1 < 2 ^ 64 }
    ensures gains { summary.new.gains ≡ summary.old.gains + one_if (gains old rec.now.lease) }
    ensures releases { summary.new.releases ≡ summary.old.releases + one_if (releases old rec.now.lease) }
    ensures greatest { summary.new.greatest_term ≡ summary.old.greatest_term }
    ensures delivered { summary.new.delivered ≡ summary.old.delivered }
    ensures restarts { summary.new.restarts ≡ summary.old.restarts }
    ensures rises { RisesByOne summary.old summary.new }
{
    if gains(old, rec.lease) {
        summary.gains += 1;
    }
    if releases(old, rec.lease) {
        summary.releases += 1;
    }
}

// Returns the place of the ticket with this name.
fn ticket_place(config: &Config, name: &[u8]) -> Option<usize>
    ensures exact { result ≡ position (is_called name.now) config.now.tickets }
    ensures within { IfSome result (λ place. place < length config.now.tickets) }
{
    config
        .tickets()
        .iter()
        .position(|ticket| name == ticket.name.bytes())
}

// Stores the record of the ticket with this name, and counts the write.
fn keep(
    config: &Config,
    kept: &mut [Option<Record>],
    summary: &mut Summary,
    name: &[u8],
    rec: &Record,
)
    requires sound { IsSound config.now }
    requires all { length kept.old ≡ length config.now.tickets }
    requires gains { summary.old.gains + 1 < 2 ^ 64 }
    requires releases { summary.old.releases + 1 < 2 ^ 64 }
    ensures kept { (before : List WorldEntry) (from time : ℕ) → kept.old ≡ all_kept config.now.tickets from before
        → kept.new ≡ all_kept config.now.tickets from
        (before ++ entry_at from time (Makes (Entry.Keep name.now rec.now (Ok tt))) ∷ []) }
    ensures counted { (before : List WorldEntry) (from time : ℕ) → kept.old ≡ all_kept config.now.tickets from before
        → IsCounted config.now before summary.old
        → IsCounted config.now (before ++ entry_at from time (Makes (Entry.Keep name.now rec.now (Ok tt))) ∷ [])
        summary.new }
    ensures all { length kept.new ≡ length kept.old }
    ensures rises { RisesByOne summary.old summary.new }
{
    summary.greatest_term = summary.greatest_term.max(u64::from(rec.term));
    if let Some(place) = ticket_place(config, name) {
        count_keep(summary, lease_of(&kept[place]), rec);
        kept[place] = Some(*rec);
    }
}

/// Adds one action of the member with index `from` to its records, the sent frames and the counts.
pub(crate) fn count(
    config: &Config,
    from: usize,
    deed: &Entry,
    kept: &mut [Option<Record>],
    frames: &mut SentFrames,
    summary: &mut Summary,
) -> Result<(), AllocError>
    requires sound { IsSound config.now }
    requires all { length kept.old ≡ length config.now.tickets }
    requires gains { summary.old.gains + 1 < 2 ^ 64 }
    requires releases { summary.old.releases + 1 < 2 ^ 64 }
    ensures seen { IfOk result (λ _. (before : List WorldEntry) (time : ℕ)
        → is_delivery config.now (Makes deed.now) ≡ false
        → IsSeen config.now before from kept.old frames.old summary.old
        → IsSeen config.now (before ++ entry_at from time (Makes deed.now) ∷ []) from kept.new frames.new summary.new) }
    ensures all { length kept.new ≡ length kept.old }
    ensures rises { RisesByOne summary.old summary.new }
{
    match deed {
        Entry::Keep {
            ticket,
            record,
            answer,
        } => match answer {
            Ok(()) => keep(config, kept, summary, ticket.bytes(), record),
            Err(_) => {}
        },
        Entry::Send { to, bytes, .. } => {
            if let Some(to) = place_of(config, to) {
                frames.push(from, to, bytes.bytes())?;
            }
        }
        Entry::Start { .. } => {}
        Entry::Next { .. } => {}
        Entry::Now { .. } => {}
        Entry::Open { .. } => {}
        Entry::ReadFile { .. } => {}
        Entry::Lock { .. } => {}
        Entry::Kept { .. } => {}
        Entry::Out { .. } => {}
        Entry::Err { .. } => {}
    }
    Ok(())
}
