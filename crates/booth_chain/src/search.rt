//! The search for the first slot that is due, bucket by bucket. Each look at a bucket or a slot is a step.
ghost use Rattle.std.specs.Prelude.{◌≡◌, ℕ, ◌+◌, ◌<◌, ◌≤◌, ◌^◌, length};
ghost use Rattle.booth_chain.specs.Pool.{items_at};
ghost use Rattle.booth_chain.specs.Slots.{IsIn, deadlines_of};
ghost use Rattle.booth_chain.specs.declared.buckets.TheConstants.{BUCKETS};
ghost use Rattle.booth_chain.specs.Search.{SlotIn, SlotNear, IsFirstOf, earlier_of, found_at, looks};

use crate::buckets::BUCKETS;
use crate::chains::Chains;
use crate::slot::{Found, Slot};
use crate::steps::Steps;
use std::sync::ledger::Ledger;

/// Returns the earlier of two slots, by deadline and then slot.
fn earlier(first: Option<Found>, other: Option<Found>) -> Option<Found>
    ensures { result ≡ earlier_of first other }
{
    let Some(found) = first else { return other };
    let Some(new) = other else { return first };
    if found.deadline < new.deadline {
        first
    } else if new.deadline < found.deadline {
        other
    } else if new.slot < found.slot {
        other
    } else {
        first
    }
}

/// Returns the slot, if its deadline has come.
fn found_if_due(now: u64, slot: u32, deadline: Option<u64>) -> Option<Found>
    ensures { result ≡ found_at now slot deadline }
{
    match deadline {
        Some(deadline) => {
            if now < deadline {
                None
            } else {
                Some(Found { slot, deadline })
            }
        }
        None => None,
    }
}

/// Returns the first slot of a list that is due.
fn first_in_bucket<L: Ledger>(
    pool: &Chains<u32>,
    slots: &[Slot],
    bucket: u32,
    now: u64,
    steps: &mut Steps<L>,
) -> Option<Found>
    requires exists { bucket < length pool.now.lists }
    requires known { (node item : ℕ) → IsIn node item (items_at pool.now bucket) → item < length slots.now }
    ensures first { IsFirstOf (SlotIn (items_at pool.now bucket)) (deadlines_of slots.now) now result }
    ensures steps { steps.new ≡ steps.old + 1 + length (items_at pool.now bucket) }
{
    let mut first = None;
    let mut at = pool.first(bucket, steps);
    while let Some(node) = at {
        let slot = *pool.at(node);
        let found = found_if_due(now, slot, slots[slot as usize].deadline);
        first = earlier(first, found);
        at = pool.next(node, steps);
    }
    first
}

/// Returns the first slot that is due in these buckets.
pub(crate) fn first_in_buckets<L: Ledger>(
    pool: &Chains<u32>,
    slots: &[Slot],
    from: u64,
    many: u64,
    now: u64,
    steps: &mut Steps<L>,
) -> Option<Found>
    requires exists { BUCKETS ≤ length pool.now.lists }
    requires known { (list node item : ℕ) → IsIn node item (items_at pool.now list) → item < length slots.now }
    requires fits { from + many < 2 ^ 64 }
    ensures first { IsFirstOf (SlotNear pool.now from many) (deadlines_of slots.now) now result }
    ensures steps { steps.new ≡ steps.old + looks pool.now from many }
{
    let mut first = None;
    for step in 0..many {
        let bucket = ((from + step) % BUCKETS) as u32;
        let found = first_in_bucket(pool, slots, bucket, now, steps);
        first = earlier(first, found);
    }
    first
}
