//! The slots that are due at one moment: they are collected in a list, which is then sorted.
ghost use Rattle.std.specs.Prelude.{◌≡◌, ℕ, ◌<◌, ◌↔◌, ◌++◌, None, slice_index_or, vec_capacity, vec_len};
ghost use Rattle.std.specs.List.{Contains};
ghost use Rattle.std.specs.List.Sorted.{IsStrictlySortedBy};
ghost use Rattle.booth_chain.specs.Slots.{deadlines_of};
ghost use Rattle.booth_chain.specs.Draining.{added_at, by_deadline, number_of};

use crate::slot::Slot;

/// Appends the slot, if its deadline has come.
pub(crate) fn push_if_due(due: &mut Vec<u32>, slot: u32, deadline: Option<u64>, now: u64)
    requires room { vec_len due.old < vec_capacity due.old }
    ensures added { due.new.items ≡ due.old.items ++ added_at now slot deadline }
    ensures room { vec_capacity due.new ≡ vec_capacity due.old }
{
    let Some(deadline) = deadline else { return };
    if deadline <= now {
        due.push_reserved(slot);
    }
}

/// Returns the deadline of a slot, or 0 if it has none.
fn deadline_of(slots: &[Slot], slot: u32) -> u64
    ensures { result ≡ number_of (slice_index_or (deadlines_of slots.now) slot None) }
{
    match slots.get(slot as usize) {
        Some(slot) => slot.deadline.unwrap_or(0),
        None => 0,
    }
}

/// Sorts the slots by deadline and then slot, and removes repetitions.
pub(crate) fn sort_once(slots: &[Slot], due: &mut Vec<u32>)
    ensures sorted { IsStrictlySortedBy (by_deadline (deadlines_of slots.now)) due.new.items }
    ensures same { (slot : ℕ) → Contains due.new.items slot ↔ Contains due.old.items slot }
    ensures room { vec_capacity due.new ≡ vec_capacity due.old }
{
    due.sort_unstable_by_key(|slot| (deadline_of(slots, *slot), *slot));
    due.dedup();
}
