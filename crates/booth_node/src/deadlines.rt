//! The deadlines of a node's tickets.
ghost use Rattle.std.specs.Prelude.{◌≡◌, ◌≤◌, ◌<◌, ◌≢◌, ◌^◌, ℕ, [], map, None, length, slice_get, slice_index_or, vec_capacity, IfSome, IsSomeAnd, MatchOption};
ghost use Rattle.std.specs.List.{All};
ghost use Rattle.booth_chain.specs.DueList.{due_list};
ghost use Rattle.booth_chain.specs.Wheel.{with_deadline};
ghost use Rattle.booth_node.specs.Led.{Led};
ghost use Rattle.booth_node.specs.Reaction.{IsDone, each_due, due_places, deadline_of};
ghost use Rattle.booth_node.specs.View.{state_with};

use crate::tickets::TicketTable;
use booth_chain::{Steps, Wheel};
use booth_host::Host;
use std::marker::Brand;
use std::sync::ledger::{Blank, Ledger};

/// Sets the deadline of a slot, or leaves it without one.
pub(crate) fn set_deadline(wheel: &mut Wheel, slot: u32, deadline: Option<u64>)
    requires { slot < length wheel.old.deadlines }
    ensures { wheel.new ≡ with_deadline wheel.old slot deadline }
{
    match deadline {
        Some(deadline) => wheel.set(slot, deadline),
        None => wheel.clear(slot),
    }
}

/// Updates the deadline of the ticket at this place, if there is such a ticket.
pub(crate) fn look_again(table: &TicketTable, wheel: &mut Wheel, place: Option<usize>)
    requires there { IfSome place (λ place. place < length table.now.tickets.items) }
    requires slots { length wheel.old.deadlines ≡ length table.now.tickets.items }
    ensures { MatchOption place (wheel.new ≡ wheel.old)
        (λ place. IsSomeAnd (slice_get table.now.tickets.items place)
        (λ ticket. wheel.new ≡ with_deadline wheel.old place (deadline_of ticket))) }
{
    if let Some(place) = place {
        set_deadline(wheel, place as u32, table.deadline(place));
    }
}

// Drains the slots that are due, in order. They no longer have a deadline.
fn drain_counted<L: Ledger>(wheel: &mut Wheel, now: u64, due: &mut Vec<u32>, blank: Blank)
    requires name { blank.name ≡ L.name }
    requires parts { blank.parts ≡ L.parts }
    requires some { 0 < L.parts }
    requires later { wheel.old.last ≤ now }
    requires room { length wheel.old.deadlines ≤ vec_capacity due.old }
    ensures due { due.new.items ≡ map (λ entry. entry.1) (due_list now wheel.old.deadlines) }
    ensures rest { (slot : ℕ) → All (λ gone. gone ≢ slot) due.new.items
        → slice_index_or wheel.new.deadlines slot None ≡ slice_index_or wheel.old.deadlines slot None }
    ensures slots { length wheel.new.deadlines ≡ length wheel.old.deadlines }
    ensures last { wheel.new.last ≡ now }
    ensures room { vec_capacity due.new ≡ vec_capacity due.old }
{
    let mut steps: Steps<L> = Steps::new(blank);
    wheel.drain(now, due, &mut steps);
}

/// Writes the slots that are due into `due`, by deadline and then slot. They no longer have a deadline.
pub(crate) fn drain(wheel: &mut Wheel, now: u64, due: &mut Vec<u32>)
    requires later { wheel.old.last ≤ now }
    requires room { length wheel.old.deadlines ≤ vec_capacity due.old }
    ensures due { due.new.items ≡ map (λ entry. entry.1) (due_list now wheel.old.deadlines) }
    ensures rest { (slot : ℕ) → All (λ gone. gone ≢ slot) due.new.items
        → slice_index_or wheel.new.deadlines slot None ≡ slice_index_or wheel.old.deadlines slot None }
    ensures slots { length wheel.new.deadlines ≡ length wheel.old.deadlines }
    ensures last { wheel.new.last ≡ now }
    ensures room { vec_capacity due.new ≡ vec_capacity due.old }
{
    drain_counted::<Brand>(wheel, now, due, Blank::new(1));
}

/// Handles the passed deadlines of the tickets at these places, one after the other, and sets the next deadline of
/// each.
pub(crate) fn expire_each<H: Host>(
    table: &mut TicketTable,
    wheel: &mut Wheel,
    due: &[u32],
    now: u64,
    host: &mut H,
)
    requires early { now < 2 ^ 62 }
    requires due { due.now ≡ due_places now table.old.tickets.items }
    requires slots { length wheel.old.deadlines ≡ length table.old.tickets.items }
    requires others { (slot : ℕ) → All (λ gone. gone ≢ slot) due.now
        → slice_index_or wheel.old.deadlines slot None
        ≡ slice_index_or (map deadline_of table.old.tickets.items) slot None }
    ensures led { Led H.past H.faults (IsDone table.old.node.ring) (each_due table.old.node now due.now
        (state_with table.old now)) (state_with table.new now) host.old host.new }
    ensures timed { wheel.new.deadlines ≡ map deadline_of table.new.tickets.items }
    ensures last { wheel.new.last ≡ wheel.old.last }
    ensures node { table.new.node ≡ table.old.node }
    ensures tickets { length table.new.tickets.items ≡ length table.old.tickets.items }
{
    for &place in due {
        table.expire(place as usize, now, host);
        let deadline = table.deadline(place as usize);
        set_deadline(wheel, place, deadline);
    }
}
