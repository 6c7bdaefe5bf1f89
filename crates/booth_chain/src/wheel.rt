//! A timer of many deadlines, one for each slot, in buckets by deadline.
ghost use Rattle.booth_chain.specs.Wheel.{new_timer, with_deadline, Due, IsDue};
ghost use Rattle.booth_chain.specs.DueList.{DrainsDue};
ghost use Rattle.booth_chain.specs.Buckets.{buckets_between, most_steps};
ghost use Rattle.booth_chain.specs.Search.{IsFirstOf};
ghost use Rattle.booth_chain.specs.DueList.{due_list};
ghost use Rattle.booth_chain.specs.Draining.{IsAfter, count_after, Collects, AreDue, cleared, drained};
ghost use Rattle.booth_chain.specs.declared.buckets.TheConstants.{BUCKETS};
ghost use Rattle.std.specs.Prelude.{◌≡◌, ◌≢◌, ℕ, ◌+◌, ◌<◌, ◌≤◌, [], length, map, replicate, slice_index_or, slice_set, vec_capacity, IfOk, Some, None};
ghost use Rattle.std.specs.List.{All};

use crate::buckets::{BUCKETS, LISTS, SPAN_MS, UNSET, bucket_of};
use crate::chains::Chains;
use crate::draining::{push_if_due, sort_once};
use crate::search::first_in_buckets;
use crate::slot::{Found, Slot};
use crate::steps::Steps;
use std::alloc::{AllocError, Global};
use std::marker::Model;
use std::sync::ledger::Ledger;

/// A deadline for each slot that has one, the latest moment of a look for due slots, and the latest moment at which
/// nothing was due.
///
/// Each slot is in one list of the pool: the list of its deadline's bucket, or the last list.
#[derive(Drop)]
pub struct Wheel {
    pool: Chains<u32>,
    slots: Vec<Slot>,
    last: u64,
    swept: u64,
}

impl Model for Wheel {
    ghost use Rattle.booth_chain.specs.Wheel.{Timer};
    ghost use Rattle.booth_chain.specs.Slots.{timer_of, IsKept};

    ghost Value = { Timer };

    ghost view = { λ w. timer_of w.slots.items w.last w.swept };

    ghost invariant = { λ w. IsKept w.pool w.slots.items w.last w.swept };
}

impl Wheel {
    /// Returns a timer of slots without a deadline.
    pub fn new(alloc: Global, slots: u32) -> Result<Wheel, AllocError>
        ensures { IfOk result (λ wheel. wheel ≡ new_timer slots) }
    {
        let mut pool = Chains::with_capacity(alloc, slots, LISTS)?;
        let mut places = Vec::with_capacity(alloc, slots as usize)?;
        for slot in 0..slots {
            let node = match pool.push_back(UNSET, slot) {
                Ok(node) => node,
                Err(_) => unreachable!(),
            };
            places.push(Slot {
                node,
                deadline: None,
            })?;
        }
        Ok(Wheel {
            pool,
            slots: places,
            last: 0,
            swept: 0,
        })
    }

    /// Moves a slot to the list of another deadline, or to the list of the slots without a deadline.
    fn put(&mut self, slot: u32, deadline: Option<u64>)
        requires { slot < length self.old.deadlines }
        ensures { self.new ≡ with_deadline self.old slot deadline }
    {
        let old = self.slots[slot as usize];
        let bucket = bucket_of(self.swept, deadline);
        let slot = self.pool.remove(old.node);
        match self.pool.push_back(bucket, slot) {
            Ok(node) => self.slots[slot as usize] = Slot { node, deadline },
            Err(_) => unreachable!(),
        }
    }

    /// Sets a slot's deadline, and replaces the old one.
    pub fn set(&mut self, slot: u32, deadline: u64)
        requires { slot < length self.old.deadlines }
        ensures { self.new ≡ with_deadline self.old slot (Some deadline) }
    {
        self.put(slot, Some(deadline));
    }

    /// Removes a slot's deadline.
    pub fn clear(&mut self, slot: u32)
        requires { slot < length self.old.deadlines }
        ensures { self.new ≡ with_deadline self.old slot None }
    {
        self.put(slot, None);
    }

    /// Notes that nothing was due at this moment.
    fn sweep(&mut self, now: u64)
        requires none { (slot deadline : ℕ) → IsDue self.old.deadlines now slot deadline → ⊥ }
        requires later { self.old.last ≤ now }
        ensures { self.new ≡ record { deadlines = self.old.deadlines; last = now; swept = now } }
    {
        self.last = now;
        self.swept = now;
    }

    /// Notes the moment of a look for due slots.
    fn ask(&mut self, now: u64)
        requires later { self.old.last ≤ now }
        ensures { self.new ≡ record self.old { last = now } }
    {
        self.last = now;
    }

    /// Returns the first slot that is due, by deadline and then slot. It looks at the buckets from the latest moment at
    /// which nothing was due.
    fn find<L: Ledger>(&self, now: u64, steps: &mut Steps<L>) -> Option<Found>
        requires { self.now.last ≤ now }
        ensures first { IsFirstOf (λ (slot : ℕ). slot < length self.now.deadlines) self.now.deadlines now result }
        ensures steps { steps.new ≤ steps.old + most_steps self.now now }
    {
        let from = self.swept / SPAN_MS;
        let many = (now / SPAN_MS - from + 1).min(BUCKETS);
        first_in_buckets(&self.pool, &self.slots, from, many, now, steps)
    }

    /// Removes the deadline of the slot with the smallest pair of deadline and slot whose deadline is at most `now`,
    /// and returns the slot. Returns None if and only if there is no such slot.
    ///
    /// It looks at the buckets from the latest moment at which nothing was due to `now`, and at the slots in them.
    /// Each look is a step.
    pub fn due<L: Ledger>(&mut self, now: u64, steps: &mut Steps<L>) -> Option<u32>
        requires { self.old.last ≤ now }
        ensures due { Due self.old now result self.new }
        ensures in_order { DrainsDue self.old.deadlines now result self.new.deadlines }
        ensures steps { steps.new ≤ steps.old + most_steps self.old now }
    {
        match self.find(now, steps) {
            Some(found) => {
                self.clear(found.slot);
                self.ask(now);
                Some(found.slot)
            }
            None => {
                self.sweep(now);
                None
            }
        }
    }

    /// Returns the number of buckets from the latest moment at which nothing was due up to `now`, with the buckets of
    /// both moments.
    fn reach(&self, now: u64) -> u64
        requires { self.now.last ≤ now }
        ensures many { result ≡ buckets_between self.now.swept now }
        ensures order { self.now.swept ≤ now }
    {
        (now / SPAN_MS - self.swept / SPAN_MS + 1).min(BUCKETS)
    }

    /// Appends the due slots of one bucket. The wheel knows the latest moment at which nothing was due; the bucket
    /// comes `step` places after the bucket of this moment.
    fn collect_bucket<L: Ledger>(
        &self,
        step: u64,
        now: u64,
        due: &mut Vec<u32>,
        steps: &mut Steps<L>,
    )
        requires exists { step < BUCKETS }
        requires room { length due.old.items + count_after self.now step ≤ vec_capacity due.old }
        ensures found { Collects (IsAfter self.now step) self.now.deadlines now due.old.items due.new.items }
        ensures few { length due.new.items ≤ length due.old.items + count_after self.now step }
        ensures room { vec_capacity due.new ≡ vec_capacity due.old }
        ensures steps { steps.new ≡ steps.old + 1 + count_after self.now step }
    {
        let bucket = ((self.swept / SPAN_MS + step) % BUCKETS) as u32;
        let mut at = self.pool.first(bucket, steps);
        while let Some(node) = at {
            let slot = *self.pool.at(node);
            push_if_due(due, slot, self.slots[slot as usize].deadline, now);
            at = self.pool.next(node, steps);
        }
    }

    /// Collects the due slots in `due`, bucket by bucket.
    fn collect<L: Ledger>(&self, now: u64, due: &mut Vec<u32>, steps: &mut Steps<L>)
        requires later { self.now.last ≤ now }
        requires room { length self.now.deadlines ≤ vec_capacity due.old }
        ensures found { AreDue self.now.deadlines now due.new.items }
        ensures room { vec_capacity due.new ≡ vec_capacity due.old }
        ensures steps { steps.new ≤ steps.old + most_steps self.now now }
    {
        due.clear();
        for step in 0..self.reach(now) {
            self.collect_bucket(step, now, due, steps);
        }
    }

    /// Removes the deadlines of these slots.
    fn clear_each(&mut self, slots: &[u32])
        requires { All (λ slot. slot < length self.old.deadlines) slots.now }
        ensures { self.new ≡ record self.old { deadlines = cleared slots.now self.old.deadlines } }
    {
        for &slot in slots {
            self.clear(slot);
        }
    }

    /// Puts the slots whose deadline is at most `now` into `due`, by deadline and then slot: the slots that repeated
    /// calls of `due` would return. Their deadlines are removed.
    ///
    /// It makes the same steps as one call of `due`; each look at a bucket or a slot is a step.
    pub fn drain<L: Ledger>(&mut self, now: u64, due: &mut Vec<u32>, steps: &mut Steps<L>)
        requires later { self.old.last ≤ now }
        requires room { length self.old.deadlines ≤ vec_capacity due.old }
        ensures due { due.new.items ≡ map (λ entry. entry.1) (due_list now self.old.deadlines) }
        ensures left { self.new ≡ drained self.old now }
        ensures rest { (slot : ℕ) → All (λ gone. gone ≢ slot) due.new.items
            → slice_index_or self.new.deadlines slot None ≡ slice_index_or self.old.deadlines slot None }
        ensures room { vec_capacity due.new ≡ vec_capacity due.old }
        ensures steps { steps.new ≤ steps.old + most_steps self.old now }
    {
        self.collect(now, due, steps);
        // A slot is in one bucket only, so none was collected twice. Removing repetitions saves a proof of that.
        sort_once(&self.slots, due);
        self.clear_each(due);
        self.sweep(now);
    }
}
