//! A timer in which no slot is due, with many requests at each moment.
ghost use Rattle.std.specs.Prelude.{◌≡◌, ◌≤◌, ◌<◌, ◌+◌, ◌*◌, ◌/◌, length, IfSome, IsTrue};
ghost use Rattle.booth_chain.specs.Wheel.{new_timer};
ghost use Rattle.trials.specs.Far.{AreFar};
ghost use Rattle.trials.specs.declared.asking.TheConstants.{END};

use booth_chain::{Steps, Wheel};
use std::alloc::Global;
use std::marker::Brand;
use std::sync::ledger::{Blank, Ledger};

/// The deadline of each slot. Its bucket is the last one, number 511.
const DEADLINE: u64 = 65_601_408;

/// The first moment in that bucket. Before it no search reaches a slot.
const END: u32 = 65_408;

fn set_each(wheel: &mut Wheel, slots: u32)
    requires { wheel.old ≡ new_timer slots }
    ensures far { AreFar wheel.new.deadlines }
    ensures slots { length wheel.new.deadlines ≡ slots }
    ensures last { wheel.new.last ≡ 0 }
    ensures swept { wheel.new.swept ≡ 0 }
{
    for slot in 0..slots {
        wheel.set(slot, DEADLINE);
    }
}

// Asks once at a moment, and returns whether no slot was due.
fn finds_none<L: Ledger>(wheel: &mut Wheel, now: u64, steps: &mut Steps<L>) -> bool
    requires far { AreFar wheel.old.deadlines }
    requires early { now < END }
    requires later { wheel.old.last ≤ now }
    requires swept { wheel.old.swept ≡ wheel.old.last }
    ensures none { IsTrue result }
    ensures steps { steps.new + wheel.old.swept / 128 ≤ steps.old + 1 + now / 128 }
    ensures far { AreFar wheel.new.deadlines }
    ensures last { wheel.new.last ≡ now }
    ensures swept { wheel.new.swept ≡ now }
{
    match wheel.due(now, steps) {
        Some(_) => false,
        None => true,
    }
}

// Asks 16 times at a moment, and returns how many times no slot was due.
fn ask_at<L: Ledger>(wheel: &mut Wheel, now: u64, steps: &mut Steps<L>) -> u64
    requires far { AreFar wheel.old.deadlines }
    requires early { now < END }
    requires later { wheel.old.last ≤ now }
    requires swept { wheel.old.swept ≡ wheel.old.last }
    ensures none { result ≡ 16 }
    ensures steps { steps.new + wheel.old.swept / 128 ≤ steps.old + 16 + wheel.new.swept / 128 }
    ensures far { AreFar wheel.new.deadlines }
    ensures last { wheel.new.last ≤ now }
    ensures swept { wheel.new.swept ≡ wheel.new.last }
{
    let mut none = 0u64;
    for _again in 0..16u64 {
        none += u64::from(finds_none(wheel, now, steps));
    }
    none
}

// Asks 16 times at each moment from 0 to `until`. No slot is due. The only steps are looks at buckets.
fn ask_each<L: Ledger>(wheel: &mut Wheel, until: u32, steps: &mut Steps<L>) -> u64
    requires far { AreFar wheel.old.deadlines }
    requires early { until < END }
    requires last { wheel.old.last ≡ 0 }
    requires swept { wheel.old.swept ≡ 0 }
    ensures none { result ≡ 16 * (until + 1) }
    ensures steps { steps.new ≤ steps.old + 16 * (until + 1) + until / 128 }
{
    let mut none = 0u64;
    for now in 0..until + 1 {
        none += ask_at(wheel, u64::from(now), steps);
    }
    none
}

fn ask_counted<L: Ledger>(wheel: &mut Wheel, until: u32, blank: Blank) -> u64
    requires name { blank.name ≡ L.name }
    requires parts { blank.parts ≡ L.parts }
    requires some { 0 < L.parts }
    requires far { AreFar wheel.old.deadlines }
    requires early { until < END }
    requires last { wheel.old.last ≡ 0 }
    requires swept { wheel.old.swept ≡ 0 }
    ensures none { result ≡ 16 * (until + 1) }
{
    let mut steps: Steps<L> = Steps::new(blank);
    ask_each(wheel, until, &mut steps)
}

fn ask(wheel: &mut Wheel, until: u32) -> u64
    requires far { AreFar wheel.old.deadlines }
    requires early { until < END }
    requires last { wheel.old.last ≡ 0 }
    requires swept { wheel.old.swept ≡ 0 }
    ensures none { result ≡ 16 * (until + 1) }
{
    ask_counted::<Brand>(wheel, until, Blank::new(1))
}

/// Sets this many slots to a far deadline, and asks 16 times at each moment from 0 to `until` which one is due.
/// Returns how many times none was; None if `until` is too late or the memory has run out.
pub fn ask_at_each_moment(alloc: Global, slots: u32, until: u32) -> Option<u64>
    ensures { IfSome result (λ none. none ≡ 16 * (until + 1)) }
{
    if until >= END {
        return None;
    }
    let mut wheel = Wheel::new(alloc, slots).ok()?;
    set_each(&mut wheel, slots);
    Some(ask(&mut wheel, until))
}
