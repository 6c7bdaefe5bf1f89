//! A timer whose slots get new deadlines when they are due.
ghost use Rattle.std.specs.Prelude.{◌≡◌, ◌≤◌, ◌<◌, length};

use booth_chain::{Steps, Wheel};
use std::alloc::Global;
use std::marker::Brand;
use std::sync::ledger::{Blank, Ledger};

// Sets the deadlines evenly, from 1 to `spread`.
fn set_each(wheel: &mut Wheel, slots: u32, spread: u32)
    requires { length wheel.old.deadlines ≡ slots }
    ensures slots { length wheel.new.deadlines ≡ slots }
    ensures last { wheel.new.last ≡ wheel.old.last }
{
    for slot in 0..slots {
        let place = u64::from(slot) * u64::from(spread) / u64::from(slots);
        wheel.set(slot, place + 1);
    }
}

// Sets what is due at a moment to `spread` later. Returns how many slots that were, each at most once.
fn renew_at<L: Ledger>(
    wheel: &mut Wheel,
    slots: u32,
    now: u64,
    spread: u32,
    steps: &mut Steps<L>,
) -> u32
    requires slots { length wheel.old.deadlines ≡ slots }
    requires later { wheel.old.last ≤ now }
    ensures slots { length wheel.new.deadlines ≡ slots }
    ensures last { wheel.new.last ≤ now }
{
    let mut renewed = 0u32;
    for _again in 0..slots {
        match wheel.due(now, steps) {
            Some(slot) => wheel.set(slot, now.saturating_add(u64::from(spread))),
            None => return renewed,
        }
        renewed = renewed.saturating_add(1);
    }
    renewed
}

fn renew_counted<L: Ledger>(
    wheel: &mut Wheel,
    slots: u32,
    spread: u32,
    until: u32,
    blank: Blank,
) -> u64
    requires name { blank.name ≡ L.name }
    requires parts { blank.parts ≡ L.parts }
    requires some { 0 < L.parts }
    requires slots { length wheel.old.deadlines ≡ slots }
    requires first { wheel.old.last ≡ 0 }
{
    let mut steps: Steps<L> = Steps::new(blank);
    let mut renewed = 0u64;
    for now in 0..until {
        let more = renew_at(wheel, slots, u64::from(now), spread, &mut steps);
        renewed = renewed.saturating_add(u64::from(more));
    }
    renewed
}

fn renew(wheel: &mut Wheel, slots: u32, spread: u32, until: u32) -> u64
    requires slots { length wheel.old.deadlines ≡ slots }
    requires first { wheel.old.last ≡ 0 }
{
    renew_counted::<Brand>(wheel, slots, spread, until, Blank::new(1))
}

/// Sets this many slots evenly from 1 to `spread`. At each moment before `until`, it postpones each due slot by
/// `spread`. Returns how many times a slot was due; None if the memory has run out.
pub fn renew_each(alloc: Global, slots: u32, spread: u32, until: u32) -> Option<u64> {
    let mut wheel = Wheel::new(alloc, slots).ok()?;
    set_each(&mut wheel, slots, spread);
    Some(renew(&mut wheel, slots, spread, until))
}
