//! The timer of many deadlines.
ghost use Rattle.booth_chain.specs.Buckets.{most_steps};
ghost use Rattle.std.specs.Prelude.{◌≡◌, ◌<◌, ◌≤◌, [], ◌∷◌, Some, None, length};

use booth_chain::{Steps, Wheel};
use booth_rows::{Answer, Player, Words};
use std::alloc::Global;
use std::marker::Brand;
use std::sync::ledger::{Blank, Ledger};

/// Plays `new SLOTS`, `set SLOT DEADLINE`, `clear SLOT` and `due READING`, which prints the next slot that is due, or
/// none.
#[derive(Drop)]
pub(crate) struct Timers {
    timer: Option<Timer>,
}

/// A timer with its slots, and the last reading that it was asked at.
#[derive(Drop)]
struct Timer {
    wheel: Wheel,
    slots: u32,
    last: u64,
    ghost sized: { length wheel.deadlines ≡ slots },
    ghost read: { wheel.last ≡ last },
}

// Returns the next slot that is due, and counts its own steps.
fn due_now(wheel: &mut Wheel, now: u64) -> Option<u32>
    requires { wheel.old.last ≤ now }
    ensures last { wheel.new.last ≡ now }
    ensures slots { length wheel.new.deadlines ≡ length wheel.old.deadlines }
{
    due_counted::<Brand>(wheel, now, Blank::new(1))
}

fn due_counted<L: Ledger>(wheel: &mut Wheel, now: u64, blank: Blank) -> Option<u32>
    requires name { blank.name ≡ L.name }
    requires parts { blank.parts ≡ L.parts }
    requires some { 0 < L.parts }
    requires later { wheel.old.last ≤ now }
    ensures last { wheel.new.last ≡ now }
    ensures slots { length wheel.new.deadlines ≡ length wheel.old.deadlines }
{
    let mut steps: Steps<L> = Steps::new(blank);
    wheel.due(now, &mut steps)
}

/// How many steps two calls for slots of one bucket may take, counted manually: at 4,400 one bucket and both slots, at
/// 69,999 all buckets and the remaining slot.
pub fn steps_of_two_slots_in_one_bucket()
    ensures first { most_steps
        (record { deadlines = Some 70000 ∷ Some 4400 ∷ None ∷ []; last = 4399; swept = 4399 }) 4400 ≡ 3 }
    ensures later { most_steps
        (record { deadlines = Some 70000 ∷ None ∷ None ∷ []; last = 4400; swept = 4399 }) 69999 ≡ 513 }
{}

impl Timer {
    fn new(alloc: Global, slots: u32) -> Option<Timer> {
        let Ok(wheel) = Wheel::new(alloc, slots) else {
            return None;
        };
        Some(Timer {
            wheel,
            slots,
            last: 0,
        })
    }

    // Sets the deadline of a slot, or clears it.
    fn set(&mut self, slot: u32, deadline: Option<u64>)
        requires { slot < self.old.slots }
    {
        match deadline {
            Some(deadline) => self.wheel.set(slot, deadline),
            None => self.wheel.clear(slot),
        }
    }

    fn due(&mut self, words: &mut Words<'_>, answer: &mut Answer) {
        let now = words.long();
        if now < self.last {
            return words.refuse();
        }
        let due = due_now(&mut self.wheel, now);
        self.last = now;
        answer.number_or_none(due.map(u64::from));
    }

    fn set_slot(&mut self, is_set: bool, words: &mut Words<'_>) {
        let slot = words.number();
        let deadline = if is_set { Some(words.long()) } else { None };
        if slot < self.slots {
            self.set(slot, deadline);
        } else {
            words.refuse();
        }
    }

    fn play(&mut self, call: &str, words: &mut Words<'_>, answer: &mut Answer) {
        match call {
            "set" => self.set_slot(true, words),
            "clear" => self.set_slot(false, words),
            "due" => self.due(words, answer),
            _ => words.refuse(),
        }
    }
}

impl Timers {
    /// Returns a player without slots.
    pub(crate) fn new() -> Timers {
        Timers { timer: None }
    }
}

impl Player for Timers {
    fn play(&mut self, words: &mut Words<'_>, answer: &mut Answer) {
        let call = words.word();
        if call == "new" {
            self.timer = Timer::new(words.alloc(), words.number());
            return;
        }
        match &mut self.timer {
            Some(timer) => timer.play(call, words, answer),
            None => words.refuse(),
        }
        answer.end();
    }
}
