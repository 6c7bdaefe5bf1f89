//! A daemon's clock.
use booth_clock::{BootId, ClockFault, KeptClock, OwnClock, Readings, Step};
use booth_rows::{Answer, Player, Words};

/// Plays calls of a clock. `begin BOOT KEPT SINCE WALL` starts it in the boot with this id, from the stored bytes or
/// from `-`; `read SINCE` reads it; `step SINCE WALL` prints by how much the wall clock stepped; `near SINCE WALL`
/// prints whether it agrees; `kept` prints what is stored of the clock. `SINCE` is the time since the boot and `WALL`
/// the wall clock, both in milliseconds.
#[derive(Drop)]
pub(crate) struct Clock {
    clock: Option<OwnClock>,
}

fn readings(words: &mut Words<'_>) -> Readings {
    Readings {
        boot: words.long(),
        wall: words.long(),
    }
}

fn boot_id(words: &mut Words<'_>) -> BootId {
    let bytes = words.bytes();
    let mut id = [0u8; 36];
    if bytes.len() == id.len() {
        id.copy_from_slice(&bytes);
    } else {
        words.refuse();
    }
    BootId(id)
}

fn put_step(answer: &mut Answer, step: Option<Step>) {
    match step {
        None => answer.word("none"),
        Some(Step::Ahead(by)) => {
            answer.word("ahead");
            answer.number(by);
        }
        Some(Step::Behind(by)) => {
            answer.word("behind");
            answer.number(by);
        }
    }
}

impl Clock {
    /// Returns a player whose clock has not begun.
    pub(crate) fn new() -> Clock {
        Clock { clock: None }
    }

    // Starts the clock. Returns the result.
    fn begin_with(&mut self, boot: BootId, kept: Option<KeptClock>, now: Readings) -> &'static str {
        match OwnClock::begin(boot, kept, now) {
            Ok(clock) => {
                self.clock = Some(clock);
                "begun"
            }
            Err(ClockFault::Behind) => "behind",
            Err(ClockFault::Early) => "early",
        }
    }

    fn begin(&mut self, words: &mut Words<'_>, answer: &mut Answer) {
        let boot = boot_id(words);
        let bytes = words.bytes();
        let now = readings(words);
        let kept = KeptClock::decode(&bytes);
        if kept.is_none() && !bytes.is_empty() {
            return answer.word("unreadable");
        }
        answer.word(self.begin_with(boot, kept, now));
    }

    // Plays a call of the running clock.
    fn call(&mut self, call: &str, words: &mut Words<'_>, answer: &mut Answer) {
        let Some(clock) = &mut self.clock else {
            return words.refuse();
        };
        match call {
            "read" => answer.number(clock.read(words.long())),
            "step" => put_step(answer, clock.step(readings(words))),
            "near" => {
                let is_near = clock.agrees_with(readings(words));
                answer.word(if is_near { "yes" } else { "no" });
            }
            "kept" => answer.bytes(clock.kept().encode().as_slice()),
            _ => words.refuse(),
        }
    }
}

impl Player for Clock {
    fn play(&mut self, words: &mut Words<'_>, answer: &mut Answer) {
        match words.word() {
            "begin" => self.begin(words, answer),
            call => self.call(call, words, answer),
        }
        answer.end();
    }
}
