//! The clocks of the members, which drift.
ghost use Rattle.std.specs.Prelude.{◌≡◌, ◌*◌, ◌<◌, ◌≤◌, ◌+◌};
ghost use Rattle.booth_sim.specs.Happenings.{rate_at, reading_at};
ghost use Rattle.booth_sim.specs.declared.clock.TheConstants.{TIMES_END};

/// The rate of an exact clock.
const TRUE_RATE: u64 = 1_000_000;

/// The limit for the true times of a simulation.
pub const TIMES_END: u64 = 1 << 40;

// Returns the number of milliseconds that a clock advances in 1,000 seconds of true time.
fn rate_at(place: usize) -> u64
    ensures exact { result ≡ rate_at place }
    ensures few { result ≤ 1001000 }
{
    match place % 3 {
        0 => TRUE_RATE,
        1 => TRUE_RATE + 1000,
        _ => TRUE_RATE - 1000,
    }
}

/// Returns the reading of the clock of the member with this index, at a true time.
pub fn reading_at(place: usize, time: u64) -> u64
    requires { time < TIMES_END }
    ensures { result ≡ reading_at place time }
{
    time * rate_at(place) / TRUE_RATE
}
