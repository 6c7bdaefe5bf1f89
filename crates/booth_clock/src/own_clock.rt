//! The clock itself: how it starts, what it reads, and the steps of the wall clock compared with it.
ghost use Rattle.std.specs.Prelude.{◌≡◌, ◌↔◌, max, IsTrue};
ghost use Rattle.booth_clock.specs.OwnClock.{reading_at, begun_with, begun_anew, Begins, wall_offset, step_of, step_seen, told_after, IsNear};

use crate::{BootId, KeptClock};
use thiserror::Error;

/// By how many milliseconds the wall clock must step before the step is reported.
const STEP_MS: u64 = 100;

/// By how many milliseconds a reading of the wall clock may differ from one of this clock: the rounding of four
/// readings.
const NEAR_MS: u64 = 2;

/// Both clocks at one moment, in milliseconds.
#[derive(Clone, Copy)]
pub struct Readings {
    /// The time since the boot, including the time in which the machine slept.
    pub boot: u64,
    /// The wall clock: the time since 1970.
    pub wall: u64,
}

/// Why a clock does not start.
#[derive(Clone, Copy, Debug, Drop, Error)]
pub enum ClockFault {
    #[error("the clock is behind a reading that was reached before")]
    Behind,
    #[error("the wall clock reads less than the time since the boot")]
    Early,
}

/// By how many milliseconds the wall clock differs from this clock.
#[derive(Clone, Copy)]
pub enum Step {
    Ahead(u64),
    Behind(u64),
}

/// The clock of a daemon, within one boot.
#[derive(Clone, Copy)]
pub struct OwnClock {
    boot: BootId,
    /// How far it is ahead of the time since the boot, in milliseconds.
    offset: u64,
    /// The last reading.
    last: u64,
    /// How far the wall clock was ahead of the time since the boot when a step of it was reported last; its own
    /// offset before that.
    told: u64,
}

// Returns a clock with this offset, if it is not behind the reading that was reached.
fn begun_with(
    boot: BootId,
    offset: u64,
    reached: u64,
    readings: Readings,
) -> Result<OwnClock, ClockFault>
    ensures { result ≡ begun_with boot offset reached readings }
{
    let last = reading_at(offset, readings.boot);
    if last < reached {
        return Err(ClockFault::Behind);
    }
    Ok(OwnClock {
        boot,
        offset,
        last,
        told: offset,
    })
}

// Returns a clock that equals the wall clock.
fn begun_anew(boot: BootId, reached: u64, readings: Readings) -> Result<OwnClock, ClockFault>
    ensures { result ≡ begun_anew boot reached readings }
{
    if readings.wall < readings.boot {
        return Err(ClockFault::Early);
    }
    begun_with(boot, readings.wall - readings.boot, reached, readings)
}

// Returns the reading of a clock with this offset at this time since the boot.
fn reading_at(offset: u64, boot: u64) -> u64
    ensures { result ≡ reading_at offset boot }
{
    offset.saturating_add(boot)
}

// Returns how far the wall clock is ahead of the time since the boot.
fn wall_offset(readings: Readings) -> u64
    ensures { result ≡ wall_offset readings }
{
    readings.wall.saturating_sub(readings.boot)
}

impl OwnClock {
    /// Returns the clock of this boot. In the boot of the stored clock it has the stored offset, independent of the
    /// wall clock. In another boot, or if nothing is stored, it equals the wall clock.
    ///
    /// # Errors
    ///
    /// It would start behind a reading that was reached.
    pub fn begin(
        boot: BootId,
        kept: Option<KeptClock>,
        readings: Readings,
    ) -> Result<OwnClock, ClockFault>
        ensures { Begins boot kept readings result }
    {
        match kept {
            None => begun_anew(boot, 0, readings),
            Some(kept) => {
                if kept.boot == boot {
                    begun_with(boot, kept.offset, kept.reached, readings)
                } else {
                    begun_anew(boot, kept.reached, readings)
                }
            }
        }
    }

    /// Reads the clock at this time since the boot. It never runs back.
    pub fn read(&mut self, boot: u64) -> u64
        ensures reading { result ≡ max self.old.last (reading_at self.old.offset boot) }
        ensures clock { self.new
            ≡ (record { boot = self.old.boot; offset = self.old.offset; last = result; told = self.old.told }) }
    {
        self.last = self.last.max(reading_at(self.offset, boot));
        self.last
    }

    /// Returns the part of it to store.
    pub fn kept(&self) -> KeptClock
        ensures { result ≡ (record { boot = self.now.boot; offset = self.now.offset; reached = self.now.last }) }
    {
        KeptClock {
            boot: self.boot,
            offset: self.offset,
            reached: self.last,
        }
    }

    /// Returns whether the wall clock read the same as this clock at the same moment, apart from rounding.
    pub fn agrees_with(&self, readings: Readings) -> bool
        ensures { IsTrue result ↔ IsNear (reading_at self.now.offset readings.boot) readings.wall }
    {
        let own = reading_at(self.offset, readings.boot);
        own.max(readings.wall) - own.min(readings.wall) <= NEAR_MS
    }

    /// Returns by how much the wall clock differs from this clock, if that has changed by more than 100 milliseconds
    /// since the last report.
    pub fn step(&mut self, readings: Readings) -> Option<Step>
        ensures step { result ≡ step_seen self.old.offset self.old.told (wall_offset readings) }
        ensures clock { self.new ≡ (record {
          boot = self.old.boot;
          offset = self.old.offset;
          last = self.old.last;
          told = told_after self.old.told (wall_offset readings);
        }) }
    {
        let wall = wall_offset(readings);
        if self.told.max(wall) - self.told.min(wall) <= STEP_MS {
            return None;
        }
        self.told = wall;
        Some(step_of(self.offset, wall))
    }
}

// Returns by how much the wall clock differs, if it has this offset.
fn step_of(offset: u64, wall: u64) -> Step
    ensures { result ≡ step_of offset wall }
{
    if offset <= wall {
        Step::Ahead(wall - offset)
    } else {
        Step::Behind(offset - wall)
    }
}
