//! The system's clocks, and the clock by which a host tells the time.

use crate::clock_file::{boot_id, read_clock, write_clock};
use booth_base::PathText;
use booth_clock::{BootId, ClockFault, KeptClock, OwnClock, Readings, Step};
use libc::CLOCK_REALTIME;
use libc::types::timespec;
use std::io;
use std::io::{Error, ErrorKind};

/// Linux's clock of the time since the boot, which also counts while the machine sleeps.
const CLOCK_BOOTTIME: i32 = 7;

/// How often both clocks are read, at most, until both readings belong to one moment.
const TRIES: u32 = 100;

/// How often the current reading is written to disk, in milliseconds.
const KEEP_EVERY_MS: u64 = 60_000;

/// How often the wall clock is checked for a step, in milliseconds.
const LOOK_EVERY_MS: u64 = 100;

/// The source of a host's time.
#[derive(Clone, Copy)]
enum Source {
    /// The wall clock, with the readings at which it was reported last, if it was.
    Wall(Option<Readings>),
    /// The clock of a directory that is not open yet, with the readings at which the clock began.
    Awaited(OwnClock, Readings),
    /// The clock of the open directory.
    Open(OwnClock),
    /// None: a reading was asked for and failed.
    Unread,
}

/// How the clock of an open directory began.
#[derive(Clone, Copy)]
pub(crate) enum Opening {
    /// The clock is on the disk.
    Kept,
    /// The file system is read-only.
    ReadOnly,
}

/// The clocks of a host.
#[derive(Drop)]
pub(crate) struct Clocks {
    source: Source,
    /// Whether the offset of the open directory's clock is on the disk.
    is_kept: bool,
    /// The reading at which the clock should have been written last.
    kept_at: u64,
    /// When the wall clock was last checked for a step, in milliseconds since the boot.
    looked_at: u64,
}

/// A clock reading, and the step of the wall clock that was found with it.
#[derive(Clone, Copy)]
pub(crate) struct Told {
    pub(crate) reading: u64,
    pub(crate) step: Option<Step>,
}

// Returns a clock's reading in milliseconds.
fn reading_of(clock: i32) -> io::Result<u64> {
    let mut time = timespec {
        tv_sec: 0,
        tv_nsec: 0,
    };
    if libc::clock_gettime(clock, &mut time) != 0 {
        return Err(Error::new(ErrorKind::Other, "the clock cannot be read"));
    }
    let (Ok(seconds), Ok(nanos)) = (u64::try_from(time.tv_sec), u64::try_from(time.tv_nsec)) else {
        return Err(Error::new(ErrorKind::InvalidData, "the clock is before its zero"));
    };
    Ok(
        seconds
            .saturating_mul(1000)
            .saturating_add(nanos / 1_000_000),
    )
}

/// Returns the time since the boot, in milliseconds.
pub(crate) fn since_boot() -> io::Result<u64> {
    reading_of(CLOCK_BOOTTIME)
}

// Returns the readings of both clocks, if they were taken within one millisecond.
fn read_both() -> io::Result<Option<Readings>> {
    let boot = since_boot()?;
    let wall = reading_of(CLOCK_REALTIME)?;
    if since_boot()? == boot {
        Ok(Some(Readings { boot, wall }))
    } else {
        Ok(None)
    }
}

// Returns the readings of both clocks at one moment. If this process was held up between the two, they are read
// again.
fn readings() -> io::Result<Readings> {
    for _ in 0..TRIES {
        if let Some(readings) = read_both()? {
            return Ok(readings);
        }
    }
    Err(Error::new(
        ErrorKind::TimedOut,
        "the clocks cannot be read at one moment",
    ))
}

// Returns whether the readings that were reported before a directory was opened are readings of its clock.
fn was_told(source: Source, clock: OwnClock) -> bool {
    match source {
        Source::Wall(None) | Source::Open(_) => true,
        Source::Wall(Some(told)) => clock.agrees_with(told),
        Source::Awaited(awaited, _) => awaited.kept().offset == clock.kept().offset,
        Source::Unread => false,
    }
}

// Returns the error of a clock that cannot begin.
fn unbegun(words: &str) -> Error {
    Error::new(ErrorKind::InvalidData, words)
}

// Returns the clock of this boot from the stored clock and these readings. What was reported before must agree with
// it.
fn begun(
    source: Source,
    boot: BootId,
    kept: Option<KeptClock>,
    readings: Readings,
) -> io::Result<OwnClock> {
    match OwnClock::begin(boot, kept, readings) {
        Ok(clock) if was_told(source, clock) => Ok(clock),
        Ok(_) => Err(unbegun("the wall clock was set since the boot")),
        Err(ClockFault::Behind) => {
            Err(unbegun("the clock is behind a reading that was reached before"))
        }
        Err(ClockFault::Early) => {
            Err(unbegun("the wall clock reads less than the time since the boot"))
        }
    }
}

// Returns the wall clock's step against this clock, if it has one.
fn look_for_step(clock: &mut OwnClock) -> Option<Step> {
    // (if the two readings do not belong to one moment, a later check finds the step)
    match read_both() {
        Ok(Some(readings)) => clock.step(readings),
        Ok(None) | Err(_) => None,
    }
}

// Reads the clock of an open directory, and checks for a step unless one was checked for shortly before.
fn read_open(clock: &mut OwnClock, looked_at: &mut u64) -> io::Result<Told> {
    let boot = since_boot()?;
    let reading = clock.read(boot);
    let mut step = None;
    if boot >= looked_at.saturating_add(LOOK_EVERY_MS) {
        *looked_at = boot;
        step = look_for_step(clock);
    }
    Ok(Told { reading, step })
}

impl Clocks {
    /// Returns the wall clock, which has not been read yet.
    pub(crate) fn new() -> Clocks {
        Clocks {
            source: Source::Wall(None),
            is_kept: false,
            kept_at: 0,
            looked_at: 0,
        }
    }

    /// Reads the clock.
    pub(crate) fn now(&mut self) -> io::Result<Told> {
        match &mut self.source {
            Source::Wall(_) | Source::Unread => self.read_wall(),
            Source::Awaited(clock, _) => Ok(Told {
                reading: clock.read(since_boot()?),
                step: None,
            }),
            Source::Open(clock) => read_open(clock, &mut self.looked_at),
        }
    }

    // Reads the wall clock. If this fails, the time that the host reports is no reading, and so the host opens no
    // directory later.
    fn read_wall(&mut self) -> io::Result<Told> {
        match readings() {
            Ok(readings) => {
                if let Source::Wall(_) = self.source {
                    self.source = Source::Wall(Some(readings));
                }
                Ok(Told {
                    reading: readings.wall,
                    step: None,
                })
            }
            Err(error) => {
                self.source = Source::Unread;
                Err(error)
            }
        }
    }

    /// Returns the last reading of the directory's clock, or 0 if there is none.
    pub(crate) fn last(&self) -> u64 {
        match self.source {
            Source::Wall(_) | Source::Unread => 0,
            Source::Awaited(clock, _) | Source::Open(clock) => clock.kept().reached,
        }
    }

    // Returns the current reading. It changes nothing.
    fn reading(&self) -> io::Result<u64> {
        match self.source {
            Source::Wall(_) | Source::Unread => reading_of(CLOCK_REALTIME),
            Source::Awaited(clock, _) | Source::Open(clock) => {
                let mut clock = clock;
                Ok(clock.read(since_boot()?))
            }
        }
    }

    /// Returns how many milliseconds are left until this second since 1970, by the host's clock. It returns 0 if that
    /// second is over or the clock cannot be read.
    pub(crate) fn left_until(&self, second: u64) -> u64 {
        match self.reading() {
            Ok(reading) => second.saturating_mul(1000).saturating_sub(reading),
            Err(_) => 0,
        }
    }

    // Returns the readings at which a directory's clock begins: those that were reported, if any were.
    fn begin_at(&self) -> io::Result<Readings> {
        match self.source {
            Source::Wall(Some(readings)) | Source::Awaited(_, readings) => Ok(readings),
            Source::Wall(None) | Source::Open(_) => readings(),
            Source::Unread => Err(Error::new(
                ErrorKind::InvalidData,
                "the clock could not be read at the start",
            )),
        }
    }

    /// Makes `now` report the clock of this directory before the directory is opened. If that fails, no directory is
    /// opened.
    pub(crate) fn await_clock(&mut self, rt: &HostRuntime, directory: &PathText) -> io::Result<()> {
        match self.clock_in(rt, directory) {
            Ok((clock, readings)) => {
                self.source = Source::Awaited(clock, readings);
                Ok(())
            }
            Err(error) => {
                self.source = Source::Unread;
                Err(error)
            }
        }
    }

    /// Makes `now` report the clock that a daemon writes to this directory. Fails if none was written since the boot.
    pub(crate) fn share_clock(&mut self, rt: &HostRuntime, directory: &PathText) -> io::Result<()> {
        let boot = boot_id(rt)?;
        match read_clock(rt, directory)? {
            Some(kept) if kept.boot == boot => self.await_clock(rt, directory),
            Some(_) | None => Err(Error::new(
                ErrorKind::NotFound,
                "no daemon wrote its clock there since the boot",
            )),
        }
    }

    // Returns the clock of this directory, and the readings at which it begins.
    fn clock_in(&self, rt: &HostRuntime, directory: &PathText) -> io::Result<(OwnClock, Readings)> {
        let readings = self.begin_at()?;
        let kept = read_clock(rt, directory)?;
        let clock = begun(self.source, boot_id(rt)?, kept, readings)?;
        Ok((clock, readings))
    }

    /// Tells the time by the clock of this directory from now on. The directory is open and locked. The clock is
    /// written at once, since the daemon promises nothing by a clock whose offset is not on the disk. A failed write
    /// is ignored if the clock was written before in this boot, and also on a read-only file system, on which the
    /// daemon makes no promise at all.
    pub(crate) fn begin(&mut self, rt: &HostRuntime, directory: &PathText) -> io::Result<Opening> {
        let (clock, _) = self.clock_in(rt, directory)?;
        let written = write_clock(rt, directory, &clock.kept());
        self.is_kept = written.is_ok() || is_kept(rt, directory, &clock.kept());
        let begun = begun_by(written, self.is_kept)?;
        self.source = Source::Open(clock);
        self.kept_at = clock.kept().reached;
        Ok(begun)
    }

    /// Writes the clock of this open directory, if that failed when the clock began.
    pub(crate) fn settle(&mut self, rt: &HostRuntime, directory: &PathText) -> io::Result<()> {
        if self.is_kept {
            return Ok(());
        }
        if let Source::Open(clock) = &self.source {
            write_clock(rt, directory, &clock.kept())?;
            self.is_kept = true;
        }
        Ok(())
    }

    /// Tells the time by the wall clock, as if no directory were open.
    pub(crate) fn leave(&mut self) {
        if let Source::Open(_) = self.source {
            self.source = Source::Wall(None);
        }
    }

    /// Writes the current reading to this directory, if the last write was a minute ago. Returns whether it wrote,
    /// and the result of the write.
    pub(crate) fn keep(
        &mut self,
        rt: &HostRuntime,
        directory: &PathText,
    ) -> Option<io::Result<()>> {
        let Source::Open(clock) = &self.source else {
            return None;
        };
        let kept = clock.kept();
        if kept.reached < self.kept_at.saturating_add(KEEP_EVERY_MS) {
            return None;
        }
        self.kept_at = kept.reached;
        let written = write_clock(rt, directory, &kept);
        self.is_kept = self.is_kept || written.is_ok();
        Some(written)
    }
}

// Returns how a clock begins after its first write had this result. The clock may be on the disk already.
fn begun_by(written: io::Result<()>, is_kept: bool) -> io::Result<Opening> {
    match written {
        Ok(()) => Ok(Opening::Kept),
        Err(error) if error.kind() == ErrorKind::ReadOnlyFilesystem => Ok(Opening::ReadOnly),
        Err(_) if is_kept => Ok(Opening::Kept),
        Err(error) => Err(error),
    }
}

// Returns whether a directory holds this offset of this boot.
fn is_kept(rt: &HostRuntime, directory: &PathText, clock: &KeptClock) -> bool {
    match read_clock(rt, directory) {
        Ok(Some(kept)) => kept.boot == clock.boot && kept.offset == clock.offset,
        Ok(None) | Err(_) => false,
    }
}
