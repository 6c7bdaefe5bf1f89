//! The file in a records directory that holds the directory's clock, and the id of the boot.

use crate::files::{if_found, make_named, open_to_look};
use crate::record_disk::fill;
use crate::records::{path_in, sync_directory};
use booth_base::PathText;
use booth_clock::{BootId, KeptClock};
use std::fs::File;
use std::io::{Error, ErrorKind};
use std::os::unix::fs::FileExt;
use std::{fs, io};

/// The file that holds the clock.
const CLOCK: &str = "booth.clock";

/// The file that is written first, and then renamed to `booth.clock`.
const NEXT: &str = "booth.clock.new";

/// Where the kernel reports the id of the boot.
const BOOT_ID: &str = "/proc/sys/kernel/random/boot_id";

// Reads the beginning of this file.
fn read_first(rt: &HostRuntime, path: &str, into: &mut [u8]) -> io::Result<usize> {
    fill(&File::open(rt, path)?, 0, into)
}

/// Returns the id of this boot of the machine.
pub(crate) fn boot_id(rt: &HostRuntime) -> io::Result<BootId> {
    let mut bytes = [0u8; 36];
    let count = read_first(rt, BOOT_ID, &mut bytes)?;
    if count == bytes.len() {
        Ok(BootId(bytes))
    } else {
        Err(Error::new(ErrorKind::InvalidData, "the boot has no id"))
    }
}

// Returns the clock in this file.
fn clock_of(file: &File) -> io::Result<KeptClock> {
    let mut bytes = [0u8; 64];
    let count = fill(file, 0, &mut bytes)?;
    match bytes.get(..count).and_then(KeptClock::decode) {
        Some(kept) => Ok(kept),
        None => Err(Error::new(ErrorKind::InvalidData, "booth.clock has no valid content")),
    }
}

/// Returns the clock of this directory, if it holds one.
pub(crate) fn read_clock(rt: &HostRuntime, directory: &PathText) -> io::Result<Option<KeptClock>> {
    let path = path_in(directory, CLOCK)?;
    match if_found(open_to_look(rt, path.as_str()))? {
        Some(file) => Ok(Some(clock_of(&file)?)),
        None => Ok(None),
    }
}

// Writes a clock into an empty file, and syncs it.
fn put(file: &File, clock: &KeptClock) -> io::Result<()> {
    file.write_all_at(&clock.encode(), 0)?;
    file.sync_all()
}

// Creates a file with this clock, and replaces what an interrupted write left.
fn make_next(rt: &HostRuntime, path: &str, clock: &KeptClock) -> io::Result<()> {
    if_found(fs::remove_file(rt, path))?;
    put(&make_named(rt, path)?, clock)
}

/// Writes this clock to a directory. After an error the previous clock is still on the disk.
pub(crate) fn write_clock(
    rt: &HostRuntime,
    directory: &PathText,
    clock: &KeptClock,
) -> io::Result<()> {
    let next = path_in(directory, NEXT)?;
    make_next(rt, next.as_str(), clock)?;
    fs::rename(rt, next.as_str(), path_in(directory, CLOCK)?.as_str())?;
    sync_directory(rt, directory.as_str())
}
