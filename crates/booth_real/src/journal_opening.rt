//! How a journal's file is opened: it is created for its owner alone, one process has it at a time, and it ends with
//! a whole line.

use crate::files::{OWNERS_FILE, require_regular};
use crate::lock::require_lock;
use crate::record_disk::fill;
use crate::records::sync_parent;
use std::fs::File;
use std::io;
use std::io::{Error, ErrorKind};
use std::os::unix::fs::OpenOptionsExt;

/// The beginning of every journal: the first call in it reads the clock.
const FIRST_LINE: &[u8] = b"now\n";

/// How many bytes at the end of a file are searched for the end of its last line: more bytes than a line has.
const LAST_BYTES: usize = 65_536;

// Opens the file, and creates it if it is missing. It is opened to append and to read, so that a named pipe at this
// path does not make the call wait.
fn open_or_make(rt: &HostRuntime, path: &str) -> io::Result<File> {
    File::options()
        .read(true)
        .append(true)
        .create(true)
        .mode(OWNERS_FILE)
        .open(rt, path)
}

// Fails if the file does not begin like a journal: no other file is truncated.
fn require_journal(file: &File) -> io::Result<()> {
    let mut first = [0u8; 4];
    let count = fill(file, 0, &mut first)?;
    match first.get(..count) {
        Some(bytes) if FIRST_LINE.starts_with(bytes) => Ok(()),
        _ => Err(Error::new(ErrorKind::InvalidData, "it is no journal")),
    }
}

// Returns where the last line of a file with this length ends, if one of the searched bytes ends a line.
fn last_line_end(file: &File, len: u64) -> io::Result<Option<u64>> {
    let mut last = [0u8; LAST_BYTES];
    let begin = len.saturating_sub(LAST_BYTES as u64);
    let count = fill(file, begin, &mut last)?;
    let Some(looked) = last.get(..count) else {
        return Ok(None);
    };
    match looked.iter().rposition(|byte| *byte == b'\n') {
        Some(place) => Ok(Some(begin.saturating_add(place as u64).saturating_add(1))),
        None if begin == 0 => Ok(Some(0)),
        None => Ok(None),
    }
}

// Truncates the file after its last whole line: a torn append counts as none.
fn cut_torn(file: &File) -> io::Result<()> {
    let len = file.metadata()?.len();
    match last_line_end(file, len)? {
        Some(end) if end < len => file.set_len(end),
        Some(_) => Ok(()),
        None => Err(Error::new(ErrorKind::InvalidData, "it has no lines")),
    }
}

// Makes this process the only one that appends to an open file, and makes the file end with a whole line.
fn begin(file: &File) -> io::Result<()> {
    require_regular(&file.metadata()?)?;
    require_lock(file, "another process writes it")?;
    require_journal(file)?;
    cut_torn(file)
}

/// Opens the file at this path to append lines.
pub(crate) fn open(rt: &HostRuntime, path: &str) -> io::Result<File> {
    let file = open_or_make(rt, path)?;
    begin(&file)?;
    sync_parent(rt, path)?;
    Ok(file)
}
