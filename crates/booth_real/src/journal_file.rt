//! A file as the sink of a journal.
ghost use Rattle.std.specs.Prelude.{◌≡◌};
ghost use Rattle.booth_host.specs.Causes.{HasCause};

use crate::journal_opening::open;
use crate::lines::{Line, line_of};
use crate::speaker::{Priority, Speaker};
use booth_host::Failed;
use booth_journal::Sink;
use std::fs::File;
use std::io;
use std::io::Write;

/// What a line about a record's write begins with.
const KEEP: &[u8] = b"keep ";

/// A file as the sink of a journal. The first append opens it, and creates it for its owner alone if it is missing.
/// When the append of a line about a record's write returns, that line and all lines before it are on the disk. No
/// contract says which bytes the file holds: that is the system's part. A failed append logs a line to standard
/// error.
#[derive(Drop)]
pub struct JournalFile {
    rt: HostRuntime,
    path: String,
    /// The file, once it is open.
    file: Option<File>,
    faults: u64,
}

// Returns the line about a failed append, which may be truncated.
fn failed_line(path: &str, error: &io::Error) -> Line {
    let mut line = line_of(&[b"the journal ", path.as_bytes()]);
    let _ = write!(line, " is not written any more: {error}");
    line
}

fn write(file: &mut File, bytes: &[u8]) -> io::Result<()> {
    file.write_all(bytes)?;
    if bytes.starts_with(KEEP) {
        file.sync_data()?;
    }
    Ok(())
}

impl JournalFile {
    /// Returns the sink for the file at this path, which is not opened yet.
    pub fn new(rt: HostRuntime, path: String) -> JournalFile
        ensures faultless { result.faults ≡ 0 }
    {
        JournalFile {
            rt,
            path,
            file: None,
            faults: 0,
        }
    }

    // Appends bytes to the file.
    fn put(&mut self, bytes: &[u8]) -> io::Result<()>
        ensures faults { self.new.faults ≡ self.old.faults }
    {
        if let Some(file) = &mut self.file {
            return write(file, bytes);
        }
        let mut file = open(&self.rt, self.path.as_str())?;
        write(&mut file, bytes)?;
        self.file = Some(file);
        Ok(())
    }
}

impl Sink for JournalFile {
    ghost use Rattle.std.specs.Prelude.{None};

    ghost held = { λ _. None };

    ghost faults = { λ sink. sink.faults };

    fn append(&mut self, bytes: &[u8]) -> Result<(), Failed> {
        match self.put(bytes) {
            Ok(()) => Ok(()),
            Err(error) => {
                let line = failed_line(self.path.as_str(), &error);
                Speaker::new(self.rt, "boothd").say(Priority::Failure, &line);
                self.faults = self.faults.saturating_add(1);
                Err(Failed)
            }
        }
    }
}
