//! A record file as a disk. No contract says which bytes it holds: that is the system's part.
ghost use Rattle.std.specs.Prelude.{◌≡◌, [], false, refl};
ghost use Rattle.booth_rec.specs.Disk.{HasCause};

use crate::deadline::Deadline;
use booth_rec::{Disk, DiskFault};
use std::fs::File;
use std::io;
use std::io::ErrorKind;
use std::os::fd::AsRawFd;
use std::os::unix::fs::FileExt;

/// One byte more than the four slots of a record file have.
const MOST_BYTES: usize = 337;

/// Where a file without a record has zeros, as far as its slots reach: in each slot the bytes before the number, and
/// those behind the record. The bytes between may come from an interrupted write.
const UNWRITTEN: [(usize, usize); 5] = [(0, 8), (48, 72), (112, 136), (208, 264), (336, 337)];

/// What is known of the bytes that are read from a record file.
#[derive(Clone, Copy)]
pub(crate) enum Known {
    /// All of them are on the disk: this process synced the last ones.
    Synced,
    /// Some may not be on the disk yet.
    Unsynced,
    /// The system's bytes of the file may differ from those on the medium.
    Doubted,
}

/// A record file that is open.
#[derive(Drop)]
pub(crate) struct FileDisk {
    file: File,
    known: Known,
    /// Until when calls may be made, if that is limited.
    deadline: Option<Deadline>,
    /// Whether a call was refused because the deadline had passed.
    is_late: bool,
    /// The error of the last call that failed.
    error: Option<io::Error>,
    faults: u64,
}

/// Reads until `into` is full or the file ends.
pub(crate) fn fill(file: &File, at: u64, into: &mut [u8]) -> io::Result<usize> {
    let mut len = 0;
    for _ in 0..u64::MAX {
        if len >= into.len() {
            break;
        }
        match file.read_at(&mut into[len..], at.saturating_add(len as u64)) {
            Ok(0) => break,
            Ok(count) => len += count,
            Err(error) => {
                if error.kind() != ErrorKind::Interrupted {
                    return Err(error);
                }
            }
        }
    }
    Ok(len)
}

// Returns whether a byte of this range is not 0.
fn has_bytes(bytes: &[u8], place: (usize, usize)) -> bool {
    let (first, end) = place;
    match bytes.get(first..end) {
        Some(found) => found.iter().any(|byte| *byte != 0),
        None => false,
    }
}

// Makes the system read the file from the medium again. After a failed sync the system may hold bytes that the medium
// does not have, and a later successful sync says nothing about them.
fn forget_bytes(file: &File) -> io::Result<()> {
    match libc::posix_fadvise(file.as_raw_fd(), 0, 0, libc::POSIX_FADV_DONTNEED) {
        0 => Ok(()),
        number => Err(io::Error::from_raw_os_error(number)),
    }
}

impl FileDisk {
    /// Returns the disk of an open file, of which this much is known. It is `Doubted` if a call on a record file may
    /// have failed before. After the deadline each call fails without reaching the system.
    pub(crate) fn new(file: File, known: Known, deadline: Option<Deadline>) -> FileDisk {
        FileDisk {
            file,
            known,
            deadline,
            is_late: false,
            error: None,
            faults: 0,
        }
    }

    /// Returns the error of the last call that failed.
    pub(crate) fn error(&self) -> io::Error {
        match self.error {
            Some(error) => error,
            None => io::Error::from(ErrorKind::Other),
        }
    }

    /// Returns whether a call failed because the deadline had passed. The system was not asked then, so the bytes are
    /// not doubted.
    pub(crate) fn is_late(&self) -> bool {
        self.is_late
    }

    /// Returns whether the file has bytes that no write of a record leaves in a file without a record.
    pub(crate) fn is_strange(&self) -> io::Result<bool> {
        let mut bytes = [0u8; MOST_BYTES];
        let count = fill(&self.file, 0, &mut bytes)?;
        Ok(count == bytes.len() || UNWRITTEN.iter().any(|place| has_bytes(&bytes, *place)))
    }

    // Notes the error of a call that failed.
    fn checked<T: Drop>(&mut self, answer: io::Result<T>) -> Result<T, DiskFault>
        ensures { HasCause self.old.faults self.new.faults result }
    {
        match answer {
            Ok(value) => Ok(value),
            Err(error) => {
                self.error = Some(error);
                self.faults = self.faults.saturating_add(1);
                Err(DiskFault)
            }
        }
    }

    // Fails if the deadline has passed.
    fn require_time(&mut self) -> io::Result<()>
        ensures { self.new.faults ≡ self.old.faults }
    {
        let Some(deadline) = self.deadline else {
            return Ok(());
        };
        let answer = deadline.require();
        self.is_late = answer.is_err();
        answer
    }

    fn look(&mut self, at: u64, into: &mut [u8]) -> io::Result<usize>
        ensures { self.new.faults ≡ self.old.faults }
    {
        self.require_time()?;
        fill(&self.file, at, into)
    }

    fn put(&mut self, at: u64, bytes: &[u8]) -> io::Result<()>
        ensures { self.new.faults ≡ self.old.faults }
    {
        self.require_time()?;
        self.known = match self.known {
            Known::Synced | Known::Unsynced => Known::Unsynced,
            Known::Doubted => Known::Doubted,
        };
        self.file.write_all_at(bytes, at)
    }

    // Syncs all bytes unless they are known to be on the disk: a sync with nothing to write takes as long as any
    // other.
    fn settle(&mut self) -> io::Result<()>
        ensures { self.new.faults ≡ self.old.faults }
    {
        self.require_time()?;
        match self.known {
            Known::Synced => {}
            Known::Unsynced => {
                self.file.sync_data()?;
                self.known = Known::Synced;
            }
            Known::Doubted => {
                self.file.sync_data()?;
                forget_bytes(&self.file)?;
            }
        }
        Ok(())
    }
}

impl Disk for FileDisk {
    ghost tells = { λ _. false };

    ghost seen = { λ _. [] };

    ghost may_leave = { λ _ c. c ≡ [] };

    ghost moment = { λ _. 0 };

    ghost left_since = { λ _ _ c. c ≡ [] };

    ghost faults = { λ disk. disk.faults };

    ghost may_leave_seen = { λ _. refl };

    ghost counts_now = { λ _ _ _ _ left. left };

    ghost only_now = { λ _ _ left. left };

    fn read(&mut self, at: u64, into: &mut [u8]) -> Result<usize, DiskFault> {
        let answer = self.look(at, into);
        self.checked(answer)
    }

    fn write_at(&mut self, at: u64, bytes: &[u8]) -> Result<(), DiskFault> {
        let answer = self.put(at, bytes);
        self.checked(answer)
    }

    fn sync(&mut self) -> Result<(), DiskFault> {
        let answer = self.settle();
        self.checked(answer)
    }
}
