//! Records as files: one for each ticket, in a directory that one host has at a time.
//!
//! A file is opened for one call only, and holds four slots (`booth_rec`). A missing file holds no record.
ghost use Rattle.std.specs.Prelude.{◌≤◌, length};

use crate::clocks::since_boot;
use crate::deadline::Deadline;
use crate::files::{if_found, make_named, open_to_change, open_to_look};
use crate::lock::{lock_directory, lock_file};
use crate::record_disk::{FileDisk, Known};
use crate::tickets::Tickets;
use arrayvec::ArrayString;
use booth_base::{Name, PathText};
use booth_rec::{OpenFault, PutFault, Record, Slots};
use std::alloc::Global;
use std::collections::HashSet;
use std::fmt::Write;
use std::fs::{DirBuilder, File};
use std::io;
use std::io::ErrorKind;
use std::os::unix::fs::{DirBuilderExt, MetadataExt};
use std::path::Path;

/// The file whose lock belongs to the directory's host.
const LOCK: &str = "booth.lock";

/// The directory by a path below it, at which no named pipe can stand.
const ITSELF: &str = ".";

/// A path below a directory.
pub(crate) type FilePath = ArrayString<400>;

/// The mode of a new directory.
const OWNERS_DIRECTORY: u32 = 0o700;

/// What this host knows about the directory's own name.
#[derive(Clone, Copy)]
enum OwnName {
    /// This host created the directory, and its name may not be on the disk yet.
    Made,
    /// The directory existed, and its name may not be on the disk yet.
    Found,
    /// The name is on the disk, as far as this host can sync it.
    Settled,
}

/// The directory of the records, which this host alone uses.
#[derive(Drop)]
pub(crate) struct Records {
    directory: PathText,
    own_name: OwnName,
    /// Whether the names in the directory are on the disk.
    has_names: bool,
    /// Whether a call on a record file has failed: from then on the system's bytes of record files are doubted.
    has_failed: bool,
    /// The numbers of the files whose bytes are all on the disk because this process synced them.
    synced: HashSet<u64>,
    /// What is remembered of the tickets of this directory.
    tickets: Tickets,
    /// How many milliseconds the last write took, or a slower preparation since, if that is known.
    pace: Option<u64>,
    /// How many milliseconds a write may take, if that is limited.
    limit: Option<u64>,
    /// The lock's file; the lock lasts while it is open.
    lock: File,
    /// The open directory. It is locked too while it is open, because the lock's file could be deleted or replaced.
    own_lock: File,
}

/// The contents of a ticket's file.
#[derive(Clone, Copy)]
pub(crate) struct Found {
    pub(crate) record: Option<Record>,
    /// Whether it holds no record, and has bytes that no write leaves.
    pub(crate) is_strange: bool,
}

/// Returns the path of a file in a directory.
pub(crate) fn path_in(directory: &PathText, name: &str) -> io::Result<FilePath> {
    let mut path = FilePath::new();
    path.push_str(directory.as_str());
    path.push('/');
    match path.try_push_str(name) {
        Ok(()) => Ok(path),
        Err(_) => Err(io::Error::from(ErrorKind::InvalidInput)),
    }
}

// Returns the name of a ticket's file: the ticket's name in hexadecimal, and `.rec`.
fn file_name(ticket: &Name) -> io::Result<ArrayString<130>> {
    let mut name = ArrayString::<130>::new();
    for byte in ticket.bytes() {
        let _ = write!(name, "{byte:02x}");
    }
    match name.try_push_str(".rec") {
        Ok(()) => Ok(name),
        Err(_) => Err(io::Error::from(ErrorKind::InvalidInput)),
    }
}

// Creates a directory for its owner alone if it is missing: whoever may write to it could take a record away.
fn make(rt: &HostRuntime, directory: &str) -> io::Result<OwnName> {
    let made = DirBuilder::new()
        .mode(OWNERS_DIRECTORY)
        .create(rt, directory);
    match made {
        Ok(()) => Ok(OwnName::Made),
        Err(error) if error.kind() == ErrorKind::AlreadyExists => Ok(OwnName::Found),
        Err(error) => Err(error),
    }
}

/// Syncs the names in a directory.
pub(crate) fn sync_directory(rt: &HostRuntime, directory: &str) -> io::Result<()> {
    File::open(rt, directory)?.sync_all()
}

/// Syncs the name of a file or a directory.
pub(crate) fn sync_parent(rt: &HostRuntime, path: &str) -> io::Result<()> {
    match Path::new(path).parent() {
        Some(parent) if parent.as_os_str().is_empty() => sync_directory(rt, "."),
        Some(parent) => sync_directory(rt, parent.as_os_str()),
        None => Ok(()),
    }
}

// Does the same for a directory that existed. If this user may not open the directory above, or if that one cannot be
// synced, for example on a read-only file system with this directory as a mount point, then the name is the
// responsibility of whoever created it.
fn sync_parent_if_allowed(rt: &HostRuntime, directory: &str) -> io::Result<()> {
    let Err(error) = sync_parent(rt, directory) else {
        return Ok(());
    };
    match error.kind() {
        ErrorKind::PermissionDenied | ErrorKind::InvalidInput => Ok(()),
        _ => Err(error),
    }
}

// Returns the result, with words in front of an error that say what failed.
fn within(words: &str, answer: io::Result<()>) -> io::Result<()> {
    let Err(error) = answer else {
        return Ok(());
    };
    let mut text = ArrayString::<160>::new();
    let _ = write!(text, "{words}: {error}");
    Err(io::Error::new(error.kind(), text.as_str()))
}

// Returns the error of a file that accepts no record, with these words.
fn damaged(words: &str) -> io::Error {
    io::Error::new(ErrorKind::InvalidData, words)
}

// Returns how many milliseconds have passed since this reading of the time since the boot, if that is known.
fn passed_since(began: io::Result<u64>) -> Option<u64> {
    match (began, since_boot()) {
        (Ok(began), Ok(now)) => Some(now.saturating_sub(began)),
        (Ok(_), Err(_)) | (Err(_), _) => None,
    }
}

// Returns the longer of two times, if both are known.
fn longer(one: Option<u64>, other: Option<u64>) -> Option<u64> {
    Some(one?.max(other?))
}

impl Records {
    /// Opens the directory at this path with its locks, and creates it in the directory above if it is missing. Fails
    /// if another process holds one of the locks. If there is a limit, in milliseconds, a write in it fails if it takes
    /// longer.
    pub(crate) fn open(
        rt: &HostRuntime,
        alloc: Global,
        directory: &PathText,
        limit: Option<u64>,
    ) -> io::Result<Records> {
        let own_name = make(rt, directory.as_str())?;
        let lock = lock_file(rt, path_in(directory, LOCK)?.as_str())?;
        let own_lock = lock_directory(rt, path_in(directory, ITSELF)?.as_str())?;
        Ok(Records {
            directory: directory.copy(),
            own_name,
            has_names: false,
            has_failed: false,
            synced: HashSet::new(alloc),
            tickets: Tickets::new(alloc),
            pace: None,
            limit,
            lock,
            own_lock,
        })
    }

    pub(crate) fn directory(&self) -> &PathText {
        &self.directory
    }

    // Returns why a call on this disk failed. If the system was asked, the bytes on the disk are doubted from then on.
    fn failure(&mut self, disk: &FileDisk) -> io::Error {
        if !disk.is_late() {
            self.has_failed = true;
        }
        disk.error()
    }

    // Returns the slots of a file.
    fn slots(&mut self, disk: FileDisk) -> io::Result<Slots<FileDisk>> {
        match Slots::open(disk) {
            Ok(slots) => Ok(slots),
            Err(OpenFault::Torn(_)) => Err(damaged("an open slot holds no record")),
            Err(OpenFault::Disk(disk)) => Err(self.failure(&disk)),
        }
    }

    // Returns what is known of the file with this number, which this host alone writes.
    fn known_of(&self, number: u64) -> Known {
        if self.has_failed {
            Known::Doubted
        } else if self.synced.contains(&number) {
            Known::Synced
        } else {
            Known::Unsynced
        }
    }

    // Notes that all bytes of the file with this number are on the disk. If there is no memory for that, the file is
    // synced once more later.
    fn note_synced(&mut self, number: u64) {
        let _ = self.synced.insert(number);
    }

    // Syncs the directory's own name, even if an earlier process created the directory and ended.
    fn keep_own_name(&mut self, rt: &HostRuntime) -> io::Result<()> {
        let synced = match self.own_name {
            OwnName::Settled => return Ok(()),
            OwnName::Made => sync_parent(rt, self.directory.as_str()),
            OwnName::Found => sync_parent_if_allowed(rt, self.directory.as_str()),
        };
        within("the directory above is not synced", synced)?;
        self.own_name = OwnName::Settled;
        Ok(())
    }

    // Syncs the names in the directory, and its own.
    fn keep_names(&mut self, rt: &HostRuntime) -> io::Result<()> {
        if self.has_names {
            return Ok(());
        }
        let synced = sync_directory(rt, self.directory.as_str());
        within("the directory is not synced", synced)?;
        self.keep_own_name(rt)?;
        self.has_names = true;
        Ok(())
    }

    // Returns the path of a ticket's file.
    fn path_of(&self, ticket: &Name) -> io::Result<FilePath> {
        path_in(&self.directory, file_name(ticket)?.as_str())
    }

    /// Returns the contents of a ticket's file; a missing file holds nothing. Its bytes are doubted, since nothing is
    /// known of failures before this process.
    pub(crate) fn read(&mut self, rt: &HostRuntime, ticket: &Name) -> io::Result<Found> {
        let found = self.look_for(rt, ticket)?;
        self.tickets.note_read(ticket, found.record)?;
        Ok(found)
    }

    /// Returns the term of this member's lease of a ticket, by the records that were read and written, or 0 if it has
    /// none.
    pub(crate) fn lease_term(&self, ticket: &Name) -> u32 {
        self.tickets.lease_term(ticket)
    }

    // Returns the contents of a ticket's file.
    fn look_for(&mut self, rt: &HostRuntime, ticket: &Name) -> io::Result<Found> {
        let path = self.path_of(ticket)?;
        match if_found(open_to_look(rt, path.as_str()))? {
            Some(file) => self.look(file),
            None => Ok(Found {
                record: None,
                is_strange: false,
            }),
        }
    }

    // Returns the contents of an open file.
    fn look(&mut self, file: File) -> io::Result<Found> {
        let number = file.metadata()?.ino();
        let slots = self.slots(FileDisk::new(file, Known::Doubted, None))?;
        self.note_synced(number);
        let record = slots.record();
        let is_strange = record.is_none() && slots.disk().is_strange()?;
        Ok(Found { record, is_strange })
    }

    // Opens the file at this path, and creates it if it is missing. In that case its name must still be synced.
    fn open_or_make(&mut self, rt: &HostRuntime, path: &str) -> io::Result<File> {
        match if_found(open_to_change(rt, path))? {
            Some(file) => Ok(file),
            None => {
                self.has_names = false;
                make_named(rt, path)
            }
        }
    }

    // Returns the slots of the file with this number, to change them before the deadline. Only after a success are
    // the bytes known to be on the disk again.
    fn slots_to_change(
        &mut self,
        file: File,
        number: u64,
        deadline: Option<Deadline>,
    ) -> io::Result<Slots<FileDisk>> {
        let known = self.known_of(number);
        self.synced.remove(&number);
        self.slots(FileDisk::new(file, known, deadline))
    }

    // Writes this record to an open file before the deadline.
    fn put(&mut self, file: File, record: &Record, deadline: Option<Deadline>) -> io::Result<()> {
        let number = file.metadata()?.ino();
        let mut slots = self.slots_to_change(file, number, deadline)?;
        match slots.put(record) {
            Ok(()) => {
                self.note_synced(number);
                Ok(())
            }
            Err(PutFault::Spent) => Err(damaged("the greatest number of a slot is used already")),
            Err(PutFault::Disk | PutFault::Again) => Err(self.failure(slots.disk())),
        }
    }

    // Writes this record to a ticket's file within the limit.
    fn write_in_time(
        &mut self,
        rt: &HostRuntime,
        ticket: &Name,
        record: &Record,
    ) -> io::Result<()> {
        let deadline = Deadline::begin(self.limit);
        let path = self.path_of(ticket)?;
        let file = self.open_or_make(rt, path.as_str())?;
        self.keep_names(rt)?;
        self.put(file, record, deadline)?;
        match deadline {
            Some(deadline) => deadline.require(),
            None => Ok(()),
        }
    }

    /// Writes this record to a ticket's file. On success the record, the file's name and the directory's name are on
    /// the disk, and the write took no longer than the limit. A write that takes longer fails, and takes no further
    /// step.
    pub(crate) fn write(
        &mut self,
        rt: &HostRuntime,
        ticket: &Name,
        record: &Record,
    ) -> io::Result<()> {
        let began = since_boot();
        let written = self.write_in_time(rt, ticket, record);
        self.pace = passed_since(began);
        match &written {
            Ok(()) => self.tickets.note_written(ticket, record),
            Err(_) => self.tickets.note_unwritten(ticket, record),
        }
        written
    }

    /// Returns whether a next write can be prepared, and the last write took less than this many milliseconds. A
    /// preparation has fewer steps than a write, so it should take less time too.
    pub(crate) fn can_prepare(&self, limit_ms: u64) -> bool {
        self.tickets.has_waiting() && self.pace.is_some_and(|pace| pace < limit_ms)
    }

    // Closes the slot of the next record in an open file before the deadline.
    fn close_next(&mut self, file: File, deadline: Option<Deadline>) -> io::Result<()> {
        let number = file.metadata()?.ino();
        let mut slots = self.slots_to_change(file, number, deadline)?;
        match slots.prepare() {
            Ok(()) => {
                self.note_synced(number);
                Ok(())
            }
            Err(PutFault::Spent) => Ok(()),
            Err(PutFault::Disk | PutFault::Again) => Err(self.failure(slots.disk())),
        }
    }

    // Closes the slot of the next record of a ticket, if the ticket has a file. It takes no further step after the
    // limit in milliseconds.
    fn close_next_of(&mut self, rt: &HostRuntime, ticket: &Name, limit_ms: u64) -> io::Result<()> {
        let deadline = Deadline::begin(Some(limit_ms));
        let path = self.path_of(ticket)?;
        match if_found(open_to_change(rt, path.as_str()))? {
            Some(file) => self.close_next(file, deadline),
            None => Ok(()),
        }
    }

    /// Prepares the next write of the ticket that waits longest, if one waits, so that this write has two syncs and
    /// not three. It takes no further step after the limit in milliseconds. If it fails, the write has all its steps.
    pub(crate) fn prepare_one(&mut self, rt: &HostRuntime, limit_ms: u64) -> io::Result<()> {
        let Some(ticket) = self.tickets.take_waiting() else {
            return Ok(());
        };
        let began = since_boot();
        let prepared = self.close_next_of(rt, &ticket, limit_ms);
        self.pace = longer(self.pace, passed_since(began));
        prepared
    }
}
