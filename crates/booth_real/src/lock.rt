//! File locks. The kernel holds them, and they last while the file is open.

use crate::files::{is_same, make_named, open_named, open_to_change};
use std::fs::{File, TryLockError};
use std::io;
use std::io::{Error, ErrorKind};

/// The error text for a directory whose lock another process holds.
const TAKEN: &str = "its lock is held";

// Returns whether an error says that the file exists and may only be read.
fn is_for_reading(kind: ErrorKind) -> bool {
    matches!(
        kind,
        ErrorKind::PermissionDenied | ErrorKind::ReadOnlyFilesystem
    )
}

// Opens the file to read and to write if this user may. Then not even a named pipe that has replaced the file makes
// the call wait (fifo(7)). Nothing is written to it.
fn open_lock(rt: &HostRuntime, path: &str) -> io::Result<File> {
    match open_to_change(rt, path) {
        Err(error) if is_for_reading(error.kind()) => {
            open_named(rt, path, File::options().read(true))
        }
        answer => answer,
    }
}

// Opens the file, and creates it for its owner alone if it is missing: whoever can open the file can hold its lock.
fn open_or_make(rt: &HostRuntime, path: &str) -> io::Result<File> {
    match make_named(rt, path) {
        Err(error) if error.kind() != ErrorKind::AlreadyExists => Err(error),
        Ok(_) | Err(_) => open_lock(rt, path),
    }
}

// Tries to take the lock of an open file, and returns whether it did. Another process may hold it.
fn is_taken(file: &File) -> io::Result<bool> {
    match file.try_lock() {
        Ok(()) => Ok(true),
        Err(TryLockError::WouldBlock) => Ok(false),
        Err(TryLockError::Error(error)) => Err(error),
    }
}

/// Takes the lock of an open file. Fails with this text if another process holds it.
pub(crate) fn require_lock(file: &File, words: &str) -> io::Result<()> {
    if is_taken(file)? {
        Ok(())
    } else {
        Err(Error::new(ErrorKind::WouldBlock, words))
    }
}

/// Returns the file at this path with its lock, which lasts while the file is open. Fails if another process holds
/// the lock.
pub(crate) fn lock_file(rt: &HostRuntime, path: &str) -> io::Result<File> {
    let file = open_or_make(rt, path)?;
    require_lock(&file, TAKEN)?;
    Ok(file)
}

/// Returns the directory at this path, which ends in `/.`, with its own lock, which lasts while it is open. Fails if
/// another process holds the lock.
pub(crate) fn lock_directory(rt: &HostRuntime, path: &str) -> io::Result<File> {
    let directory = File::open(rt, path)?;
    require_lock(&directory, TAKEN)?;
    Ok(directory)
}

// Fails if these are two different files.
fn require_same(one: &File, other: &File) -> io::Result<()> {
    if is_same(&one.metadata()?, &other.metadata()?) {
        Ok(())
    } else {
        Err(Error::from(ErrorKind::InvalidInput))
    }
}

// Takes the lock of this file in addition to the one that is held, if any.
fn hold(held: &mut Option<File>, file: File) -> io::Result<bool> {
    match held {
        Some(held) => {
            require_same(held, &file)?;
            Ok(true)
        }
        None => {
            let is_taken = is_taken(&file)?;
            if is_taken {
                *held = Some(file);
            }
            Ok(is_taken)
        }
    }
}

/// Takes the lock of a file, which stays open in `held`. Returns false if another process holds the lock.
pub(crate) fn take_lock(rt: &HostRuntime, held: &mut Option<File>, path: &str) -> io::Result<bool> {
    hold(held, open_or_make(rt, path)?)
}
