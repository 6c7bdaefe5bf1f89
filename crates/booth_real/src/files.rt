//! The contents of regular files.

use std::alloc::Global;
use std::fs::{File, Metadata, OpenOptions};
use std::io::{ErrorKind, Read};
use std::os::unix::fs::{MetadataExt, OpenOptionsExt};
use std::{fs, io};

/// The most bytes of a file that is read.
const FILE_BYTES: usize = 1 << 30;

/// The mode of a new file: its owner alone may read and write it.
pub(crate) const OWNERS_FILE: u32 = 0o600;

/// Fails if this is not a regular file.
pub(crate) fn require_regular(metadata: &Metadata) -> io::Result<()> {
    if metadata.is_file() {
        Ok(())
    } else {
        Err(io::Error::new(ErrorKind::InvalidInput, "it is no regular file"))
    }
}

/// Returns whether these are the same file, whatever path each was found by.
pub(crate) fn is_same(one: &Metadata, other: &Metadata) -> bool {
    one.dev() == other.dev() && one.ino() == other.ino()
}

// Returns the metadata of a file, which must be a regular file.
fn regular(answer: io::Result<Metadata>) -> io::Result<Metadata> {
    let metadata = answer?;
    require_regular(&metadata)?;
    Ok(metadata)
}

/// Opens the regular file with this name. It refuses a symbolic link, and a file that replaced this one while it was
/// being opened. It opens nothing but a regular file, since opening a named pipe may wait for ever.
pub(crate) fn open_named(rt: &HostRuntime, path: &str, how: &OpenOptions) -> io::Result<File> {
    let named = regular(fs::symlink_metadata(rt, path))?;
    let file = how.open(rt, path)?;
    if is_same(&named, &regular(file.metadata())?) {
        Ok(file)
    } else {
        Err(io::Error::new(ErrorKind::InvalidInput, "another file took its place"))
    }
}

/// Opens the file to read and to write. So the call does not wait even if a named pipe has replaced the file.
pub(crate) fn open_to_change(rt: &HostRuntime, path: &str) -> io::Result<File> {
    open_named(rt, path, File::options().read(true).write(true))
}

/// Opens the same, and only to read if the file system is read-only.
pub(crate) fn open_to_look(rt: &HostRuntime, path: &str) -> io::Result<File> {
    match open_to_change(rt, path) {
        Err(error) if error.kind() == ErrorKind::ReadOnlyFilesystem => {
            open_named(rt, path, File::options().read(true))
        }
        answer => answer,
    }
}

/// Returns what was found, or `None` if the system says that there is nothing.
pub(crate) fn if_found<T: Drop>(answer: io::Result<T>) -> io::Result<Option<T>> {
    match answer {
        Ok(value) => Ok(Some(value)),
        Err(error) if error.kind() == ErrorKind::NotFound => Ok(None),
        Err(error) => Err(error),
    }
}

/// Creates the file with this name for its owner alone, and opens it to read and write. Fails if the file exists.
pub(crate) fn make_named(rt: &HostRuntime, path: &str) -> io::Result<File> {
    File::options()
        .read(true)
        .write(true)
        .create_new(true)
        .mode(OWNERS_FILE)
        .open(rt, path)
}

// Returns the error of a file that is too long.
fn too_long() -> io::Error {
    io::Error::new(ErrorKind::InvalidInput, "it has more than 2^30 bytes")
}

// Fails if this is not a regular file, or if it is too long.
fn require_readable(answer: io::Result<Metadata>) -> io::Result<()> {
    if regular(answer)?.len() <= FILE_BYTES as u64 {
        Ok(())
    } else {
        Err(too_long())
    }
}

// Opens a regular file. It is checked before it is opened, since opening a named pipe may wait for ever, and again
// after, since another file may have replaced it.
fn open_regular(rt: &HostRuntime, path: &str) -> io::Result<File> {
    require_readable(fs::metadata(rt, path))?;
    let file = File::open(rt, path)?;
    require_readable(file.metadata())?;
    Ok(file)
}

// Appends this piece, unless the file becomes too long: it may grow while it is read.
fn add_piece(bytes: &mut Vec<u8>, piece: &[u8]) -> io::Result<()> {
    if piece.len() > FILE_BYTES.saturating_sub(bytes.len()) {
        return Err(too_long());
    }
    bytes.extend_from_slice(piece)?;
    Ok(())
}

// Appends the next piece, and returns whether there may be more.
fn has_more(file: &mut File, bytes: &mut Vec<u8>) -> io::Result<bool> {
    let mut piece = [0u8; 4096];
    match file.read(&mut piece) {
        Ok(count) => {
            add_piece(bytes, &piece[..count])?;
            Ok(count > 0)
        }
        Err(error) if error.kind() == ErrorKind::Interrupted => Ok(true),
        Err(error) => Err(error),
    }
}

// Appends the rest of a file.
fn add_all(file: &mut File, bytes: &mut Vec<u8>) -> io::Result<()> {
    for _ in 0..u64::MAX {
        if !has_more(file, bytes)? {
            return Ok(());
        }
    }
    Err(too_long())
}

/// Returns the contents of the regular file at this path, which may have up to 2^30 bytes. On failure it logs
/// nothing.
pub fn contents(rt: &HostRuntime, alloc: Global, path: &str) -> io::Result<Vec<u8>> {
    let mut file = open_regular(rt, path)?;
    let mut bytes = Vec::new(alloc);
    add_all(&mut file, &mut bytes)?;
    Ok(bytes)
}
