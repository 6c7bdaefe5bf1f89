//! The file of the journal.

use std::alloc::AllocError;
use std::env;
use std::env::VarError;

/// The variable of the environment that names the journal's file.
const JOURNAL: &str = "BOOTH_JOURNAL";

/// Returns the path of the journal, or none if the environment names no file. A name that is not UTF-8 cannot be
/// opened.
pub(crate) fn journal_path(rt: &HostRuntime) -> Result<Option<String>, AllocError> {
    match env::var(rt, JOURNAL) {
        Ok(path) if path.is_empty() => Ok(None),
        Ok(path) => Ok(Some(path)),
        Err(VarError::NotPresent) => Ok(None),
        Err(VarError::NotUnicode) => Ok(Some(String::new(rt.alloc()))),
        Err(VarError::OutOfMemory) => Err(AllocError),
    }
}
