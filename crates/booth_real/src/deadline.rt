//! The time limit of a record's write.

use crate::clocks::since_boot;
use arrayvec::ArrayString;
use std::fmt::Write;
use std::io;
use std::io::{Error, ErrorKind};

/// A write that has begun, and its limit in milliseconds.
#[derive(Clone, Copy)]
pub(crate) struct Deadline {
    /// When the write began, in milliseconds since the boot.
    began: u64,
    limit: u64,
}

// Returns the error of a write that exceeded its limit.
fn late(took: u64, limit: u64) -> Error {
    let mut words = ArrayString::<120>::new();
    let _ = write!(words, "it took {took} ms, and a write may take {limit} ms");
    Error::new(ErrorKind::TimedOut, words.as_str())
}

impl Deadline {
    /// Returns the deadline of a write that begins now, if there is a limit. If the clock cannot be read, there is no
    /// deadline.
    pub(crate) fn begin(limit: Option<u64>) -> Option<Deadline> {
        match (limit, since_boot()) {
            (Some(limit), Ok(began)) => Some(Deadline { began, limit }),
            (Some(_), Err(_)) | (None, _) => None,
        }
    }

    /// Fails if the deadline has passed.
    pub(crate) fn require(&self) -> io::Result<()> {
        let Ok(now) = since_boot() else {
            return Ok(());
        };
        let took = now.saturating_sub(self.began);
        if took > self.limit {
            Err(late(took, self.limit))
        } else {
            Ok(())
        }
    }
}
