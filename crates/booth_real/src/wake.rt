//! Files in the form that `poll` takes, and the other file that ends a wait, with what is known of it.

ghost use Rattle.std.specs.Prelude.{◌≡◌};

use libc::net::POLLIN;
use libc::types::pollfd;
use std::cell::Cell;
use std::os::fd::RawFd;
use std::rc::Rc;

/// How many receives are made before the file is checked again.
const AHEAD: u32 = 16;

/// A file that ends a wait when it can be read.
#[derive(Drop)]
pub(crate) struct Wake {
    /// The file's number; below 0 if there is none.
    file: RawFd,
    /// Whether the file can be read, as far as is known.
    known: Option<Rc<Cell<bool>>>,
    /// How many more receives are made without a check of the file.
    ahead: Cell<u32>,
}

/// Returns a file in the form that `poll` takes. `poll` ignores a number below 0.
pub(crate) fn asked(fd: RawFd) -> pollfd {
    pollfd {
        fd,
        events: POLLIN,
        revents: 0,
    }
}

impl Wake {
    /// Returns no file.
    pub(crate) fn nothing() -> Wake {
        Wake {
            file: -1,
            known: None,
            ahead: Cell::new(0),
        }
    }

    /// Returns this file; the mark is set when the file can be read.
    pub(crate) fn on(file: RawFd, known: Rc<Cell<bool>>) -> Wake
        ensures { result.file ≡ file }
    {
        Wake {
            file,
            known: Some(known),
            ahead: Cell::new(0),
        }
    }

    /// Returns the file's number.
    pub(crate) fn file(&self) -> RawFd
        ensures { result ≡ self.now.file }
    {
        self.file
    }

    /// Returns whether the file is known to be readable, so that nobody must wait.
    pub(crate) fn is_known(&self) -> bool {
        match &self.known {
            Some(known) => known.get(),
            None => false,
        }
    }

    /// Notes that the file can be read.
    pub(crate) fn note(&self) {
        if let Some(known) = &self.known {
            known.set(true);
        }
    }

    /// Allows some receives before the next check: after one arrival there may be more.
    pub(crate) fn go_ahead(&self) {
        self.ahead.set(AHEAD);
    }

    /// Allows no receive before the next check.
    pub(crate) fn stay(&self) {
        self.ahead.set(0);
    }

    /// Returns whether one more receive is allowed without a check of the file.
    pub(crate) fn goes_ahead(&self) -> bool {
        let ahead = self.ahead.get();
        self.ahead.set(ahead.saturating_sub(1));
        ahead > 0
    }
}
