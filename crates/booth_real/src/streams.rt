//! The standard streams.

use crate::outlet::Outlet;
use libc::net::{POLLOUT, poll};
use libc::types::pollfd;
use std::fs::File;
use std::io;
use std::io::Write;
use std::os::fd::{AsFd, AsRawFd};
use std::process::ChildStdin;

/// The files in the places of standard streams that were closed.
pub(crate) type Standing = [Option<File>; 3];

/// The number of standard error, the last of the standard streams.
const STANDARD_ERROR: i32 = 2;

/// Whether this process was started with a standard error.
#[derive(Clone, Copy)]
pub(crate) enum ErrorStream {
    Open,
    Closed,
}

// Opens a file in the place of the first closed standard stream. It is read-only, so that a write still fails.
fn hold_stream(rt: &HostRuntime) -> Option<File> {
    let file = File::open(rt, "/dev/null").ok()?;
    if file.as_raw_fd() <= STANDARD_ERROR {
        Some(file)
    } else {
        None
    }
}

/// Fills the places of closed standard streams. Otherwise a file of this process could get such a number and become a
/// handler's standard error.
pub(crate) fn hold_streams(rt: &HostRuntime) -> Standing {
    [hold_stream(rt), hold_stream(rt), hold_stream(rt)]
}

/// Returns whether standard error was open, from the files in the places of closed streams.
pub(crate) fn error_stream(standing: &Standing) -> ErrorStream {
    for file in standing {
        if let Some(file) = file {
            if file.as_raw_fd() == STANDARD_ERROR {
                return ErrorStream::Closed;
            }
        }
    }
    ErrorStream::Open
}

/// Writes to a standard stream. Fails if it is closed, or if it is a pipe without a reader.
///
/// It uses the library's type for a pipe to another program: a write to a plain stream without a reader would raise a
/// signal that ends this program.
pub(crate) fn write_to<S: AsFd>(stream: &S, bytes: &[u8]) -> io::Result<()> {
    ChildStdin::from(stream.as_fd().try_clone_to_owned()?).write_all(bytes)
}

/// Returns standard error on a descriptor of its own, so that later lines need none; `None` if no descriptor is left.
pub(crate) fn hold_error(rt: &HostRuntime) -> Option<ChildStdin> {
    let stream = rt.stderr();
    let held = stream.as_fd().try_clone_to_owned().ok()?;
    Some(ChildStdin::from(held))
}

// Returns whether a write to a stream would return without a wait. A write to a closed stream, or to one without a
// reader, fails at once.
fn has_room(stream: &ChildStdin) -> bool {
    let mut asked = [pollfd {
        fd: stream.as_raw_fd(),
        events: POLLOUT,
        revents: 0,
    }];
    poll(&mut asked, 0) == 1
}

/// Standard error on its own descriptor.
#[derive(Clone, Copy)]
pub(crate) struct HeldError<'a> {
    pub(crate) file: &'a ChildStdin,
}

/// A stream whose writer never waits. No contract says which bytes it took.
///
/// A write uses the type of a pipe to another program, as `write_to` does.
impl Outlet for HeldError<'_> {
    fn has_room(&mut self) -> bool {
        has_room(self.file)
    }

    fn put(&mut self, bytes: &[u8]) -> io::Result<usize> {
        let mut file = self.file;
        file.write(bytes)
    }
}
