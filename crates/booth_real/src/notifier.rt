//! Messages to the service manager about this process, in the format of sd_notify(3).
//!
//! A message is a datagram to a Unix socket. No program is started for it, and no call waits.
ghost use Rattle.std.specs.Prelude.{◌≤◌, ◌+◌, length};

use crate::clocks::since_boot;
use crate::environment::variable;
use crate::lines::{Line, line_of};
use crate::speaker::{Priority, Speaker};
use libc::net::{
    AF_UNIX, MSG_DONTWAIT, MSG_NOSIGNAL, SOCK_CLOEXEC, SOCK_DGRAM, SOCK_NONBLOCK, sendto, socket,
};
use os::{FromRawFd, errno};
use std::io;
use std::io::{Error, ErrorKind, Write};
use std::os::fd::{AsRawFd, OwnedFd};

/// The variable with the service manager's socket.
const SOCKET: &str = "NOTIFY_SOCKET";

/// The variable with the time within which the process must send a sign of life, in microseconds.
const WATCHDOG: &str = "WATCHDOG_USEC";

/// How often a sign of life is sent, in milliseconds, unless the environment asks for more.
const BEAT_MS: u64 = 1_000;

/// The most bytes of a socket's name.
const NAME_BYTES: usize = 107;

/// Where the name begins in an address: behind the two bytes of the address family.
const NAME_AT: usize = 2;

/// The address of a Unix socket (unix(7)).
#[derive(Drop)]
struct UnixAddress {
    raw: [u8; 128],
    /// The length of the address in bytes.
    counted: u32,
    ghost fits: { counted ≤ 128 },
}

/// The connection to the service manager.
#[derive(Drop)]
struct Manager {
    socket: OwnedFd,
    address: UnixAddress,
}

/// Sends messages to the service manager, if the environment names one.
#[derive(Drop)]
pub struct Notifier {
    speaker: Speaker,
    manager: Option<Manager>,
    /// How often a sign of life is sent, in milliseconds.
    beat_ms: u64,
    /// When a sign of life was sent last, in milliseconds since the boot.
    told_at: Option<u64>,
    /// Whether the failure of a message was logged.
    has_spoken: bool,
}

// Copies bytes to this place of an address.
fn put(raw: &mut [u8; 128], at: usize, bytes: &[u8])
    requires { at + length bytes.now ≤ 128 }
{
    raw[at..at + bytes.len()].copy_from_slice(bytes);
}

// Returns the address of a socket's path with its final zero byte. If the name begins with `@`, it returns the
// abstract name after that, with a zero byte in front.
fn address_of(name: &[u8]) -> Option<UnixAddress> {
    if name.len() > NAME_BYTES {
        return None;
    }
    let mut raw = [0u8; 128];
    put(&mut raw, 0, &(AF_UNIX as u16).to_ne_bytes());
    put(&mut raw, NAME_AT, name);
    match name.first().copied() {
        Some(b'/') => Some(UnixAddress {
            raw,
            counted: name.len() as u32 + 3,
        }),
        Some(b'@') => {
            raw[NAME_AT] = 0;
            Some(UnixAddress {
                raw,
                counted: name.len() as u32 + 2,
            })
        }
        _ => None,
    }
}

// Opens a datagram socket that never waits and that no child program inherits.
fn open_socket() -> io::Result<OwnedFd> {
    let kind = SOCK_DGRAM | SOCK_NONBLOCK | SOCK_CLOEXEC;
    let fd = unsafe { socket(AF_UNIX, kind, 0) };
    if fd < 0 {
        return Err(Error::from_raw_os_error(errno()));
    }
    Ok(unsafe { OwnedFd::from_raw_fd(fd) })
}

// Returns how often to send a sign of life: at least twice within the time in the environment.
fn beat_ms(rt: &HostRuntime) -> u64 {
    let Some(value) = variable(rt, WATCHDOG) else {
        return BEAT_MS;
    };
    match value.as_str().parse::<u64>() {
        Ok(micros) => BEAT_MS.min(micros / 2_000),
        Err(_) => BEAT_MS,
    }
}

impl Manager {
    // Connects to the service manager at the socket with this name.
    fn open(name: &str) -> io::Result<Manager> {
        let Some(address) = address_of(name.as_bytes()) else {
            return Err(Error::new(ErrorKind::InvalidInput, "NOTIFY_SOCKET names no socket"));
        };
        let socket = open_socket()?;
        Ok(Manager { socket, address })
    }

    fn send(&self, text: &str) -> io::Result<()> {
        let fd = self.socket.as_raw_fd();
        let address = &self.address;
        let flags = MSG_NOSIGNAL | MSG_DONTWAIT;
        let sent = unsafe { sendto(fd, text.as_bytes(), flags, &address.raw, address.counted) };
        if sent < 0 {
            return Err(Error::from_raw_os_error(errno()));
        }
        Ok(())
    }
}

// Returns the line about a message that could not be sent.
fn untold_line(error: &Error) -> Line {
    let mut line = line_of(&[b"cannot notify the service manager"]);
    let _ = write!(line, ": {error}");
    line
}

impl Notifier {
    /// Returns a notifier for the service manager whose socket the environment names in `NOTIFY_SOCKET`, for the
    /// program with this name. If the variable is not set, the notifier sends nothing. Create it after the host,
    /// which fills the places of standard streams that were closed.
    pub fn new(rt: HostRuntime, name: &'static str) -> Notifier {
        let mut notifier = Notifier {
            speaker: Speaker::new(rt, name),
            manager: None,
            beat_ms: beat_ms(&rt),
            told_at: None,
            has_spoken: false,
        };
        if let Some(socket) = variable(&rt, SOCKET) {
            match Manager::open(socket.as_str()) {
                Ok(manager) => notifier.manager = Some(manager),
                Err(error) => notifier.speak(&error),
            }
        }
        notifier
    }

    // Logs once that the service manager cannot be reached.
    fn speak(&mut self, error: &Error) {
        if !self.has_spoken {
            self.has_spoken = true;
            self.speaker.say(Priority::Warning, &untold_line(error));
        }
    }

    /// Sends this text to the service manager: assignments, one per line, such as `READY=1` or `STATUS=held until
    /// 11:20:31`. The message is lost if it cannot be sent at once. The first failure is logged to standard error.
    pub fn send(&mut self, text: &str) {
        let sent = match &self.manager {
            Some(manager) => manager.send(text),
            None => Ok(()),
        };
        if let Err(error) = &sent {
            self.speak(error);
        }
    }

    /// Sends the sign of life `WATCHDOG=1`: once a second, or twice within the time in `WATCHDOG_USEC`. Call it in
    /// each turn; most calls do nothing.
    pub fn beat(&mut self) {
        let Ok(now) = since_boot() else {
            return;
        };
        let is_due = match self.told_at {
            Some(told) => told.saturating_add(self.beat_ms) <= now,
            None => true,
        };
        if is_due {
            self.told_at = Some(now);
            self.send("WATCHDOG=1");
        }
    }
}
