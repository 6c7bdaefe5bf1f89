//! Why a program did not run.

use std::alloc::AllocError;

/// Why a program did not run.
#[derive(Clone, Copy)]
pub enum Unmade {
    OutOfMemory,
    /// The environment names an unknown transport.
    UnknownTransport,
    /// The arguments name both transports.
    BothTransports,
    /// The cause was printed already.
    Told,
}

impl Unmade {
    /// Returns the text to print, without the program's name, or none if the cause was printed already.
    pub fn text(self) -> Option<&'static [u8]> {
        match self {
            Unmade::OutOfMemory => Some(b"out of memory"),
            Unmade::UnknownTransport => Some(b"BOOTH_TRANSPORT has to be udp or tcp"),
            Unmade::BothTransports => Some(b"--tcp and --udp: one of them alone is allowed"),
            Unmade::Told => None,
        }
    }
}

impl From<AllocError> for Unmade {
    fn from(_: AllocError) -> Unmade {
        Unmade::OutOfMemory
    }
}
