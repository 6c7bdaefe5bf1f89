//! The trait of links: byte streams that peers open, each with a number.
ghost use Rattle.std.specs.Prelude.{◌≤◌, [], ◌∷◌, IfOk, List, Option, ℕ, length};
ghost use Rattle.booth_host.specs.Causes.{HasCause};
ghost use Rattle.booth_stream.specs.Calls.{CallsGrewBy};
ghost use Rattle.booth_stream.specs.declared.link_call.LinkCall.{LinkCall};

use crate::{LinkCall, Piece};
use booth_base::Peer;
use booth_host::{Failed, Place};

/// An event of the links.
#[derive(Clone, Copy, PartialEq, Eq)]
pub enum LinkEvent {
    /// A peer opened a link, which has this number from now on.
    Opened { link: u32, peer: Peer },
    /// Bytes arrived on the link with this number. The piece has them.
    Bytes(u32),
    /// The link with this number has ended.
    Ended(u32),
    /// No event.
    Quiet,
}

/// Byte streams with peers.
///
/// Links that record their calls after a call recorded them before it, and the call added itself. A call returns
/// `Failed` only if the count of faults rose. No call waits.
pub trait Links {
    /// All calls so far, the oldest first, if calls are recorded.
    ghost past: { Self → Option (List LinkCall) };

    /// How often a device has failed. It never falls, and stays at the greatest u64.
    ghost faults: { Self → ℕ };

    /// Starts to accept peers at this place.
    fn open(&mut self, place: &Place) -> Result<(), Failed>
        ensures past { CallsGrewBy (past self.old) (past self.new)
            (LinkCall.Open place.now.local place.now.port result ∷ []) }
        ensures cause { HasCause (faults self.old) (faults self.new) result };

    /// Returns the next event, with its bytes.
    fn poll(&mut self, into: &mut Piece) -> Result<LinkEvent, Failed>
        ensures past { CallsGrewBy (past self.old) (past self.new) (LinkCall.Poll result into.new ∷ []) }
        ensures cause { HasCause (faults self.old) (faults self.new) result };

    /// Writes bytes to the peer of a link, and returns how many of them were written, counted from the first.
    fn write(&mut self, link: u32, bytes: &[u8]) -> Result<usize, Failed>
        ensures past { CallsGrewBy (past self.old) (past self.new) (LinkCall.Write link bytes.now result ∷ []) }
        ensures fits { IfOk result (λ taken. taken ≤ length bytes.now) }
        ensures cause { HasCause (faults self.old) (faults self.new) result };

    /// Closes a link. Its number may be opened again.
    fn close(&mut self, link: u32)
        ensures past { CallsGrewBy (past self.old) (past self.new) (LinkCall.Close link ∷ []) }
        ensures later { faults self.old ≤ faults self.new };
}
