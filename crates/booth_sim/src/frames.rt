//! The frames that members sent to each other, one of which may arrive.
ghost use Rattle.std.specs.Prelude.{◌≡◌, ◌++◌, ◌∷◌, [], ◌≤◌, ◌<◌, length, IfOk, IfSome, OnOk, OnErr, option_map, position};
ghost use Rattle.booth_conf.specs.Rules.{is_at};
ghost use Rattle.booth_sim.specs.Frames.{chosen, last_of, place_of};
ghost use Rattle.booth_sim.specs.declared.frames.TheConstants.{KEPT_FRAMES};

use booth_base::{Address, ByteText, Peer};
use booth_conf::{Config, Member};
use std::alloc::{AllocError, Global};
use std::marker::Model;

/// The number of frames that are stored as sent.
pub(crate) const KEPT_FRAMES: usize = 64;

/// The number of the newest frames among which one is chosen.
pub(crate) const NEWEST_FRAMES: usize = 16;

/// A frame that a member sent to another.
#[derive(Drop)]
pub struct SentFrame {
    /// The place of the member that sent it.
    pub from: usize,
    /// The place of the member that receives it.
    pub to: usize,
    pub bytes: ByteText,
}

/// The last frames that were sent, the oldest first.
#[derive(Drop)]
pub struct SentFrames {
    alloc: Global,
    frames: Vec<SentFrame>,
}

impl Model for SentFrames {
    ghost use Rattle.std.specs.Prelude.{List, ◌≤◌, length};
    ghost use Rattle.booth_sim.specs.declared.frames.SentFrame.{SentFrame};
    ghost use Rattle.booth_sim.specs.declared.frames.TheConstants.{KEPT_FRAMES};

    ghost Value = { List SentFrame };

    ghost view = { λ s. s.frames.items };

    ghost invariant = { λ s. length s.frames.items ≤ KEPT_FRAMES };
}

// Returns the place of the member with this address.
fn place_at(members: &[Member], address: Address) -> Option<usize>
    ensures exact { result ≡ position (is_at address) members.now }
    ensures within { IfSome result (λ place. place < length members.now) }
{
    members.iter().position(|member| address == member.address)
}

/// Returns the place of the member that listens at this peer's address and port, if there is one.
pub fn place_of(config: &Config, peer: &Peer) -> Option<usize>
    ensures exact { result ≡ place_of config.now peer.now }
    ensures within { IfSome result (λ place. place < length config.now.members) }
{
    if peer.port == config.port() {
        place_at(config.members(), peer.address)
    } else {
        None
    }
}

impl SentFrames {
    /// Returns an empty store.
    pub(crate) fn new(alloc: Global) -> SentFrames
        ensures { result ≡ [] }
    {
        SentFrames {
            alloc,
            frames: Vec::new(alloc),
        }
    }

    /// Stores a frame. Drops the oldest frame if there are too many.
    pub(crate) fn push(&mut self, from: usize, to: usize, bytes: &[u8]) -> Result<(), AllocError>
        ensures ok { OnOk result (self.new ≡ last_of KEPT_FRAMES
            (self.old ++ record { from = from; to = to; bytes = bytes.now } ∷ [])) }
        ensures err { OnErr result (self.new ≡ self.old) }
    {
        let bytes = ByteText::new(self.alloc, bytes)?;
        let frame = SentFrame { from, to, bytes };
        if self.frames.len() < KEPT_FRAMES {
            self.frames.push(frame)?;
        } else {
            self.frames.remove(0);
            self.frames.push(frame)?;
        }
        Ok(())
    }

    /// Returns the frame that a word chooses, counted back from the newest.
    pub(crate) fn chosen(&self, word: u32) -> Option<&SentFrame>
        ensures { option_map (λ frame. frame.now) result ≡ chosen word self.now }
    {
        if self.frames.is_empty() {
            return None;
        }
        let back = word as usize % self.frames.len().min(NEWEST_FRAMES);
        self.frames.get(self.frames.len() - 1 - back)
    }
}
