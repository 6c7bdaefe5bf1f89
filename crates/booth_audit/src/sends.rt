//! The messages that members sent, and the check that a received message was sent.
ghost use Rattle.std.specs.Prelude.{◌≡◌, ◌↔◌, ◌++◌, ◌∷◌, [], IfOk, IsTrue, List, OnOk};
ghost use Rattle.booth_node.specs.Records.{Has};
ghost use Rattle.booth_wire.specs.PlainMessage.{plain_of};
ghost use Rattle.booth_wire.specs.Spelling.{Fits, spelling};
ghost use Rattle.booth_audit.specs.Sends.{HasOneMore, IsFound, IsHeardOf, KnowsAll, KnowsMore, Sender};

use crate::hearings::Hears;
use booth_base::{ByteText, MemberId};
use booth_wire::{Frame, Message, decode, encode};
use std::alloc::{AllocError, Global};
use std::collections::HashSet;
use std::marker::Model;

/// The messages that members sent. Contracts see the frames of the messages, each in its one spelling without a
/// signature.
#[derive(Drop)]
pub(crate) struct Sends {
    alloc: Global,
    frames: HashSet<Vec<u8>>,
    frame: Frame,
}

impl Model for Sends {
    ghost use Rattle.std.specs.Prelude.{List, ℕ, map};

    ghost Value = { List (List ℕ) };

    ghost view = { λ s. map (λ frame. frame.items) s.frames.keys };
}

impl Sends {
    /// Returns a table without a message.
    pub(crate) fn new(alloc: Global) -> Result<Sends, AllocError>
        ensures { IfOk result (λ sends. KnowsAll sends []) }
    {
        let frame = Frame::new(alloc)?;
        Ok(Sends {
            alloc,
            frames: HashSet::new(alloc),
            frame,
        })
    }

    // Adds the frame of a message.
    fn keep(&mut self, message: &Message<'_>) -> Result<(), AllocError>
        requires { Fits (plain_of message.now) }
        ensures { OnOk result (HasOneMore self.old (spelling (plain_of message.now)) self.new) }
    {
        encode(message, &mut self.frame);
        let frame = self.frame.bytes().to_vec(self.alloc)?;
        self.frames.insert(frame)?;
        Ok(())
    }

    // Adds a frame that the member with this id sent, if it is a message that carries this id.
    fn read(&mut self, id: MemberId, bytes: &[u8]) -> Result<(), AllocError>
        ensures { OnOk result (KnowsMore self.old id (bytes.now ∷ []) self.new) }
    {
        let Ok(message) = decode(bytes) else {
            return Ok(());
        };
        if message.head.from != id {
            return Ok(());
        }
        self.keep(&message)
    }

    fn read_all(&mut self, id: MemberId, sent: &[ByteText]) -> Result<(), AllocError>
        ensures { OnOk result (KnowsMore self.old id sent.now self.new) }
    {
        for bytes in sent {
            self.read(id, bytes.bytes())?;
        }
        Ok(())
    }

    /// Adds all messages that the member with this id sent.
    pub(crate) fn add(&mut self, id: MemberId, sent: &[ByteText]) -> Result<(), AllocError>
        ensures { OnOk result ((senders : List Sender) → KnowsAll self.old senders
            → KnowsAll self.new (senders ++ record { id = id; sent = sent.now } ∷ [])) }
    {
        self.read_all(id, sent)
    }

    fn has(&mut self, message: &Message<'_>) -> bool
        requires { Fits (plain_of message.now) }
        ensures same { self.new ≡ self.old }
        ensures known { IsTrue result ↔ Has self.old (spelling (plain_of message.now)) }
    {
        encode(message, &mut self.frame);
        self.frames.contains(self.frame.bytes())
    }

    /// Returns whether the member whose id the message of a datagram carries sent the message.
    pub(crate) fn was_sent(&mut self, bytes: &[u8]) -> bool
        ensures same { self.new ≡ self.old }
        ensures sent { (senders : List Sender) → KnowsAll self.old senders
            → IsTrue result ↔ IsHeardOf senders bytes.now }
    {
        match decode(bytes) {
            Ok(message) => self.has(&message),
            Err(_) => true,
        }
    }

    /// Returns the line of the first message that was received and not sent.
    pub(crate) fn first_unsent(&mut self, heard: &[Hears]) -> Option<u64>
        ensures same { self.new ≡ self.old }
        ensures first { (senders : List Sender) → KnowsAll self.old senders → IsFound senders heard.now result }
    {
        for hears in heard {
            if !self.was_sent(hears.bytes.bytes()) {
                return Some(hears.line);
            }
        }
        None
    }
}
