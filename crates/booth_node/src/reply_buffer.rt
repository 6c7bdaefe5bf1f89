//! The buffers for messages: a text and a frame, in memory that is allocated once.
ghost use Rattle.std.specs.Prelude.{◌≡◌, ◌≤◌, ◌<◌, [], IfOk, length};
ghost use Rattle.booth_wire.specs.Command.{answer_of};
ghost use Rattle.booth_wire.specs.PlainMessage.{content_of};
ghost use Rattle.booth_wire.specs.Spelling.{Fits};
ghost use Rattle.booth_auth.specs.Sealed.{sealed};
ghost use Rattle.booth_node.specs.AttributeRequests.{after_wish, attr_message};
ghost use Rattle.booth_node.specs.Replies.{answered, list_lines, reply_with, text_for, told_for};
ghost use Rattle.booth_node.specs.ReplyForms.{IsPartWritten, IsWritten};

use crate::attributes::{AttrRequest, answer_cmd, attend, write_pairs};
use crate::lists::write_part;
use crate::replies::{Part, answer, part_message, reply_message, told_for, write_text};
use crate::{Common, NodeConfig};
use booth_attr::Attrs;
use booth_auth::ring_seal;
use booth_base::TextBuf;
use booth_ticket::Ticket;
use booth_wire::{Frame, Message};
use std::alloc::{AllocError, Global};

/// The text of a reply, a line of it, and the frame to send.
#[derive(Drop)]
pub(crate) struct ReplyBuffer {
    text: TextBuf,
    line: TextBuf,
    pub frame: Frame,
}

impl ReplyBuffer {
    /// Returns an empty buffer, with all the memory that it will need.
    pub fn new(alloc: Global) -> Result<ReplyBuffer, AllocError>
        ensures { IfOk result (λ buffer. (buffer.text ≡ []) × (buffer.frame ≡ [])) }
    {
        Ok(ReplyBuffer {
            text: TextBuf::new(alloc)?,
            line: TextBuf::new(alloc)?,
            frame: Frame::new(alloc)?,
        })
    }

    /// Writes the one reply to a message into the frame, if the message has a reply. The message was accepted at this
    /// reading in ms.
    pub fn answer(
        &mut self,
        node: &NodeConfig,
        tickets: &[Ticket],
        common: &Common,
        message: &Message<'_>,
        now: u64,
    ) -> bool
        ensures { IsWritten node.now.ring now (answered node.now.me message.now.head.request
            (answer_of message.now.head.cmd) (reply_with (text_for node.now common.now message.now.head.cmd)
            (told_for node.now now tickets.now (content_of message.now.body)) message.now.head.cmd
            (content_of message.now.body))) result self.new.frame }
    {
        write_text(node, common, message.head.cmd, &mut self.text);
        let told = told_for(node, now, tickets, &message.body);
        match answer(node.me, message, self.text.bytes(), told) {
            Some(reply) => {
                ring_seal(&reply, node.ring.as_ref(), now, &mut self.frame);
                true
            }
            None => false,
        }
    }

    /// Writes the first part of a list of these tickets into the frame, as the reply with this number to a request.
    /// The reading is in ms. Returns the number of the part's lines.
    pub fn part(&mut self, node: &NodeConfig, tickets: &[Ticket], part: Part, now: u64) -> usize
        ensures { IsPartWritten node.now now (list_lines node.now now tickets.now) part.request part.number result
            self.new.frame }
    {
        let count = write_part(node, tickets, now, &mut self.line, &mut self.text);
        let message = part_message(node.me, part, count >= tickets.len(), self.text.bytes());
        ring_seal(&message, node.ring.as_ref(), now, &mut self.frame);
        count
    }

    /// Performs a client's request about the attributes of the ticket with this index, and writes the answer into the
    /// frame.
    pub fn attend(
        &mut self,
        node: &NodeConfig,
        attrs: &mut Attrs,
        place: u32,
        request: &AttrRequest,
        now: u64,
    )
        requires { place < length attrs.old.lists }
        ensures attributes { attrs.new ≡ after_wish attrs.old place request.now.wish }
        ensures lists { length attrs.new.lists ≡ length attrs.old.lists }
        ensures written { self.new.frame ≡ sealed node.now.ring
            (attr_message node.now now attrs.old place request.now) }
        ensures fits { Fits (attr_message node.now now attrs.old place request.now) }
    {
        write_pairs(attrs, place, &request.wish, &mut self.text);
        let made = attend(attrs, place, request, self.text.bytes());
        let message = reply_message(node.me, request.number, answer_cmd(&request.wish), made);
        ring_seal(&message, node.ring.as_ref(), now, &mut self.frame);
    }
}
