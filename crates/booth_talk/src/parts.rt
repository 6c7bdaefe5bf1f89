//! The parts of a list: for each number, the first part that arrived.
ghost use Rattle.std.specs.Prelude.{◌≡◌, true, Some, None, option_map, vec_len, IfOk, IfSome};
ghost use Rattle.std.specs.Option.{option_or};
ghost use Rattle.booth_wire.specs.PlainMessage.{content_of, has_text, plain_of};
ghost use Rattle.booth_talk.specs.Parts.{AreNone, AreTaken, is_of_list, is_whole, part_in, part_of, text_of};

use crate::reply::text_in;
use booth_base::TextBuf;
use booth_wire::{Message, results};
use std::alloc::{AllocError, Global};
use std::marker::Model;

/// The greatest number of parts of a list.
pub const PARTS: usize = 32;

// The place of the part with one number, with the memory of its text.
#[derive(Drop)]
struct Slot {
    /// Whether the part is the last one, if it has arrived.
    last: Option<bool>,
    text: TextBuf,
}

impl Model for Slot {
    ghost use Rattle.std.specs.Prelude.{Option, option_map};
    ghost use Rattle.booth_talk.specs.Parts.{Part};

    ghost Value = { Option Part };

    ghost view = { λ s. option_map (λ last. record { last = last; text = s.text }) s.last };
}

impl Slot {
    fn new(alloc: Global) -> Result<Slot, AllocError>
        ensures { IfOk result (λ slot. slot ≡ None) }
    {
        Ok(Slot {
            last: None,
            text: TextBuf::new(alloc)?,
        })
    }

    // Stores the part in this message, if this part has not arrived before.
    fn keep(&mut self, message: &Message<'_>)
        requires { has_text (content_of message.now.body) ≡ true }
        ensures { self.new ≡ option_or self.old (Some (part_of (plain_of message.now))) }
    {
        if self.last.is_none() {
            self.text.clear();
            self.text.put(text_in(&message.body));
            self.last = Some(message.head.result == results::SUCCESS);
        }
    }

    // Returns whether the part is the last one, if it has arrived.
    fn last(&self) -> Option<bool>
        ensures { result ≡ option_map (λ part. part.last) self.now }
    {
        self.last
    }

    // Returns the text of the part, if it has arrived.
    fn text(&self) -> &[u8]
        ensures { IfSome self.now (λ part. result.now ≡ part.text) }
    {
        self.text.bytes()
    }
}

/// Returns whether an answer with this result continues a list.
pub(crate) fn is_of_list(code: u32) -> bool
    ensures { result ≡ is_of_list code }
{
    code == results::SUCCESS || code == results::MORE
}

fn free_slots(alloc: Global) -> Result<Vec<Slot>, AllocError>
    ensures { IfOk result (λ slots. (vec_len slots ≡ PARTS) × AreNone slots.items) }
{
    let mut slots = Vec::new(alloc);
    for _number in 0..PARTS {
        slots.push(Slot::new(alloc)?)?;
    }
    Ok(slots)
}

fn is_whole(slots: &[Slot]) -> bool
    ensures { result ≡ is_whole slots.now }
{
    for slot in slots {
        match slot.last() {
            Some(true) => return true,
            Some(false) => {}
            None => return false,
        }
    }
    false
}

fn joined(alloc: Global, slots: &[Slot]) -> Result<Vec<u8>, AllocError>
    ensures { IfOk result (λ text. text.items ≡ text_of slots.now) }
{
    let mut text = Vec::new(alloc);
    for slot in slots {
        let Some(last) = slot.last() else {
            return Ok(text);
        };
        text.extend_from_slice(slot.text())?;
        if last {
            return Ok(text);
        }
    }
    Ok(text)
}

/// The parts of a list by number, from 0: for each number, the first part that arrived. Contracts see a list of them.
#[derive(Drop)]
pub struct Parts {
    slots: Vec<Slot>,
}

impl Model for Parts {
    ghost use Rattle.std.specs.Prelude.{◌≡◌, List, Option, vec_len};
    ghost use Rattle.booth_talk.specs.Parts.{Part};
    ghost use Rattle.booth_talk.specs.declared.parts.TheConstants.{PARTS};

    ghost Value = { List (Option Part) };

    ghost view = { λ p. p.slots.items };

    ghost invariant = { λ p. vec_len p.slots ≡ PARTS };
}

impl Parts {
    /// Returns an empty list of parts, with memory for all.
    pub(crate) fn new(alloc: Global) -> Result<Parts, AllocError>
        ensures { IfOk result (λ parts. AreNone parts) }
    {
        let slots = free_slots(alloc)?;
        Ok(Parts { slots })
    }

    /// Stores the part in an answer, if the answer is a part and the first with its number.
    pub(crate) fn take(&mut self, message: &Message<'_>)
        requires { has_text (content_of message.now.body) ≡ true }
        ensures { AreTaken (λ n. part_in n (plain_of message.now)) self.old self.new }
    {
        let number = message.head.options as usize;
        if is_of_list(message.head.result) && number < PARTS {
            self.slots[number].keep(message);
        }
    }

    /// Returns whether the last part has arrived, and each part before it.
    pub(crate) fn is_whole(&self) -> bool
        ensures { result ≡ is_whole self.now }
    {
        is_whole(&self.slots)
    }

    /// Returns the texts of the parts, joined by number up to the last one.
    pub(crate) fn text(&self, alloc: Global) -> Result<Vec<u8>, AllocError>
        ensures { IfOk result (λ text. text.items ≡ text_of self.now) }
    {
        joined(alloc, &self.slots)
    }
}
