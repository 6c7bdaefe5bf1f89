//! The attributes of all tickets: set, read, delete and list.
ghost use Rattle.std.specs.Prelude.{◌≡◌, ◌+◌, ◌≤◌, ◌<◌, ◌++◌, length, flat_map, IfOk, IsFalse};
ghost use Rattle.std.specs.Option.{option_map};
ghost use Rattle.booth_base.specs.declared.buffer.TheConstants.{TEXT_BYTES};
ghost use Rattle.booth_attr.specs.Lists.{has_name, value_of, line_of};
ghost use Rattle.booth_attr.specs.Attributes.{pairs_of, no_attributes, set_answer, after_set};
ghost use Rattle.booth_attr.specs.Attributes.{del_answer, after_delete, AreSound};

use crate::find::node_of;
use crate::pair::Pair;
use booth_base::{AttrValue, Name, TextBuf};
use booth_chain::Chains;
use std::alloc::{AllocError, Global};
use std::marker::Model;

/// The most attributes for all tickets together.
pub const ATTRIBUTES: u32 = 512;

/// The most attributes of one ticket.
pub const TICKET_NAMES: u32 = 64;

/// The most bytes of the list of a ticket's attributes.
pub const LIST_BYTES: usize = 12_288;

/// The result of a `set`.
#[derive(Clone, Copy, PartialEq, Eq)]
pub enum SetAnswer {
    /// The name has the value.
    Done,
    /// There is no room for one more name, and nothing has changed.
    Full,
}

/// The result of a `delete`.
#[derive(Clone, Copy, PartialEq, Eq)]
pub enum DelAnswer {
    /// The name is removed.
    Done,
    /// The ticket has no such name, and nothing has changed.
    NoSuch,
}

/// A list of names with values for each ticket. A contract sees the lists, and how many more
/// attributes fit.
#[derive(Drop)]
pub struct Attrs {
    chains: Chains<Pair>,
}

impl Model for Attrs {
    ghost use Rattle.booth_attr.specs.Attributes.{Attributes, AreSound};
    ghost use Rattle.booth_attr.specs.Places.{attributes_of};

    ghost Value = { Attributes };

    ghost view = { λ a. attributes_of a.chains };

    ghost invariant = { λ a. AreSound (attributes_of a.chains) };
}

impl Attrs {
    /// Returns no attributes, for this many tickets.
    pub fn new(alloc: Global, tickets: u32) -> Result<Attrs, AllocError>
        ensures empty { IfOk result (λ attrs. attrs ≡ no_attributes tickets) }
        ensures sound { IfOk result (λ attrs. AreSound attrs) }
    {
        Ok(Attrs {
            chains: Chains::with_capacity(alloc, ATTRIBUTES, tickets)?,
        })
    }

    /// Gives the name this value. An existing name keeps its place, and a new one goes last. Returns `Full` exactly
    /// if the name is new and there is no room for one more.
    pub fn set(&mut self, ticket: u32, name: &Name, value: &AttrValue) -> SetAnswer
        requires { ticket < length self.old.lists }
        ensures answer { result ≡ set_answer self.old ticket name.now }
        ensures after { self.new ≡ after_set self.old ticket name.now value.now }
        ensures sound { AreSound self.new }
        ensures tickets { length self.new.lists ≡ length self.old.lists }
    {
        let pair = Pair {
            name: name.copy(),
            value: value.copy(),
        };
        match node_of(&self.chains, ticket, name) {
            Some(node) => {
                self.chains.replace(node, pair);
                SetAnswer::Done
            }
            None => self.add(ticket, pair),
        }
    }

    /// Adds a pair with a new name, if there is room for it.
    fn add(&mut self, ticket: u32, pair: Pair) -> SetAnswer
        requires exists { ticket < length self.old.lists }
        requires is_new { IsFalse (has_name pair.name (pairs_of self.old ticket)) }
        ensures answer { result ≡ set_answer self.old ticket pair.name }
        ensures after { self.new ≡ after_set self.old ticket pair.name pair.value }
        ensures sound { AreSound self.new }
        ensures tickets { length self.new.lists ≡ length self.old.lists }
    {
        if self.chains.count(ticket) >= TICKET_NAMES {
            return SetAnswer::Full;
        }
        match self.chains.push_back(ticket, pair) {
            Ok(_) => SetAnswer::Done,
            Err(_) => SetAnswer::Full,
        }
    }

    /// Returns the value of a name; None exactly if the ticket has no such name.
    pub fn get(&self, ticket: u32, name: &Name) -> Option<&AttrValue>
        requires { ticket < length self.now.lists }
        ensures value { option_map (λ v. v.now) result ≡ value_of name.now (pairs_of self.now ticket) }
        ensures sound { AreSound self.now }
    {
        match node_of(&self.chains, ticket, name) {
            Some(node) => Some(&self.chains.at(node).value),
            None => None,
        }
    }

    /// Removes the name and its value. Returns `NoSuch` exactly if the ticket has no such name.
    pub fn delete(&mut self, ticket: u32, name: &Name) -> DelAnswer
        requires { ticket < length self.old.lists }
        ensures answer { result ≡ del_answer self.old ticket name.now }
        ensures after { self.new ≡ after_delete self.old ticket name.now }
        ensures sound { AreSound self.new }
        ensures tickets { length self.new.lists ≡ length self.old.lists }
    {
        match node_of(&self.chains, ticket, name) {
            Some(node) => {
                self.chains.remove(node);
                DelAnswer::Done
            }
            None => DelAnswer::NoSuch,
        }
    }

    /// Appends a line `name value` for each attribute of a ticket, in the order of the list.
    pub fn list(&self, ticket: u32, into: &mut TextBuf)
        requires exists { ticket < length self.now.lists }
        requires room { length into.old + LIST_BYTES ≤ TEXT_BYTES }
        ensures lines { into.new ≡ into.old ++ flat_map line_of (pairs_of self.now ticket) }
        ensures sound { AreSound self.now }
    {
        let mut next = self.chains.front(ticket);
        for _place in 0..self.chains.count(ticket) {
            let Some(node) = next else { return };
            self.chains.at(node).put_line(into);
            next = self.chains.after(node);
        }
    }
}
