//! The attributes of tickets, and the prerequisites on them.
ghost use Rattle.std.specs.Prelude.{◌≡◌, ◌<◌, length};

use crate::reading::name;
use booth_attr::{Attrs, DelAnswer, SetAnswer};
use booth_base::{AttrValue, TextBuf};
use booth_conf::{GrantKind, Prereq};
use booth_rows::{Answer, Player, Words};
use std::alloc::Global;

/// Plays `new TICKETS`, and then, for the ticket with this index, `set TICKET NAME VALUE`, `get TICKET NAME`, `delete
/// TICKET NAME`, `list TICKET` and `holds TICKET GRANT KIND NAME EQUAL VALUE`. The last one prints whether a
/// prerequisite of a kind allows a grant of a kind, manual or not (1 or 0); the prerequisite requires the value (1) or
/// any other one (0). A value is in hexadecimal.
#[derive(Drop)]
pub(crate) struct Attributes {
    table: Option<Table>,
}

/// The attributes of several tickets.
#[derive(Drop)]
struct Table {
    attrs: Attrs,
    tickets: u32,
    ghost sized: { length attrs.lists ≡ tickets },
}

// Reads a value.
fn value(words: &mut Words<'_>) -> AttrValue {
    match AttrValue::read(&words.bytes()) {
        Ok(value) => value,
        Err(_) => {
            words.refuse();
            AttrValue::default()
        }
    }
}

fn kind(words: &mut Words<'_>) -> GrantKind {
    if words.flag() {
        GrantKind::Manual
    } else {
        GrantKind::Auto
    }
}

fn put_list(alloc: Global, attrs: &Attrs, ticket: u32, answer: &mut Answer)
    requires { ticket < length attrs.now.lists }
{
    let Ok(mut text) = TextBuf::new(alloc) else {
        return answer.tear();
    };
    attrs.list(ticket, &mut text);
    answer.bytes(text.bytes());
}

impl Table {
    fn new(alloc: Global, tickets: u32) -> Option<Table> {
        let Ok(attrs) = Attrs::new(alloc, tickets) else {
            return None;
        };
        Some(Table { attrs, tickets })
    }

    fn set(&mut self, ticket: u32, words: &mut Words<'_>, answer: &mut Answer)
        requires { ticket < self.old.tickets }
    {
        let name = name(words);
        match self.attrs.set(ticket, &name, &value(words)) {
            SetAnswer::Done => answer.word("done"),
            SetAnswer::Full => answer.word("full"),
        }
    }

    fn get(&self, ticket: u32, words: &mut Words<'_>, answer: &mut Answer)
        requires { ticket < self.now.tickets }
    {
        match self.attrs.get(ticket, &name(words)) {
            Some(value) => {
                answer.word("value");
                answer.bytes(value.bytes());
            }
            None => answer.word("none"),
        }
    }

    fn delete(&mut self, ticket: u32, words: &mut Words<'_>, answer: &mut Answer)
        requires { ticket < self.old.tickets }
    {
        match self.attrs.delete(ticket, &name(words)) {
            DelAnswer::Done => answer.word("done"),
            DelAnswer::NoSuch => answer.word("none"),
        }
    }

    fn holds(&self, ticket: u32, words: &mut Words<'_>, answer: &mut Answer)
        requires { ticket < self.now.tickets }
    {
        let grant = kind(words);
        let prereqs = [Prereq {
            kind: kind(words),
            name: name(words),
            equal: words.flag(),
            value: value(words),
        }];
        answer.flag(self.attrs.holds(ticket, &prereqs, grant));
    }

    fn play(&mut self, call: &str, words: &mut Words<'_>, answer: &mut Answer) {
        let ticket = words.number();
        if ticket >= self.tickets {
            return words.refuse();
        }
        match call {
            "set" => self.set(ticket, words, answer),
            "get" => self.get(ticket, words, answer),
            "delete" => self.delete(ticket, words, answer),
            "holds" => self.holds(ticket, words, answer),
            "list" => put_list(words.alloc(), &self.attrs, ticket, answer),
            _ => words.refuse(),
        }
    }
}

impl Attributes {
    /// Returns a player without tickets.
    pub(crate) fn new() -> Attributes {
        Attributes { table: None }
    }
}

impl Player for Attributes {
    fn play(&mut self, words: &mut Words<'_>, answer: &mut Answer) {
        let call = words.word();
        if call == "new" {
            self.table = Table::new(words.alloc(), words.number());
            return;
        }
        match &mut self.table {
            Some(table) => table.play(call, words, answer),
            None => words.refuse(),
        }
        answer.end();
    }
}
