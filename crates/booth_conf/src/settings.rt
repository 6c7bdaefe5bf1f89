//! The settings that a line can have.
ghost use Rattle.std.specs.Prelude.{◌≡◌};
ghost use Rattle.booth_conf.specs.Values.{in_scope, setting_of};

use crate::keys::{ConfKey, Scope};
use crate::members::{Member, member_at};
use crate::spelled::{SpelledPrereq, SpelledText};
use crate::tickets::copy_weights;
use arrayvec::ArrayVec;
use booth_base::{Address, MEMBERS, Name};

/// The value of a key. A word is given by its place in the list of the key's words. Times are in seconds.
#[derive(Drop)]
pub enum Value<'a> {
    Number(u32),
    Text(SpelledText<'a>),
    Word(usize),
    Address(Address),
    Name(Name),
    /// The name of the `ticket` line whose values are the defaults of all tickets.
    Defaults,
    Weights(ArrayVec<u32, MEMBERS>),
    Prereq(SpelledPrereq<'a>),
}

/// A key with its value.
#[derive(Drop)]
pub struct Entry<'a> {
    pub key: ConfKey,
    pub value: Value<'a>,
}

/// The setting of a line: a key of the whole file, a member, or a part of a ticket.
#[derive(Drop)]
pub enum Setting<'a> {
    File(Entry<'a>),
    Member(Member),
    Ticket(Name),
    /// The `ticket` line whose values are the defaults of all tickets.
    Defaults,
    /// A key of a ticket.
    Of(Entry<'a>),
}

impl<'a> Value<'a> {
    /// Returns an equal value.
    pub fn copy(&self) -> Value<'a>
        ensures { result ≡ self.now }
    {
        match self {
            Value::Number(number) => Value::Number(*number),
            Value::Text(text) => Value::Text(text.copy()),
            Value::Word(place) => Value::Word(*place),
            Value::Address(address) => Value::Address(*address),
            Value::Name(name) => Value::Name(name.copy()),
            Value::Defaults => Value::Defaults,
            Value::Weights(weights) => Value::Weights(copy_weights(weights)),
            Value::Prereq(prereq) => Value::Prereq(prereq.copy()),
        }
    }
}

impl<'a> Entry<'a> {
    /// Returns an equal entry.
    pub fn copy(&self) -> Entry<'a>
        ensures { result ≡ self.now }
    {
        Entry {
            key: self.key,
            value: self.value.copy(),
        }
    }
}

fn in_scope(scope: Scope, entry: Entry<'_>) -> Setting<'_>
    ensures { result ≡ in_scope scope entry.entry }
{
    match scope {
        Scope::File => Setting::File(entry),
        Scope::Ticket => Setting::Of(entry),
    }
}

/// Returns the setting of a key and its value.
pub fn setting_of(key: ConfKey, value: Value<'_>) -> Setting<'_>
    ensures { result ≡ setting_of key value.entry }
{
    match value {
        Value::Address(address) => Setting::Member(member_at(key.is(ConfKey::Site), address)),
        Value::Name(name) => Setting::Ticket(name),
        Value::Defaults => Setting::Defaults,
        Value::Number(_) | Value::Text(_) | Value::Word(_) | Value::Weights(_) | Value::Prereq(_) =>
            in_scope(key.row().scope, Entry { key, value }),
    }
}
