//! Sections: the entries, key by key, of the whole file or below one `ticket` line.
ghost use Rattle.booth_base.specs.declared.limits.TheConstants.{MEMBERS};
ghost use Rattle.std.specs.Prelude.{◌≡◌, ◌++◌, ◌∷◌, [], true, count_by, option_copied, IfOk};
ghost use Rattle.std.specs.List.{filter_map};
ghost use Rattle.std.specs.Option.{option_or};
ghost use Rattle.booth_conf.specs.Answers.{Answers};
ghost use Rattle.booth_conf.specs.Sections.{entry_clash, extra_of, given, has_key, inherited, is_without_effect, most_of, number_given, prereq_of, text_given, too_often, weights_given, word_given};
ghost use Rattle.booth_conf.specs.SoundDraft.{is_section};

use crate::faults::{LineFault, Stop};
use crate::keys::{ConfKey, Form, KeyNo};
use crate::limits::PREREQS;
use crate::settings::{Entry, Value};
use crate::tickets::{Prereq, Prereqs, copy_weights};
use arrayvec::ArrayVec;
use booth_base::{MEMBERS, Name, PathText};
use std::alloc::{AllocError, Global};
use std::marker::Model;

/// A key without effect, with its text.
pub type Extra = (KeyNo, PathText);

fn most_of(form: Form) -> usize
    ensures { result ≡ most_of form }
{
    match form {
        Form::Prereq => PREREQS,
        Form::Number { .. }
        | Form::Text { .. }
        | Form::Command
        | Form::OneOf(_)
        | Form::Address
        | Form::TicketName
        | Form::Weights => 1,
    }
}

fn too_often(form: Form) -> LineFault
    ensures { result ≡ too_often form }
{
    match form {
        Form::Prereq => LineFault::TooMany,
        Form::Number { .. }
        | Form::Text { .. }
        | Form::Command
        | Form::OneOf(_)
        | Form::Address
        | Form::TicketName
        | Form::Weights => LineFault::Repeated,
    }
}

// Returns whether the key has no effect.
fn is_without_effect(key: ConfKey) -> bool
    ensures { result ≡ is_without_effect key }
{
    matches!(key.number().0, 5..=9)
}

fn extra_of(entry: &Entry<'_>) -> Option<Extra>
    ensures { result ≡ extra_of entry.now }
{
    match &entry.value {
        Value::Text(text) if is_without_effect(entry.key) => Some((
            entry.key.number(),
            text.path(),
        )),
        Value::Number(_)
        | Value::Text(_)
        | Value::Word(_)
        | Value::Address(_)
        | Value::Name(_)
        | Value::Defaults
        | Value::Weights(_)
        | Value::Prereq(_) => None,
    }
}

fn prereq_of(entry: &Entry<'_>) -> Option<Prereq>
    ensures { result ≡ prereq_of entry.now }
{
    match &entry.value {
        Value::Prereq(prereq) => Some(prereq.owned()),
        Value::Number(_)
        | Value::Text(_)
        | Value::Word(_)
        | Value::Address(_)
        | Value::Name(_)
        | Value::Defaults
        | Value::Weights(_) => None,
    }
}

/// The entries of the whole file or of a ticket, in their order. Contracts see the list of entries.
#[derive(Drop)]
pub struct Section<'a> {
    entries: Vec<Entry<'a>>,
}

impl<'a> Model for Section<'a> {
    ghost use Rattle.std.specs.Prelude.{List};
    ghost use Rattle.booth_conf.specs.declared.settings.Entry.{Entry};

    ghost Value = { List Entry };

    ghost view = { λ s. s.entries.items };
}

impl<'a> Section<'a> {
    pub fn new(alloc: Global) -> Section<'a>
        ensures { result ≡ [] }
    {
        Section {
            entries: Vec::new(alloc),
        }
    }

    /// Returns the entries that a new section inherits from this one: its prerequisites.
    pub fn inherited(&self, alloc: Global) -> Result<Section<'a>, AllocError>
        ensures { IfOk result (λ section. section ≡ inherited self.now) }
    {
        let mut entries = Vec::new(alloc);
        for entry in &self.entries {
            if entry.key.is(ConfKey::AttrPrereq) {
                entries.push(entry.copy())?;
            }
        }
        Ok(Section { entries })
    }

    fn count(&self, key: ConfKey) -> usize
        ensures { result ≡ count_by (has_key key) self.now }
    {
        self.entries
            .iter()
            .filter(|entry| entry.key.is(key))
            .count()
    }

    /// Adds an entry, or returns its fault.
    pub fn add(&mut self, entry: Entry<'a>) -> Result<(), Stop>
        ensures { Answers result self.new (entry_clash self.old entry.entry) self.old (self.old ++ entry.entry ∷ []) }
    {
        let form = entry.key.form();
        if self.count(entry.key) >= most_of(form) {
            return Err(Stop::Line(too_often(form)));
        }
        if self.entries.reserve(1).is_err() {
            return Err(Stop::Memory);
        }
        self.entries.push_reserved(entry);
        Ok(())
    }

    fn given(&self, key: ConfKey) -> Option<&Value<'a>>
        ensures { option_copied result ≡ given key self.now }
    {
        match self.entries.iter().find(|entry| entry.key.is(key)) {
            Some(entry) => Some(&entry.value),
            None => None,
        }
    }

    /// Returns the number of a key's entry.
    pub fn number(&self, key: ConfKey) -> Option<u32>
        ensures { result ≡ number_given key self.now }
    {
        match self.given(key) {
            Some(Value::Number(number)) => Some(*number),
            Some(_) | None => None,
        }
    }

    /// Returns the text of a key's entry.
    pub fn text(&self, key: ConfKey) -> Option<PathText>
        ensures { result ≡ text_given key self.now }
    {
        match self.given(key) {
            Some(Value::Text(text)) => Some(text.path()),
            Some(_) | None => None,
        }
    }

    /// Returns the text of a key's entry here, or else in the other section.
    pub fn text_or(&self, other: &Section<'_>, key: ConfKey) -> Option<PathText>
        ensures { result ≡ option_or (text_given key self.now) (text_given key other.now) }
    {
        match self.given(key) {
            Some(Value::Text(text)) => Some(text.path()),
            Some(_) | None => other.text(key),
        }
    }

    /// Returns the place of the word of a key's entry, among the words of the key.
    pub fn word(&self, key: ConfKey) -> Option<usize>
        ensures { result ≡ word_given key self.now }
    {
        match self.given(key) {
            Some(Value::Word(place)) => Some(*place),
            Some(_) | None => None,
        }
    }

    /// Returns the weights of a key's entry.
    pub fn weights(&self, key: ConfKey) -> Option<ArrayVec<u32, MEMBERS>>
        ensures { result ≡ weights_given key self.now }
    {
        match self.given(key) {
            Some(Value::Weights(weights)) => Some(copy_weights(weights)),
            Some(_) | None => None,
        }
    }

    /// Returns the weights of a key's entry here, or else in the other section.
    pub fn weights_or(&self, other: &Section<'_>, key: ConfKey) -> Option<ArrayVec<u32, MEMBERS>>
        ensures { result ≡ option_or (weights_given key self.now) (weights_given key other.now) }
    {
        match self.given(key) {
            Some(Value::Weights(weights)) => Some(copy_weights(weights)),
            Some(_) | None => other.weights(key),
        }
    }

    /// Returns the prerequisites, first the inherited ones and then its own.
    pub fn prereqs(&self, alloc: Global) -> Result<Prereqs, AllocError>
        ensures { IfOk result (λ prereqs. prereqs ≡ filter_map prereq_of self.now) }
    {
        let mut prereqs = Vec::new(alloc);
        for entry in &self.entries {
            if let Some(prereq) = prereq_of(entry) {
                prereqs.push(prereq)?;
            }
        }
        Ok(Prereqs::of(prereqs))
    }

    /// Returns the keys without effect, with their texts.
    pub fn extras(&self, alloc: Global) -> Result<Vec<Extra>, AllocError>
        ensures { IfOk result (λ extras. extras.items ≡ filter_map extra_of self.now) }
    {
        let mut extras = Vec::new(alloc);
        for entry in &self.entries {
            if let Some(extra) = extra_of(entry) {
                extras.push(extra)?;
            }
        }
        Ok(extras)
    }
}

/// A ticket's name, and the entries below its line.
#[derive(Drop)]
pub struct NamedSection<'a> {
    pub name: Name,
    pub section: Section<'a>,
}
