//! The result for one journal.
ghost use Rattle.std.specs.Prelude.{◌≡◌, ◌<◌, ◌^◌, List, ℕ, None, Option, Some, length};
ghost use Rattle.std.specs.List.{list_any};
ghost use Rattle.std.specs.Option.{option_copied};
ghost use Rattle.booth_journal.specs.Says.{Said, Says};
ghost use Rattle.booth_keys.specs.declared.ring.Ring.{Ring};
ghost use Rattle.booth_audit.specs.Audit.{IsMembers};
ghost use Rattle.booth_audit.specs.Judging.{IsJudged, concluded, is_of_place, owners_of};

use crate::journal_fault::JournalFault;
use crate::owners::{OwnerFault, nobody_strays, owner};
use crate::{Journal, Tally, Whose, replay_journal};
use booth_conf::Config;
use booth_journal::{TextFault, read_lines};
use booth_keys::Ring;
use std::alloc::Global;
use std::marker::Model;

/// The limit for the bytes of a text, so that the numbers of its lines are exact.
const TEXT_END: u64 = 1 << 63;

/// A true journal: its owner, and its tally.
#[derive(Drop)]
pub(crate) struct Judged {
    pub(crate) owner: Option<u32>,
    pub(crate) tally: Tally,
}

impl Model for Judged {
    ghost use Rattle.booth_audit.specs.Judging.{JudgedSays};

    ghost Value = { JudgedSays };

    ghost view = { λ j. record { owner = j.owner; tally = j.tally } };
}

// Judges the journal that belongs to no one, whose lines were read.
fn judge_nobodys(alloc: Global, config: &Config, text: &[u8]) -> Result<Judged, JournalFault>
    requires short { length text.now < 2 ^ 63 }
    requires says { (all : List Said) × Says text.now all }
    ensures { (ring : Option Ring) (earlier : List (Option ℕ)) (said : List Said)
        → IsMembers config.now earlier text.now None said → IsJudged config.now ring earlier text.now result }
{
    if let Some(line) = nobody_strays(text) {
        return Err(JournalFault::Differs(line));
    }
    match Tally::new(alloc, config.tickets()) {
        Ok(tally) => Ok(Judged { owner: None, tally }),
        Err(_) => Err(JournalFault::OutOfMemory),
    }
}

// Returns the result after the replay of a member's journal.
fn conclude(place: u32, journal: Journal) -> Result<Judged, JournalFault>
    ensures { result ≡ concluded place journal.tally journal.tally.watched.wrong journal.strays }
{
    if let Some(line) = journal.tally.wrong() {
        return Err(JournalFault::Kept(line));
    }
    if let Some(line) = journal.strays {
        return Err(JournalFault::Differs(line));
    }
    Ok(Judged {
        owner: Some(place),
        tally: journal.tally,
    })
}

// Judges the journal of the member at this place, whose lines were read.
fn judge_members(
    alloc: Global,
    config: &Config,
    ring: Option<&Ring>,
    place: u32,
    text: &[u8],
) -> Result<Judged, JournalFault>
    requires short { length text.now < 2 ^ 63 }
    requires says { (all : List Said) × Says text.now all }
    ensures { (earlier : List (Option ℕ)) (said : List Said)
        → IsMembers config.now earlier text.now (Some place) said
        → IsJudged config.now (option_copied ring.entry) earlier text.now result }
{
    config.sound();
    let Some(whose) = Whose::new(config, ring, place) else {
        return Err(JournalFault::OutOfMemory);
    };
    match replay_journal(alloc, &whose, text) {
        Ok(journal) => conclude(place, journal),
        Err(_) => Err(JournalFault::OutOfMemory),
    }
}

fn is_of(judged: &Judged, place: u32) -> bool
    ensures { result ≡ is_of_place place judged.now }
{
    match judged.owner {
        Some(owner) => owner == place,
        None => false,
    }
}

// Returns whether one of these journals belongs to the member at this place.
fn is_owned(all: &[Judged], place: u32) -> bool
    ensures { result ≡ list_any (is_of_place place) all.now }
{
    all.iter().any(|judged| is_of(judged, place))
}

// Judges a journal whose lines were read.
fn judge_lines(
    alloc: Global,
    config: &Config,
    ring: Option<&Ring>,
    earlier: &[Judged],
    text: &[u8],
) -> Result<Judged, JournalFault>
    requires short { length text.now < 2 ^ 63 }
    requires says { (all : List Said) × Says text.now all }
    ensures { IsJudged config.now (option_copied ring.entry) (owners_of earlier.now) text.now result }
{
    match owner(alloc, config, text) {
        Ok(None) => judge_nobodys(alloc, config, text),
        Ok(Some(place)) => {
            if is_owned(earlier, place) {
                return Err(JournalFault::Member);
            }
            judge_members(alloc, config, ring, place, text)
        }
        Err(OwnerFault::NotOne) => Err(JournalFault::Member),
        Err(OwnerFault::OutOfMemory) => Err(JournalFault::OutOfMemory),
    }
}

/// Judges one more journal, after these.
pub(crate) fn judge(
    alloc: Global,
    config: &Config,
    ring: Option<&Ring>,
    earlier: &[Judged],
    text: &[u8],
) -> Result<Judged, JournalFault>
    ensures { IsJudged config.now (option_copied ring.entry) (owners_of earlier.now) text.now result }
{
    if text.len() as u64 >= TEXT_END {
        return Err(JournalFault::OutOfMemory);
    }
    match read_lines(alloc, text) {
        Ok(()) => judge_lines(alloc, config, ring, earlier, text),
        Err(TextFault::Line(line)) => Err(JournalFault::Line(line)),
        Err(TextFault::OutOfMemory) => Err(JournalFault::OutOfMemory),
    }
}
