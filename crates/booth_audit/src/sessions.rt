//! The replay of a start and of the session after it.
ghost use Rattle.std.specs.Prelude.{◌≡◌, ◌≤◌, ◌+◌, ◌-◌, ◌/◌, ◌^◌, [], ◌∷◌, List, length};
ghost use Rattle.std.specs.Prelude.{IfOk, IfSome, MatchOption, OnOk};
ghost use Rattle.booth_host.specs.Told.{told_past};
ghost use Rattle.booth_journal.specs.Says.{Said, Says};
ghost use Rattle.booth_node.specs.View.{node_config, state_of};
ghost use Rattle.booth_audit.specs.Course.{ArePartsOf, IsBehind, IsNext, IsRun, IsSession, IsTurnTallied};
ghost use Rattle.booth_audit.specs.Course.{cut_tallied, started_at};

use crate::end::End;
use crate::lines::{Lines, is_now};
use crate::replaying::{Turned, replay_turn};
use crate::starting::read_start;
use crate::{Tally, Whose};
use booth_host::Entry;
use booth_journal::{Answer, Draft, look, read_reading};
use booth_node::Node;
use std::alloc::{AllocError, Global};

/// The rest of a journal.
#[derive(Drop)]
pub(crate) struct Left<'a> {
    pub rest: &'a [u8],
    /// The number of the first line that is left.
    pub line: u64,
    /// May hold anything.
    pub draft: Draft,
}

/// The rest of a journal when no session is under way, or when a call was not demanded.
#[derive(Drop)]
pub(crate) struct Behind<'a> {
    pub left: Left<'a>,
    /// Whether the first call that is left was not demanded.
    pub strays: bool,
}

// Returns the bytes after a call without an answer.
fn skip(text: &[u8]) -> &[u8]
    ensures { (said : Said) (more : List Said) → Says text.now (said ∷ more)
        → Says result.now more × (length result.now + 1 ≤ length text.now) }
{
    match look(text) {
        Some(first) => first.behind,
        None => text,
    }
}

// Returns the rest of a journal if the lines ended in this way, or if a call of a start failed.
fn left_behind<'a>(from: Left<'a>, end: Option<End>) -> Behind<'a>
    requires { from.line + length from.rest.now ≤ 2 ^ 63 }
    ensures { IsBehind end from.entry.rest.now from.entry.line result.strays result.left.rest.now result.left.line }
{
    match end {
        Some(End::Cut) => Behind {
            left: Left {
                rest: skip(from.rest),
                line: from.line + 1,
                draft: from.draft,
            },
            strays: false,
        },
        Some(End::Differs) => Behind {
            left: from,
            strays: true,
        },
        Some(End::Over) => Behind {
            left: from,
            strays: false,
        },
        None => Behind {
            left: from,
            strays: false,
        },
    }
}

// Returns the calls of a turn that were read, from this line on, and the calls that were not read.
fn parts<'t>(turned: &'t Turned<'_>, line: u64) -> Option<(&'t [Entry], &'t [Entry])>
    ensures { IfSome result (λ parts. ArePartsOf (told_past turned.now.told) ((turned.now.line - line) / 2)
        parts.0.now parts.1.now) }
{
    let entries = turned.told.entries()?;
    let read = turned.line.saturating_sub(line) / 2;
    entries.split_at_checked(read as usize)
}

// Tallies the first of these calls, which was interrupted at this line.
fn tally_first(
    whose: &Whose<'_>,
    unread: &[Entry],
    line: u64,
    tally: &mut Tally,
) -> Result<(), AllocError>
    ensures { OnOk result (tally.new ≡ cut_tallied whose.now (Some End.Cut) line unread.now tally.old) }
{
    match unread {
        [] => Ok(()),
        [first, ..] => tally.cut(whose, first, line),
    }
}

// Tallies the interrupted call, if the lines ended at this call.
fn tally_cut(
    whose: &Whose<'_>,
    end: Option<End>,
    unread: &[Entry],
    line: u64,
    tally: &mut Tally,
) -> Result<(), AllocError>
    ensures { OnOk result (tally.new ≡ cut_tallied whose.now end line unread.now tally.old) }
{
    match end {
        Some(End::Cut) => tally_first(whose, unread, line, tally),
        Some(End::Over) => Ok(()),
        Some(End::Differs) => Ok(()),
        None => Ok(()),
    }
}

// Tallies the calls of a turn, the first of which is at this line.
fn tally_turn(
    whose: &Whose<'_>,
    turned: &Turned<'_>,
    line: u64,
    tally: &mut Tally,
) -> Result<(), AllocError>
    ensures { OnOk result (IsTurnTallied whose.now turned.now.end line turned.now.line
        (told_past turned.now.told) tally.old tally.new) }
{
    let at = turned.line;
    let Some((read, unread)) = parts(turned, line) else {
        return Err(AllocError);
    };
    tally.calls(whose, read, line)?;
    tally_cut(whose, turned.end, unread, at, tally)
}

// Replays each turn of a session with its node, up to the end of the session.
fn replay_each<'a>(
    alloc: Global,
    whose: &Whose<'_>,
    node: &mut Node,
    from: Left<'a>,
    tally: &mut Tally,
) -> Result<Behind<'a>, AllocError>
    requires member { node_config node.old ≡ whose.now.node }
    requires short { from.line + length from.rest.now ≤ 2 ^ 63 }
    requires says { (left : List Said) × Says from.rest.now left }
    ensures { (left : List Said) → Says from.entry.rest.now left → IfOk result (λ found. IsSession whose.now
        (state_of node.old) from.entry.rest.now from.entry.line left tally.old tally.new
        found.strays found.left.rest.now found.left.line) }
{
    let mut left = from;
    'turns: loop {
        let Left { rest, line, draft } = left;
        let turned = replay_turn(alloc, node, rest, line, draft)?;
        tally_turn(whose, &turned, line, tally)?;
        let end = turned.end;
        left = Left {
            rest: turned.rest,
            line: turned.line,
            draft: turned.draft,
        };
        match end {
            Some(how) => return Ok(left_behind(left, Some(how))),
            None => {}
        }
    }
}

// Replays the turns of a session, up to its end.
fn replay_turns<'a>(
    alloc: Global,
    whose: &Whose<'_>,
    node: Node,
    from: Left<'a>,
    tally: &mut Tally,
) -> Result<Behind<'a>, AllocError>
    requires member { node_config node ≡ whose.now.node }
    requires short { from.line + length from.rest.now ≤ 2 ^ 63 }
    requires says { (left : List Said) × Says from.rest.now left }
    ensures { (left : List Said) → Says from.entry.rest.now left → IfOk result (λ found. IsSession whose.now
        (state_of node) from.entry.rest.now from.entry.line left tally.old tally.new
        found.strays found.left.rest.now found.left.line) }
{
    let mut node = node;
    replay_each(alloc, whose, &mut node, from, tally)
}

// Replays a start whose clock returned this reading. If all calls of the start have answers, also replays its session.
fn replay_start<'a>(
    alloc: Global,
    whose: &Whose<'_>,
    reading: u64,
    from: Left<'a>,
    tally: &mut Tally,
) -> Result<Behind<'a>, AllocError>
    requires short { from.line + length from.rest.now ≤ 2 ^ 63 }
    requires says { (left : List Said) × Says from.rest.now left }
    ensures { (left : List Said) → Says from.entry.rest.now left → IfOk result (λ found. IsRun whose.now
        (started_at whose.now.node reading from.entry.line left) from.entry.rest.now from.entry.line tally.old tally.new
        found.strays found.left.rest.now found.left.line) }
{
    let mut lines = Lines::new(from.rest, from.line);
    let mut draft = from.draft;
    let started = read_start(alloc, whose, &mut lines, &mut draft)?;
    let then_left = Left {
        rest: lines.rest(),
        line: lines.line(),
        draft,
    };
    let Some(records) = started else {
        return Ok(left_behind(then_left, lines.end()));
    };
    let read = records.as_slice();
    tally.start(whose, reading, read, then_left.line.saturating_sub(2))?;
    let node = whose.open(alloc, read, reading)?;
    let found = replay_turns(alloc, whose, node, then_left, tally)?;
    Ok(found)
}

/// Replays the next start and its session, when no session is under way. Returns `None` if no call is left.
pub(crate) fn replay_next<'a>(
    alloc: Global,
    whose: &Whose<'_>,
    from: Left<'a>,
    tally: &mut Tally,
) -> Result<Option<Behind<'a>>, AllocError>
    requires short { from.line + length from.rest.now ≤ 2 ^ 63 }
    requires says { (left : List Said) × Says from.rest.now left }
    ensures { (left : List Said) → Says from.entry.rest.now left → IfOk result (λ found. MatchOption found
        ((left ≡ []) × (tally.new ≡ tally.old)) (λ found. IsNext whose.now from.entry.rest.now from.entry.line left
        tally.old tally.new found.strays found.left.rest.now found.left.line)) }
{
    let Some(first) = look(from.rest) else {
        return Ok(None);
    };
    if !is_now(first.call) {
        return Ok(Some(left_behind(from, Some(End::Differs))));
    }
    let Some(bytes) = first.answer else {
        return Ok(Some(left_behind(from, Some(End::Cut))));
    };
    let Ok(Answer::Reading(reading)) = read_reading(bytes) else {
        return Err(AllocError);
    };
    let behind = Left {
        rest: first.behind,
        line: from.line + 2,
        draft: from.draft,
    };
    let found = replay_start(alloc, whose, reading, behind, tally)?;
    Ok(Some(found))
}
