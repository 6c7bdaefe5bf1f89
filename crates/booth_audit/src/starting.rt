//! The calls of a start after it has read its clock.
ghost use Rattle.std.specs.Prelude.{◌≡◌, ◌≤◌, ◌+◌, ◌^◌, ℕ, [], List, IfOk, None, length, option_map};
ghost use Rattle.booth_journal.specs.Says.{Said, Says};
ghost use Rattle.booth_node.specs.declared.node_config.NodeConfig.{NodeConfig};
ghost use Rattle.booth_audit.specs.Course.{HasStarted, kept_calls, start_on, started_at};

use crate::Whose;
use crate::lines::Lines;
use booth_conf::TicketConf;
use booth_host::Failed;
use booth_journal::{Draft, spell_kept, spell_open};
use booth_rec::Record;
use std::alloc::{AllocError, Global};

// Returns the records of these tickets, or `None` if one was not read.
fn read_records(
    alloc: Global,
    tickets: &[TicketConf],
    lines: &mut Lines<'_>,
    draft: &mut Draft,
) -> Result<Option<Vec<Option<Record>>>, AllocError>
    requires running { lines.old.end ≡ None }
    requires short { lines.old.line + length lines.old.rest ≤ 2 ^ 63 }
    requires says { (left : List Said) × Says lines.old.rest left }
    ensures { (node : NodeConfig) (reading : ℕ) (left : List Said) → node.config.tickets ≡ tickets.now
        → Says lines.old.rest left → IfOk result (λ found. HasStarted node reading
        (start_on node reading [] (kept_calls tickets.now) lines.old.line left)
        (option_map (λ records. records.items) found) lines.old lines.new) }
{
    let mut records = Vec::with_capacity(alloc, tickets.len())?;
    for ticket in tickets {
        spell_kept(&ticket.name, draft);
        let Some(found) = lines.record(alloc, draft.bytes()) else {
            return Err(AllocError);
        };
        match lines.end() {
            Some(_) => return Ok(None),
            None => {}
        }
        match found {
            Ok(record) => records.push_reserved(record),
            Err(Failed) => return Ok(None),
        }
    }
    Ok(Some(records))
}

/// Returns the record of each ticket, which a start reads after it has opened its socket. Returns `None` if the start
/// has no session.
pub(crate) fn read_start(
    alloc: Global,
    whose: &Whose<'_>,
    lines: &mut Lines<'_>,
    draft: &mut Draft,
) -> Result<Option<Vec<Option<Record>>>, AllocError>
    requires running { lines.old.end ≡ None }
    requires short { lines.old.line + length lines.old.rest ≤ 2 ^ 63 }
    requires says { (left : List Said) × Says lines.old.rest left }
    ensures { (reading : ℕ) (left : List Said) → Says lines.old.rest left
        → IfOk result (λ found. HasStarted whose.now.node reading
        (started_at whose.now.node reading lines.old.line left)
        (option_map (λ records. records.items) found) lines.old lines.new) }
{
    spell_open(&Some(whose.address()), draft);
    let Some(opened) = lines.done(draft.bytes()) else {
        return Err(AllocError);
    };
    match lines.end() {
        Some(_) => return Ok(None),
        None => {}
    }
    match opened {
        Ok(()) => read_records(alloc, whose.config().tickets(), lines, draft),
        Err(Failed) => Ok(None),
    }
}
