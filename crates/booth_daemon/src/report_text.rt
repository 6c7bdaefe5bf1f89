//! The text of an audit without a fault: the holdings, and then the silent starts.
ghost use Rattle.std.specs.Prelude.{◌≡◌, ◌≤◌, ◌+◌, ◌++◌, IfOk, codes, decimal, length};
ghost use Rattle.booth_outcomes.specs.Texts.{journal_at};
ghost use Rattle.booth_daemon.specs.Auditing.{report_text, silence_text, silent_text, silents_text};
ghost use Rattle.booth_daemon.specs.declared.holdings_text.TheConstants.{LINE_BYTES};

use crate::holdings_text::{LINE_BYTES, holdings_text, put, put_number, ticket_at};
use arrayvec::ArrayVec;
use booth_audit::{Audit, SilentStart};
use booth_base::PathText;
use booth_conf::Config;
use std::alloc::{AllocError, Global};

// Returns the path of the journal at this place.
fn journal_at(paths: &[PathText], place: u32) -> &str
    ensures value { result.now ≡ journal_at paths.now place }
    ensures short { length result.now ≤ 255 }
{
    let Some(path) = paths.get(place as usize) else {
        return "";
    };
    path.as_str()
}

// Appends the place of a line in the file at this path.
fn put_place(line: &mut ArrayVec<u8, LINE_BYTES>, path: &str, number: u64)
    requires { length line.old.items + length path.now + 29 ≤ LINE_BYTES }
    ensures bytes { line.new.items
        ≡ line.old.items ++ path.now ++ codes ": line " ++ decimal number ++ codes ": " }
    ensures len { length line.new.items ≤ length line.old.items + length path.now + 29 }
{
    put(line, path.as_bytes());
    put(line, b": line ");
    put_number(line, number);
    put(line, b": ");
}

// Appends the name of the ticket of a silent start, and the term of the record.
fn put_silence(line: &mut ArrayVec<u8, LINE_BYTES>, config: &Config, start: &SilentStart)
    requires { length line.old.items + 99 ≤ LINE_BYTES }
    ensures bytes { line.new.items ≡ line.old.items ++ silence_text config.now start.now }
    ensures len { length line.new.items ≤ length line.old.items + 98 }
{
    put(line, b"silent: ");
    put(line, ticket_at(config, start.ticket));
    put(line, b", term ");
    put_number(line, u64::from(start.term));
}

fn silent_text(config: &Config, paths: &[PathText], start: &SilentStart) -> ArrayVec<u8, LINE_BYTES>
    ensures { result.items ≡ silent_text config.now paths.now start.now }
{
    let mut line = ArrayVec::new();
    put_place(&mut line, journal_at(paths, start.journal), start.line);
    put_silence(&mut line, config, start);
    put(&mut line, b"\n");
    line
}

// Returns a line for each silent start.
#[tactic(auto, using(std::proofs::lemmas::List::flat_map_more))]
fn silents_text(
    alloc: Global,
    config: &Config,
    paths: &[PathText],
    starts: &[SilentStart],
) -> Result<Vec<u8>, AllocError>
    ensures { IfOk result (λ text. text.items ≡ silents_text config.now paths.now starts.now) }
{
    let mut text = Vec::new(alloc);
    for start in starts {
        text.extend_from_slice(&silent_text(config, paths, start))?;
    }
    Ok(text)
}

/// Returns the lines of the holdings, and then those of the silent starts, in the journals at these paths.
pub(crate) fn report_text(
    alloc: Global,
    config: &Config,
    paths: &[PathText],
    audit: &Audit,
) -> Result<Vec<u8>, AllocError>
    ensures { IfOk result (λ text. text.items ≡ report_text config.now paths.now audit.now) }
{
    let mut text = holdings_text(alloc, config, audit.holdings())?;
    let silents = silents_text(alloc, config, paths, audit.silent())?;
    text.extend_from_slice(&silents)?;
    Ok(text)
}
