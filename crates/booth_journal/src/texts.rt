//! Whether a text is a journal.
ghost use Rattle.std.specs.Prelude.{OnOk, IfErr};
ghost use Rattle.booth_journal.specs.Reading.{ReadsAs};
ghost use Rattle.booth_journal.specs.Texts.{Follows, HasFault, IsJournal};

use crate::Call;
use crate::cutting::cut;
use crate::fields::LineFault;
use crate::reading::{read_answer, read_call};
use std::alloc::Global;
use thiserror::Error;

/// Why a text could not be read as a journal.
#[derive(Clone, Copy, Debug, Drop, Error)]
pub enum TextFault {
    /// This line, counted from 1, cannot follow the lines before it in a journal.
    #[error("line {0} is none of a journal")]
    Line(u64),
    #[error("there is no memory for what a line says")]
    OutOfMemory,
}

// Returns the call without an answer after this line.
fn follow(alloc: Global, asked: Option<Call>, text: &[u8]) -> Result<Option<Call>, LineFault>
    ensures { ReadsAs (Follows asked text.now) result }
{
    let Some(call) = asked else {
        return Ok(Some(read_call(alloc, text)?));
    };
    if text == b"now".as_slice() {
        return Ok(Some(Call::Now));
    }
    let _answer = read_answer(alloc, &call, text)?;
    Ok(None)
}

/// Reads each line of a text as a line of a journal.
pub fn read_lines(alloc: Global, text: &[u8]) -> Result<(), TextFault>
    ensures journal { OnOk result (IsJournal text.now) }
    ensures fault { IfErr result (HasFault text.now) }
{
    let mut rest = text;
    let mut asked = None;
    let mut count = 0u64;
    'lines: while let Some((line, more)) = cut(b'\n', rest) {
        count += 1;
        asked = match follow(alloc, asked, line) {
            Ok(after) => after,
            Err(LineFault::NoLine) => return Err(TextFault::Line(count)),
            Err(LineFault::OutOfMemory) => return Err(TextFault::OutOfMemory),
        };
        rest = more;
    }
    Ok(())
}
