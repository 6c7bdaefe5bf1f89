//! The lines of a text, one after the other.
ghost use Rattle.std.specs.Prelude.{◌≤◌, length, IfOk};
ghost use Rattle.booth_conf.specs.Reads.{ReadsLines, said_lines};
ghost use Rattle.booth_conf.specs.SoundDraft.{IsSoundDraft};
ghost use Rattle.booth_conf.specs.declared.limits.TheConstants.{TEXT_BYTES};

use crate::drafts::Draft;
use crate::faults::{ConfFault, at_line};
use std::alloc::Global;

fn read(alloc: Global, text: &[u8]) -> Result<Draft<'_>, ConfFault>
    requires { length text.now ≤ TEXT_BYTES }
    ensures { ReadsLines result (said_lines text.now) }
{
    let mut draft = Draft::new(alloc);
    let mut number = 0;
    for line in text.split(|b| *b == b'\n') {
        number += 1;
        match draft.line(alloc, line) {
            Ok(()) => {}
            Err(stop) => return Err(at_line(number, stop)),
        }
    }
    Ok(draft)
}

/// Reads the lines, up to the first with a fault. The time is linear in the bytes of the text.
#[tactic(auto, using(crate::proofs::SoundLemmas::reads_sound))]
pub fn read_lines(alloc: Global, text: &[u8]) -> Result<Draft<'_>, ConfFault>
    requires { length text.now ≤ TEXT_BYTES }
    ensures reads { ReadsLines result (said_lines text.now) }
    ensures sound { IfOk result IsSoundDraft }
{
    read(alloc, text)
}
