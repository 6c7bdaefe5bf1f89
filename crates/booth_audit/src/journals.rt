//! The replay of a whole journal.
ghost use Rattle.std.specs.Prelude.{◌<◌, ◌^◌, List, IfOk, length};
ghost use Rattle.booth_journal.specs.Says.{Said, Says};
ghost use Rattle.booth_audit.specs.Course.{IsReplayed};

use crate::sessions::{Left, replay_next};
use crate::{Tally, Whose};
use booth_journal::Draft;
use std::alloc::{AllocError, Global};

/// The content of a journal about its member.
#[derive(Drop)]
pub struct Journal {
    pub tally: Tally,
    /// The line of the first call that was not demanded. The tally contains no event after it.
    pub strays: Option<u64>,
}

/// Replays the journal of a member, whose text consists of calls.
///
/// The time is linear in the bytes of the text, apart from the turns of the node.
pub fn replay_journal(alloc: Global, whose: &Whose<'_>, text: &[u8]) -> Result<Journal, AllocError>
    requires short { length text.now < 2 ^ 63 }
    requires says { (all : List Said) × Says text.now all }
    ensures { (all : List Said) → Says text.now all → IfOk result (λ journal.
        IsReplayed whose.now all journal.strays journal.tally) }
{
    let mut tally = Tally::new(alloc, whose.config().tickets())?;
    let mut left = Left {
        rest: text,
        line: 1,
        draft: Draft::new(alloc)?,
    };
    'runs: loop {
        let Some(behind) = replay_next(alloc, whose, left, &mut tally)? else {
            return Ok(Journal {
                tally,
                strays: None,
            });
        };
        left = behind.left;
        if behind.strays {
            return Ok(Journal {
                tally,
                strays: Some(left.line),
            });
        }
    }
}
