//! The first call in the rest of a journal.
ghost use Rattle.std.specs.Prelude.{◌≡◌, [], List, MatchOption, codes, option_map};
ghost use Rattle.booth_journal.specs.Fields.{IsCut};
ghost use Rattle.booth_journal.specs.Looking.{HasNoAnswer, IsFirstCall, is_open};
ghost use Rattle.booth_journal.specs.Lines.{call_text};
ghost use Rattle.booth_journal.specs.Says.{Said, Says};
ghost use Rattle.booth_journal.specs.declared.said.Call.{Call};

use crate::cutting::{behind, cut};

/// The line of a call, the line of its answer if there is one, and what follows them.
#[derive(Clone, Copy)]
pub struct Looked<'t> {
    pub call: &'t [u8],
    pub answer: Option<&'t [u8]>,
    pub behind: &'t [u8],
}

// Returns the line of an answer, and what follows it.
fn answer_of(text: &[u8]) -> Option<(&[u8], &[u8])>
    ensures { MatchOption result (HasNoAnswer text.now) (λ parts.
        IsCut 0x0A text.now parts.0.now parts.1.now × (parts.0.now ≡ codes "now" → ⊥)) }
{
    let Some((first, behind)) = cut(b'\n', text) else {
        return None;
    };
    if first == b"now".as_slice() {
        None
    } else {
        Some((first, behind))
    }
}

/// Returns the first call of a journal, or none if it has no call.
pub fn look(text: &[u8]) -> Option<Looked<'_>>
    ensures { (left : List Said) → Says text.now left → MatchOption result (left ≡ []) (λ looked.
        IsFirstCall text.now left looked.call.now (option_map (λ bytes. bytes.now) looked.answer) looked.behind.now) }
{
    let Some((call, more)) = cut(b'\n', text) else {
        return None;
    };
    match answer_of(more) {
        Some((answer, behind)) => Some(Looked {
            call,
            answer: Some(answer),
            behind,
        }),
        None => Some(Looked {
            call,
            answer: None,
            behind: more,
        }),
    }
}

/// Returns whether a line is the line of a call that opens a socket.
pub fn is_open(text: &[u8]) -> bool
    ensures { (call : Call) → text.now ≡ call_text call → result ≡ is_open call }
{
    behind(b"open ", text).is_some()
}
