//! The division of a text at a byte.
ghost use Rattle.std.specs.Prelude.{◌≡◌, ◌++◌, List, ℕ, MatchOption};
ghost use Rattle.std.specs.List.{prefix_len};
ghost use Rattle.booth_journal.specs.Fields.{HasNo, IsCut, is_other};

// Returns how many bytes precede the first `end`.
fn first_len(end: u8, text: &[u8]) -> usize
    ensures { result ≡ prefix_len (is_other end) text.now }
{
    text.iter().take_while(|byte| **byte != end).count()
}

/// Returns the bytes before the first `end`, and those after it.
pub(crate) fn cut(end: u8, text: &[u8]) -> Option<(&[u8], &[u8])>
    ensures { MatchOption result (HasNo end text.now) (λ parts. IsCut end text.now parts.0.now parts.1.now) }
{
    let len = first_len(end, text);
    if len < text.len() {
        Some((&text[..len], &text[len + 1..]))
    } else {
        None
    }
}

/// Returns what follows these bytes, if the text begins with them.
pub(crate) fn behind<'t>(begin: &[u8], text: &'t [u8]) -> Option<&'t [u8]>
    ensures { MatchOption result ((rest : List ℕ) → text.now ≡ begin.now ++ rest → ⊥)
        (λ rest. text.now ≡ begin.now ++ rest.now) }
{
    if text.len() < begin.len() {
        return None;
    }
    let (first, rest) = text.split_at(begin.len());
    if first == begin { Some(rest) } else { None }
}
