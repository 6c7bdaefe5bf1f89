//! The weights of a ticket: numbers between commas.
ghost use Rattle.std.specs.Prelude.{◌≡◌, MatchOption, option_map};
ghost use Rattle.booth_conf.specs.ValueReader.{weight_in, weight_added, weights_in};

use crate::digits::number_within;
use crate::limits::WEIGHT;
use crate::words::one_word;
use arrayvec::ArrayVec;
use booth_base::MEMBERS;

fn weight(piece: &[u8]) -> Option<u32>
    ensures { result ≡ weight_in piece.now }
{
    match one_word(piece) {
        Some(word) => number_within(word, 0, WEIGHT),
        None => None,
    }
}

// Adds the weight in one more piece, if the piece spells one and there is room for it.
fn add_weight(weights: &mut ArrayVec<u32, MEMBERS>, piece: &[u8]) -> Option<()>
    ensures { MatchOption result (weight_added weights.old.items piece.now ≡ None)
        (λ _. weight_added weights.old.items piece.now ≡ Some weights.new.items) }
{
    match weight(piece) {
        Some(n) if !weights.is_full() => {
            weights.push(n);
            Some(())
        }
        _ => None,
    }
}

/// Returns the weights that the text spells.
pub fn weights(text: &[u8]) -> Option<ArrayVec<u32, MEMBERS>>
    ensures { option_map (λ ws. ws.items) result ≡ weights_in text.now }
{
    let mut weights = ArrayVec::new();
    for piece in text.split(|b| *b == b',') {
        match add_weight(&mut weights, piece) {
            Some(()) => {}
            None => return None,
        }
    }
    Some(weights)
}
