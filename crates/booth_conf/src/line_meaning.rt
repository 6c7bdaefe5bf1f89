//! The content of a line: nothing, or a key and the setting of its value.
ghost use Rattle.std.specs.Prelude.{◌≡◌};
ghost use Rattle.booth_conf.specs.Said.{IsSaid};
ghost use Rattle.booth_conf.specs.SaidReader.{said};

use crate::grammar::{Line, line_of};
use crate::keys::ConfKey;
use crate::settings::Setting;

/// The content of a line.
#[derive(Drop)]
pub enum Said<'a> {
    /// Nothing, blanks or a comment.
    Empty,
    /// The line is neither empty nor a key with a value.
    Broken,
    /// No key has this name.
    Unknown,
    /// A key, and its setting if the value has the key's form.
    Pair {
        key: ConfKey,
        setting: Option<Setting<'a>>,
    },
}

fn read(line: &[u8]) -> Said<'_>
    ensures { result ≡ said line.now }
{
    match line_of(line) {
        Line::Empty => Said::Empty,
        Line::Broken => Said::Broken,
        Line::Pair { key, value } => match ConfKey::named(key) {
            Some(key) => Said::Pair {
                key,
                setting: key.setting(value),
            },
            None => Said::Unknown,
        },
    }
}

/// Returns the content of a line. The time is linear in the line's bytes.
#[tactic(auto, using(crate::proofs::SaidLemmas::said_is))]
pub fn read_line(line: &[u8]) -> Said<'_>
    ensures exact { result ≡ said line.now }
    ensures grammar { IsSaid line.now result }
{
    read(line)
}
