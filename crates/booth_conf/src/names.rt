//! The names of a text's tickets, even if the text is not a configuration.
ghost use Rattle.std.specs.Prelude.{◌≡◌, slice_get};
ghost use Rattle.booth_conf.specs.Names.{name_said, names_said, NamesTicket};
ghost use Rattle.booth_conf.specs.Reads.{said_lines};
ghost use Rattle.booth_conf.specs.SaidReader.{said};

use crate::line_meaning::{Said, read_line};
use crate::settings::Setting;
use booth_base::Name;

fn name_in(line: &[u8]) -> Option<Name>
    ensures { result ≡ name_said (said line.now) }
{
    match read_line(line) {
        Said::Pair {
            key: _,
            setting: Some(Setting::Ticket(name)),
        } => Some(name),
        Said::Pair { .. } | Said::Empty | Said::Broken | Said::Unknown => None,
    }
}

fn name_at(text: &[u8], place: usize) -> Option<Name>
    ensures { result ≡ slice_get (names_said (said_lines text.now)) place }
{
    let mut left = place;
    for line in text.split(|b| *b == b'\n') {
        match name_in(line) {
            Some(name) if left == 0 => return Some(name),
            Some(_) => left -= 1,
            None => {}
        }
    }
    None
}

/// Returns the name on the `ticket` line with this number, counted from 0 and without `__default__`: a fault of the
/// whole file can then be reported with its ticket's name.
#[tactic(auto, using(crate::proofs::NameLemmas::names_ticket))]
pub fn ticket_name(text: &[u8], place: usize) -> Option<Name>
    ensures { NamesTicket text.now place result }
{
    name_at(text, place)
}
