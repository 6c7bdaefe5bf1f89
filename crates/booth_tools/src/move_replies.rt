//! How a move ends: with its report, with a refusal of the revoke or of the grant, or without a reply.
ghost use Rattle.std.specs.Prelude.{◌≡◌, ◌≤◌, Ok, IsSomeAnd, IsTrue, slice_get};
ghost use Rattle.booth_host.specs.Past.{GrewSome};
ghost use Rattle.booth_outcomes.specs.Outcomes.{HasBlame};
ghost use Rattle.booth_tools.specs.ClientRun.{IsMoveAnswered};
ghost use Rattle.booth_tools.specs.MoveLook.{IsShown};
ghost use Rattle.booth_tools.specs.MoveRun.{IsMoveTold, MoveEndsWith, begun_text, moved_text};

use crate::refusals::{refused_text, stranded_text};
use arrayvec::ArrayVec;
use booth_cli::MoveWords;
use booth_host::{Failed, Host};
use booth_move::{MoveEnd, MoveRoom, Moving, carry_out};
use booth_outcomes::{Ended, ErrorLine, Outcome, texts};

/// The most bytes of a report of a move.
const REPORT_BYTES: usize = 160;

/// The output of a move.
pub(crate) type Report = ArrayVec<u8, REPORT_BYTES>;

fn moved_text(asked: &MoveWords) -> Report
    ensures { result.items ≡ moved_text asked.now }
{
    let mut text = Report::new();
    text.try_extend_from_slice(b"ticket ").unwrap();
    text.try_extend_from_slice(asked.ticket.bytes()).unwrap();
    text.try_extend_from_slice(b" moved to ").unwrap();
    text.try_extend_from_slice(asked.target.print().as_bytes())
        .unwrap();
    text.try_extend_from_slice(b"\n").unwrap();
    text
}

fn begun_text(asked: &MoveWords) -> Report
    ensures { result.items ≡ begun_text asked.now }
{
    let mut text = Report::new();
    text.try_extend_from_slice(b"move of ").unwrap();
    text.try_extend_from_slice(asked.ticket.bytes()).unwrap();
    text.try_extend_from_slice(b" requested\n").unwrap();
    text
}

/// Prints this text.
pub(crate) fn show<H: Host>(text: &[u8], host: &mut H) -> Ended
    ensures past { GrewSome (IsShown text.now result.outcome result.said) (H.past host.old) (H.past host.new) }
    ensures served { IsMoveAnswered result.outcome }
    ensures blame { HasBlame result.outcome (H.faults host.old) (H.faults host.new) }
    ensures later { H.faults host.old ≤ H.faults host.new }
{
    match host.out(text) {
        Ok(()) => Ended {
            outcome: Outcome::Report,
            said: ErrorLine::none(),
        },
        Err(Failed) => Ended {
            outcome: Outcome::PrintFault,
            said: texts::unprinted_text(),
        },
    }
}

// Returns the outcome of a move after its requests were sent.
fn end<H: Host>(asked: &MoveWords, how: MoveEnd, host: &mut H) -> Ended
    ensures past { GrewSome (MoveEndsWith asked.now (Ok how) result.outcome result.said)
        (H.past host.old) (H.past host.new) }
    ensures served { IsMoveAnswered result.outcome }
    ensures blame { HasBlame result.outcome (H.faults host.old) (H.faults host.new) }
    ensures later { H.faults host.old ≤ H.faults host.new }
{
    match how {
        MoveEnd::Moved => show(&moved_text(asked), host),
        MoveEnd::Asked => show(&begun_text(asked), host),
        MoveEnd::Refused(result) => Ended {
            outcome: Outcome::Refused(result),
            said: refused_text(result),
        },
        MoveEnd::Stranded(result) => Ended {
            outcome: Outcome::Stranded(result),
            said: stranded_text(&asked.ticket, result),
        },
        MoveEnd::NoReply => Ended {
            outcome: Outcome::NoReply,
            said: texts::line_of(b"no reply"),
        },
    }
}

/// Carries out a move, from its start at this reading, and prints the result.
pub(crate) fn carry_and_tell<H: Host>(
    asked: &MoveWords,
    moving: &Moving,
    start: u64,
    room: &mut MoveRoom,
    host: &mut H,
) -> Ended
    requires { IsSomeAnd (slice_get moving.now.config.members moving.now.target) (λ m. IsTrue m.site) }
    ensures past { GrewSome (IsMoveTold asked.now moving.now start result.outcome result.said)
        (H.past host.old) (H.past host.new) }
    ensures served { IsMoveAnswered result.outcome }
    ensures blame { HasBlame result.outcome (H.faults host.old) (H.faults host.new) }
    ensures later { H.faults host.old ≤ H.faults host.new }
{
    match carry_out(moving, start, room, host) {
        Ok(how) => end(asked, how, host),
        Err(Failed) => Ended {
            outcome: Outcome::SendFault,
            said: texts::line_of(b"cannot send"),
        },
    }
}
