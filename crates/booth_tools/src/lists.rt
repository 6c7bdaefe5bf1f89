//! How a request for a list ends: with its report, with a refusal, or without a whole list.
ghost use Rattle.std.specs.Prelude.{◌≡◌, ◌≤◌, true, Ok};
ghost use Rattle.booth_host.specs.Past.{GrewSome};
ghost use Rattle.booth_talk.specs.Asking.{is_list};
ghost use Rattle.booth_talk.specs.Parts.{AreNone, text_of};
ghost use Rattle.booth_talk.specs.Report.{IsListReport};
ghost use Rattle.booth_outcomes.specs.Outcomes.{HasBlame};
ghost use Rattle.booth_tools.specs.Client.{IsListTold, IsPrinted, ListEndsWith};
ghost use Rattle.booth_tools.specs.ClientRun.{IsAnswered};

use crate::refusals::refused_text;
use booth_base::Peer;
use booth_host::{Failed, Host};
use booth_outcomes::{Ended, ErrorLine, Outcome, texts};
use booth_talk::{Asking, ListRoom, Listed, talk_list};
use std::alloc::Global;

// Prints the list whose parts were received.
fn print<H: Host>(alloc: Global, room: &ListRoom, host: &mut H) -> Ended
    ensures past { GrewSome (IsPrinted (IsListReport (text_of room.now.parts)) result.outcome result.said)
        (H.past host.old) (H.past host.new) }
    ensures served { IsAnswered result.outcome }
    ensures blame { HasBlame result.outcome (H.faults host.old) (H.faults host.new) }
    ensures later { H.faults host.old ≤ H.faults host.new }
{
    let Ok(report) = room.report(alloc) else {
        return Ended::out_of_memory();
    };
    match host.out(report.bytes()) {
        Ok(()) => Ended {
            outcome: Outcome::Report,
            said: ErrorLine::none(),
        },
        Err(Failed) => Ended {
            outcome: Outcome::PrintFault,
            said: texts::unprinted_text(),
        },
    }
}

// Returns the outcome of a list after its request was sent.
fn end<H: Host>(alloc: Global, listed: Listed, room: &ListRoom, host: &mut H) -> Ended
    ensures past { GrewSome (ListEndsWith (Ok listed) (text_of room.now.parts) result.outcome result.said)
        (H.past host.old) (H.past host.new) }
    ensures served { IsAnswered result.outcome }
    ensures blame { HasBlame result.outcome (H.faults host.old) (H.faults host.new) }
    ensures later { H.faults host.old ≤ H.faults host.new }
{
    match listed {
        Listed::Whole => print(alloc, room, host),
        Listed::Refused(code) => Ended {
            outcome: Outcome::Refused(code),
            said: refused_text(code),
        },
        Listed::Over => Ended {
            outcome: Outcome::NoReply,
            said: texts::line_of(b"no reply"),
        },
    }
}

/// Requests the list from this peer, at this reading, and prints the result.
pub(crate) fn list_and_tell<H: Host>(
    alloc: Global,
    asking: &Asking,
    to: &Peer,
    start: u64,
    room: &mut ListRoom,
    host: &mut H,
) -> Ended
    requires list { is_list asking.now.order ≡ true }
    requires none { AreNone room.old.parts }
    ensures past { GrewSome (IsListTold asking.now to.now start result.outcome result.said)
        (H.past host.old) (H.past host.new) }
    ensures served { IsAnswered result.outcome }
    ensures blame { HasBlame result.outcome (H.faults host.old) (H.faults host.new) }
    ensures later { H.faults host.old ≤ H.faults host.new }
{
    match talk_list(asking, to, start, room, host) {
        Ok(listed) => end(alloc, listed, room, host),
        Err(Failed) => Ended {
            outcome: Outcome::SendFault,
            said: texts::line_of(b"cannot send"),
        },
    }
}
