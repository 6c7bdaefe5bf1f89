//! The look at the target before a move: whether it has the ticket already.
ghost use Rattle.std.specs.Prelude.{◌≡◌, ◌≤◌, true, IfSome};
ghost use Rattle.booth_host.specs.Past.{GrewSome};
ghost use Rattle.booth_talk.specs.Asking.{is_list};
ghost use Rattle.booth_talk.specs.Parts.{AreNone, text_of};
ghost use Rattle.booth_outcomes.specs.Outcomes.{HasBlame};
ghost use Rattle.booth_tools.specs.ClientRun.{IsMoveAnswered};
ghost use Rattle.booth_tools.specs.MoveLook.{IsJudged, IsLook, held_text, target_peer};

use crate::move_replies::{Report, show};
use crate::refusals::refused_text;
use booth_base::Peer;
use booth_cli::MoveWords;
use booth_conf::Config;
use booth_host::{Failed, Host};
use booth_outcomes::{Ended, Outcome, texts};
use booth_talk::{Asking, ListRoom, Listed, talk_list};
use std::alloc::{AllocError, Global};

fn held_text(asked: &MoveWords) -> Report
    ensures { result.items ≡ held_text asked.now }
{
    let mut text = Report::new();
    text.try_extend_from_slice(b"ticket ").unwrap();
    text.try_extend_from_slice(asked.ticket.bytes()).unwrap();
    text.try_extend_from_slice(b" is held by ").unwrap();
    text.try_extend_from_slice(asked.target.print().as_bytes())
        .unwrap();
    text.try_extend_from_slice(b" already: nothing is changed\n")
        .unwrap();
    text
}

// Returns the address of the target site.
fn target_peer(asked: &MoveWords, config: &Config) -> Peer
    ensures { result ≡ target_peer asked.now config.now }
{
    Peer {
        address: asked.target,
        port: config.port(),
    }
}

// Prints how a move ends after the target's list, if it ends.
#[tactic(auto, using(crate::proofs::MoveLemmas::held_shown, crate::proofs::MoveLemmas::unread_list))]
fn judged<H: Host>(
    alloc: Global,
    asked: &MoveWords,
    listed: Listed,
    room: &ListRoom,
    host: &mut H,
) -> Option<Ended>
    ensures past { GrewSome (IsJudged asked.now listed (text_of room.now.parts) result)
        (H.past host.old) (H.past host.new) }
    ensures served { IfSome result (λ ended. IsMoveAnswered ended.outcome) }
    ensures blame { IfSome result (λ ended. HasBlame ended.outcome (H.faults host.old) (H.faults host.new)) }
    ensures later { H.faults host.old ≤ H.faults host.new }
{
    match listed {
        Listed::Whole => match room.shows_owner(alloc, &asked.ticket, &asked.target) {
            Ok(true) => Some(show(&held_text(asked), host)),
            Ok(false) => None,
            Err(AllocError) => Some(Ended::out_of_memory()),
        },
        Listed::Refused(code) => Some(Ended {
            outcome: Outcome::Refused(code),
            said: refused_text(code),
        }),
        Listed::Over => Some(Ended {
            outcome: Outcome::NoReply,
            said: texts::line_of(b"no reply"),
        }),
    }
}

/// Requests the target's list, and prints how the move ends after it, if it ends.
pub(crate) fn look<H: Host>(
    alloc: Global,
    asked: &MoveWords,
    asking: &Asking,
    room: &mut ListRoom,
    host: &mut H,
) -> Option<Ended>
    requires list { is_list asking.now.order ≡ true }
    requires none { AreNone room.old.parts }
    ensures past { GrewSome (IsLook asked.now asking.now result) (H.past host.old) (H.past host.new) }
    ensures served { IfSome result (λ ended. IsMoveAnswered ended.outcome) }
    ensures blame { IfSome result (λ ended. HasBlame ended.outcome (H.faults host.old) (H.faults host.new)) }
    ensures later { H.faults host.old ≤ H.faults host.new }
{
    let to = target_peer(asked, &asking.config);
    let start = host.now();
    match talk_list(asking, &to, start, room, host) {
        Ok(listed) => judged(alloc, asked, listed, room, host),
        Err(Failed) => Some(Ended {
            outcome: Outcome::SendFault,
            said: texts::line_of(b"cannot send"),
        }),
    }
}
