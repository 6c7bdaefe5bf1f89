//! What a member learns from another member's message, and how it answers.
ghost use Rattle.std.specs.Prelude.{◌≡◌};
ghost use Rattle.booth_manual.specs.Hearing.{updated, revoked, learned, hear};

use crate::messages::tells_state;
use crate::view::ManualView;
use booth_base::{MemberId, NO_ONE};
use booth_wire::{Cmd, Head, Say, Setup, TicketPart};

// Handles the announcement of a member that it holds the ticket.
fn updated(view: &mut ManualView, site: MemberId)
    ensures { view.new ≡ updated view.old site }
{
    if !view.owner {
        view.shown = Some(site);
    }
}

// Handles the announcement of a member that it released the ticket.
fn revoked(view: &mut ManualView, site: MemberId)
    ensures { view.new ≡ revoked view.old site }
{
    if view.shown == Some(site) {
        view.shown = None;
    }
}

// Handles a message that names the holder of the ticket.
fn learned(setup: &Setup, view: &mut ManualView, leader: MemberId)
    ensures { view.new ≡ learned setup.now view.old leader }
{
    if view.shown.is_none() && !view.owner && leader != NO_ONE && leader != setup.me {
        view.shown = Some(leader);
    }
}

// Handles a message of a member.
pub(crate) fn hear(setup: &Setup, view: &mut ManualView, head: &Head, part: &TicketPart) -> Say
    ensures view { view.new ≡ (hear setup.now view.old head.now part.now head.now.cmd).view }
    ensures say { result ≡ (hear setup.now view.old head.now part.now head.now.cmd).say }
{
    match head.cmd {
        Cmd::UpdE => {
            updated(view, head.from);
            Say::Nothing
        }
        Cmd::Revk => {
            revoked(view, head.from);
            Say::Nothing
        }
        Cmd::Stat => {
            let answer = tells_state(setup, view, head);
            learned(setup, view, part.leader);
            answer
        }
        Cmd::MIdx => {
            learned(setup, view, part.leader);
            Say::Nothing
        }
        // (rounds and their answers)
        Cmd::RVot | Cmd::VtFr | Cmd::HrtB | Cmd::Ack | Cmd::Rjc => Say::Nothing,
        // (what clients ask and are answered)
        Cmd::CLst
        | Cmd::CTkt
        | Cmd::Peer
        | Cmd::CGnt
        | Cmd::CRvk
        | Cmd::ASet
        | Cmd::AGet
        | Cmd::ADel
        | Cmd::ALst
        | Cmd::RLst
        | Cmd::RTkt
        | Cmd::RPer
        | Cmd::RALs
        | Cmd::RGnt
        | Cmd::RRvk
        | Cmd::RAtr => Say::Nothing,
    }
}
