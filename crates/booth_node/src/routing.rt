//! The action for a message that was accepted.
ghost use Rattle.booth_wire.specs.PlainMessage.{plain_of, content_of};
ghost use Rattle.booth_node.specs.Reaction.{said};
ghost use Rattle.booth_node.specs.Routing.{Attends, IsPlaced, Names, Requests, Routes};

use crate::NodeConfig;
use crate::attributes::{AttrRequest, attended_place, attr_request_in};
use crate::replies::request_in;
use booth_base::Peer;
use booth_ticket::Request;
use booth_wire::{Body, Direction, Head, Message, TicketPart};

/// The action of the node for an accepted message.
#[derive(Drop)]
pub(crate) enum Action {
    /// The member at the place `from` sends a message about the ticket with this index.
    Hear {
        from: u32,
        ticket: usize,
        head: Head,
        part: TicketPart,
    },
    /// A client sends a request about the ticket with this index.
    Ask {
        ticket: usize,
        request: Request,
    },
    /// A client sends a request about the attributes of the ticket with this index.
    Attend {
        ticket: usize,
        request: AttrRequest,
    },
    /// The request is answered at once.
    Answer,
    /// No action.
    Rest,
}

// Routes a member's message to the ticket that it is about.
fn said(node: &NodeConfig, message: &Message<'_>) -> Action
    ensures names { Names result (said node.now message.now.head (content_of message.now.body)) }
    ensures placed { IsPlaced node.now message.now.head.from result }
{
    let Body::Ticket(part) = &message.body else {
        return Action::Rest;
    };
    let Some(from) = node.config.member(message.head.from) else {
        return Action::Rest;
    };
    let Some(ticket) = node.config.ticket(&part.ticket) else {
        return Action::Rest;
    };
    Action::Hear {
        from: from as u32,
        ticket,
        head: message.head,
        part: part.copy(),
    }
}

// Routes a request about attributes to the attributes of its ticket, at a site. Every other request is answered at
// once.
fn attended(node: &NodeConfig, message: &Message<'_>) -> Action
    ensures names { Attends node.now (plain_of message.now) result }
    ensures placed { IsPlaced node.now message.now.head.from result }
{
    let Some(request) = attr_request_in(message) else {
        return Action::Answer;
    };
    match attended_place(node, &request.ticket) {
        Some(ticket) => Action::Attend { ticket, request },
        None => Action::Answer,
    }
}

// Routes a request about a ticket of the configuration to it, and every other request to its attributes or to an
// immediate answer.
fn requested(
    node: &NodeConfig,
    found: Option<(TicketPart, Request)>,
    message: &Message<'_>,
) -> Action
    ensures names { Requests node.now (plain_of message.now) found result }
    ensures placed { IsPlaced node.now message.now.head.from result }
{
    let Some((part, request)) = found else {
        return attended(node, message);
    };
    match node.config.ticket(&part.ticket) {
        Some(ticket) => Action::Ask { ticket, request },
        None => Action::Answer,
    }
}

/// Returns the action for a message of this peer.
pub(crate) fn route(node: &NodeConfig, from: Peer, message: &Message<'_>) -> Action
    ensures names { Routes node.now from (plain_of message.now) result }
    ensures placed { IsPlaced node.now message.now.head.from result }
{
    match message.head.cmd.direction() {
        Direction::ToDaemon => requested(node, request_in(from, message), message),
        Direction::BetweenMembers => said(node, message),
        Direction::ToClient => Action::Rest,
    }
}
