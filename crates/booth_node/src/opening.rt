//! The tickets at the start of a node, and their timer.
ghost use Rattle.std.specs.Prelude.{◌≡◌, ◌<◌, ◌≤◌, ◌^◌, IfOk, IsSome, IsTrue, Some, length, map, position, slice_get, option_copied, vec_capacity};
ghost use Rattle.std.specs.List.{All};
ghost use Rattle.booth_conf.specs.Config.{has_id};
ghost use Rattle.booth_conf.specs.Sound.{HasTimes};
ghost use Rattle.booth_base.specs.declared.limits.TheConstants.{MEMBERS};
ghost use Rattle.booth_raft.specs.Sound.{IsSound};
ghost use Rattle.booth_rec.specs.Record.{record_or_none};
ghost use Rattle.booth_conf.specs.declared.limits.TheConstants.{TICKETS};
ghost use Rattle.booth_node.specs.AttributeRequests.{is_at_site};
ghost use Rattle.booth_node.specs.Opening.{own_place, is_site_at, opened_by, rank_at, setup_of, started_from};
ghost use Rattle.booth_node.specs.Ours.{IsOurs};
ghost use Rattle.booth_node.specs.Reaction.{deadline_of};

use crate::NodeConfig;
use crate::deadlines::set_deadline;
use booth_chain::Wheel;
use booth_conf::{Member, TicketConf};
use booth_rec::Record;
use booth_ticket::Ticket;
use booth_wire::Setup;
use std::alloc::{AllocError, Global};

/// Returns the member's place in the configuration.
pub(crate) fn own_place(node: &NodeConfig) -> usize
    ensures place { result ≡ own_place node.now }
    ensures few { result < MEMBERS }
{
    node.config.member(node.me).unwrap_or(0)
}

fn is_site_at(members: &[Member], place: usize) -> bool
    ensures { result ≡ is_site_at members.now place }
{
    members.get(place).is_some_and(|member| member.site)
}

// Returns the rank of this member for the ticket with this index: the number of sites before it in the order of
// weights. An arbitrator has no rank.
fn rank_at(node: &NodeConfig, ticket: usize) -> u32
    requires { ticket < length node.now.config.tickets }
    ensures rank { result ≡ rank_at node.now ticket }
    ensures few { result < MEMBERS }
{
    let place = own_place(node);
    if is_site_at(node.config.members(), place) {
        node.config.rank(ticket, place)
    } else {
        0
    }
}

/// Returns whether this member is a site and not an arbitrator.
pub(crate) fn is_at_site(node: &NodeConfig) -> bool
    ensures { result ≡ is_at_site node.now }
{
    is_site_at(node.config.members(), own_place(node))
}

// Returns the setup of the ticket with this index.
fn setup_of(node: &NodeConfig, index: usize, ticket: &TicketConf) -> Setup
    requires there { index < length node.now.config.tickets }
    requires times { HasTimes ticket.now }
    requires member { IsSome (position (has_id node.now.me) node.now.config.members) }
    ensures setup { result ≡ setup_of node.now index ticket.now }
    ensures sound { IsSound result }
{
    let place = own_place(node);
    Setup {
        ticket: ticket.name.copy(),
        me: node.me,
        place: place as u32,
        members: node.config.members().len() as u32,
        site: is_site_at(node.config.members(), place),
        rank: rank_at(node, index),
        times: ticket.times,
        second: node.second,
        steady: ticket.steady,
    }
}

// Starts a ticket, by its kind.
fn open_ticket(conf: &TicketConf, setup: &Setup, kept: Option<&Record>, now: u64) -> Ticket
    requires sound { IsSound setup.now }
    requires second { IsTrue setup.now.second }
    requires early { now < 2 ^ 62 }
    ensures { result
        ≡ opened_by conf.now setup.now (record_or_none (option_copied kept.entry)) now }
{
    if conf.manual {
        Ticket::open_manual(setup, kept, now)
    } else {
        Ticket::open(setup, kept, now)
    }
}

/// Starts the tickets of a node, each from its record at this reading in ms.
pub(crate) fn start_tickets(
    alloc: Global,
    node: &NodeConfig,
    records: &[Option<Record>],
    now: u64,
) -> Result<Vec<Ticket>, AllocError>
    requires early { now < 2 ^ 62 }
    requires second { IsTrue node.now.second }
    requires member { IsSome (position (has_id node.now.me) node.now.config.members) }
    requires records { length records.now ≡ length node.now.config.tickets }
    ensures tickets { IfOk result (λ tickets. tickets.items
        ≡ started_from node.now now 0 node.now.config.tickets records.now) }
    ensures ours { IfOk result (λ tickets. All (IsOurs node.now.me node.now.config.members) tickets.items) }
    ensures whole { IfOk result (λ tickets. length tickets.items ≡ length node.now.config.tickets) }
    ensures few { IfOk result (λ tickets. length tickets.items ≤ TICKETS) }
{
    let confs = node.config.tickets();
    let mut tickets = Vec::with_capacity(alloc, confs.len())?;
    for (index, ticket) in confs.iter().enumerate() {
        let setup = setup_of(node, index, ticket);
        tickets.push_reserved(open_ticket(ticket, &setup, records[index].as_ref(), now));
    }
    Ok(tickets)
}

// Returns a timer with the deadline of each ticket.
fn start_wheel(alloc: Global, tickets: &[Ticket]) -> Result<Wheel, AllocError>
    requires { length tickets.now ≤ TICKETS }
    ensures timed { IfOk result (λ wheel. wheel.deadlines ≡ map deadline_of tickets.now) }
    ensures waited { IfOk result (λ wheel. wheel.last ≡ 0) }
{
    let mut wheel = Wheel::new(alloc, tickets.len() as u32)?;
    for (place, ticket) in tickets.iter().enumerate() {
        set_deadline(&mut wheel, place as u32, ticket.deadline());
    }
    Ok(wheel)
}

/// Returns the timer of these tickets, and room for the places of those that are due at the same time.
pub(crate) fn start_timer(
    alloc: Global,
    tickets: &[Ticket],
) -> Result<(Wheel, Vec<u32>), AllocError>
    requires { length tickets.now ≤ TICKETS }
    ensures timed { IfOk result (λ timer. timer.0.deadlines ≡ map deadline_of tickets.now) }
    ensures waited { IfOk result (λ timer. timer.0.last ≡ 0) }
    ensures room { IfOk result (λ timer. length tickets.now ≤ vec_capacity timer.1) }
{
    let wheel = start_wheel(alloc, tickets)?;
    Ok((wheel, Vec::with_capacity(alloc, tickets.len())?))
}
