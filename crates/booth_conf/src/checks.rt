//! The faults of the whole file.
ghost use Rattle.std.specs.Prelude.{◌≡◌, ◌≤◌, ◌<◌, ◌+◌, length, drop, position, IfSome};
ghost use Rattle.std.specs.List.{list_any, filter_map, enumerate_from};
ghost use Rattle.booth_conf.specs.Sections.{first};
ghost use Rattle.booth_conf.specs.Config.{file_fault, has_id, is_reserved, is_site, no_site, no_ticket, reserved_id, same_id, time_fault};

use crate::faults::ConfFault;
use crate::members::Member;
use crate::tickets::TicketConf;
use booth_base::{MemberId, NO_ONE, Times};

fn has_site(members: &[Member]) -> bool
    ensures { result ≡ list_any is_site members.now }
{
    members.iter().any(|member| member.site)
}

fn is_reserved(id: MemberId) -> bool
    ensures { result ≡ is_reserved id }
{
    id.0 == 0 || id.0 == NO_ONE.0
}

// Returns the fault of the first member with the id of no one.
fn reserved_id(members: &[Member]) -> Option<ConfFault>
    ensures { result ≡ first (filter_map reserved_id (enumerate_from 0 members.now)) }
{
    for (place, member) in members.iter().enumerate() {
        if is_reserved(member.id) {
            return Some(ConfFault::IdClash {
                first: place,
                second: place,
            });
        }
    }
    None
}

fn place_of(members: &[Member], id: MemberId) -> Option<usize>
    ensures is { result ≡ position (has_id id) members.now }
    ensures within { IfSome result (λ place. place < length members.now) }
{
    members.iter().position(|member| member.id.0 == id.0)
}

// Returns the fault of the next member after this place with the same id.
fn same_id(members: &[Member], place: usize, member: Member) -> Option<ConfFault>
    requires { place < length members.now }
    ensures { result ≡ same_id members.now (place, member) }
{
    match place_of(&members[place + 1..], member.id) {
        Some(after) => Some(ConfFault::IdClash {
            first: place,
            second: place + 1 + after,
        }),
        None => None,
    }
}

// Returns the fault of the first two members with one id.
fn clash(members: &[Member]) -> Option<ConfFault>
    ensures { result ≡ first (filter_map (same_id members.now) (enumerate_from 0 members.now)) }
{
    for (place, member) in members.iter().enumerate() {
        let found = same_id(members, place, *member);
        if found.is_some() {
            return found;
        }
    }
    None
}

fn time_fault(ticket: usize, conf: &TicketConf) -> Option<ConfFault>
    ensures { result ≡ time_fault (ticket, conf.now) }
{
    let times = conf.times;
    if times.renewal >= times.expire {
        return Some(ConfFault::Renewal { ticket });
    }
    let resends = u128::from(times.timeout) * (u128::from(times.retries) + 1);
    if resends >= u128::from(times.renewal) {
        return Some(ConfFault::RetryTime { ticket });
    }
    None
}

fn time_faults(tickets: &[TicketConf]) -> Option<ConfFault>
    ensures { result ≡ first (filter_map time_fault (enumerate_from 0 tickets.now)) }
{
    for (place, ticket) in tickets.iter().enumerate() {
        let found = time_fault(place, ticket);
        if found.is_some() {
            return found;
        }
    }
    None
}

/// Returns the first fault of the whole file.
pub fn file_fault(members: &[Member], tickets: &[TicketConf]) -> Option<ConfFault>
    ensures { result ≡ file_fault members.now tickets.now }
{
    if !has_site(members) {
        return Some(ConfFault::NoSite);
    }
    if tickets.is_empty() {
        return Some(ConfFault::NoTicket);
    }
    reserved_id(members)
        .or(clash(members))
        .or(time_faults(tickets))
}
