//! Why a ticket is not followed: the values in the arguments, and what is allowed.

use crate::cause::Cause;
use crate::members::{put_tickets, sites_of};
use booth_base::Name;
use booth_cli::FollowWords;
use booth_conf::{Config, TicketConf};
use booth_following::FollowFault;

/// How long a list and a renewal may take, in milliseconds.
const SLACK: u64 = 2_000;

/// Returns the ticket with this name.
pub(crate) fn ticket_in<'a>(config: &'a Config, name: &Name) -> Option<&'a TicketConf> {
    match config.ticket(name) {
        Some(place) => config.tickets().get(place),
        None => None,
    }
}

fn tickets_of(path: &str, config: &Config) -> Cause {
    let mut cause = Cause::new();
    put_tickets(&mut cause, path, config);
    cause
}

/// The times of a follower in milliseconds: those in the arguments, or the defaults.
#[derive(Clone, Copy)]
struct ChosenTimes {
    margin: u64,
    kill: u64,
}

fn chosen(asked: &FollowWords, ticket: &TicketConf) -> ChosenTimes {
    let left = ticket.times.expire.saturating_sub(ticket.times.renewal);
    let margin = asked.margin.unwrap_or(left / 2);
    ChosenTimes {
        margin,
        kill: asked.kill.unwrap_or(margin / 2),
    }
}

fn long_margin(asked: &FollowWords, ticket: &TicketConf) -> Cause {
    let left = ticket.times.expire.saturating_sub(ticket.times.renewal);
    let mut cause = Cause::new();
    cause.put("the margin (-m) is ");
    cause.put_seconds(chosen(asked, ticket).margin);
    cause.put("; at most expire - renewal-freq - 2 s is allowed: ");
    cause.put_seconds(ticket.times.expire);
    cause.put(" - ");
    cause.put_seconds(ticket.times.renewal);
    cause.put(" - 2 s");
    if left >= SLACK {
        cause.put(" = ");
        cause.put_seconds(left - SLACK);
    }
    cause
}

fn bad_kill(asked: &FollowWords, ticket: &TicketConf) -> Cause {
    let chosen = chosen(asked, ticket);
    let mut cause = Cause::new();
    cause.put("the time of a kill (-k) is ");
    cause.put_seconds(chosen.kill);
    cause.put("; at least 1 s and less than the margin (-m), ");
    cause.put_seconds(chosen.margin);
    cause.put(", is allowed");
    cause
}

/// Returns why a ticket of this configuration is not followed with these arguments, for this fault. Returns nothing for
/// a manual ticket, whose text needs no cause.
pub fn not_followed(asked: &FollowWords, config: &Config, fault: FollowFault) -> Option<Cause> {
    let path = asked.conf.as_str();
    let ticket = ticket_in(config, &asked.ticket);
    match fault {
        FollowFault::NoTicket => Some(tickets_of(path, config)),
        FollowFault::NotSite => Some(sites_of(path, config)),
        FollowFault::IsManual => None,
        FollowFault::MarginTooLong => Some(long_margin(asked, ticket?)),
        FollowFault::KillTooLong | FollowFault::KillTooShort => Some(bad_kill(asked, ticket?)),
    }
}
