//! Which ticket of a configuration can be followed at which site, and with which margins.
ghost use Rattle.std.specs.Prelude.{◌≡◌, MatchResult, is_some, option_copied};
ghost use Rattle.booth_following.specs.Choosing.{HasFault, IsChosen, fault_of, has_site, is_site_at, site_at, ticket_called};

use booth_base::{Address, Name};
use booth_conf::{Config, Member, TicketConf};
use booth_follow_rule::{MarginFault, Margins};
use thiserror::Error;

/// Why a ticket cannot be followed.
#[derive(Clone, Copy, Debug, PartialEq, Eq, Drop, Error)]
pub enum FollowFault {
    #[error("there is no such ticket")]
    NoTicket,
    #[error("the member is no site")]
    NotSite,
    #[error("the ticket is manual, and has no lease that ends")]
    IsManual,
    #[error("the margin is too long: the service would be stopped before the lease is renewed")]
    MarginTooLong,
    #[error("the kill would come before the stop has any time")]
    KillTooLong,
    #[error("a kill has too little time")]
    KillTooShort,
}

fn fault_of(fault: MarginFault) -> FollowFault
    ensures { result ≡ fault_of fault }
{
    match fault {
        MarginFault::MarginTooLong => FollowFault::MarginTooLong,
        MarginFault::KillTooLong => FollowFault::KillTooLong,
        MarginFault::KillTooShort => FollowFault::KillTooShort,
    }
}

fn is_site_at(site: &Address, member: &Member) -> bool
    ensures { result ≡ is_site_at site.now member.now }
{
    member.site && *site == member.address
}

// Returns the place of the site with this address.
fn site_at(config: &Config, site: &Address) -> Option<usize>
    ensures { result ≡ site_at config.now site.now }
{
    config
        .members()
        .iter()
        .position(|member| is_site_at(site, member))
}

fn has_site(config: &Config, site: &Address) -> bool
    ensures { result ≡ has_site config.now site.now }
{
    site_at(config, site).is_some()
}

// Returns the ticket with this name.
fn ticket_called<'a>(config: &'a Config, ticket: &Name) -> Option<&'a TicketConf>
    ensures { option_copied result ≡ ticket_called config.now ticket.now }
{
    match config.ticket(ticket) {
        Some(place) => config.tickets().get(place),
        None => None,
    }
}

/// Returns the margins for the ticket at the site with this address: those that are given, or margins that suit its
/// times.
pub fn margins_for(
    config: &Config,
    ticket: &Name,
    site: &Address,
    margin: Option<u64>,
    kill: Option<u64>,
) -> Result<Margins, FollowFault>
    ensures { MatchResult result
        (IsChosen config.now ticket.now site.now margin kill)
        (HasFault config.now ticket.now site.now margin kill) }
{
    let Some(conf) = ticket_called(config, ticket) else {
        return Err(FollowFault::NoTicket);
    };
    if !has_site(config, site) {
        return Err(FollowFault::NotSite);
    }
    if conf.manual {
        return Err(FollowFault::IsManual);
    }
    match Margins::choose(conf.times.expire, conf.times.renewal, margin, kill) {
        Ok(margins) => Ok(margins),
        Err(fault) => Err(fault_of(fault)),
    }
}
