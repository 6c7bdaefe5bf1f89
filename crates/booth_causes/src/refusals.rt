//! Why a member refused a request, as far as its answer and this machine's configuration show.

use crate::cause::Cause;
use crate::follows::ticket_in;
use crate::members::put_tickets;
use booth_base::{Address, Name, Times};
use booth_conf::{Config, GrantKind, Prereq, TicketConf};
use booth_wire::results;
use std::str;

/// The kind of a request.
#[derive(Clone, Copy)]
pub enum Request {
    /// A grant of the ticket to a site. If `immediate` is true, the client wants the grant even if another site is
    /// known to have the ticket.
    Grant { immediate: bool },
    /// A revocation of the ticket.
    Revoke,
    /// A request about the ticket's attributes.
    Attribute,
    /// The holder, the term and the time left of the ticket.
    Show,
}

/// The answer of a member.
#[derive(Clone, Copy)]
pub struct Answer {
    pub member: Address,
    /// The holder in it.
    pub holder: Option<Address>,
    /// How many seconds of the holder's lease are left.
    pub seconds: u32,
}

/// A request that was refused.
#[derive(Clone, Copy)]
pub struct Refused<'a> {
    pub config: &'a Config,
    /// The path of the configuration.
    pub path: &'a str,
    pub request: Request,
    pub ticket: &'a Name,
    /// The attribute in the request.
    pub attribute: Option<&'a Name>,
    pub answer: Answer,
}

// Returns the name of the daemon's unit for the configuration at this path.
fn unit_of(path: &str) -> Option<&str> {
    let name = path.strip_prefix("/etc/booth/")?;
    if name.contains('/') {
        return None;
    }
    name.strip_suffix(".conf")
}

// Appends where the daemon's log is.
fn put_log(cause: &mut Cause, path: &str) {
    match unit_of(path) {
        Some(name) => {
            cause.put("journalctl -u booth@");
            cause.put(name);
            cause.put(" there says why");
        }
        None => cause.put("the log of its daemon says why"),
    }
}

fn ticket_of<'a>(refused: &Refused<'a>) -> Option<&'a TicketConf> {
    ticket_in(refused.config, refused.ticket)
}

fn is_manual(refused: &Refused<'_>) -> bool {
    match ticket_of(refused) {
        Some(ticket) => ticket.manual,
        None => false,
    }
}

// Returns the start of a cause with the member that answered.
fn of_member(refused: &Refused<'_>, text: &str) -> Cause {
    let mut cause = Cause::new();
    cause.put_address(&refused.answer.member);
    cause.put(text);
    cause
}

// Appends a time in whole seconds, rounded up.
fn put_whole_seconds(cause: &mut Cause, time: u64) {
    cause.put_number(time.saturating_add(999) / 1000);
    cause.put(" s");
}

// Returns how long a member without a record takes part in no grant, in milliseconds (RECORDS.md,
// "The silence after a first start").
fn silence(times: &Times) -> u64 {
    let guard = (times.expire.saturating_mul(2) / 999).saturating_add(2);
    times
        .expire
        .saturating_add(times.after)
        .saturating_add(guard)
}

fn no_majority(refused: &Refused<'_>, ticket: &TicketConf) -> Cause {
    let tries = u64::from(ticket.times.retries).saturating_add(1);
    let mut cause = Cause::new();
    cause.put("no majority agreed within ");
    put_whole_seconds(&mut cause, ticket.times.timeout.saturating_mul(tries));
    cause.put(" (booth peers -s ");
    cause.put_address(&refused.answer.member);
    cause.put(
        " shows who is heard), or it could not write its record; members that started without a record of ",
    );
    cause.put_name(refused.ticket);
    cause.put(" agree to nothing for ");
    put_whole_seconds(&mut cause, silence(&ticket.times));
    cause.put(" after their start");
    cause
}

fn unwritten(refused: &Refused<'_>) -> Cause {
    let mut cause = of_member(refused, " could not write its record: ");
    put_log(&mut cause, refused.path);
    cause
}

fn failed_revoke(refused: &Refused<'_>) -> Cause {
    let mut cause = of_member(refused, " could not write its record, and holds ticket ");
    cause.put_name(refused.ticket);
    cause.put(" still: ");
    put_log(&mut cause, refused.path);
    cause
}

fn failed(refused: &Refused<'_>) -> Cause {
    match (refused.request, ticket_of(refused)) {
        (Request::Revoke, _) => failed_revoke(refused),
        (Request::Grant { .. }, Some(ticket)) if !ticket.manual => no_majority(refused, ticket),
        (Request::Grant { .. } | Request::Attribute | Request::Show, _) => {
            let mut cause = of_member(refused, " could not do it: ");
            put_log(&mut cause, refused.path);
            cause
        }
    }
}

// Returns whether the member that answered is an arbitrator by this configuration.
fn is_arbitrator(refused: &Refused<'_>) -> bool {
    for member in refused.config.members() {
        if member.address == refused.answer.member {
            return !member.site;
        }
    }
    false
}

fn is_forced(refused: &Refused<'_>) -> bool {
    match refused.request {
        Request::Grant { immediate } => immediate,
        Request::Revoke | Request::Attribute | Request::Show => false,
    }
}

fn unforced(refused: &Refused<'_>) -> Cause {
    let mut cause = Cause::new();
    cause.put("ticket ");
    cause.put_name(refused.ticket);
    cause.put(" is not manual, so -F is not taken");
    cause
}

fn no_ticket(refused: &Refused<'_>) -> Cause {
    let mut cause = of_member(refused, " has no ticket ");
    cause.put_name(refused.ticket);
    if ticket_of(refused).is_some() {
        cause.put(" in its configuration, and ");
        cause.put(refused.path);
        cause.put(" has one: all members must have the same file");
        return cause;
    }
    cause.put("; ");
    put_tickets(&mut cause, refused.path, refused.config);
    cause
}

fn invalid(refused: &Refused<'_>) -> Cause {
    if is_arbitrator(refused) && !matches!(refused.request, Request::Revoke | Request::Show) {
        return of_member(
            refused,
            " is an arbitrator, which holds no ticket and has no attributes: name a site with -s",
        );
    }
    match ticket_of(refused) {
        Some(ticket) if is_forced(refused) && !ticket.manual => unforced(refused),
        Some(_) | None => no_ticket(refused),
    }
}

fn no_attribute(refused: &Refused<'_>) -> Cause {
    let mut cause = of_member(refused, " has no attribute ");
    if let Some(name) = refused.attribute {
        cause.put_name(name);
        cause.put(" ");
    }
    cause.put("of ticket ");
    cause.put_name(refused.ticket);
    cause.put("; a restart of its daemon forgets all attributes");
    cause
}

fn handler_failed(refused: &Refused<'_>) -> Cause {
    let mut cause = of_member(refused, ": the before-acquire-handler of ");
    cause.put_name(refused.ticket);
    cause.put(" refused, took too long or cannot be run: ");
    put_log(&mut cause, refused.path);
    cause
}

fn put_prereq(cause: &mut Cause, prereq: &Prereq) {
    cause.put(" ");
    cause.put_name(&prereq.name);
    cause.put(if prereq.equal { " eq " } else { " ne " });
    cause.put(str::from_utf8(prereq.value.bytes()).unwrap_or(""));
    cause.put(",");
}

fn unmet(refused: &Refused<'_>) -> Cause {
    let mut cause = Cause::new();
    cause.put("a grant of ");
    cause.put_name(refused.ticket);
    cause.put(" requires");
    if let Some(ticket) = ticket_of(refused) {
        for prereq in ticket.prereqs.all() {
            if matches!(prereq.kind, GrantKind::Manual) {
                put_prereq(&mut cause, prereq);
            }
        }
    }
    cause.put(" as attr-prereq says: geostore list -s ");
    cause.put_address(&refused.answer.member);
    cause.put(" -t ");
    cause.put_name(refused.ticket);
    cause.put(" lists what is set");
    cause
}

fn elsewhere(refused: &Refused<'_>) -> Cause {
    let mut cause = Cause::new();
    cause.put("by ");
    cause.put_address(&refused.answer.member);
    cause.put(", ");
    match &refused.answer.holder {
        Some(holder) => cause.put_address(holder),
        None => cause.put("another site"),
    }
    cause.put(" holds ticket ");
    cause.put_name(refused.ticket);
    if is_manual(refused) {
        cause.put(" until it is revoked there");
    } else if refused.answer.seconds > 0 {
        cause.put(" for ");
        cause.put_number(u64::from(refused.answer.seconds));
        cause.put(" s more, unless it is renewed");
    }
    cause
}

fn busy_grant(refused: &Refused<'_>) -> Cause {
    let mut cause = of_member(refused, "");
    if is_manual(refused) {
        cause.put(" runs the handler of an earlier grant, ");
    } else {
        cause.put(" acquires it already, has promised it to another site, ");
    }
    if let Some(ticket) = ticket_of(refused) {
        if ticket.steady && !ticket.manual {
            cause.put("started without a record of it less than ");
            put_whole_seconds(&mut cause, silence(&ticket.times));
            cause.put(" ago, ");
        }
    }
    cause.put("or has 64 clients that wait: try again later");
    cause
}

fn busy(refused: &Refused<'_>) -> Cause {
    let text = match refused.request {
        Request::Grant { .. } => return busy_grant(refused),
        Request::Revoke => " acquires it, or its lease has just ended: try again later",
        Request::Attribute =>
            " has 64 attributes of the ticket already, or 512 of all tickets: delete one",
        Request::Show => " has no time for it: try again later",
    };
    of_member(refused, text)
}

fn owned_elsewhere(refused: &Refused<'_>) -> Option<Cause> {
    let holder = refused.answer.holder?;
    let mut cause = of_member(refused, " names ");
    cause.put_address(&holder);
    cause.put(" as the holder: booth revoke -s ");
    cause.put_address(&holder);
    cause.put(" ");
    cause.put_name(refused.ticket);
    Some(cause)
}

/// Returns why the member at this address may not have answered a request for one ticket.
pub fn older_daemon(member: &Address) -> Cause {
    let mut cause = Cause::new();
    cause.put("if booth list -s ");
    cause.put_address(member);
    cause.put(
        " is answered, the daemon there is of an older version, which does not answer booth show",
    );
    cause
}

/// Returns why a request was refused with this result, as far as it is known. Returns nothing for a result whose text
/// needs no cause.
pub fn refusal(refused: &Refused<'_>, code: u32) -> Option<Cause> {
    match code {
        results::FAIL => Some(failed(refused)),
        results::IARG => Some(invalid(refused)),
        results::NATR => Some(no_attribute(refused)),
        results::PEND => Some(unwritten(refused)),
        results::XPRG => Some(handler_failed(refused)),
        results::APRQ => Some(unmet(refused)),
        results::OVER => Some(elsewhere(refused)),
        results::BUSY => Some(busy(refused)),
        results::REDR => owned_elsewhere(refused),
        results::TIDL => None,
        _ => Some(of_member(
            refused,
            " sent a result that this version does not know: is another version there?",
        )),
    }
}
