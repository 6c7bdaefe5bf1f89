//! Tickets with the defaults filled in.
ghost use Rattle.std.specs.Prelude.{◌≡◌, ◌*◌, [], IfOk, map};
ghost use Rattle.std.specs.Option.{option_or};
ghost use Rattle.booth_conf.specs.Config.{chosen, is_manual, is_yes, renewal_of, ticket_of, times_of};

use crate::keys::ConfKey;
use crate::sections::{NamedSection, Section};
use crate::tickets::TicketConf;
use arrayvec::ArrayVec;
use booth_base::Times;
use std::alloc::{AllocError, Global};

/// The port, if none is set.
pub const PORT: u16 = 9_929;

/// How far apart two clocks may be, in seconds, if nothing is set.
pub const SKEW: u32 = 600;

// The defaults of a ticket: the seconds of a lease and of a try, and the number of tries.
const EXPIRE: u32 = 600;

const TIMEOUT: u32 = 5;

const RETRIES: u32 = 10;

fn milliseconds(own: Option<u32>, default: Option<u32>, table: u32) -> u64
    ensures { result ≡ 1000 * chosen own default table }
{
    u64::from(own.or(default).unwrap_or(table)) * 1000
}

fn renewal(own: Option<u32>, default: Option<u32>, expire: u64) -> u64
    ensures { result ≡ renewal_of (option_or own default) expire }
{
    match own.or(default) {
        Some(seconds) => u64::from(seconds) * 1000,
        None => expire / 2,
    }
}

fn times(defaults: &Section<'_>, own: &Section<'_>) -> Times
    ensures { result ≡ times_of defaults.now own.now }
{
    let expire = milliseconds(
        own.number(ConfKey::Expire),
        defaults.number(ConfKey::Expire),
        EXPIRE,
    );
    Times {
        expire,
        after: milliseconds(
            own.number(ConfKey::AcquireAfter),
            defaults.number(ConfKey::AcquireAfter),
            0,
        ),
        timeout: milliseconds(
            own.number(ConfKey::Timeout),
            defaults.number(ConfKey::Timeout),
            TIMEOUT,
        ),
        retries: own
            .number(ConfKey::Retries)
            .or(defaults.number(ConfKey::Retries))
            .unwrap_or(RETRIES),
        renewal: renewal(
            own.number(ConfKey::RenewalFreq),
            defaults.number(ConfKey::RenewalFreq),
            expire,
        ),
    }
}

// Returns whether the word of a mode is the second, `manual`.
fn is_manual(own: Option<usize>, default: Option<usize>) -> bool
    ensures { result ≡ is_manual (chosen own default 0) }
{
    own.or(default).unwrap_or(0) == 1
}

// Returns whether the word of `steady` is the second, `yes`.
fn is_yes(own: Option<usize>, default: Option<usize>) -> bool
    ensures { result ≡ is_yes (chosen own default 0) }
{
    own.or(default).unwrap_or(0) == 1
}

fn ticket(
    alloc: Global,
    defaults: &Section<'_>,
    named: &NamedSection<'_>,
) -> Result<TicketConf, AllocError>
    ensures { IfOk result (λ ticket. ticket ≡ ticket_of defaults.now named.now) }
{
    let own = &named.section;
    Ok(TicketConf {
        name: named.name.copy(),
        manual: is_manual(own.word(ConfKey::Mode), defaults.word(ConfKey::Mode)),
        times: times(defaults, own),
        steady: is_yes(own.word(ConfKey::Steady), defaults.word(ConfKey::Steady)),
        weights: own
            .weights_or(defaults, ConfKey::Weights)
            .unwrap_or(ArrayVec::new()),
        handler: own.text_or(defaults, ConfKey::BeforeAcquireHandler),
        prereqs: own.prereqs(alloc)?,
    })
}

/// Returns the tickets, each with its own values or else with the defaults.
pub fn tickets(
    alloc: Global,
    defaults: &Section<'_>,
    sections: &[NamedSection<'_>],
) -> Result<Vec<TicketConf>, AllocError>
    ensures { IfOk result (λ tickets. tickets.items ≡ map (ticket_of defaults.now) sections.now) }
{
    let mut tickets = Vec::with_capacity(alloc, sections.len())?;
    for named in sections {
        let ticket = ticket(alloc, defaults, named)?;
        tickets.reserve(1)?;
        tickets.push_reserved(ticket);
    }
    Ok(tickets)
}
