//! The audit of the journals of a cluster.
ghost use Rattle.std.specs.Prelude.{◌≡◌, ◌<◌, ◌^◌, ℕ, IfErr, IfOk, MatchResult, length};
ghost use Rattle.std.specs.List.{All};
ghost use Rattle.std.specs.Option.{option_copied};
ghost use Rattle.booth_audit.specs.Audit.{HasFault, IsAudited, id_of};
ghost use Rattle.booth_audit.specs.Judging.{AreExchanges, AreTrueSo, IsToldOf, held_by, silent_by};
ghost use Rattle.booth_audit.specs.Order.{by_tickets};

use crate::exchanges::{Exchange, check_exchanges};
use crate::judging::{Judged, judge};
use crate::order::sort_by_ticket;
use crate::silent::push_silent;
use crate::{Audit, Holding, SilentStart};
use booth_base::{ByteText, MemberId, NO_ONE};
use booth_conf::Config;
use booth_journal::AuditFault;
use booth_keys::Ring;
use std::alloc::{AllocError, Global};

/// The limit for the number of journals, so that a fault can name a journal by its place.
const JOURNALS_END: u64 = 1 << 32;

// Judges each journal, up to the first one that is wrong.
fn judge_all(
    alloc: Global,
    config: &Config,
    ring: Option<&Ring>,
    journals: &[ByteText],
) -> Result<Vec<Judged>, AuditFault>
    requires few { length journals.now < 2 ^ 32 }
    ensures { MatchResult result (λ all. AreTrueSo config.now (option_copied ring.entry) journals.now all.items)
        (HasFault config.now (option_copied ring.entry) journals.now) }
{
    let mut all = Vec::new(alloc);
    for (journal, text) in journals.iter().enumerate() {
        let judged = match judge(alloc, config, ring, &all, text.bytes()) {
            Ok(judged) => judged,
            Err(fault) => return Err(fault.at(journal as u32)),
        };
        match all.push(judged) {
            Ok(()) => {}
            Err(_) => return Err(AuditFault::OutOfMemory),
        }
    }
    Ok(all)
}

// Returns the id of the member with this index, or the id that stands for no member.
fn id_of(config: &Config, owner: Option<u32>) -> MemberId
    ensures { result ≡ id_of config.now.members owner }
{
    let Some(place) = owner else {
        return NO_ONE;
    };
    match config.members().get(place as usize) {
        Some(member) => member.id,
        None => NO_ONE,
    }
}

// Returns the messages that all members sent and received, according to their journals.
fn exchanges_of<'a>(
    alloc: Global,
    config: &Config,
    all: &'a [Judged],
) -> Result<Vec<Exchange<'a>>, AllocError>
    ensures { IfOk result (λ exchanges. AreExchanges config.now.members all.now exchanges.items) }
{
    let mut exchanges = Vec::with_capacity(alloc, all.len())?;
    for judged in all {
        exchanges.push_reserved(Exchange {
            id: id_of(config, judged.owner),
            sent: judged.tally.sent(),
            heard: judged.tally.heard(),
        });
    }
    Ok(exchanges)
}

// Finds the first message that was received and not sent.
fn find_unsent(alloc: Global, config: &Config, all: &[Judged]) -> Result<(), AuditFault>
    requires few { length all.now < 2 ^ 32 }
    ensures { IsToldOf config.now.members all.now result }
{
    match exchanges_of(alloc, config, all) {
        Ok(exchanges) => check_exchanges(alloc, &exchanges),
        Err(_) => Err(AuditFault::OutOfMemory),
    }
}

// Returns the holdings of all journals, in the order of tickets.
fn holdings_of(alloc: Global, all: &[Judged]) -> Result<Vec<Holding>, AllocError>
    ensures { IfOk result (λ holdings. (count : ℕ) → All (λ holding. holding.ticket < count) (held_by all.now)
        → holdings.items ≡ by_tickets (held_by all.now) 0 count) }
{
    let mut held = Vec::new(alloc);
    for judged in all {
        held.extend_from_slice(judged.tally.held())?;
    }
    sort_by_ticket(&mut held)?;
    Ok(held)
}

// Returns the silent starts of all journals, in the order of journals.
fn silent_of(alloc: Global, all: &[Judged]) -> Result<Vec<SilentStart>, AllocError>
    requires few { length all.now < 2 ^ 32 }
    ensures { IfOk result (λ silent. silent.items ≡ silent_by 0 all.now) }
{
    let mut silent = Vec::new(alloc);
    for (journal, judged) in all.iter().enumerate() {
        push_silent(&mut silent, journal as u32, judged.tally.unwritten())?;
    }
    Ok(silent)
}

// Returns the answer for true journals in which all messages were sent.
fn reported(alloc: Global, all: &[Judged]) -> Result<Audit, AllocError>
    requires few { length all.now < 2 ^ 32 }
    ensures held { IfOk result (λ audit. (count : ℕ) → All (λ holding. holding.ticket < count) (held_by all.now)
        → audit.holdings ≡ by_tickets (held_by all.now) 0 count) }
    ensures silent { IfOk result (λ audit. audit.silent ≡ silent_by 0 all.now) }
{
    let holdings = holdings_of(alloc, all)?;
    let silent = silent_of(alloc, all)?;
    Ok(Audit::new(holdings, silent))
}

/// Audits the journals of a cluster, whose members have this configuration and share this ring.
///
/// # Errors
///
/// Returns the first fault of the first journal that is wrong. If no journal is wrong, returns the first message that
/// was received and not sent. `OutOfMemory` may come in place of any answer.
pub fn audit(
    alloc: Global,
    config: &Config,
    ring: Option<&Ring>,
    journals: &[ByteText],
) -> Result<Audit, AuditFault>
    ensures audited { IfOk result (IsAudited config.now (option_copied ring.entry) journals.now) }
    ensures fault { IfErr result (HasFault config.now (option_copied ring.entry) journals.now) }
{
    if journals.len() as u64 >= JOURNALS_END {
        return Err(AuditFault::OutOfMemory);
    }
    config.sound();
    let all = match judge_all(alloc, config, ring, journals) {
        Ok(all) => all,
        Err(fault) => return Err(fault),
    };
    match find_unsent(alloc, config, &all) {
        Ok(()) => {}
        Err(fault) => return Err(fault),
    }
    match reported(alloc, &all) {
        Ok(audit) => Ok(audit),
        Err(_) => Err(AuditFault::OutOfMemory),
    }
}
