//! The check that all messages that members received were sent.
ghost use Rattle.std.specs.Prelude.{◌<◌, ◌^◌, IfOk, List, length};
ghost use Rattle.booth_audit.specs.Exchanges.{IsToldSo, senders_in};
ghost use Rattle.booth_audit.specs.Sends.{KnowsAll, Sender};

use crate::hearings::Hears;
use crate::sends::Sends;
use booth_base::{ByteText, MemberId};
use booth_journal::AuditFault;
use std::alloc::{AllocError, Global};

/// The messages that the member with this id sent and received, according to its journal.
#[derive(Clone, Copy)]
pub(crate) struct Exchange<'a> {
    pub id: MemberId,
    pub sent: &'a [ByteText],
    pub heard: &'a [Hears],
}

fn sends_of(alloc: Global, exchanges: &[Exchange<'_>]) -> Result<Sends, AllocError>
    ensures { IfOk result (λ sends. KnowsAll sends (senders_in exchanges.now)) }
{
    let mut sends = Sends::new(alloc)?;
    for exchange in exchanges {
        sends.add(exchange.id, exchange.sent)?;
    }
    Ok(sends)
}

fn first_unsent(sends: &mut Sends, exchanges: &[Exchange<'_>]) -> Result<(), AuditFault>
    requires { length exchanges.now < 2 ^ 32 }
    ensures { (senders : List Sender) → KnowsAll sends.old senders → IsToldSo senders exchanges.now result }
{
    for (journal, exchange) in exchanges.iter().enumerate() {
        if let Some(line) = sends.first_unsent(exchange.heard) {
            return Err(AuditFault::Unsent {
                journal: journal as u32,
                line,
            });
        }
    }
    Ok(())
}

/// Checks that each message that a member received was sent by the member whose id it carries.
///
/// # Errors
///
/// Returns the fault of the first journal with a message that was not sent, or `OutOfMemory`.
pub(crate) fn check_exchanges(alloc: Global, exchanges: &[Exchange<'_>]) -> Result<(), AuditFault>
    requires { length exchanges.now < 2 ^ 32 }
    ensures { IsToldSo (senders_in exchanges.now) exchanges.now result }
{
    let Ok(mut sends) = sends_of(alloc, exchanges) else {
        return Err(AuditFault::OutOfMemory);
    };
    first_unsent(&mut sends, exchanges)
}
