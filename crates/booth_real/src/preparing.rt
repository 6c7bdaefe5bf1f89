//! The wait of a host, in which it prepares the next writes of records while nothing arrives.

ghost use Rattle.std.specs.Prelude.{◌≡◌, IfOk};
ghost use Rattle.booth_real.specs.Hearing.{BringsTo, hearing};
ghost use Rattle.booth_real.specs.Taking.{IsGiven, waiting};

use crate::mail::Mail;
use crate::store::Store;
use booth_host::{Arrival, Datagram};
use std::io;

// Returns whether nothing arrived, and no call failed.
fn is_quiet(answer: &io::Result<Arrival>) -> bool {
    match answer {
        Ok(Arrival::Quiet) => true,
        Ok(Arrival::Datagram(_)) | Ok(Arrival::Handler { .. }) | Ok(Arrival::Stop) => false,
        Err(_) => false,
    }
}

/// Returns what arrives within this time. If nothing has arrived yet, and the next write of a ticket can be prepared
/// in that time, it does so instead of waiting, and returns `Quiet`.
pub(crate) fn receive_or_prepare(
    rt: &HostRuntime,
    mail: &mut Mail,
    store: &mut Store,
    wait_ms: u64,
    into: &mut Datagram,
) -> io::Result<Arrival>
    ensures given { IsGiven (waiting mail.old.backlog) result into.new (waiting mail.new.backlog) }
    ensures brings { IfOk result (λ arrival. BringsTo (hearing mail.old.socket) arrival) }
    ensures socket { mail.new.socket ≡ mail.old.socket }
{
    if !store.can_prepare(wait_ms) {
        return mail.receive(wait_ms, into);
    }
    let answer = mail.receive(0, into);
    if is_quiet(&answer) && !mail.is_woken() {
        store.prepare_one(rt, wait_ms);
    }
    answer
}
