//! `boothd status`: whether a daemon holds the lock.
ghost use Rattle.std.specs.Prelude.{◌≡◌, ◌≤◌};
ghost use Rattle.booth_host.specs.Past.{GrewSome};
ghost use Rattle.booth_outcomes.specs.Outcomes.{HasBlame};
ghost use Rattle.booth_daemon.specs.Status.{IsPrinted, IsStatus, IsStatusOutcome, found, status_text};

use booth_base::PathText;
use booth_host::{Failed, Host};
use booth_outcomes::{Ended, ErrorLine, Outcome, texts};

fn status_text(is_free: bool) -> &'static [u8]
    ensures { result.now ≡ status_text is_free }
{
    if is_free {
        b"booth daemon is not running\n"
    } else {
        b"booth daemon is running\n"
    }
}

fn found(is_free: bool) -> Outcome
    ensures { result ≡ found is_free }
{
    if is_free {
        Outcome::NotRunning
    } else {
        Outcome::Done
    }
}

// Prints whether the lock was free, and ends.
fn print<H: Host>(is_free: bool, host: &mut H) -> Ended
    ensures past { GrewSome (IsPrinted is_free result.outcome result.said) (H.past host.old)
        (H.past host.new) }
    ensures outcome { IsStatusOutcome result.outcome }
    ensures blame { HasBlame result.outcome (H.faults host.old) (H.faults host.new) }
    ensures later { H.faults host.old ≤ H.faults host.new }
{
    match host.out(status_text(is_free)) {
        Ok(()) => Ended {
            outcome: found(is_free),
            said: ErrorLine::none(),
        },
        Err(Failed) => Ended {
            outcome: Outcome::PrintFault,
            said: texts::unprinted_text(),
        },
    }
}

/// Prints whether a daemon holds this lock. If the lock was free, it is released when the process ends.
pub(crate) fn status<H: Host>(lock: &PathText, host: &mut H) -> Ended
    ensures past { GrewSome (IsStatus lock.now result.outcome result.said) (H.past host.old)
        (H.past host.new) }
    ensures outcome { IsStatusOutcome result.outcome }
    ensures blame { HasBlame result.outcome (H.faults host.old) (H.faults host.new) }
    ensures later { H.faults host.old ≤ H.faults host.new }
{
    match host.lock(lock.as_str()) {
        Ok(is_free) => print(is_free, host),
        Err(Failed) => Ended {
            outcome: Outcome::LockFault,
            said: texts::unlocked_text(lock),
        },
    }
}
