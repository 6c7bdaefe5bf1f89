//! How arguments without a request are reported: help and version on standard output, anything else on standard error.
ghost use Rattle.std.specs.Prelude.{◌≡◌, ◌≤◌, true, false};
ghost use Rattle.clap.specs.Words.{kind_of};
ghost use Rattle.booth_host.specs.Past.{GrewSome};
ghost use Rattle.booth_outcomes.specs.Outcomes.{HasBlame};
ghost use Rattle.booth_outcomes.specs.Unasked.{IsShownText, IsTold, IsToldOutcome, is_request};

use crate::error_line::ErrorLine;
use crate::outcome::Ended;
use crate::{Outcome, texts};
use booth_cli::Program;
use booth_host::{Failed, Host};
use clap::Error;
use clap::error::ErrorKind;
use std::alloc::{AllocError, Global};

fn is_request(kind: ErrorKind) -> bool
    ensures { result ≡ is_request kind }
{
    match kind {
        ErrorKind::DisplayHelp => true,
        ErrorKind::DisplayVersion => true,
        _ => false,
    }
}

fn text_of(alloc: Global, error: &Error) -> Result<String, AllocError> {
    format!(in alloc; "{error}")
}

// Prints the requested text.
fn print<H: Host>(program: Program, kind: ErrorKind, text: &[u8], host: &mut H) -> Ended
    requires request { is_request kind ≡ true }
    requires shown { IsShownText program kind text.now }
    requires no_memory { kind ≡ ErrorKind.OutOfMemory → ⊥ }
    ensures past { GrewSome (IsTold program kind result.outcome result.said) (H.past host.old)
        (H.past host.new) }
    ensures outcome { IsToldOutcome kind result.outcome }
    ensures blame { HasBlame result.outcome (H.faults host.old) (H.faults host.new) }
    ensures later { H.faults host.old ≤ H.faults host.new }
{
    match host.out(text) {
        Ok(()) => Ended {
            outcome: Outcome::Usage(Some(kind)),
            said: ErrorLine::none(),
        },
        Err(Failed) => Ended {
            outcome: Outcome::PrintFault,
            said: texts::unprinted_text(),
        },
    }
}

// Prints what is wrong, whether or not the print succeeds.
fn complain<H: Host>(program: Program, kind: ErrorKind, text: &str, host: &mut H) -> Ended
    requires mistake { is_request kind ≡ false }
    requires no_memory { kind ≡ ErrorKind.OutOfMemory → ⊥ }
    ensures past { GrewSome (IsTold program kind result.outcome result.said) (H.past host.old)
        (H.past host.new) }
    ensures outcome { IsToldOutcome kind result.outcome }
    ensures blame { HasBlame result.outcome (H.faults host.old) (H.faults host.new) }
    ensures later { H.faults host.old ≤ H.faults host.new }
{
    let _ = host.err(text.as_bytes());
    Ended {
        outcome: Outcome::Usage(Some(kind)),
        said: ErrorLine::none(),
    }
}

// Reports an error of this kind with the text that `clap` has for it.
fn tell_kind<H: Host>(
    alloc: Global,
    program: Program,
    error: &Error,
    kind: ErrorKind,
    host: &mut H,
) -> Ended
    requires no_memory { kind ≡ ErrorKind.OutOfMemory → ⊥ }
    requires no_version { kind ≡ ErrorKind.DisplayVersion → ⊥ }
    ensures past { GrewSome (IsTold program kind result.outcome result.said) (H.past host.old)
        (H.past host.new) }
    ensures outcome { IsToldOutcome kind result.outcome }
    ensures blame { HasBlame result.outcome (H.faults host.old) (H.faults host.new) }
    ensures later { H.faults host.old ≤ H.faults host.new }
{
    let Ok(text) = text_of(alloc, error) else {
        return Ended::out_of_memory();
    };
    if is_request(kind) {
        print(program, kind, text.as_bytes(), host)
    } else {
        complain(program, kind, text.as_str(), host)
    }
}

/// Reports an error of `clap`, and returns how the run of this program ends. The version is printed with the
/// program's name.
pub fn tell_error<H: Host>(alloc: Global, program: Program, error: &Error, host: &mut H) -> Ended
    ensures past { GrewSome (IsTold program (kind_of error.now) result.outcome result.said)
        (H.past host.old) (H.past host.new) }
    ensures outcome { IsToldOutcome (kind_of error.now) result.outcome }
    ensures blame { HasBlame result.outcome (H.faults host.old) (H.faults host.new) }
    ensures later { H.faults host.old ≤ H.faults host.new }
{
    match error.kind() {
        ErrorKind::OutOfMemory => Ended::out_of_memory(),
        ErrorKind::DisplayVersion => {
            let line = texts::version_text(program);
            print(program, ErrorKind::DisplayVersion, line.bytes(), host)
        }
        kind => tell_kind(alloc, program, error, kind, host),
    }
}
