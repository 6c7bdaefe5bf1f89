//! The configuration, from its file.
ghost use Rattle.std.specs.Prelude.{◌≡◌, ◌≤◌, ℕ, None, IfErr, IfOk};
ghost use Rattle.booth_conf.specs.Config.{file_fault};
ghost use Rattle.booth_host.specs.Past.{GrewSome};
ghost use Rattle.booth_outcomes.specs.Texts.{IsFaultText};
ghost use Rattle.booth_outcomes.specs.Configuration.{IsConfigRead, IsParsed, IsUnreadOutcome, refusal};
ghost use Rattle.booth_outcomes.specs.Outcomes.{HasBlame, IsServed};

use crate::outcome::Ended;
use crate::{Outcome, texts};
use booth_base::PathText;
use booth_conf::{ConfFault, Config};
use booth_host::{Host, ReadFault};
use std::alloc::Global;

// Returns how a run ends if its configuration has this fault.
fn refuse(path: &PathText, text: &[u8], fault: ConfFault) -> Ended
    ensures outcome { result.outcome ≡ refusal fault }
    ensures said { IsFaultText path.now text.now fault result.said }
    ensures unread { IsUnreadOutcome result.outcome }
    ensures served { IsServed result.outcome }
{
    let outcome = match fault {
        ConfFault::OutOfMemory => Outcome::OutOfMemory,
        fault => Outcome::ConfBad(fault),
    };
    Ended {
        outcome,
        said: texts::fault_text(path, text, fault),
    }
}

// Returns the configuration in this text, from the file at this path.
fn parse(alloc: Global, path: &PathText, text: &[u8]) -> Result<Config, Ended>
    ensures parsed { IsParsed path.now text.now result }
    ensures whole { IfOk result (λ config. file_fault config.members config.tickets ≡ None) }
    ensures unread { IfErr result (λ ended. IsUnreadOutcome ended.outcome) }
    ensures served { IfErr result (λ ended. IsServed ended.outcome) }
    ensures blame { IfErr result (λ ended. (before after : ℕ) → HasBlame ended.outcome before after) }
{
    match Config::parse(alloc, text) {
        Ok(config) => Ok(config),
        Err(fault) => Err(refuse(path, text, fault)),
    }
}

/// Reads the configuration in the file at this path.
pub fn read_config<H: Host>(alloc: Global, path: &PathText, host: &mut H) -> Result<Config, Ended>
    ensures past { GrewSome (IsConfigRead path.now result) (H.past host.old) (H.past host.new) }
    ensures whole { IfOk result (λ config. file_fault config.members config.tickets ≡ None) }
    ensures unread { IfErr result (λ ended. IsUnreadOutcome ended.outcome) }
    ensures served { IfErr result (λ ended. IsServed ended.outcome) }
    ensures blame { IfErr result (λ ended. HasBlame ended.outcome (H.faults host.old) (H.faults host.new)) }
    ensures later { H.faults host.old ≤ H.faults host.new }
{
    match host.read_file(alloc, path.as_str()) {
        Ok(text) => parse(alloc, path, text.bytes()),
        Err(ReadFault::Failed) => Err(Ended {
            outcome: Outcome::ConfUnread,
            said: texts::unread_text(path),
        }),
        Err(ReadFault::NoMemory) => Err(Ended::out_of_memory()),
    }
}
