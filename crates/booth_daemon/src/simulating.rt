//! `boothd sim`: a whole cluster in memory, through generated events.
ghost use Rattle.std.specs.Prelude.{◌≤◌, ℕ, List, Option, IfErr, IfOk};
ghost use Rattle.booth_cli.specs.declared.reading.TheConstants.{MOST_EVENTS};
ghost use Rattle.booth_conf.specs.Says.{Says};
ghost use Rattle.booth_host.specs.Past.{GrewSome};
ghost use Rattle.booth_outcomes.specs.Outcomes.{HasBlame};
ghost use Rattle.booth_daemon.specs.Simulating.{HasNoMemory, IsConfigChosen, IsPrinted, IsSimulated, IsSimulationEnd, IsSummed, example_text};

use crate::summary_text::summary_text;
use booth_base::PathText;
use booth_cli::{MOST_EVENTS, SimulationWords};
use booth_conf::Config;
use booth_host::{Failed, Host};
use booth_outcomes::{Ended, ErrorLine, Outcome, read_config, texts};
use booth_sim::{Summary, simulate as run_cluster};
use std::alloc::Global;

// The arguments allow no more events than a simulation may have.
const _: () = prove!(MOST_EVENTS <= booth_sim::MOST_EVENTS);

/// The configuration of a simulation, if the arguments name none.
const EXAMPLE: &[u8] =
    b"site=\"192.168.201.100\"\nsite=\"192.168.202.100\"\narbitrator=\"192.168.203.100\"\n\
    ticket=\"ticket-db8\"\n";

// Returns the configuration of the example.
//
// # Errors
//
// The example has no fault, so the only cause is that the memory has run out.
fn example(alloc: Global) -> Result<Config, Ended>
    ensures config { IfOk result (λ config. Says example_text config) }
    ensures memory { IfErr result HasNoMemory }
{
    match Config::parse(alloc, EXAMPLE) {
        Ok(config) => Ok(config),
        Err(_) => Err(Ended::out_of_memory()),
    }
}

// Reads the configuration in the file at the path, or returns the example.
fn choose<H: Host>(alloc: Global, path: &Option<PathText>, host: &mut H) -> Result<Config, Ended>
    ensures past { GrewSome (IsConfigChosen path.now result) (H.past host.old) (H.past host.new) }
    ensures outcome { IfErr result (λ ended. IsSimulationEnd path.now ended.outcome) }
    ensures blame { IfErr result (λ ended. HasBlame ended.outcome (H.faults host.old) (H.faults host.new)) }
    ensures later { H.faults host.old ≤ H.faults host.new }
{
    match path {
        Some(path) => read_config(alloc, path, host),
        None => example(alloc),
    }
}

// Prints the counts.
fn print<H: Host>(summary: &Summary, host: &mut H) -> Ended
    ensures past { GrewSome (IsPrinted summary.now result.outcome result.said) (H.past host.old) (H.past host.new) }
    ensures outcome { (conf : Option (List ℕ)) → IsSimulationEnd conf result.outcome }
    ensures blame { HasBlame result.outcome (H.faults host.old) (H.faults host.new) }
    ensures later { H.faults host.old ≤ H.faults host.new }
{
    match host.out(&summary_text(summary)) {
        Ok(()) => Ended {
            outcome: Outcome::Done,
            said: ErrorLine::none(),
        },
        Err(Failed) => Ended {
            outcome: Outcome::PrintFault,
            said: texts::unprinted_text(),
        },
    }
}

// Runs the cluster of this configuration, and prints the counts.
fn run<H: Host>(alloc: Global, config: Config, asked: &SimulationWords, host: &mut H) -> Ended
    requires { asked.now.events ≤ MOST_EVENTS }
    ensures past { GrewSome (IsSummed config asked.now result.outcome result.said) (H.past host.old)
        (H.past host.new) }
    ensures outcome { IsSimulationEnd asked.now.conf result.outcome }
    ensures blame { HasBlame result.outcome (H.faults host.old) (H.faults host.new) }
    ensures later { H.faults host.old ≤ H.faults host.new }
{
    match run_cluster(alloc, config, asked.events, asked.number) {
        Ok(summary) => print(&summary, host),
        Err(_) => Ended::out_of_memory(),
    }
}

/// Makes the calls of the simulation, up to the call that decides its outcome.
pub(crate) fn simulate<H: Host>(alloc: Global, asked: &SimulationWords, host: &mut H) -> Ended
    requires { asked.now.events ≤ MOST_EVENTS }
    ensures past { GrewSome (IsSimulated asked.now result.outcome result.said) (H.past host.old)
        (H.past host.new) }
    ensures outcome { IsSimulationEnd asked.now.conf result.outcome }
    ensures blame { HasBlame result.outcome (H.faults host.old) (H.faults host.new) }
    ensures later { H.faults host.old ≤ H.faults host.new }
{
    match choose(alloc, &asked.conf, host) {
        Ok(config) => run(alloc, config, asked, host),
        Err(ended) => ended,
    }
}
