//! The daemon: its opening, and then its turns.
ghost use Rattle.std.specs.Prelude.{◌≤◌, ℕ};
ghost use Rattle.booth_host.specs.Past.{GrewSome};
ghost use Rattle.booth_node.specs.View.{node_config, state_of};
ghost use Rattle.booth_node.specs.Log.{IsNodeLog};
ghost use Rattle.booth_outcomes.specs.Outcomes.{HasBlame, IsServed};
ghost use Rattle.booth_daemon.specs.Ending.{MatchEnding};
ghost use Rattle.booth_daemon.specs.Serving.{AreSpent, IsNodeRun, IsServing, IsStoppedWithin};

use crate::opening::open;
use booth_cli::{DaemonWords, MOST_TURNS};
use booth_host::Host;
use booth_node::{Node, Turn};
use booth_outcomes::{Ended, ErrorLine, Outcome, texts};
use std::alloc::Global;

/// The end of a sequence of turns.
enum Ending {
    /// The last turn stopped.
    Stopped,
    /// All turns were made, and no turn stopped.
    Spent,
}

// Makes this many turns, or fewer if a turn stops.
fn make_turns<H: Host>(node: &mut Node, count: u64, host: &mut H) -> Ending
    ensures past { MatchEnding result
        (GrewSome (λ es. IsStoppedWithin (node_config node.old) (state_of node.old) count
        (state_of node.new) es) (H.past host.old) (H.past host.new))
        (GrewSome (λ es. IsNodeLog (node_config node.old) (state_of node.old) count
        (state_of node.new) es) (H.past host.old) (H.past host.new)) }
    ensures later { H.faults host.old ≤ H.faults host.new }
{
    for _turn in 0..count {
        match node.turn(host) {
            Turn::Stopped => return Ending::Stopped,
            Turn::Went => {}
        }
    }
    Ending::Spent
}

// Returns the end of a daemon after all its turns.
fn spent(turns: Option<u64>) -> Ended
    ensures { AreSpent turns result.outcome result.said }
{
    match turns {
        Some(_) => Ended {
            outcome: Outcome::Done,
            said: ErrorLine::none(),
        },
        None => Ended {
            outcome: Outcome::TurnsSpent,
            said: texts::line_of(b"turns spent"),
        },
    }
}

// Makes the turns of a node, as many as the arguments state. Returns the end of the daemon after them.
fn run_node<H: Host>(node: &mut Node, turns: Option<u64>, host: &mut H) -> Ended
    ensures past { GrewSome (IsNodeRun (node_config node.old) turns (state_of node.old)
        (state_of node.new) result.outcome result.said) (H.past host.old) (H.past host.new) }
    ensures served { IsServed result.outcome }
    ensures blame { (before after : ℕ) → HasBlame result.outcome before after }
    ensures later { H.faults host.old ≤ H.faults host.new }
{
    match make_turns(node, turns.unwrap_or(MOST_TURNS), host) {
        Ending::Stopped => Ended {
            outcome: Outcome::Done,
            said: ErrorLine::none(),
        },
        Ending::Spent => spent(turns),
    }
}

/// Makes the calls of the daemon, up to the call that decides its outcome.
pub(crate) fn serve<H: Host>(alloc: Global, asked: &DaemonWords, host: &mut H) -> Ended
    ensures past { GrewSome (IsServing asked.now result.outcome result.said)
        (H.past host.old) (H.past host.new) }
    ensures served { IsServed result.outcome }
    ensures blame { HasBlame result.outcome (H.faults host.old) (H.faults host.new) }
    ensures later { H.faults host.old ≤ H.faults host.new }
{
    match open(alloc, asked, host) {
        Ok(mut node) => run_node(&mut node, asked.turns, host),
        Err(ended) => ended,
    }
}
