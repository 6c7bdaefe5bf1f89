//! The program `boothd` over any host.
ghost use Rattle.std.specs.Prelude.{◌≤◌, map, string_bytes};
ghost use Rattle.booth_host.specs.Past.{GrewSome};
ghost use Rattle.booth_host.specs.Memory.{quiet_past};
ghost use Rattle.booth_outcomes.specs.Outcomes.{HasBlame, IsBlameless};
ghost use Rattle.booth_daemon.specs.Headline.{IsSafe};
ghost use Rattle.booth_daemon.specs.Run.{FitsWords, IsMade, IsRun};

use crate::auditing::audit;
use crate::serving::serve;
use crate::simulating::simulate;
use crate::status::status;
use booth_cli::{Asked, Program, Refusal, ask};
use booth_host::{Host, QuietHost};
use booth_outcomes::{Ended, Outcome, tell, tell_error, tell_page, texts};
use booth_world::laws;
use std::alloc::Global;

// Makes the calls of a run, up to the call that decides its outcome.
fn run_words<H: Host>(alloc: Global, words: &[String], host: &mut H) -> Ended
    ensures past { GrewSome (IsMade (map string_bytes words.now) result.outcome result.said)
        (H.past host.old) (H.past host.new) }
    ensures words { FitsWords (map string_bytes words.now) result.outcome }
    ensures blame { HasBlame result.outcome (H.faults host.old) (H.faults host.new) }
    ensures later { H.faults host.old ≤ H.faults host.new }
{
    match ask(alloc, Program::Boothd, words) {
        Ok(Asked::Daemon(asked)) => serve(alloc, &asked, host),
        Ok(Asked::Status(lock)) => status(&lock, host),
        Ok(Asked::Simulation(asked)) => simulate(alloc, &asked, host),
        Ok(Asked::Audit(asked)) => audit(alloc, &asked, host),
        Ok(Asked::Client(_)) | Ok(Asked::Move(_)) | Ok(Asked::Follow(_)) => unreachable!(),
        Err(Refusal::Untaken(error)) => tell_error(alloc, Program::Boothd, &error, host),
        Err(Refusal::About(page)) => tell_page(Program::Boothd, page, host),
        Err(Refusal::NoCommand) => Ended {
            outcome: Outcome::Usage(None),
            said: texts::usage_text(Program::Boothd),
        },
        Err(Refusal::Bad(word)) => Ended {
            outcome: Outcome::BadWord(word),
            said: texts::bad_word_text(word),
        },
    }
}

/// Runs `boothd` with these arguments, without the program's name, with this host.
///
/// `daemon` reads the configuration and, if `authfile` is set, its key. It takes the lock, opens its socket, and reads
/// the record of each ticket. Then it makes turns at the member's address until the host returns `Stop`, or as many
/// turns as the arguments state. `status` prints whether a daemon holds the lock. `sim` runs a whole cluster in memory
/// through generated events, and prints the counts. `audit` reads the journals of members. It prints which member held
/// which ticket when, or the first place at which the journals are not true. Help and version are printed, of the
/// program or of a command. For all other arguments the program prints what is wrong with them.
#[tactic(auto, using(crate::proofs::RunLemmas::run_of, crate::proofs::SessionLemmas::safe_run))]
pub fn boothd<H: Host>(alloc: Global, words: &[String], host: &mut H) -> Outcome
    // If the host records its calls, the calls are exactly these, by how the run ended.
    ensures past { GrewSome (IsRun (map string_bytes words.now) result) (H.past host.old) (H.past host.new) }

    // The calls of its daemon are a session of a member. In every world that has this session, no automatic ticket is
    // held at two sites, and no written term falls. A member that names itself as the holder is the holder, until the
    // end that it names. If all sessions of such a world are of version 2, a later holder has a later term. Then the
    // terms of leases distinguish them, even in a world whose clocks only rise.
    ensures worlds { GrewSome (IsSafe (map string_bytes words.now) result) (H.past host.old) (H.past host.new) }

    // These clauses hold for every host, also for a host that records no calls.
    ensures words { FitsWords (map string_bytes words.now) result }
    ensures blame { HasBlame result (H.faults host.old) (H.faults host.new) }
    ensures later { H.faults host.old ≤ H.faults host.new }
{
    laws::one_holder();
    laws::terms();
    laws::later_terms();
    laws::tellers();
    laws::fencing();
    let ended = run_words(alloc, words, host);
    tell(Program::Boothd, &ended.said, host);
    ended.outcome
}

/// Runs `boothd` with a host on which no call returns a failure.
pub fn quiet_boothd(alloc: Global, words: &[String], host: &mut QuietHost) -> Outcome
    ensures past { GrewSome (IsRun (map string_bytes words.now) result) (quiet_past host.old)
        (quiet_past host.new) }
    ensures words { FitsWords (map string_bytes words.now) result }
    ensures blameless { IsBlameless result }
{
    boothd(alloc, words, host)
}
