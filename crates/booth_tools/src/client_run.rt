//! The programs `booth` and `geostore` over any host.
ghost use Rattle.std.specs.Prelude.{◌≡◌, ◌≤◌, map, string_bytes};
ghost use Rattle.booth_host.specs.Past.{GrewSome};
ghost use Rattle.booth_host.specs.Memory.{quiet_past};
ghost use Rattle.booth_outcomes.specs.Outcomes.{HasBlame, IsBlameless};
ghost use Rattle.booth_cli.specs.Asking.{IsClient};
ghost use Rattle.booth_tools.specs.ClientRun.{FitsClientWords, IsClientMade, IsClientRun, passed};

use crate::client::ask_daemon;
use crate::move_run::move_ticket;
use booth_cli::{Asked, Program, Refusal, ask};
use booth_host::{Host, QuietHost};
use booth_outcomes::{Ended, Outcome, tell, tell_error, tell_page, texts};
use std::alloc::Global;

/// Returns the arguments, without a leading `client`.
pub fn passed(words: &[String]) -> &[String]
    ensures { map string_bytes result.now ≡ passed (map string_bytes words.now) }
{
    let [first, rest @ ..] = words else {
        return words;
    };
    if first.as_str() == "client" {
        rest
    } else {
        words
    }
}

// Makes the calls of a client's run, up to the call that decides its outcome.
fn run_words<H: Host>(alloc: Global, program: Program, words: &[String], host: &mut H) -> Ended
    requires client { IsClient program }
    ensures past { GrewSome (IsClientMade program (map string_bytes words.now) result.outcome result.said)
        (H.past host.old) (H.past host.new) }
    ensures words { FitsClientWords program (map string_bytes words.now) result.outcome }
    ensures blame { HasBlame result.outcome (H.faults host.old) (H.faults host.new) }
    ensures later { H.faults host.old ≤ H.faults host.new }
{
    match ask(alloc, program, words) {
        Ok(Asked::Client(asked)) => ask_daemon(alloc, asked, host),
        Ok(Asked::Move(asked)) => move_ticket(alloc, asked, host),
        Ok(Asked::Daemon(_)) | Ok(Asked::Status(_)) | Ok(Asked::Simulation(_)) => unreachable!(),
        // (taken out of the arguments, since its journals own memory)
        Ok(Asked::Audit(_asked)) => unreachable!(),
        Ok(Asked::Follow(_)) => unreachable!(),
        Err(Refusal::Untaken(error)) => tell_error(alloc, program, &error, host),
        Err(Refusal::About(page)) => tell_page(program, page, host),
        Err(Refusal::NoCommand) => Ended {
            outcome: Outcome::Usage(None),
            said: texts::usage_text(program),
        },
        Err(Refusal::Bad(word)) => Ended {
            outcome: Outcome::BadWord(word),
            said: texts::bad_word_text(word),
        },
    }
}

// Runs a client.
fn run_client<H: Host>(alloc: Global, program: Program, words: &[String], host: &mut H) -> Outcome
    requires client { IsClient program }
    ensures past { GrewSome (IsClientRun program (map string_bytes words.now) result)
        (H.past host.old) (H.past host.new) }
    ensures words { FitsClientWords program (map string_bytes words.now) result }
    ensures blame { HasBlame result (H.faults host.old) (H.faults host.new) }
    ensures later { H.faults host.old ≤ H.faults host.new }
{
    let ended = run_words(alloc, program, words, host);
    tell(program, &ended.said, host);
    ended.outcome
}

/// Runs `booth` with these arguments, without the program's name, with this host. A leading `client` is ignored.
///
/// It reads the configuration and, if `authfile` is set, its key; opens a socket; reads the clock; and sends one
/// request to the daemon in the arguments, or to the first site. It then waits for the answer; if the answer to a
/// revoke names another owner, the revoke is sent on to that member, once. It prints the content of a good answer,
/// and why any other refuses.
///
/// A move does the same if its target is a site; otherwise it ends before the key is read. When the answer to the
/// revoke says that the ticket was released, it sends the target a grant, again while the target is busy, and prints
/// how the move ended.
pub fn booth<H: Host>(alloc: Global, words: &[String], host: &mut H) -> Outcome
    // If the host records its calls, they are exactly these, by how the run ended.
    ensures past { GrewSome (IsClientRun Program.Booth (passed (map string_bytes words.now)) result)
        (H.past host.old) (H.past host.new) }

    // For every host.
    ensures words { FitsClientWords Program.Booth (passed (map string_bytes words.now)) result }
    ensures blame { HasBlame result (H.faults host.old) (H.faults host.new) }
    ensures later { H.faults host.old ≤ H.faults host.new }
{
    run_client(alloc, Program::Booth, passed(words), host)
}

/// Runs `booth` with a host that has no failures: no call returns a failure.
pub fn quiet_booth(alloc: Global, words: &[String], host: &mut QuietHost) -> Outcome
    ensures past { GrewSome (IsClientRun Program.Booth (passed (map string_bytes words.now)) result)
        (quiet_past host.old) (quiet_past host.new) }
    ensures words { FitsClientWords Program.Booth (passed (map string_bytes words.now)) result }
    ensures blameless { IsBlameless result }
{
    booth(alloc, words, host)
}

/// Runs `geostore` with these arguments, without the program's name, with this host.
///
/// It works like `booth`: it reads the configuration and, if `authfile` is set, its key; opens a socket; reads the
/// clock; sends one request to the daemon in the arguments, or to the first site; and waits for the answer. It prints
/// a value as a line, and a list as the daemon sent it; after an attribute was set or deleted it prints nothing. It
/// prints why an answer refuses.
pub fn geostore<H: Host>(alloc: Global, words: &[String], host: &mut H) -> Outcome
    // If the host records its calls, they are exactly these, by how the run ended.
    ensures past { GrewSome (IsClientRun Program.Geostore (map string_bytes words.now) result)
        (H.past host.old) (H.past host.new) }

    // For every host.
    ensures words { FitsClientWords Program.Geostore (map string_bytes words.now) result }
    ensures blame { HasBlame result (H.faults host.old) (H.faults host.new) }
    ensures later { H.faults host.old ≤ H.faults host.new }
{
    run_client(alloc, Program::Geostore, words, host)
}

/// Runs `geostore` with a host that has no failures: no call returns a failure.
pub fn quiet_geostore(alloc: Global, words: &[String], host: &mut QuietHost) -> Outcome
    ensures past { GrewSome (IsClientRun Program.Geostore (map string_bytes words.now) result)
        (quiet_past host.old) (quiet_past host.new) }
    ensures words { FitsClientWords Program.Geostore (map string_bytes words.now) result }
    ensures blameless { IsBlameless result }
{
    geostore(alloc, words, host)
}
