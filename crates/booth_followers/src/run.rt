//! The program `booth-follow` over any host.
ghost use Rattle.std.specs.Prelude.{◌≤◌, map, string_bytes};
ghost use Rattle.booth_host.specs.Past.{GrewSome};
ghost use Rattle.booth_host.specs.Memory.{quiet_past};
ghost use Rattle.booth_outcomes.specs.Outcomes.{HasBlame, IsBlameless};
ghost use Rattle.booth_followers.specs.Run.{FitsFollowWords, IsFollowMade, IsFollowRun};

use crate::service::follow_ticket;
use booth_cli::{Asked, Program, Refusal, ask};
use booth_following::{Setting, Watch};
use booth_host::{Host, QuietHost};
use booth_outcomes::{Ended, Outcome, tell, tell_error, texts};
use std::alloc::Global;

// Makes the calls of a run, up to the one that decides its outcome.
fn run_words<H: Host, W: Watch>(
    alloc: Global,
    words: &[String],
    setting: &mut Setting<W>,
    host: &mut H,
) -> Ended
    ensures past { GrewSome (IsFollowMade setting.old.left (map string_bytes words.now) result.outcome result.said)
        (H.past host.old) (H.past host.new) }
    ensures words { FitsFollowWords (map string_bytes words.now) result.outcome }
    ensures blame { HasBlame result.outcome (H.faults host.old) (H.faults host.new) }
    ensures later { H.faults host.old ≤ H.faults host.new }
{
    match ask(alloc, Program::BoothFollow, words) {
        Ok(Asked::Follow(asked)) => follow_ticket(alloc, asked, setting, host),
        Ok(Asked::Daemon(_)) | Ok(Asked::Status(_)) | Ok(Asked::Simulation(_)) => unreachable!(),
        // (taken out of the arguments, since its journals own memory)
        Ok(Asked::Audit(_asked)) => unreachable!(),
        Ok(Asked::Client(_)) | Ok(Asked::Move(_)) => unreachable!(),
        Err(Refusal::Untaken(error)) => tell_error(alloc, Program::BoothFollow, &error, host),
        Err(Refusal::About(_)) => unreachable!(),
        Err(Refusal::NoCommand) => Ended {
            outcome: Outcome::Usage(None),
            said: texts::usage_text(Program::BoothFollow),
        },
        Err(Refusal::Bad(word)) => Ended {
            outcome: Outcome::BadWord(word),
            said: texts::bad_word_text(word),
        },
    }
}

/// Runs `booth-follow` with these arguments, the first of which is the name that it was run by, with this host.
///
/// It reads the configuration, checks that the ticket can be followed at this site with these margins, reads the key
/// if `authfile` is set, and opens a socket. Then the service follows its ticket: the follower asks the daemon of
/// this site about the ticket once a second, and runs the program with `check`, `renew`, `start`, `stop` or `kill`
/// after its arguments, until the host returns `Stop`. The setting says whether an earlier follower left the service
/// running until an end.
pub fn booth_follow<H: Host, W: Watch>(
    alloc: Global,
    words: &[String],
    setting: &mut Setting<W>,
    host: &mut H,
) -> Outcome
    // If the host records its calls, they are exactly these, by how the run ended.
    ensures past { GrewSome (IsFollowRun setting.old.left (map string_bytes words.now) result)
        (H.past host.old) (H.past host.new) }

    // For every host.
    ensures words { FitsFollowWords (map string_bytes words.now) result }
    ensures blame { HasBlame result (H.faults host.old) (H.faults host.new) }
    ensures later { H.faults host.old ≤ H.faults host.new }
{
    let ended = run_words(alloc, words, setting, host);
    tell(Program::BoothFollow, &ended.said, host);
    ended.outcome
}

/// Runs `booth-follow` with a host that has no failures: no call returns a failure.
pub fn quiet_booth_follow<W: Watch>(
    alloc: Global,
    words: &[String],
    setting: &mut Setting<W>,
    host: &mut QuietHost,
) -> Outcome
    ensures past { GrewSome (IsFollowRun setting.old.left (map string_bytes words.now) result) (quiet_past host.old)
        (quiet_past host.new) }
    ensures words { FitsFollowWords (map string_bytes words.now) result }
    ensures blameless { IsBlameless result }
{
    booth_follow(alloc, words, setting, host)
}
