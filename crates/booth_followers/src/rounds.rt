//! The rounds of a service: its turns, and the keys that are read again if this site's daemon is silent.
ghost use Rattle.std.specs.Prelude.{◌≡◌, ◌≤◌};
ghost use Rattle.booth_host.specs.Past.{GrewSome};
ghost use Rattle.booth_outcomes.specs.Outcomes.{HasBlame};
ghost use Rattle.booth_following.specs.declared.turns.FollowEnd.TheVariants.{Left, Spent};
ghost use Rattle.booth_followers.specs.Rounds.{AreKeysRead, EndsAs, IsReadAgain, IsService};
ghost use Rattle.booth_followers.specs.Service.{IsFollowAnswered};

use booth_base::PathText;
use booth_following::{FollowEnd, Following, Room, Seat, Setting, Watch, follow};
use booth_host::Host;
use booth_keys::Ring;
use booth_outcomes::{Ended, ErrorLine, Outcome, read_config, read_ring, texts};
use std::alloc::Global;

/// How often the keys are read again at most.
const MOST_ROUNDS: u64 = 1 << 62;

/// A service: the configuration that names its key files, and the ticket that it follows.
#[derive(Drop)]
pub(crate) struct Service {
    pub conf: PathText,
    pub following: Following,
}

fn done() -> Ended
    ensures ends { EndsAs Left result.outcome result.said }
    ensures served { IsFollowAnswered result.outcome }
{
    Ended {
        outcome: Outcome::Done,
        said: ErrorLine::none(),
    }
}

fn spent() -> Ended
    ensures ends { EndsAs Spent result.outcome result.said }
    ensures served { IsFollowAnswered result.outcome }
{
    Ended {
        outcome: Outcome::TurnsSpent,
        said: texts::line_of(b"turns spent"),
    }
}

// Returns the keys in the files that the configuration names now, if they can be read.
fn read_keys<H: Host>(alloc: Global, conf: &PathText, host: &mut H) -> Option<Ring>
    ensures past { GrewSome (AreKeysRead conf.now result) (H.past host.old) (H.past host.new) }
    ensures later { H.faults host.old ≤ H.faults host.new }
{
    let Ok(config) = read_config(alloc, conf, host) else {
        return None;
    };
    match read_ring(alloc, &config, host) {
        Ok(ring) => ring,
        Err(_) => None,
    }
}

// Reads the keys again. If there are none, or they cannot be read, those from before are used.
fn read_again<H: Host, W: Watch>(alloc: Global, service: &mut Service, watch: &mut W, host: &mut H)
    ensures past { GrewSome (IsReadAgain service.old.conf service.old.following service.new.following)
        (H.past host.old) (H.past host.new) }
    ensures conf { service.new.conf ≡ service.old.conf }
    ensures later { H.faults host.old ≤ H.faults host.new }
{
    match read_keys(alloc, &service.conf, host) {
        Some(ring) => {
            service.following.set_ring(Some(ring));
            watch.see_keys(true);
        }
        None => watch.see_keys(false),
    }
}

/// Has the service follow its ticket until the host asks for the end. If this site's daemon is silent, reads the keys
/// again, and continues from the same seat.
pub(crate) fn serve<H: Host, W: Watch>(
    alloc: Global,
    service: &mut Service,
    setting: &mut Setting<W>,
    room: &mut Room,
    host: &mut H,
) -> Ended
    ensures past { GrewSome (IsService setting.old.left service.old.conf service.old.following result.outcome result.said)
        (H.past host.old) (H.past host.new) }
    ensures served { IsFollowAnswered result.outcome }
    ensures blame { HasBlame result.outcome (H.faults host.old) (H.faults host.new) }
    ensures later { H.faults host.old ≤ H.faults host.new }
{
    let mut seat = Seat::first(&service.following, setting.left);
    for _round in 0..MOST_ROUNDS {
        let end = follow(
            &service.following,
            &mut seat,
            room,
            host,
            &mut setting.watch,
        );
        match end {
            FollowEnd::Left => return done(),
            FollowEnd::Spent => return spent(),
            FollowEnd::Unheard => read_again(alloc, service, &mut setting.watch, host),
        }
    }
    spent()
}
