//! A service: its configuration, its margins and key, its socket, and how it follows its ticket.
ghost use Rattle.std.specs.Prelude.{◌≡◌, ◌≤◌, ◌∷◌, [], None};
ghost use Rattle.booth_host.specs.Past.{GrewBy, GrewSome};
ghost use Rattle.booth_host.specs.Causes.{HasCause};
ghost use Rattle.booth_host.specs.declared.entry.Entry.{Entry};
ghost use Rattle.booth_outcomes.specs.Outcomes.{HasBlame};
ghost use Rattle.booth_followers.specs.Service.{FollowsConfig, FollowsKey, FollowsMargins, IsFollowAnswered, IsFollowLog, IsStarted};

use crate::rounds::{Service, serve};
use booth_base::{PathText, Peer};
use booth_cli::FollowWords;
use booth_conf::Config;
use booth_follow_rule::Margins;
use booth_following::{Following, Room, ServiceOptions, Setting, Watch, margins_for};
use booth_host::{Failed, Host, Place};
use booth_keys::Ring;
use booth_outcomes::{Ended, Outcome, read_config, read_ring, texts};
use std::alloc::Global;

fn no_path() -> PathText
    ensures { result ≡ [] }
{
    let Ok(path) = PathText::read("") else {
        unreachable!()
    };
    path
}

// Opens a socket at any address and port, and no directory. Programs get this configuration's path.
fn open_socket<H: Host>(conf: PathText, host: &mut H) -> Result<(), Failed>
    ensures past { GrewBy (H.past host.old) (H.past host.new) (Entry.Open None 0 [] conf result ∷ []) }
    ensures cause { HasCause (H.faults host.old) (H.faults host.new) result }
{
    let place = Place {
        local: None,
        port: 0,
        records: no_path(),
        conf_path: conf,
    };
    host.open(&place)
}

// Does what follows the memory: opens the socket, and starts the service.
fn start<H: Host, W: Watch>(
    alloc: Global,
    service: &mut Service,
    setting: &mut Setting<W>,
    room: &mut Room,
    host: &mut H,
) -> Ended
    ensures past { GrewSome (IsStarted setting.old.left service.old.conf service.old.following result.outcome result.said)
        (H.past host.old) (H.past host.new) }
    ensures served { IsFollowAnswered result.outcome }
    ensures blame { HasBlame result.outcome (H.faults host.old) (H.faults host.new) }
    ensures later { H.faults host.old ≤ H.faults host.new }
{
    match open_socket(service.conf.copy(), host) {
        Ok(()) => serve(alloc, service, setting, room, host),
        Err(Failed) => Ended {
            outcome: Outcome::OpenFault,
            said: texts::unopened_text(),
        },
    }
}

// Does what follows the key. All memory is allocated before the socket.
fn set_out<H: Host, W: Watch>(
    alloc: Global,
    asked: FollowWords,
    config: Config,
    ring: Option<Ring>,
    margins: Margins,
    setting: &mut Setting<W>,
    host: &mut H,
) -> Ended
    ensures past { GrewSome (FollowsKey setting.old.left asked config ring margins result.outcome result.said)
        (H.past host.old) (H.past host.new) }
    ensures served { IsFollowAnswered result.outcome }
    ensures blame { HasBlame result.outcome (H.faults host.old) (H.faults host.new) }
    ensures later { H.faults host.old ≤ H.faults host.new }
{
    let to = Peer {
        address: asked.site,
        port: config.port(),
    };
    let Ok(mut room) = Room::new(alloc) else {
        return Ended::out_of_memory();
    };
    let options = ServiceOptions {
        programs: asked.program,
        margins,
        restarts: asked.restart,
    };
    let Ok(following) = Following::new(alloc, ring, asked.ticket, to, options) else {
        return Ended::out_of_memory();
    };
    let mut service = Service {
        conf: asked.conf,
        following,
    };
    start(alloc, &mut service, setting, &mut room, host)
}

// Continues if the margins fit: reads the key, and then does the rest.
fn follow_with<H: Host, W: Watch>(
    alloc: Global,
    asked: FollowWords,
    config: Config,
    margins: Margins,
    setting: &mut Setting<W>,
    host: &mut H,
) -> Ended
    ensures past { GrewSome (FollowsMargins setting.old.left asked config margins result.outcome result.said)
        (H.past host.old) (H.past host.new) }
    ensures served { IsFollowAnswered result.outcome }
    ensures blame { HasBlame result.outcome (H.faults host.old) (H.faults host.new) }
    ensures later { H.faults host.old ≤ H.faults host.new }
{
    match read_ring(alloc, &config, host) {
        Ok(ring) => set_out(alloc, asked, config, ring, margins, setting, host),
        Err(ended) => ended,
    }
}

// Does what follows the configuration.
fn follow_within<H: Host, W: Watch>(
    alloc: Global,
    asked: FollowWords,
    config: Config,
    setting: &mut Setting<W>,
    host: &mut H,
) -> Ended
    ensures past { GrewSome (FollowsConfig setting.old.left asked config result.outcome result.said)
        (H.past host.old) (H.past host.new) }
    ensures served { IsFollowAnswered result.outcome }
    ensures blame { HasBlame result.outcome (H.faults host.old) (H.faults host.new) }
    ensures later { H.faults host.old ≤ H.faults host.new }
{
    match margins_for(
        &config,
        &asked.ticket,
        &asked.site,
        asked.margin,
        asked.kill,
    ) {
        Ok(margins) => follow_with(alloc, asked, config, margins, setting, host),
        Err(fault) => Ended {
            outcome: Outcome::NotFollowed(fault),
            said: texts::not_followed_text(&asked.ticket, fault),
        },
    }
}

/// Makes the calls of the service, up to the one that decides its outcome.
pub(crate) fn follow_ticket<H: Host, W: Watch>(
    alloc: Global,
    asked: FollowWords,
    setting: &mut Setting<W>,
    host: &mut H,
) -> Ended
    ensures past { GrewSome (IsFollowLog setting.old.left asked result.outcome result.said)
        (H.past host.old) (H.past host.new) }
    ensures served { IsFollowAnswered result.outcome }
    ensures blame { HasBlame result.outcome (H.faults host.old) (H.faults host.new) }
    ensures later { H.faults host.old ≤ H.faults host.new }
{
    match read_config(alloc, &asked.conf, host) {
        Ok(config) => follow_within(alloc, asked, config, setting, host),
        Err(ended) => ended,
    }
}
