//! A move: its configuration, its target and key, its socket, and its requests.
ghost use Rattle.std.specs.Prelude.{◌≡◌, ◌≤◌, None, IfOk, IsSomeAnd, IsTrue, slice_get};
ghost use Rattle.booth_conf.specs.Config.{file_fault};
ghost use Rattle.booth_host.specs.Past.{GrewSome};
ghost use Rattle.booth_talk.specs.Parts.{AreNone};
ghost use Rattle.booth_outcomes.specs.Outcomes.{HasBlame};
ghost use Rattle.booth_tools.specs.ClientRun.{IsMoveAnswered};
ghost use Rattle.booth_tools.specs.MoveRun.{FollowsConfig, FollowsKey, FollowsSite, IsMoveLog, IsMoving, is_site_at, site_at};

use crate::client::{Cluster, destination, open_socket, with_key};
use crate::move_look::look;
use crate::move_replies::carry_and_tell;
use booth_base::Address;
use booth_cli::MoveWords;
use booth_conf::{Config, Member};
use booth_host::{Failed, Host};
use booth_move::{MoveRoom, Moving};
use booth_outcomes::{Ended, Outcome, read_config, texts};
use booth_talk::{Asking, ListRoom, Order};
use std::alloc::{AllocError, Global};

fn is_site_at(address: &Address, member: &Member) -> bool
    ensures { result ≡ is_site_at address.now member.now }
{
    member.site && *address == member.address
}

// Returns the place of the site with this address.
fn site_at(address: &Address, config: &Config) -> Option<usize>
    ensures { result ≡ site_at address.now config.now }
{
    config
        .members()
        .iter()
        .position(|member| is_site_at(address, member))
}

// Does the rest of the run, after the look: reads the clock, and moves the ticket to the member at this place.
fn start_move<H: Host>(
    asked: &MoveWords,
    asking: Asking,
    target: usize,
    room: &mut MoveRoom,
    host: &mut H,
) -> Ended
    requires whole { file_fault asking.config.members asking.config.tickets ≡ None }
    requires site { IsSomeAnd (slice_get asking.config.members target) (λ m. IsTrue m.site) }
    ensures past { GrewSome (IsMoving asked.now asking.config asking.ring target result.outcome result.said)
        (H.past host.old) (H.past host.new) }
    ensures served { IsMoveAnswered result.outcome }
    ensures blame { HasBlame result.outcome (H.faults host.old) (H.faults host.new) }
    ensures later { H.faults host.old ≤ H.faults host.new }
{
    let to = destination(asked.site, &asking.config);
    let start = host.now();
    let moving = Moving {
        config: asking.config,
        ring: asking.ring,
        ticket: asked.ticket.copy(),
        target,
        wait: asked.wait,
        to,
    };
    carry_and_tell(asked, &moving, start, room, host)
}

/// The memory of a move, and of the look before it.
#[derive(Drop)]
struct MoveMemory {
    list: ListRoom,
    room: MoveRoom,
}

impl MoveMemory {
    fn new(alloc: Global) -> Result<MoveMemory, AllocError>
        ensures { IfOk result (λ memory. AreNone memory.list.parts) }
    {
        Ok(MoveMemory {
            list: ListRoom::new(alloc)?,
            room: MoveRoom::new(alloc)?,
        })
    }
}

// Does the rest of the run, after the key: opens the socket, looks at the target, and moves the ticket. All memory
// except that for the list's text is allocated before these.
fn set_out<H: Host>(
    alloc: Global,
    asked: MoveWords,
    cluster: Cluster,
    target: usize,
    host: &mut H,
) -> Ended
    requires whole { file_fault cluster.config.members cluster.config.tickets ≡ None }
    requires site { IsSomeAnd (slice_get cluster.config.members target) (λ m. IsTrue m.site) }
    ensures past { GrewSome (FollowsKey asked cluster.config cluster.ring target result.outcome result.said)
        (H.past host.old) (H.past host.new) }
    ensures served { IsMoveAnswered result.outcome }
    ensures blame { HasBlame result.outcome (H.faults host.old) (H.faults host.new) }
    ensures later { H.faults host.old ≤ H.faults host.new }
{
    let Ok(mut memory) = MoveMemory::new(alloc) else {
        return Ended::out_of_memory();
    };
    match open_socket(host) {
        Ok(()) => {}
        Err(Failed) => {
            return Ended {
                outcome: Outcome::OpenFault,
                said: texts::unopened_text(),
            };
        }
    }
    let asking = Asking {
        order: Order::List,
        config: cluster.config,
        ring: cluster.ring,
    };
    match look(alloc, &asked, &asking, &mut memory.list, host) {
        Some(ended) => ended,
        None => start_move(&asked, asking, target, &mut memory.room, host),
    }
}

// Continues if the target is a site: reads the key, and then does the rest.
fn move_to<H: Host>(
    alloc: Global,
    asked: MoveWords,
    config: Config,
    target: usize,
    host: &mut H,
) -> Ended
    requires whole { file_fault config.members config.tickets ≡ None }
    requires site { IsSomeAnd (slice_get config.members target) (λ m. IsTrue m.site) }
    ensures past { GrewSome (FollowsSite asked config target result.outcome result.said)
        (H.past host.old) (H.past host.new) }
    ensures served { IsMoveAnswered result.outcome }
    ensures blame { HasBlame result.outcome (H.faults host.old) (H.faults host.new) }
    ensures later { H.faults host.old ≤ H.faults host.new }
{
    match with_key(alloc, config, host) {
        Ok(cluster) => set_out(alloc, asked, cluster, target, host),
        Err(ended) => ended,
    }
}

// Does the rest of the run, after the configuration.
fn move_within<H: Host>(alloc: Global, asked: MoveWords, config: Config, host: &mut H) -> Ended
    requires { file_fault config.members config.tickets ≡ None }
    ensures past { GrewSome (FollowsConfig asked config result.outcome result.said)
        (H.past host.old) (H.past host.new) }
    ensures served { IsMoveAnswered result.outcome }
    ensures blame { HasBlame result.outcome (H.faults host.old) (H.faults host.new) }
    ensures later { H.faults host.old ≤ H.faults host.new }
{
    match site_at(&asked.target, &config) {
        Some(target) => move_to(alloc, asked, config, target, host),
        None => Ended {
            outcome: Outcome::NotSite,
            said: texts::not_site_text(&asked.target),
        },
    }
}

/// Makes the calls of the move, up to the call that decides its outcome.
pub(crate) fn move_ticket<H: Host>(alloc: Global, asked: MoveWords, host: &mut H) -> Ended
    ensures past { GrewSome (IsMoveLog asked result.outcome result.said)
        (H.past host.old) (H.past host.new) }
    ensures served { IsMoveAnswered result.outcome }
    ensures blame { HasBlame result.outcome (H.faults host.old) (H.faults host.new) }
    ensures later { H.faults host.old ≤ H.faults host.new }
{
    match read_config(alloc, &asked.conf, host) {
        Ok(config) => move_within(alloc, asked, config, host),
        Err(ended) => ended,
    }
}
