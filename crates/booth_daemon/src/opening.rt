//! The opening of the daemon: its calls up to the first turn, stage by stage.
ghost use Rattle.std.specs.Prelude.{◌≤◌, ◌∷◌, [], Some, IfErr, IsSome, position};
ghost use Rattle.booth_base.specs.Address.{id_of};
ghost use Rattle.booth_conf.specs.Config.{has_id};
ghost use Rattle.booth_host.specs.Past.{GrewBy, GrewSome};
ghost use Rattle.booth_host.specs.Causes.{HasCause};
ghost use Rattle.booth_host.specs.declared.entry.Entry.{Entry};
ghost use Rattle.booth_outcomes.specs.Outcomes.{HasBlame, IsServed};
ghost use Rattle.booth_daemon.specs.Opening.{IsLocked, IsNodeOpened};
ghost use Rattle.booth_daemon.specs.Serving.{IsOpened};

use crate::fitness::admit;
use crate::records::read_records;
use booth_base::PathText;
use booth_cli::DaemonWords;
use booth_conf::Config;
use booth_host::{Failed, Host, Place};
use booth_keys::Ring;
use booth_node::Node;
use booth_outcomes::{Ended, Outcome, read_config, read_ring, texts};
use std::alloc::Global;

// Takes the lock, which only this daemon may hold.
fn lock<H: Host>(path: &PathText, host: &mut H) -> Result<(), Ended>
    ensures past { GrewSome (IsLocked path.now result) (H.past host.old) (H.past host.new) }
    ensures served { IfErr result (λ ended. IsServed ended.outcome) }
    ensures blame { IfErr result (λ ended. HasBlame ended.outcome (H.faults host.old) (H.faults host.new)) }
    ensures later { H.faults host.old ≤ H.faults host.new }
{
    match host.lock(path.as_str()) {
        Ok(true) => Ok(()),
        Ok(false) => Err(Ended {
            outcome: Outcome::Running,
            said: texts::line_of(b"already running"),
        }),
        Err(Failed) => Err(Ended {
            outcome: Outcome::LockFault,
            said: texts::unlocked_text(path),
        }),
    }
}

// Opens the socket of this member, at this port, and the directory of its records.
fn open_socket<H: Host>(asked: &DaemonWords, port: u16, host: &mut H) -> Result<(), Failed>
    ensures past { GrewBy (H.past host.old) (H.past host.new)
        (Entry.Open (Some asked.now.site) port asked.now.records asked.now.conf result ∷ []) }
    ensures cause { HasCause (H.faults host.old) (H.faults host.new) result }
{
    let place = Place {
        local: Some(asked.site),
        port,
        records: asked.records.copy(),
        conf_path: asked.conf.copy(),
    };
    host.open(&place)
}

// Opens the node of this member, after its socket: its tickets start from their records at the clock's reading.
fn open_node<H: Host>(
    alloc: Global,
    asked: &DaemonWords,
    config: Config,
    ring: Option<Ring>,
    host: &mut H,
) -> Result<Node, Ended>
    requires { IsSome (position (has_id (record { 0 = id_of asked.now.site })) config.members) }
    ensures past { GrewSome (IsNodeOpened asked.now config ring result)
        (H.past host.old) (H.past host.new) }
    ensures served { IfErr result (λ ended. IsServed ended.outcome) }
    ensures blame { IfErr result (λ ended. HasBlame ended.outcome (H.faults host.old) (H.faults host.new)) }
    ensures later { H.faults host.old ≤ H.faults host.new }
{
    let reading = host.now();
    match open_socket(asked, config.port(), host) {
        Ok(()) => {}
        Err(Failed) => {
            return Err(Ended {
                outcome: Outcome::OpenFault,
                said: texts::unopened_text(),
            });
        }
    }
    let records = read_records(alloc, config.tickets(), host)?;
    match Node::open_ring(alloc, config, ring, asked.site.id(), &records, reading) {
        Ok(node) => Ok(node),
        Err(_) => Err(Ended::out_of_memory()),
    }
}

/// Makes the whole opening, up to a node that can make its first turn.
pub(crate) fn open<H: Host>(alloc: Global, asked: &DaemonWords, host: &mut H) -> Result<Node, Ended>
    ensures past { GrewSome (IsOpened asked.now result) (H.past host.old) (H.past host.new) }
    ensures served { IfErr result (λ ended. IsServed ended.outcome) }
    ensures blame { IfErr result (λ ended. HasBlame ended.outcome (H.faults host.old) (H.faults host.new)) }
    ensures later { H.faults host.old ≤ H.faults host.new }
{
    let config = read_config(alloc, &asked.conf, host)?;
    admit(&config, &asked.site)?;
    let ring = read_ring(alloc, &config, host)?;
    lock(&asked.lock, host)?;
    open_node(alloc, asked, config, ring, host)
}
