//! A client: its configuration and key, its socket, and its request.
ghost use Rattle.std.specs.Prelude.{◌≡◌, ◌≤◌, ◌∷◌, [], None, Some, IfErr, IfOk, option_copied};
ghost use Rattle.std.specs.List.{find};
ghost use Rattle.booth_conf.specs.Config.{file_fault, is_site};
ghost use Rattle.booth_host.specs.Past.{GrewBy, GrewSome};
ghost use Rattle.booth_host.specs.Causes.{HasCause};
ghost use Rattle.booth_host.specs.declared.entry.Entry.{Entry};
ghost use Rattle.booth_outcomes.specs.Outcomes.{HasBlame};
ghost use Rattle.booth_tools.specs.Client.{Follows, IsClientLog, IsClusterRead, IsKeyed, destination};
ghost use Rattle.booth_tools.specs.ClientRun.{IsAnswered};

use crate::memory::Memory;
use crate::replies::ask_and_tell;
use booth_base::{Address, PathText, Peer};
use booth_cli::ClientWords;
use booth_conf::{Config, Member};
use booth_host::{Failed, Host, Place};
use booth_keys::Ring;
use booth_outcomes::{Ended, Outcome, read_config, read_ring, texts};
use booth_talk::Asking;
use std::alloc::Global;

/// The configuration of a cluster, and its key, if it has one.
#[derive(Drop)]
pub(crate) struct Cluster {
    pub(crate) config: Config,
    pub(crate) ring: Option<Ring>,
}

/// Reads the key of this configuration.
pub(crate) fn with_key<H: Host>(
    alloc: Global,
    config: Config,
    host: &mut H,
) -> Result<Cluster, Ended>
    requires { file_fault config.members config.tickets ≡ None }
    ensures past { GrewSome (IsKeyed config result) (H.past host.old) (H.past host.new) }
    ensures same { IfOk result (λ cluster. cluster.config ≡ config) }
    ensures whole { IfOk result (λ cluster. file_fault cluster.config.members cluster.config.tickets ≡ None) }
    ensures served { IfErr result (λ ended. IsAnswered ended.outcome) }
    ensures blame { IfErr result (λ ended. HasBlame ended.outcome (H.faults host.old) (H.faults host.new)) }
    ensures later { H.faults host.old ≤ H.faults host.new }
{
    let ring = read_ring(alloc, &config, host)?;
    Ok(Cluster { config, ring })
}

fn read_cluster<H: Host>(alloc: Global, path: &PathText, host: &mut H) -> Result<Cluster, Ended>
    ensures past { GrewSome (IsClusterRead path.now result) (H.past host.old) (H.past host.new) }
    ensures whole { IfOk result (λ cluster. file_fault cluster.config.members cluster.config.tickets ≡ None) }
    ensures served { IfErr result (λ ended. IsAnswered ended.outcome) }
    ensures blame { IfErr result (λ ended. HasBlame ended.outcome (H.faults host.old) (H.faults host.new)) }
    ensures later { H.faults host.old ≤ H.faults host.new }
{
    let config = read_config(alloc, path, host)?;
    with_key(alloc, config, host)
}

fn find_site(config: &Config) -> Option<&Member>
    ensures { option_copied result ≡ find is_site config.now.members }
{
    config.members().iter().find(|member| member.site)
}

// Returns the first site of a configuration, each of which has one.
fn first_site(config: &Config) -> Member
    requires { file_fault config.now.members config.now.tickets ≡ None }
    ensures { find is_site config.now.members ≡ Some result }
{
    match find_site(config) {
        Some(member) => *member,
        None => unreachable!(),
    }
}

/// Returns the receiver of a client's request.
pub(crate) fn destination(site: Option<Address>, config: &Config) -> Peer
    requires { file_fault config.now.members config.now.tickets ≡ None }
    ensures { destination site config.now ≡ Some result }
{
    let address = match site {
        Some(address) => address,
        None => first_site(config).address,
    };
    Peer {
        address,
        port: config.port(),
    }
}

fn no_path() -> PathText
    ensures { result ≡ [] }
{
    let Ok(path) = PathText::read("") else {
        unreachable!()
    };
    path
}

/// Opens a socket at any address and port, and no directory.
pub(crate) fn open_socket<H: Host>(host: &mut H) -> Result<(), Failed>
    ensures past { GrewBy (H.past host.old) (H.past host.new) (Entry.Open None 0 [] [] result ∷ []) }
    ensures cause { HasCause (H.faults host.old) (H.faults host.new) result }
{
    let place = Place {
        local: None,
        port: 0,
        records: no_path(),
        conf_path: no_path(),
    };
    host.open(&place)
}

// Does the rest of the run, after the reads: opens the socket, reads the clock, and sends the request. Its memory is
// allocated before these.
fn converse<H: Host>(alloc: Global, asked: ClientWords, cluster: Cluster, host: &mut H) -> Ended
    requires { file_fault cluster.config.members cluster.config.tickets ≡ None }
    ensures past { GrewSome (Follows asked cluster.config cluster.ring result.outcome result.said)
        (H.past host.old) (H.past host.new) }
    ensures served { IsAnswered result.outcome }
    ensures blame { HasBlame result.outcome (H.faults host.old) (H.faults host.new) }
    ensures later { H.faults host.old ≤ H.faults host.new }
{
    let Ok(mut memory) = Memory::new(alloc, &asked.order) else {
        return Ended::out_of_memory();
    };
    let to = destination(asked.site, &cluster.config);
    match open_socket(host) {
        Ok(()) => {}
        Err(Failed) => {
            return Ended {
                outcome: Outcome::OpenFault,
                said: texts::unopened_text(),
            };
        }
    }
    let start = host.now();
    let asking = Asking {
        order: asked.order,
        config: cluster.config,
        ring: cluster.ring,
    };
    ask_and_tell(alloc, &asking, &to, start, &mut memory, host)
}

/// Makes the calls of the client, up to the call that decides its outcome.
pub(crate) fn ask_daemon<H: Host>(alloc: Global, asked: ClientWords, host: &mut H) -> Ended
    ensures past { GrewSome (IsClientLog asked result.outcome result.said)
        (H.past host.old) (H.past host.new) }
    ensures served { IsAnswered result.outcome }
    ensures blame { HasBlame result.outcome (H.faults host.old) (H.faults host.new) }
    ensures later { H.faults host.old ≤ H.faults host.new }
{
    match read_cluster(alloc, &asked.conf, host) {
        Ok(cluster) => converse(alloc, asked, cluster, host),
        Err(ended) => ended,
    }
}
