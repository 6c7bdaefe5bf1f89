//! The runs of a node's handlers (jobs): how each is passed to the host, and which tickets are informed when it ends.
ghost use Rattle.std.specs.Prelude.{◌≡◌, ◌≤◌, ◌<◌, ◌^◌, [], map, option_map, option_copied, length, position};
ghost use Rattle.std.specs.List.{range_with_len};
ghost use Rattle.booth_conf.specs.Lookups.{is_called};
ghost use Rattle.booth_node.specs.Jobs.{address_in, handler_at, job_at, job_of, own_address, words_at};
ghost use Rattle.booth_node.specs.Led.{Led};
ghost use Rattle.booth_node.specs.Reaction.{IsDone, deadline_of, each_over};
ghost use Rattle.booth_node.specs.View.{state_with};

use crate::deadlines::look_again;
use crate::opening::own_place;
use crate::tickets::TicketTable;
use crate::{Common, NodeConfig};
use booth_base::{Address, Name, PathText};
use booth_chain::Wheel;
use booth_conf::Member;
use booth_host::{Host, Job};
use booth_ticket::Service;

// Returns the handler of the ticket with this index, if it has one.
fn handler_at(node: &NodeConfig, place: usize) -> Option<&PathText>
    ensures { option_map (λ handler. handler.now) result ≡ handler_at node.now place }
{
    node.config.tickets().get(place)?.handler.as_ref()
}

/// Returns the number of the job that the ticket with this index may start, if it has a handler.
pub(crate) fn job_at(node: &NodeConfig, place: usize, common: &Common) -> Option<u64>
    ensures { result ≡ job_at node.now place common.now }
{
    handler_at(node, place)?;
    Some(common.next_job)
}

fn no_words() -> PathText
    ensures { result ≡ [] }
{
    match PathText::read("") {
        Ok(words) => words,
        Err(_) => unreachable!(),
    }
}

// Returns the handler of the ticket at this place, or an empty path.
fn words_at(node: &NodeConfig, place: Option<usize>) -> PathText
    ensures { result ≡ words_at node.now place }
{
    let Some(place) = place else {
        return no_words();
    };
    match handler_at(node, place) {
        Some(handler) => handler.copy(),
        None => no_words(),
    }
}

fn address_in(member: Option<&Member>) -> Address
    ensures { result ≡ address_in (option_copied member.entry) }
{
    match member {
        Some(member) => member.address,
        None => Address::V4([0; 4]),
    }
}

// Returns the address of this member.
fn own_address(node: &NodeConfig) -> Address
    ensures { result ≡ own_address node.now }
{
    address_in(node.config.members().get(own_place(node)))
}

/// Returns the job of the ticket with this name, under this number.
pub(crate) fn job_of(node: &NodeConfig, name: &Name, number: u64, expires: u64) -> Job
    ensures { result ≡ job_of node.now name.now number expires }
{
    Job {
        number,
        ticket: name.copy(),
        handler: words_at(node, node.config.ticket(name)),
        local: own_address(node),
        expires,
    }
}

/// Informs each ticket, in the order of the configuration, that a job has ended. Sets the next deadline of each.
pub(crate) fn end_each<H: Host>(
    table: &mut TicketTable,
    wheel: &mut Wheel,
    job: u64,
    service: Service,
    now: u64,
    host: &mut H,
)
    requires early { now < 2 ^ 62 }
    requires timed { wheel.old.deadlines ≡ map deadline_of table.old.tickets.items }
    ensures led { Led H.past H.faults (IsDone table.old.node.ring) (each_over table.old.node now job service
        (range_with_len 0 (length table.old.tickets.items)) (state_with table.old now)) (state_with table.new
        now) host.old host.new }
    ensures timed { wheel.new.deadlines ≡ map deadline_of table.new.tickets.items }
    ensures last { wheel.new.last ≡ wheel.old.last }
    ensures node { table.new.node ≡ table.old.node }
    ensures tickets { length table.new.tickets.items ≡ length table.old.tickets.items }
{
    for place in 0..table.tickets.len() {
        table.end_job(place, job, service, now, host);
        look_again(table, wheel, Some(place));
    }
}
