//! A member's daemon over a host in memory, and its turns.
ghost use Rattle.std.specs.Prelude.{◌≡◌, ◌<◌, ◌^◌, ◌↔◌, [], length, replicate, IfOk, IfSome, OnOk, OnErr, IsSome, IsTrue, None, position};
ghost use Rattle.booth_conf.specs.Config.{has_id};
ghost use Rattle.std.specs.List.{All};
ghost use Rattle.booth_host.specs.declared.entry.Entry.{Entry};
ghost use Rattle.booth_node.specs.Opening.{opened};
ghost use Rattle.booth_node.specs.View.{node_config, state_of};
ghost use Rattle.booth_sim.specs.Kept.{all_kept};
ghost use Rattle.booth_sim.specs.Simulation.{AreAnswered, IsAnswered, node_in};
ghost use Rattle.booth_sim.specs.Standing.{Brought, HasStarted, MetIn, TookTurn};

use booth_base::{ByteText, MemberId};
use booth_conf::Config;
use booth_host::{Arrival, Entry, MemoryHost, Script, Step};
use booth_node::Node;
use booth_rec::Record;
use std::alloc::{AllocError, Global};

/// The greatest number of calls that a host records: the calls of one turn.
const ROOM: u32 = u32::MAX;

/// A member: its node, its host, and its record of each ticket.
#[derive(Drop)]
pub struct Daemon {
    pub node: Node,
    pub host: MemoryHost,
    pub kept: Vec<Option<Record>>,
}

/// The input of a turn.
#[derive(Drop)]
pub(crate) struct Coming<'a> {
    pub arrival: Arrival,
    pub bytes: &'a [u8],
    pub reading: u64,
    pub keeps_fail: bool,
}

// Returns a host without input, which records as many calls as memory allows.
fn new_host(alloc: Global) -> Result<MemoryHost, AllocError> {
    let script = Script {
        first: 0,
        steps: Vec::new(alloc),
        taken: false,
        fail_open: false,
        fail_lock: false,
        fail_kept: false,
        fail_err: false,
        fail_send: false,
        fail_out: false,
    };
    MemoryHost::new(alloc, script, Vec::new(alloc), Vec::new(alloc), ROOM)
}

// Returns the id of the member with this index.
fn id_at(config: &Config, place: usize) -> MemberId
    requires { place < length config.now.members }
    ensures same { result ≡ (node_in config.now place).me }
    ensures known { IsSome (position (has_id result) config.now.members) }
{
    config.members()[place].id
}

// Starts the node of a member from these records.
fn start_node(
    alloc: Global,
    config: &Config,
    place: usize,
    kept: &[Option<Record>],
    reading: u64,
) -> Result<Node, AllocError>
    requires member { place < length config.now.members }
    requires records { length kept.now ≡ length config.now.tickets }
    ensures node { IfOk result (λ node. node_config node ≡ node_in config.now place) }
    ensures state { IfOk result (λ node. state_of node ≡ opened (node_in config.now place) kept.now reading) }
{
    let me = id_at(config, place);
    Node::open_ring(alloc, config.copy(alloc)?, None, me, kept, reading)
}

// Returns a list with no record for each ticket.
fn no_records(alloc: Global, tickets: usize) -> Result<Vec<Option<Record>>, AllocError>
    ensures { IfOk result (λ kept. kept.items ≡ replicate tickets None) }
{
    let mut kept = Vec::with_capacity(alloc, tickets)?;
    for _ticket in 0..tickets {
        kept.push(None)?;
    }
    Ok(kept)
}

// Returns whether a call of a turn has the right answer: no send and no start of a handler fails, and either each
// write fails or none does.
fn is_answered(call: &Entry, keeps_fail: bool) -> bool
    ensures { IsTrue result ↔ IsAnswered keeps_fail call.now }
{
    match call {
        Entry::Keep { answer, .. } => answer.is_err() == keeps_fail,
        Entry::Send { answer, .. } => answer.is_ok(),
        Entry::Start { answer, .. } => answer.is_ok(),
        Entry::Open { .. }
        | Entry::Next { .. }
        | Entry::Now { .. }
        | Entry::ReadFile { .. }
        | Entry::Lock { .. }
        | Entry::Kept { .. }
        | Entry::Out { .. }
        | Entry::Err { .. } => true,
    }
}

// Returns whether all calls of a turn have the right answer.
fn are_answered(calls: &[Entry], keeps_fail: bool) -> bool
    ensures { IsTrue result → All (IsAnswered keeps_fail) calls.now }
{
    calls.iter().all(|call| is_answered(call, keeps_fail))
}

// Returns whether a call is a `next` that returned this input.
fn brought(call: &Entry, coming: &Coming<'_>) -> bool
    ensures { IsTrue result → Brought coming.now call.now }
{
    let Entry::Next {
        answer: Ok(arrival),
        bytes,
        ..
    } = call
    else {
        return false;
    };
    *arrival == coming.arrival && bytes.bytes() == coming.bytes
}

// Returns whether a call is this reading.
fn is_reading(call: &Entry, reading: u64) -> bool
    ensures { IsTrue result → call.now ≡ Entry.Now reading }
{
    let Entry::Now { reading: told } = call else {
        return false;
    };
    *told == reading
}

// Returns the actions of a turn with these calls, if it had this input.
fn deeds_in<'a>(calls: &'a [Entry], coming: &Coming<'_>) -> Option<&'a [Entry]>
    ensures met { IfSome result (λ deeds. MetIn coming.now calls.now deeds.now) }
    ensures few { IfSome result (λ deeds. length deeds.now < 2 ^ 32) }
{
    let (next, rest) = calls.split_first()?;
    let (now, deeds) = rest.split_first()?;
    if brought(next, coming)
        && is_reading(now, coming.reading)
        && are_answered(deeds, coming.keeps_fail)
        && deeds.len() < ROOM as usize
    {
        Some(deeds)
    } else {
        None
    }
}

impl Daemon {
    /// Starts the member with this index for the first time.
    pub(crate) fn new(alloc: Global, config: &Config, place: usize) -> Result<Daemon, AllocError>
        requires { place < length config.now.members }
        ensures { IfOk result (HasStarted config.now place (all_kept config.now.tickets place []) 0) }
    {
        let kept = no_records(alloc, config.tickets().len())?;
        Ok(Daemon {
            node: start_node(alloc, config, place, &kept, 0)?,
            host: new_host(alloc)?,
            kept,
        })
    }

    /// Stops the member, and starts it again with the records that it wrote.
    pub(crate) fn restart(
        &mut self,
        alloc: Global,
        config: &Config,
        place: usize,
        reading: u64,
    ) -> Result<(), AllocError>
        requires member { place < length config.now.members }
        requires all { length self.old.kept.items ≡ length config.now.tickets }
        ensures starts { OnOk result (HasStarted config.now place self.old.kept.items reading self.new) }
        ensures kept { self.new.kept.items ≡ self.old.kept.items }
    {
        self.node = start_node(alloc, config, place, &self.kept, reading)?;
        Ok(())
    }
}

/// Makes a turn, and returns its actions.
pub(crate) fn take_turn<'a>(
    alloc: Global,
    node: &mut Node,
    host: &'a mut MemoryHost,
    coming: &Coming<'_>,
) -> Result<&'a [Entry], AllocError>
    ensures took { IfOk result (λ deeds. TookTurn (node_config node.old) (state_of node.old) (state_of node.new)
        coming.now deeds.now) }
    ensures few { IfOk result (λ deeds. length deeds.now < 2 ^ 32) }
    ensures node { node_config node.new ≡ node_config node.old }
{
    host.forget();
    host.add(Step {
        arrival: Ok(coming.arrival),
        bytes: ByteText::new(alloc, coming.bytes)?,
        reading: coming.reading,
        fail_send: false,
        fail_keep: coming.keeps_fail,
        fail_start: false,
        fail_out: false,
    })?;
    node.turn(host);
    match host.past() {
        Some(calls) => deeds_in(calls, coming).ok_or(AllocError),
        None => Err(AllocError),
    }
}
