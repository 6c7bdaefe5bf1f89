//! A node, and its turn.
ghost use Rattle.std.specs.Prelude.{◌≡◌, ◌≤◌, ◌<◌, ◌^◌, ℕ, true, map, length, position, vec_capacity, IfOk, IsSome, IsSomeAnd};
ghost use Rattle.booth_auth.specs.WithKey.{ring_with};
ghost use Rattle.booth_conf.specs.Config.{has_id};
ghost use Rattle.booth_node.specs.Opening.{opened};
ghost use Rattle.booth_host.specs.Past.{GrewSome};
ghost use Rattle.booth_node.specs.Counting.{counters_at};
ghost use Rattle.booth_node.specs.Led.{Led};
ghost use Rattle.booth_node.specs.Reaction.{IsDone, action, all_places, met, arrived, turn_end, used, dues, each_due, each_over, due_places, deadline_of, IsTurn};

use crate::deadlines::{drain, expire_each, look_again};
use crate::jobs::end_each;
use crate::opening::start_timer;
use crate::state::READINGS_END;
use crate::tickets::TicketTable;
use crate::{Counters, NodeConfig};
use booth_base::{MemberId, Peer};
use booth_chain::Wheel;
use booth_conf::Config;
use booth_host::{Arrival, Datagram, Failed, Host};
use booth_keys::{Key, Ring};
use booth_rec::Record;
use booth_ticket::Service;
use std::alloc::{AllocError, Global};

/// The time for which a turn waits for an arrival, in milliseconds.
const WAIT_MS: u64 = 100;

/// The end of a turn.
#[derive(Clone, Copy, PartialEq, Eq)]
pub enum Turn {
    /// The next turn may follow.
    Went,
    /// The host requested the end.
    Stopped,
}

/// A node, with all the memory of its turns.
#[derive(Drop)]
pub struct Node {
    table: TicketTable,
    /// The last reading that was used, in milliseconds since 1970.
    last_reading: u64,
    datagram: Datagram,
    wheel: Wheel,
    due: Vec<u32>,
    ghost early: { last_reading < 2 ^ 62 },
    ghost timed: { wheel.deadlines ≡ map deadline_of table.tickets.items },
    ghost waited: { wheel.last ≤ last_reading },
    ghost room: { length table.tickets.items ≤ vec_capacity due },
}

// Returns the ring of a member that has this key and no other, or none.
fn ring_with(key: Option<Key>) -> Option<Ring>
    ensures { result ≡ ring_with key }
{
    match key {
        Some(key) => Some(Ring::of(key)),
        None => None,
    }
}

impl Node {
    ghost use Rattle.booth_node.specs.View.{node_config, state_of};

    /// Opens a node with this configuration, with this ring if there is one, at the member with this id. It takes the
    /// record of each ticket, if one was written. The node follows the rules of version 2, whichever version a record
    /// has.
    ///
    /// `now` is the clock reading at its start, in milliseconds since 1970.
    ///
    /// # Errors
    ///
    /// Returns `AllocError` if the memory has run out.
    pub fn open_ring(
        alloc: Global,
        config: Config,
        ring: Option<Ring>,
        me: MemberId,
        records: &[Option<Record>],
        now: u64,
    ) -> Result<Node, AllocError>
        requires member { IsSome (position (has_id me) config.members) }
        requires records { length records.now ≡ length config.tickets }
        ensures node { IfOk result (λ node.
            node_config node ≡ record { config = config; ring = ring; me = me; second = true }) }
        ensures state { IfOk result (λ node. state_of node
            ≡ opened (record { config = config; ring = ring; me = me; second = true }) records.now now) }
    {
        let datagram = Datagram::new(alloc)?;
        let node = NodeConfig {
            config,
            ring,
            me,
            second: true,
        };
        let last_reading = now.min(READINGS_END - 1);
        let table = TicketTable::open(alloc, node, records, last_reading)?;
        let (wheel, due) = start_timer(alloc, &table.tickets)?;
        Ok(Node {
            table,
            last_reading,
            datagram,
            wheel,
            due,
        })
    }

    /// Opens a node as `open_ring` does, at a member that has this key and no other, or none. It seals with HMAC-SHA1.
    ///
    /// # Errors
    ///
    /// Returns `AllocError` if the memory has run out.
    pub fn open(
        alloc: Global,
        config: Config,
        key: Option<Key>,
        me: MemberId,
        records: &[Option<Record>],
        now: u64,
    ) -> Result<Node, AllocError>
        requires member { IsSome (position (has_id me) config.members) }
        requires records { length records.now ≡ length config.tickets }
        ensures node { IfOk result (λ node.
            node_config node ≡ record { config = config; ring = ring_with key; me = me; second = true }) }
        ensures state { IfOk result (λ node. state_of node
            ≡ opened (record { config = config; ring = ring_with key; me = me; second = true }) records.now now) }
    {
        Node::open_ring(alloc, config, ring_with(key), me, records, now)
    }

    /// Returns the number of datagrams that were dropped for each fault, in the gate's order.
    pub fn drops(&self) -> [u64; 8]
        ensures { result ≡ (state_of self.now).common.drops }
    {
        self.table.common.drops
    }

    /// Returns the counters of the member at this place.
    pub fn counters(&self, member: usize) -> Counters
        requires { member < length (node_config self.now).config.members }
        ensures { result ≡ counters_at (state_of self.now).common member }
    {
        self.table.common.counters_at(member)
    }

    // Returns the reading that this turn uses, and stores it as the last one.
    fn clamp(&mut self, reading: u64)
        ensures state { state_of self.new ≡
            record (state_of self.old) { last_reading = used (state_of self.old).last_reading reading } }
        ensures node { node_config self.new ≡ node_config self.old }
        ensures datagram { self.new.datagram ≡ self.old.datagram }
    {
        self.last_reading = self.last_reading.max(reading.min(READINGS_END - 1));
    }

    // Performs the action for the datagram of this peer, at this turn's moment.
    fn receive<H: Host>(&mut self, from: Peer, host: &mut H)
        ensures led { Led H.past H.faults (IsDone (node_config self.old).ring) (met (node_config self.old)
            (state_of self.old).last_reading (state_of self.old) from (action (node_config self.old) (state_of
            self.old).last_reading (state_of self.old).tickets (state_of self.old).common from
            self.old.datagram)) (state_of self.new) host.old host.new }
        ensures node { node_config self.new ≡ node_config self.old }
        ensures reading { (state_of self.new).last_reading ≡ (state_of self.old).last_reading }
    {
        let place = self
            .table
            .receive(from, self.datagram.bytes(), self.last_reading, host);
        look_again(&self.table, &mut self.wheel, place);
    }

    // Informs the tickets that a job has ended, at this turn's moment.
    fn end_jobs<H: Host>(&mut self, job: u64, service: Service, host: &mut H)
        ensures led { Led H.past H.faults (IsDone (node_config self.old).ring) (each_over (node_config
            self.old) (state_of self.old).last_reading job service (all_places (state_of self.old)) (state_of
            self.old)) (state_of self.new) host.old host.new }
        ensures node { node_config self.new ≡ node_config self.old }
        ensures reading { (state_of self.new).last_reading ≡ (state_of self.old).last_reading }
    {
        end_each(
            &mut self.table,
            &mut self.wheel,
            job,
            service,
            self.last_reading,
            host,
        );
    }

    // Performs the action for an arrival, at this turn's moment.
    fn arrive<H: Host>(&mut self, arrival: &Result<Arrival, Failed>, host: &mut H)
        ensures led { Led H.past H.faults (IsDone (node_config self.old).ring) (arrived (node_config
            self.old) (state_of self.old).last_reading (state_of self.old) arrival.now self.old.datagram)
            (state_of self.new) host.old host.new }
        ensures node { node_config self.new ≡ node_config self.old }
        ensures reading { (state_of self.new).last_reading ≡ (state_of self.old).last_reading }
    {
        match arrival {
            Ok(Arrival::Datagram(from)) => self.receive(*from, host),
            Ok(Arrival::Handler { job, status }) => self.end_jobs(
                *job,
                Service::of_status(*status),
                host,
            ),
            Ok(Arrival::Quiet) => {}
            Ok(Arrival::Stop) => {}
            Err(Failed) => {}
        }
    }

    // Handles the deadlines that have passed, at this turn's moment.
    fn expire<H: Host>(&mut self, host: &mut H)
        ensures led { Led H.past H.faults (IsDone (node_config self.old).ring) (each_due (node_config
            self.old) (state_of self.old).last_reading (due_places (state_of self.old).last_reading (state_of
            self.old).tickets) (state_of self.old)) (state_of self.new) host.old host.new }
        ensures node { node_config self.new ≡ node_config self.old }
    {
        drain(&mut self.wheel, self.last_reading, &mut self.due);
        expire_each(
            &mut self.table,
            &mut self.wheel,
            &self.due,
            self.last_reading,
            host,
        );
    }

    /// Makes a turn: one arrival, one reading of the clock, and the actions for both. It allocates no memory.
    pub fn turn<H: Host>(&mut self, host: &mut H) -> Turn
        ensures past { GrewSome (λ es. IsTurn (node_config self.old) (state_of self.old) result es
            (state_of self.new))
            (H.past host.old) (H.past host.new) }
        ensures node { node_config self.new ≡ node_config self.old }
        ensures later { H.faults host.old ≤ H.faults host.new }
    {
        let answer = host.next(WAIT_MS, &mut self.datagram);
        let reading = host.now();
        self.clamp(reading);
        self.arrive(&answer, host);
        let turn = end_of(&answer);
        match turn {
            Turn::Went => self.expire(host),
            Turn::Stopped => {}
        }
        turn
    }
}

fn end_of(answer: &Result<Arrival, Failed>) -> Turn
    ensures { result ≡ turn_end answer.now }
{
    match answer {
        Ok(Arrival::Stop) => Turn::Stopped,
        Ok(Arrival::Datagram(_)) => Turn::Went,
        Ok(Arrival::Handler { .. }) => Turn::Went,
        Ok(Arrival::Quiet) | Err(_) => Turn::Went,
    }
}
