//! The tickets of a node, and the parts of the node that their actions change.
ghost use Rattle.std.specs.Prelude.{◌≡◌, ◌≢◌, ◌≤◌, ◌<◌, ◌^◌, ◌==◌, [], false, Some, drop, length, position, replicate, slice_get, IfOk, IsSome, IsSomeAnd, IsTrue, MatchOption};
ghost use Rattle.std.specs.List.{All};
ghost use Rattle.booth_attr.specs.Attributes.{no_attributes};
ghost use Rattle.booth_conf.specs.Config.{has_id};
ghost use Rattle.booth_conf.specs.declared.limits.TheConstants.{TICKETS};
ghost use Rattle.booth_ticket.specs.Ticket.{IsDue};
ghost use Rattle.booth_node.specs.Acting.{MayBefall, IsSetAt};
ghost use Rattle.booth_wire.specs.Command.{direction_of};
ghost use Rattle.booth_wire.specs.PlainMessage.{plain_of};
ghost use Rattle.booth_node.specs.Counting.{accepted, counted, counters_at, with_counters, count_drop, nothing_counted};
ghost use Rattle.booth_node.specs.Led.{Led};
ghost use Rattle.booth_node.specs.Opening.{started_from};
ghost use Rattle.booth_base.specs.Tree.{each};
ghost use Rattle.booth_node.specs.Reaction.{Attends, IsDone, action, acts, met, routed, deadline_of, sends_back};
ghost use Rattle.booth_node.specs.Replies.{is_list, list_lines};
ghost use Rattle.booth_node.specs.Routing.{at_once};
ghost use Rattle.booth_node.specs.Telling.{SendsPart, list_messages};
ghost use Rattle.booth_node.specs.Ours.{IsOurs};

use crate::attributes::AttrRequest;
use crate::event::Event;
use crate::hands::{NodeHands, act_at};
use crate::opening::start_tickets;
use crate::replies::{Part, is_list};
use crate::reply_buffer::ReplyBuffer;
use crate::routing::{Action, route};
use crate::{Common, NodeConfig};
use booth_attr::Attrs;
use booth_auth::DropFault;
use booth_base::Peer;
use booth_host::Host;
use booth_rec::Record;
use booth_ticket::{Request, Service, Ticket, Waiters};
use booth_wire::{Head, Message, TicketPart};
use std::alloc::{AllocError, Global};

/// The tickets in the order of the configuration, the clients that wait for each, the attributes of each, the
/// counters, and the buffers for messages.
#[derive(Drop)]
pub(crate) struct TicketTable {
    pub node: NodeConfig,
    pub tickets: Vec<Ticket>,
    pub waiters: Waiters,
    pub attrs: Attrs,
    pub common: Common,
    pub buffer: ReplyBuffer,
    ghost ours: { All (IsOurs node.me node.config.members) tickets.items },
    ghost whole: { length tickets.items ≡ length node.config.tickets },
    ghost few: { length tickets.items ≤ TICKETS },
    ghost lists: { length waiters ≡ length tickets.items },
    ghost named: { length attrs.lists ≡ length tickets.items },
}

impl TicketTable {
    ghost use Rattle.booth_node.specs.View.{TellsAlone, state_with};

    /// Opens the tickets of a node at its start, each from its record at this reading in ms.
    pub fn open(
        alloc: Global,
        node: NodeConfig,
        records: &[Option<Record>],
        now: u64,
    ) -> Result<TicketTable, AllocError>
        requires early { now < 2 ^ 62 }
        requires second { IsTrue node.second }
        requires member { IsSome (position (has_id node.me) node.config.members) }
        requires records { length records.now ≡ length node.config.tickets }
        ensures node { IfOk result (λ table. table.node ≡ node) }
        ensures tickets { IfOk result (λ table. table.tickets.items
            ≡ started_from node now 0 node.config.tickets records.now) }
        ensures waiters { IfOk result (λ table. table.waiters ≡ replicate (length node.config.tickets) []) }
        ensures attributes { IfOk result (λ table. table.attrs ≡ no_attributes (length node.config.tickets)) }
        ensures common { IfOk result (λ table. table.common ≡ nothing_counted) }
    {
        let buffer = ReplyBuffer::new(alloc)?;
        let tickets = start_tickets(alloc, &node, records, now)?;
        let waiters = Waiters::new(alloc, tickets.len() as u32)?;
        let attrs = Attrs::new(alloc, tickets.len() as u32)?;
        Ok(TicketTable {
            node,
            tickets,
            waiters,
            attrs,
            common: Common::nothing_counted(),
            buffer,
        })
    }

    // Handles an event of the ticket with this index.
    fn act<H: Host>(&mut self, place: usize, event: &Event, now: u64, host: &mut H)
        requires early { now < 2 ^ 62 }
        requires may { IsSomeAnd (slice_get self.old.tickets.items place)
            (λ ticket. MayBefall ticket event.now now) }
        ensures led { Led H.past H.faults (IsDone self.old.node.ring) (acts self.old.node now (state_with
            self.old now) place event.now) (state_with self.new now) host.old host.new }
        ensures node { self.new.node ≡ self.old.node }
        ensures others { IsSetAt self.old.tickets.items place self.new.tickets.items }
    {
        let name = self.tickets[place].setup().ticket.copy();
        let mut hands = NodeHands {
            host,
            common: &mut self.common,
            frame: &mut self.buffer.frame,
            node: &self.node,
            name: &name,
            now,
        };
        act_at(
            &mut self.tickets,
            place as u32,
            event,
            &mut self.waiters,
            &self.attrs,
            &mut hands,
        );
    }

    // Counts a datagram that was dropped.
    fn refuse(&mut self, fault: DropFault)
        ensures common { self.new.common ≡ count_drop self.old.common fault }
        ensures node { self.new.node ≡ self.old.node }
        ensures tickets { self.new.tickets.items ≡ self.old.tickets.items }
        ensures waiters { self.new.waiters ≡ self.old.waiters }
        ensures attributes { self.new.attrs ≡ self.old.attrs }
    {
        self.common.count_drop(fault);
    }

    // Counts an accepted datagram of the member with this index.
    fn accept(&mut self, member: usize, now: u64)
        ensures common { self.new.common ≡ with_counters self.old.common member
            (counted (counters_at self.old.common member) now) }
        ensures node { self.new.node ≡ self.old.node }
        ensures tickets { self.new.tickets.items ≡ self.old.tickets.items }
        ensures waiters { self.new.waiters ≡ self.old.waiters }
        ensures attributes { self.new.attrs ≡ self.old.attrs }
    {
        self.common.count_accepted(member, now);
    }

    // Handles a message of the member with index `from` about the ticket with index `place`.
    fn hear<H: Host>(
        &mut self,
        from: u32,
        ticket: usize,
        head: Head,
        part: TicketPart,
        now: u64,
        host: &mut H,
    )
        requires early { now < 2 ^ 62 }
        requires member { from < length self.old.node.config.members }
        requires other { position (has_id self.old.node.me) self.old.node.config.members ≢ Some from }
        requires there { ticket < length self.old.tickets.items }
        ensures led { Led H.past H.faults (IsDone self.old.node.ring) (acts self.old.node now (accepted
            (state_with self.old now) from now) ticket (Event.Heard from head part)) (state_with self.new now)
            host.old host.new }
        ensures node { self.new.node ≡ self.old.node }
        ensures others { IsSetAt self.old.tickets.items ticket self.new.tickets.items }
    {
        self.accept(from as usize, now);
        let event = Event::Heard { from, head, part };
        self.act(ticket, &event, now, host);
    }

    // Handles a client's request about the ticket with this index.
    fn ask<H: Host>(&mut self, ticket: usize, request: Request, now: u64, host: &mut H)
        requires early { now < 2 ^ 62 }
        requires there { ticket < length self.old.tickets.items }
        ensures led { Led H.past H.faults (IsDone self.old.node.ring) (acts self.old.node now (state_with
            self.old now) ticket (Event.Asked request)) (state_with self.new now) host.old host.new }
        ensures node { self.new.node ≡ self.old.node }
        ensures others { IsSetAt self.old.tickets.items ticket self.new.tickets.items }
    {
        self.act(ticket, &Event::Asked(request), now, host);
    }

    // Performs a client's request about the attributes of the ticket with this index, and answers it.
    fn attend<H: Host>(
        &mut self,
        from: Peer,
        ticket: usize,
        request: &AttrRequest,
        now: u64,
        host: &mut H,
    )
        requires { ticket < length self.old.tickets.items }
        ensures led { Led H.past H.faults (IsDone self.old.node.ring) (met self.old.node now (state_with
            self.old now) from (Attends ticket request.now)) (state_with self.new now) host.old host.new }
        ensures node { self.new.node ≡ self.old.node }
        ensures tickets { self.new.tickets.items ≡ self.old.tickets.items }
    {
        self.buffer
            .attend(&self.node, &mut self.attrs, ticket as u32, request, now);
        let _ = host.send(&from, self.buffer.frame.bytes());
    }

    // Sends the part of a list that begins with the ticket at the place `first`. Returns the number of its lines.
    fn send_part<H: Host>(
        &mut self,
        to: Peer,
        part: Part,
        first: usize,
        now: u64,
        host: &mut H,
    ) -> usize
        requires { first ≤ length self.old.tickets.items }
        ensures sent { SendsPart H.past H.faults self.old.node now
            (drop first (list_lines self.old.node now self.old.tickets.items)) to part.request part.number result
            host.old host.new }
        ensures same { TellsAlone self.old self.new }
    {
        let count = self
            .buffer
            .part(&self.node, &self.tickets[first..], part, now);
        let _ = host.send(&to, self.buffer.frame.bytes());
        count
    }

    // Sends a list, part by part, as the reply to the request with this number.
    fn tell_list<H: Host>(&mut self, to: Peer, request: u32, now: u64, host: &mut H)
        ensures led { Led H.past H.faults (IsDone self.old.node.ring) (each (sends_back to)
            (list_messages self.old.node now request (list_lines self.old.node now self.old.tickets.items))) tt
            host.old host.new }
        ensures same { TellsAlone self.old self.new }
    {
        let mut number = 0;
        let mut next = self.send_part(to, Part { request, number }, 0, now, host);
        'parts: while next < self.tickets.len() {
            number += 1;
            next += self.send_part(to, Part { request, number }, next, now, host);
        }
    }

    // Sends the one reply to a client's message, if it has one.
    fn tell_reply<H: Host>(&mut self, to: Peer, message: &Message<'_>, now: u64, host: &mut H)
        requires { is_list message.now.head.cmd ≡ false }
        ensures led { Led H.past H.faults (IsDone self.old.node.ring) (met self.old.node now (state_with
            self.old now) to (at_once self.old.node now self.old.tickets.items self.old.common
            (plain_of message.now))) (state_with self.new now) host.old host.new }
        ensures same { TellsAlone self.old self.new }
    {
        let written = self
            .buffer
            .answer(&self.node, &self.tickets, &self.common, message, now);
        if written {
            let _ = host.send(&to, self.buffer.frame.bytes());
        }
    }

    // Answers a client's message at once, if it has an answer.
    fn answer<H: Host>(&mut self, to: Peer, message: &Message<'_>, now: u64, host: &mut H)
        ensures led { Led H.past H.faults (IsDone self.old.node.ring) (met self.old.node now (state_with
            self.old now) to (at_once self.old.node now self.old.tickets.items self.old.common
            (plain_of message.now))) (state_with self.new now) host.old host.new }
        ensures same { TellsAlone self.old self.new }
    {
        if is_list(message.head.cmd) {
            self.tell_list(to, message.head.request, now, host);
        } else {
            self.tell_reply(to, message, now, host);
        }
    }

    // Performs the action for an accepted message. Returns the place of the ticket if the message is an event of a
    // ticket.
    fn follow<H: Host>(
        &mut self,
        from: Peer,
        message: &Message<'_>,
        now: u64,
        host: &mut H,
    ) -> Option<usize>
        requires early { now < 2 ^ 62 }
        requires other { message.now.head.from.0 == self.old.node.me.0 ≡ false }
        ensures led { Led H.past H.faults (IsDone self.old.node.ring) (met self.old.node now (state_with
            self.old now) from (routed self.old.node now self.old.tickets.items self.old.common from
            (plain_of message.now) (direction_of message.now.head.cmd)))
            (state_with self.new now) host.old host.new }
        ensures node { self.new.node ≡ self.old.node }
        ensures others { MatchOption result (self.new.tickets.items ≡ self.old.tickets.items)
            (λ place. IsSetAt self.old.tickets.items place self.new.tickets.items) }
    {
        match route(&self.node, from, message) {
            Action::Hear {
                from,
                ticket,
                head,
                part,
            } => {
                self.hear(from, ticket, head, part, now, host);
                Some(ticket)
            }
            Action::Ask { ticket, request } => {
                self.ask(ticket, request, now, host);
                Some(ticket)
            }
            Action::Attend { ticket, request } => {
                self.attend(from, ticket, &request, now, host);
                None
            }
            Action::Answer => {
                self.answer(from, message, now, host);
                None
            }
            Action::Rest => None,
        }
    }

    /// Performs the action for a datagram. Returns the place of the ticket if the datagram is an event of a ticket.
    pub fn receive<H: Host>(
        &mut self,
        from: Peer,
        bytes: &[u8],
        now: u64,
        host: &mut H,
    ) -> Option<usize>
        requires early { now < 2 ^ 62 }
        ensures led { Led H.past H.faults (IsDone self.old.node.ring) (met self.old.node now (state_with
            self.old now) from (action self.old.node now self.old.tickets.items self.old.common from bytes.now))
            (state_with self.new now) host.old host.new }
        ensures node { self.new.node ≡ self.old.node }
        ensures others { MatchOption result (self.new.tickets.items ≡ self.old.tickets.items)
            (λ place. IsSetAt self.old.tickets.items place self.new.tickets.items) }
    {
        match self.node.admit(now, bytes) {
            Ok(message) => self.follow(from, &message, now, host),
            Err(fault) => {
                self.refuse(fault);
                None
            }
        }
    }

    /// Handles the deadline of the ticket with this index.
    pub fn expire<H: Host>(&mut self, place: usize, now: u64, host: &mut H)
        requires early { now < 2 ^ 62 }
        requires due { IsSomeAnd (slice_get self.old.tickets.items place) (λ ticket. IsDue ticket.known now) }
        ensures led { Led H.past H.faults (IsDone self.old.node.ring) (acts self.old.node now (state_with
            self.old now) place Event.Due) (state_with self.new now) host.old host.new }
        ensures node { self.new.node ≡ self.old.node }
        ensures others { IsSetAt self.old.tickets.items place self.new.tickets.items }
    {
        self.act(place, &Event::Due, now, host);
    }

    /// Informs the ticket with this index that a job has ended.
    pub fn end_job<H: Host>(
        &mut self,
        place: usize,
        job: u64,
        service: Service,
        now: u64,
        host: &mut H,
    )
        requires early { now < 2 ^ 62 }
        requires there { place < length self.old.tickets.items }
        ensures led { Led H.past H.faults (IsDone self.old.node.ring) (acts self.old.node now (state_with
            self.old now) place (Event.Over job service)) (state_with self.new now) host.old host.new }
        ensures node { self.new.node ≡ self.old.node }
        ensures others { IsSetAt self.old.tickets.items place self.new.tickets.items }
    {
        self.act(place, &Event::Over { job, service }, now, host);
    }

    /// Returns the next deadline of the ticket with this index.
    pub fn deadline(&self, place: usize) -> Option<u64>
        requires { place < length self.now.tickets.items }
        ensures { IsSomeAnd (slice_get self.now.tickets.items place) (λ ticket. result ≡ deadline_of ticket) }
    {
        self.tickets[place].deadline()
    }
}
