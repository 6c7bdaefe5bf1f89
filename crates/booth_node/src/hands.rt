//! The actions of a ticket at a node (`Hands`): its messages are sealed and sent, and the host writes its records.
ghost use Rattle.std.specs.Prelude.{◌≡◌, ◌≤◌, ◌<◌, ◌^◌, ℕ, true, [], ◌∷◌, length, slice_get, slice_set, is_ok, IsSomeAnd, option_copied};
ghost use Rattle.booth_wire.specs.Command.{kind_of};
ghost use Rattle.booth_wire.specs.Spelling.{Fits};
ghost use Rattle.booth_wire.specs.declared.command.Kind.{Kind};
ghost use Rattle.booth_auth.specs.Sealed.{sealed};
ghost use Rattle.booth_host.specs.declared.entry.Entry.{Entry};
ghost use Rattle.booth_host.specs.Past.{GrewBy};
ghost use Rattle.booth_ticket.specs.Acts.{Say};
ghost use Rattle.booth_ticket.specs.Waiting.{spare_in, waiting_at};
ghost use Rattle.booth_node.specs.Acting.{MayBefall, IsSetAt};
ghost use Rattle.booth_node.specs.AttributeRequests.{is_ready};
ghost use Rattle.booth_node.specs.Counting.{count_send};
ghost use Rattle.booth_node.specs.Led.{Led};
ghost use Rattle.booth_node.specs.State.{state_of_parts};
ghost use Rattle.booth_node.specs.Reaction.{IsDone, peer_at, peer_of, sent_as, one_of, lifted, befalls, acts};

use crate::attributes::is_ready;
use crate::event::Event;
use crate::jobs::{job_at, job_of};
use crate::{Common, NodeConfig};
use booth_attr::Attrs;
use booth_auth::ring_seal;
use booth_base::{Name, Peer};
use booth_conf::{Config, GrantKind, Member};
use booth_host::{Failed, Host};
use booth_rec::Record;
use booth_ticket::{Hands, Ticket, To, Waiters};
use booth_wire::{Body, Frame, Head, Message, TicketPart};

/// A host, and the parts of the node that the actions of a ticket change.
#[derive(Drop)]
pub(crate) struct NodeHands<'a, H: Host> {
    pub host: &'a mut H,
    pub common: &'a mut Common,
    pub frame: &'a mut Frame,
    pub node: &'a NodeConfig,
    /// The ticket's name.
    pub name: &'a Name,
    pub now: u64,
}

fn peer_at(config: &Config, member: Option<&Member>) -> Option<Peer>
    ensures { result ≡ peer_at config.now (option_copied member.entry) }
{
    let member = member?;
    Some(Peer {
        address: member.address,
        port: config.port(),
    })
}

fn peer_of(config: &Config, to: To) -> Option<Peer>
    ensures { result ≡ peer_of config.now to }
{
    match to {
        To::Member(place) => peer_at(config, config.members().get(place as usize)),
        To::Client(peer) => Some(peer),
    }
}

// Seals a message about a ticket, and writes it into the frame.
fn write(node: &NodeConfig, head: &Head, part: &TicketPart, now: u64, frame: &mut Frame)
    requires kind { kind_of head.now.cmd ≡ Kind.Ticket }
    ensures bytes { frame.new ≡ sealed node.now.ring (sent_as node.now now head.now part.now) }
    ensures fits { Fits (sent_as node.now now head.now part.now) }
{
    let message = Message {
        head: *head,
        body: Body::Ticket(part.copy()),
    };
    ring_seal(&message, node.ring.as_ref(), now, frame);
}

// Sends the frame to the receiver of a message, and counts the send.
fn send<H: Host>(
    host: &mut H,
    common: &mut Common,
    to: To,
    peer: &Peer,
    frame: &Frame,
) -> Result<(), Failed>
    ensures past { GrewBy (H.past host.old) (H.past host.new) (Entry.Send peer.now frame.now result ∷ []) }
    ensures common { common.new ≡ count_send common.old to (is_ok result) }
    ensures later { H.faults host.old ≤ H.faults host.new }
{
    let answer = host.send(peer, frame.bytes());
    common.count_send(to, answer.is_ok());
    answer
}

impl<'a, H: Host> NodeHands<'a, H> {
    // Sends the message that is in the frame.
    fn say_written(&mut self, to: To, head: &Head, part: &TicketPart)
        requires written { self.old.frame.now
            ≡ sealed self.old.node.now.ring (sent_as self.old.node.now self.old.now head.now part.now) }
        requires fits { Fits (sent_as self.old.node.now self.old.now head.now part.now) }
        ensures host { self.new.host.ghost_name ≡ self.old.host.ghost_name }
        ensures counts { self.new.common.ghost_name ≡ self.old.common.ghost_name }
        ensures buffer { self.new.frame.ghost_name ≡ self.old.frame.ghost_name }
        ensures frame { self.new.frame.now ≡ self.old.frame.now }
        ensures same { (self.new.node.now ≡ self.old.node.now) × (self.new.now ≡ self.old.now)
            × (self.new.name.now ≡ self.old.name.now) }
        ensures led { Led H.past H.faults (IsDone self.old.node.now.ring)
            (one_of self.old.node.now self.old.now self.old.name.now self.old.common.now (Say to head.now part.now))
            (record { ok = true; common = self.new.common.now }) self.old.host.now self.new.host.now }
    {
        let Some(peer) = peer_of(&self.node.config, to) else {
            return;
        };
        let _ = send(self.host, self.common, to, &peer, self.frame);
    }

    // Writes a message into the frame, and sends it.
    fn say_anew(&mut self, to: To, head: &Head, part: &TicketPart)
        requires kind { kind_of head.now.cmd ≡ Kind.Ticket }
        ensures written { self.new.frame.now
            ≡ sealed self.old.node.now.ring (sent_as self.old.node.now self.old.now head.now part.now) }
        ensures fits { Fits (sent_as self.old.node.now self.old.now head.now part.now) }
        ensures host { self.new.host.ghost_name ≡ self.old.host.ghost_name }
        ensures counts { self.new.common.ghost_name ≡ self.old.common.ghost_name }
        ensures buffer { self.new.frame.ghost_name ≡ self.old.frame.ghost_name }
        ensures same { (self.new.node.now ≡ self.old.node.now) × (self.new.now ≡ self.old.now)
            × (self.new.name.now ≡ self.old.name.now) }
        ensures led { Led H.past H.faults (IsDone self.old.node.now.ring)
            (one_of self.old.node.now self.old.now self.old.name.now self.old.common.now (Say to head.now part.now))
            (record { ok = true; common = self.new.common.now }) self.old.host.now self.new.host.now }
    {
        write(self.node, head, part, self.now, self.frame);
        self.say_written(to, head, part);
    }
}

impl<'a, H: Host> Hands for NodeHands<'a, H> {
    ghost use Rattle.booth_node.specs.Led.{Led};
    ghost use Rattle.booth_node.specs.Reaction.{IsDone, one_of};

    ghost did = { λ old act new.
        (new.host.ghost_name ≡ old.host.ghost_name) × (new.common.ghost_name ≡ old.common.ghost_name)
        × (new.frame.ghost_name ≡ old.frame.ghost_name)
        × ((new.node.now ≡ old.node.now) × (new.now ≡ old.now) × (new.name.now ≡ old.name.now))
        × Led H.past H.faults (IsDone old.node.now.ring)
        (one_of old.node.now old.now old.name.now old.common.now act.ask)
        (record { ok = act.ok; common = new.common.now }) old.host.now new.host.now };

    fn keep(&mut self, rec: &Record) -> bool {
        let answer = self.host.keep(self.name, rec);
        answer.is_ok()
    }

    fn start(&mut self, job: u64, expires: u64) -> bool {
        let job = job_of(self.node, self.name, job, expires);
        let answer = self.host.start(&job);
        self.common.count_start();
        answer.is_ok()
    }

    fn say(&mut self, to: To, head: &Head, part: &TicketPart) {
        self.say_anew(to, head, part);
    }

    fn say_each(&mut self, places: &[u32], head: &Head, part: &TicketPart) {
        let [first, others @ ..] = places else {
            return;
        };
        self.say_anew(To::Member(*first), head, part);
        for place in others.iter() {
            self.say_written(To::Member(*place), head, part);
        }
    }
}

/// Handles an event of the ticket at the place `list`, which is also the place of its waiting clients and its
/// attributes. The ticket may start its handler under this job number, if it has one.
fn befall<H: Host>(
    ticket: &mut Ticket,
    event: &Event,
    job: Option<u64>,
    list: u32,
    waiters: &mut Waiters,
    attrs: &Attrs,
    hands: &mut NodeHands<'_, H>,
)
    requires early { hands.old.now < 2 ^ 62 }
    requires may { MayBefall ticket.old event.now hands.old.now }
    requires exists { list < length waiters.old }
    requires named { list < length attrs.now.lists }
    ensures host { hands.new.host.ghost_name ≡ hands.old.host.ghost_name }
    ensures counts { hands.new.common.ghost_name ≡ hands.old.common.ghost_name }
    ensures buffer { hands.new.frame.ghost_name ≡ hands.old.frame.ghost_name }
    ensures led { Led H.past H.faults (IsDone hands.old.node.now.ring)
        (lifted hands.old.node.now hands.old.now hands.old.name.now hands.old.common.now
        (befalls ticket.old (waiting_at waiters.old list) (spare_in waiters.old)
        (is_ready hands.old.node.now attrs.now list) job event.now hands.old.now))
        (record {
          common = hands.new.common.now;
          left = record { ticket = ticket.new; waiters = waiting_at waiters.new list };
        }) hands.old.host.now hands.new.host.now }
    ensures setup { ticket.new.setup ≡ ticket.old.setup }
    ensures others { waiters.new ≡ slice_set waiters.old list (waiting_at waiters.new list) }
{
    let now = hands.now;
    match event {
        Event::Due => {
            let ready = is_ready(hands.node, attrs, list, GrantKind::Auto);
            ticket.tick(now, ready, job, list, waiters, hands)
        }
        Event::Heard { from, head, part } => {
            ticket.hear(now, *from, head, part, list, waiters, hands)
        }
        Event::Asked(request) => {
            let ready = is_ready(hands.node, attrs, list, GrantKind::Manual);
            ticket.client(now, request, ready, job, list, waiters, hands)
        }
        Event::Over { job, service } => {
            ticket.handler_done(now, *job, *service, list, waiters, hands)
        }
    }
}

/// Handles an event of the ticket with this index. Its actions (`Hands`) carry the ticket's name.
pub(crate) fn act_at<H: Host>(
    tickets: &mut Vec<Ticket>,
    place: u32,
    event: &Event,
    waiters: &mut Waiters,
    attrs: &Attrs,
    hands: &mut NodeHands<'_, H>,
)
    requires early { hands.old.now < 2 ^ 62 }
    requires exists { place < length waiters.old }
    requires named { place < length attrs.now.lists }
    requires may { IsSomeAnd (slice_get tickets.old.items place)
        (λ ticket. MayBefall ticket event.now hands.old.now
        × (hands.old.name.now ≡ ticket.setup.ticket)) }
    ensures host { hands.new.host.ghost_name ≡ hands.old.host.ghost_name }
    ensures counts { hands.new.common.ghost_name ≡ hands.old.common.ghost_name }
    ensures buffer { hands.new.frame.ghost_name ≡ hands.old.frame.ghost_name }
    ensures led { Led H.past H.faults (IsDone hands.old.node.now.ring)
        (acts hands.old.node.now hands.old.now
        (state_of_parts tickets.old.items waiters.old attrs.now hands.old.common.now hands.old.now) place event.now)
        (state_of_parts tickets.new.items waiters.new attrs.now hands.new.common.now hands.old.now)
        hands.old.host.now hands.new.host.now }
    ensures others { IsSetAt tickets.old.items place tickets.new.items }
    ensures lists { length waiters.new ≡ length waiters.old }
{
    let job = job_at(hands.node, place as usize, hands.common);
    befall(
        &mut tickets[place as usize],
        event,
        job,
        place,
        waiters,
        attrs,
        hands,
    );
}
