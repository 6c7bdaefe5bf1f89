//! The player `ticket`: a whole ticket whose environment fails as the script says, and clients that wait for two
//! tickets.
//!
//! `open`, 1 for a manual ticket, and a start open a ticket for which nobody waits; `second` opens another one in its
//! place, whose clients wait in a second list. A call is a word, the moment, whether the prerequisites hold, the next
//! job or `-`, whether all writes fail, whether those after the first one do, whether starts do, and the call's
//! arguments: `grant` or `revoke` with the client's port, number and options, `hear` with the sender's place and a
//! message, `over` with a job and its status, or `due`. Its answer has a line for each action. `look` and a moment
//! print the deadline and the owner.
ghost use Rattle.std.specs.Prelude.{◌≡◌, ◌<◌, ◌^◌, length};

use crate::printed::{kept, message};
use crate::reading::{Start, head, part};
use booth_base::{Address, Peer};
use booth_rows::{Answer, Player, Words};
use booth_ticket::{FakeHands, Noted, Request, Service, Ticket, To, Waiters, Wish};
use std::alloc::Global;

/// A ticket, its environment, and the clients that wait for it and for another one.
#[derive(Drop)]
struct Stage {
    ticket: Ticket,
    /// Whether the ticket is the second one.
    second: bool,
    waiters: Waiters,
    hands: FakeHands,
    ready: bool,
    job: Option<u64>,
    ghost two: { length waiters ≡ 2 },
}

/// Plays one ticket's calls.
#[derive(Drop)]
pub(crate) struct TicketPlayer {
    stage: Option<Stage>,
}

fn opened(start: &Start, manual: bool) -> Ticket {
    if manual {
        return Ticket::open_manual(&start.setup, start.kept.as_ref(), start.now);
    }
    Ticket::open(&start.setup, start.kept.as_ref(), start.now)
}

// Returns the stage of a ticket for which nobody waits.
fn stage_of(alloc: Global, ticket: Ticket, words: &mut Words<'_>) -> Option<Stage> {
    match Waiters::new(alloc, 2) {
        Ok(waiters) => Some(Stage {
            ticket,
            second: false,
            waiters,
            hands: FakeHands::new(alloc),
            ready: true,
            job: None,
        }),
        Err(_) => {
            words.tear();
            None
        }
    }
}

impl Stage {
    // The list of the clients that wait for the ticket.
    fn list(&self) -> u32
        ensures { result < 2 }
    {
        if self.second { 1 } else { 0 }
    }

    fn ask(&mut self, now: u64, wish: Wish, words: &mut Words<'_>)
        requires { now < 2 ^ 62 }
    {
        let from = Peer {
            address: Address::V4([192, 168, 201, 9]),
            port: words.short(),
        };
        let request = Request {
            wish,
            from,
            number: words.number(),
            options: words.number(),
        };
        let list = self.list();
        self.ticket.client(
            now,
            &request,
            self.ready,
            self.job,
            list,
            &mut self.waiters,
            &mut self.hands,
        );
    }

    fn hear(&mut self, now: u64, words: &mut Words<'_>)
        requires { now < 2 ^ 62 }
    {
        let from = words.number();
        let (head, part) = (head(words), part(words));
        let setup = self.ticket.setup();
        if from >= setup.members || from == setup.place {
            return words.refuse();
        }
        let list = self.list();
        self.ticket.hear(
            now,
            from,
            &head,
            &part,
            list,
            &mut self.waiters,
            &mut self.hands,
        );
    }

    fn end_job(&mut self, now: u64, words: &mut Words<'_>)
        requires { now < 2 ^ 62 }
    {
        let job = words.long();
        let service = Service::of_status(words.signed());
        let list = self.list();
        self.ticket.handler_done(now, job, service, list, &mut self.waiters, &mut self.hands);
    }

    fn tick(&mut self, now: u64, words: &mut Words<'_>)
        requires { now < 2 ^ 62 }
    {
        match self.ticket.deadline() {
            Some(due) if due <= now => {}
            _ => return words.refuse(),
        }
        let list = self.list();
        self.ticket.tick(
            now,
            self.ready,
            self.job,
            list,
            &mut self.waiters,
            &mut self.hands,
        );
    }

    // Sets the conditions and failures of the next call. Returns its moment.
    fn set(&mut self, words: &mut Words<'_>) -> u64
        ensures { result < 2 ^ 62 }
    {
        let now = words.moment();
        self.hands.acts.clear();
        self.ready = words.flag();
        self.job = words.long_or_none();
        self.hands.fails = words.flag();
        self.hands.breaks = words.flag();
        self.hands.fails_to_start = words.flag();
        now
    }

    fn call(&mut self, call: &str, words: &mut Words<'_>) {
        let now = self.set(words);
        match call {
            "grant" => self.ask(now, Wish::Grant, words),
            "revoke" => self.ask(now, Wish::Revoke, words),
            "hear" => self.hear(now, words),
            "over" => self.end_job(now, words),
            "due" => self.tick(now, words),
            _ => words.refuse(),
        }
    }

    fn append(&self, answer: &mut Answer) {
        if !self.hands.tells {
            answer.tear();
        }
        for act in self.hands.acts.iter() {
            append_act(answer, act);
        }
    }

    // Appends the deadline, and the reported owner with the second until which it is shown.
    fn look(&self, now: u64, answer: &mut Answer) {
        answer.word("look");
        answer.number_or_none(self.ticket.deadline());
        match self.ticket.owner(now) {
            Some(owner) => {
                answer.small(owner.site.0);
                answer.number(owner.until_secs);
            }
            None => answer.word("- -"),
        }
        answer.end();
    }
}

fn ok_word(ok: bool) -> &'static str {
    if ok { "ok" } else { "failed" }
}

fn append_to(answer: &mut Answer, to: &To) {
    match to {
        To::Member(place) => {
            answer.word("member");
            answer.small(*place);
        }
        To::Client(peer) => {
            answer.word("client");
            match &peer.address {
                Address::V4(bytes) => answer.bytes(bytes),
                Address::V6(bytes) => answer.bytes(bytes),
            }
            answer.number(u64::from(peer.port));
        }
    }
}

fn append_act(answer: &mut Answer, act: &Noted) {
    match act {
        Noted::Kept { rec, ok } => {
            answer.word("keep");
            kept(answer, ok_word(*ok), rec);
        }
        Noted::Started { job, expires, ok } => {
            answer.word("start");
            answer.word(ok_word(*ok));
            answer.number(*job);
            answer.number(*expires);
            answer.end();
        }
        Noted::Said { to, head, part } => {
            answer.word("send");
            append_to(answer, to);
            message(answer, head, part);
        }
    }
}

impl TicketPlayer {
    /// Returns a player without a ticket.
    pub(crate) fn new() -> TicketPlayer {
        TicketPlayer { stage: None }
    }

    fn open(&mut self, words: &mut Words<'_>) {
        let manual = words.flag();
        if let Some(start) = Start::read(words) {
            self.stage = stage_of(words.alloc(), opened(&start, manual), words);
        }
    }

    // Opens another ticket in the place of the one before.
    fn open_second(&mut self, words: &mut Words<'_>) {
        let manual = words.flag();
        match (&mut self.stage, Start::read(words)) {
            (Some(stage), Some(start)) => {
                stage.ticket = opened(&start, manual);
                stage.second = true;
            }
            _ => words.refuse(),
        }
    }
}

impl Player for TicketPlayer {
    fn play(&mut self, words: &mut Words<'_>, answer: &mut Answer) {
        let call = words.word();
        match call {
            "open" => return self.open(words),
            "second" => return self.open_second(words),
            _ => {}
        }
        match &mut self.stage {
            Some(stage) if call == "look" => stage.look(words.long(), answer),
            Some(stage) => {
                stage.call(call, words);
                stage.append(answer);
            }
            None => words.refuse(),
        }
    }
}
