//! The turns of a following: what arrives, what is done about it, and what is requested.
ghost use Rattle.std.specs.Prelude.{◌≡◌, ◌≤◌, ◌/◌, ◌∷◌, []};
ghost use Rattle.booth_following.specs.Asking.{list_bytes, request_bytes};
ghost use Rattle.booth_following.specs.Programs.{program_for, termed};
ghost use Rattle.booth_host.specs.declared.entry.Entry.{Entry};
ghost use Rattle.booth_host.specs.Past.{GrewBy, GrewSome};
ghost use Rattle.booth_following.specs.Turns.{IsFollowed, IsTurn, ask_calls, asked_after, asks, asks_due, awaited_after, failed_after, is_due, is_over, is_told, is_unheard, run_calls, term_after, term_heard, told_after};

use crate::asking::{put_list_request, put_request};
use crate::following::{Following, Room, Seat};
use crate::hearing::{failed_left, news_of};
use crate::programs::termed;
use crate::restarts::{is_outdated, learnt, started_after};
use crate::standing::{Standing, standing_at};
use crate::waits::{ASK_EVERY, running_after, wait_of};
use crate::watching::{Seen, Watch};
use booth_follow_rule::{FollowDeed, News, Word};
use booth_host::{Arrival, Failed, Host, Job};

/// How long a following waits for the next answer before it ends, in milliseconds: a request was not answered.
const SILENT_FOR: u64 = 1_500;

/// How long a following waits for the first answer before it ends, in milliseconds.
const UNHEARD_FOR: u64 = 10_000;

/// The most turns of a following.
const MOST_TURNS: u64 = 1 << 62;

fn term_heard(standing: Option<Standing>, term: u32) -> u32
    ensures { result ≡ term_heard standing term }
{
    match standing {
        Some(standing) => standing.term,
        None => term,
    }
}

fn is_told(standing: Option<Standing>, told: bool) -> bool
    ensures { result ≡ is_told standing told }
{
    match standing {
        Some(_) => true,
        None => told,
    }
}

// Runs the program for a word, if the action says so.
fn run<H: Host>(f: &Following, term: u32, deed: FollowDeed, host: &mut H) -> Result<(), Failed>
    ensures past { GrewBy (H.past host.old) (H.past host.new) (run_calls f.now term deed result) }
    ensures later { H.faults host.old ≤ H.faults host.new }
{
    match deed {
        FollowDeed::Run {
            word,
            number,
            until,
        } => host.start(&job_of(f, term, word, number, until)),
        FollowDeed::Nothing | FollowDeed::Leave => Ok(()),
    }
}

fn job_of(f: &Following, term: u32, word: Word, number: u64, until: u64) -> Job
    ensures number { result.number ≡ number }
    ensures ticket { result.ticket ≡ f.now.ticket }
    ensures handler { result.handler ≡ termed (program_for f.now.programs f.now.margins.kill word) term }
    ensures local { result.local ≡ f.now.to.address }
    ensures expires { result.expires ≡ until / 1000 }
{
    Job {
        number,
        ticket: f.ticket.copy(),
        handler: termed(f.programs.program_for(f.margins.kill, word), term),
        local: f.to.address,
        expires: until / 1000,
    }
}

fn failed_after(left: Option<u64>, deed: FollowDeed, answer: &Result<(), Failed>) -> Option<u64>
    ensures { result ≡ failed_after left deed answer.now }
{
    match deed {
        FollowDeed::Run { number, .. } => match answer {
            Ok(()) => None,
            Err(_) => Some(number),
        },
        FollowDeed::Nothing | FollowDeed::Leave => left,
    }
}

fn is_due(asked: Option<u64>, reading: u64) -> bool
    ensures { result ≡ is_due asked reading }
{
    match asked {
        None => true,
        Some(asked) => match asked.checked_add(ASK_EVERY) {
            Some(next) => next <= reading || reading < asked,
            None => reading < asked,
        },
    }
}

/// The requests of a turn.
#[derive(Clone, Copy)]
pub(crate) enum Ask {
    Nothing,
    /// The ticket's state.
    Ticket,
    /// The ticket's state and the list: the last request had no answer.
    TicketAndList,
}

/// The results of a turn's requests. A request that was not made counts as sent.
#[derive(Clone, Copy)]
pub(crate) struct Sent {
    pub ticket: Result<(), Failed>,
    pub list: Result<(), Failed>,
}

fn asks_due(asked: Option<u64>, told: bool) -> Ask
    ensures { result ≡ asks_due asked told }
{
    match asked {
        Some(_) => {
            if told {
                Ask::Ticket
            } else {
                Ask::TicketAndList
            }
        }
        None => Ask::Ticket,
    }
}

fn asks(deed: FollowDeed, asked: Option<u64>, told: bool, reading: u64) -> Ask
    ensures { result ≡ asks deed asked told reading }
{
    match deed {
        FollowDeed::Leave => Ask::Nothing,
        FollowDeed::Nothing | FollowDeed::Run { .. } => {
            if is_due(asked, reading) {
                asks_due(asked, told)
            } else {
                Ask::Nothing
            }
        }
    }
}

fn asked_after(ask: Ask, reading: u64, asked: Option<u64>) -> Option<u64>
    ensures { result ≡ asked_after ask reading asked }
{
    match ask {
        Ask::Nothing => asked,
        Ask::Ticket | Ask::TicketAndList => Some(reading),
    }
}

fn told_after(ask: Ask, told: bool) -> bool
    ensures { result ≡ told_after ask told }
{
    match ask {
        Ask::Nothing => told,
        Ask::Ticket | Ask::TicketAndList => false,
    }
}

fn term_after(ask: Ask, term: u32) -> u32
    ensures { result ≡ term_after ask term }
{
    match ask {
        Ask::Nothing | Ask::Ticket => term,
        Ask::TicketAndList => 0,
    }
}

fn send_request<H: Host>(
    f: &Following,
    reading: u64,
    room: &mut Room,
    host: &mut H,
) -> Result<(), Failed>
    ensures past { GrewBy (H.past host.old) (H.past host.new)
        (Entry.Send f.now.to (request_bytes f.now reading) result ∷ []) }
    ensures later { H.faults host.old ≤ H.faults host.new }
{
    put_request(f, reading, &mut room.frame);
    host.send(&f.to, room.frame.bytes())
}

fn send_list_request<H: Host>(
    f: &Following,
    reading: u64,
    room: &mut Room,
    host: &mut H,
) -> Result<(), Failed>
    ensures past { GrewBy (H.past host.old) (H.past host.new)
        (Entry.Send f.now.to (list_bytes f.now reading) result ∷ []) }
    ensures later { H.faults host.old ≤ H.faults host.new }
{
    put_list_request(f, reading, &mut room.frame);
    host.send(&f.to, room.frame.bytes())
}

// Sends the requests at this reading.
fn send_asked<H: Host>(f: &Following, ask: Ask, reading: u64, room: &mut Room, host: &mut H) -> Sent
    ensures past { GrewBy (H.past host.old) (H.past host.new) (ask_calls f.now ask reading result) }
    ensures later { H.faults host.old ≤ H.faults host.new }
{
    match ask {
        Ask::Nothing => Sent {
            ticket: Ok(()),
            list: Ok(()),
        },
        Ask::Ticket => Sent {
            ticket: send_request(f, reading, room, host),
            list: Ok(()),
        },
        Ask::TicketAndList => {
            let ticket = send_request(f, reading, room, host);
            let list = send_list_request(f, reading, room, host);
            Sent { ticket, list }
        }
    }
}

// Returns the status of a run that ended.
fn status_of(answer: &Result<Arrival, Failed>) -> Option<i32> {
    match answer {
        Ok(Arrival::Handler { status, .. }) => Some(*status),
        Ok(Arrival::Datagram(_)) | Ok(Arrival::Quiet) | Ok(Arrival::Stop) | Err(_) => None,
    }
}

/// The result of a turn.
#[derive(Clone, Copy)]
pub(crate) struct Made {
    pub deed: FollowDeed,
    /// The reading of the turn, in milliseconds.
    pub reading: u64,
    /// What was learnt before the reading.
    pub heard: News,
}

/// Makes one turn: an arrival and a reading, the run of the action, and the requests if they are due. A request that
/// cannot be sent is ignored, and a run that cannot be started is reported in the next turn.
pub(crate) fn turn<H: Host, W: Watch>(
    f: &Following,
    seat: &mut Seat,
    room: &mut Room,
    host: &mut H,
    watch: &mut W,
) -> Made
    ensures past { GrewSome (IsTurn f.now seat.old seat.new result) (H.past host.old) (H.past host.new) }
    ensures later { H.faults host.old ≤ H.faults host.new }
{
    let answer = host.next(wait_of(f, seat), &mut room.datagram);
    let reading = host.now();
    let standing = standing_at(f, seat.asked, &answer, &room.datagram);
    let said = news_of(f, seat, &answer, &room.datagram);
    let left = failed_left(seat.failed, &answer);
    let term = term_heard(standing, seat.term);
    let told = is_told(standing, seat.told);
    let outdated = is_outdated(f, seat, term);
    let heard = learnt(outdated, said);
    let before = seat.follower.state();
    let deed = seat.follower.step(reading, heard);
    let started = run(f, term, deed, host);
    let asking = asks(deed, seat.asked, told, reading);
    let _sent = send_asked(f, asking, reading, room, host);
    seat.failed = failed_after(left, deed, &started);
    seat.asked = asked_after(asking, reading, seat.asked);
    seat.told = told_after(asking, told);
    seat.term = term_after(asking, term);
    seat.started = started_after(seat.started, term, deed);
    seat.running = running_after(seat.running, before.run, heard, deed);
    seat.reading = reading;
    watch.see(&Seen {
        margins: f.margins,
        reading,
        heard,
        is_outdated: outdated,
        status: status_of(&answer),
        before,
        deed,
        after: seat.follower.state(),
        is_begun: started.is_ok(),
    });
    Made {
        deed,
        reading,
        heard,
    }
}

/// Since when an answer is awaited, in milliseconds.
#[derive(Clone, Copy)]
pub(crate) enum Awaited {
    /// No answer has arrived since the first turn, which was at this reading.
    Begun(u64),
    /// The last answer arrived at this reading.
    Told(u64),
}

fn awaited_after(awaited: Option<Awaited>, heard: News, reading: u64) -> Option<Awaited>
    ensures { result ≡ awaited_after awaited heard reading }
{
    match heard {
        News::List(_) => Some(Awaited::Told(reading)),
        News::Nothing | News::End { .. } | News::Stop => match awaited {
            None => Some(Awaited::Begun(reading)),
            Some(since) => Some(since),
        },
    }
}

fn is_over(time: u64, since: u64, reading: u64) -> bool
    ensures { result ≡ is_over time since reading }
{
    match since.checked_add(time) {
        Some(end) => end <= reading || reading < since,
        None => reading < since,
    }
}

fn is_unheard(awaited: Option<Awaited>, reading: u64) -> bool
    ensures { result ≡ is_unheard awaited reading }
{
    match awaited {
        None => false,
        Some(Awaited::Told(since)) => is_over(SILENT_FOR, since, reading),
        Some(Awaited::Begun(since)) => is_over(UNHEARD_FOR, since, reading),
    }
}

/// How a following ended.
#[derive(Clone, Copy, PartialEq, Eq)]
pub enum FollowEnd {
    /// The end was requested, and the service is stopped.
    Left,
    /// This site's daemon sent no authentic answer for too long: it may have another key by now.
    Unheard,
    /// All its turns were made.
    Spent,
}

/// Makes the service follow its ticket from this seat, until the end is requested, or no answer arrives for 1.5 s
/// after another one or for 10 s after the first turn.
pub fn follow<H: Host, W: Watch>(
    f: &Following,
    seat: &mut Seat,
    room: &mut Room,
    host: &mut H,
    watch: &mut W,
) -> FollowEnd
    ensures past { GrewSome (IsFollowed f.now seat.old seat.new result) (H.past host.old) (H.past host.new) }
    ensures later { H.faults host.old ≤ H.faults host.new }
{
    let mut awaited = None;
    for _turn in 0..MOST_TURNS {
        let made = turn(f, seat, room, host, watch);
        match made.deed {
            FollowDeed::Leave => return FollowEnd::Left,
            FollowDeed::Nothing | FollowDeed::Run { .. } => {}
        }
        awaited = awaited_after(awaited, made.heard, made.reading);
        if is_unheard(awaited, made.reading) {
            return FollowEnd::Unheard;
        }
    }
    FollowEnd::Spent
}
