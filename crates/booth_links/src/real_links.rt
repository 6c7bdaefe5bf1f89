//! Links over a TCP listener. They do not record their calls, and no call waits.
ghost use Rattle.std.specs.Prelude.{◌≡◌, ◌≤◌, ◌/◌, [], ◌∷◌, IfOk, None, is_some, length, min, negsuc, take, true};
ghost use Rattle.booth_host.specs.Causes.{HasCause, IsCounted, raised};
ghost use Rattle.booth_links.specs.Turn.{TakesTurn};
ghost use Rattle.booth_stream.specs.Calls.{CallsGrewBy};
ghost use Rattle.booth_stream.specs.declared.link_call.LinkCall.{LinkCall};

use crate::entrance::{Entrance, LISTENER, unopened};
use crate::line::{Heard, Line};
use crate::pending::PendingPeer;
use crate::reports::{Report, Reports};
use crate::seats::{ANSWERED_MS, IDLE_MS, Seats};
use crate::turn::{Turn, turn_after};
use booth_host::{Failed, Place};
use booth_stream::{LINKS, LinkEvent, Links, PIECE_BYTES, Piece};
use mio::{Interest, Poll, Token};
use std::alloc::{AllocError, Global};
use std::cell::Cell;
use std::io;
use std::os::fd::{AsRawFd, RawFd};
use std::rc::Rc;
use std::time::Instant;

/// Links over TCP.
#[derive(Drop)]
pub struct RealLinks {
    rt: HostRuntime,
    poll: Option<Poll>,
    reports: Reports,
    entrance: Entrance,
    lines: Vec<Line>,
    seats: Seats,
    buffer: Vec<u8>,
    /// When the first place was opened, by a clock that is never set.
    start: Option<Instant>,
    /// The milliseconds from then to the last reading of the clock.
    moment: u64,
    /// Whether a link may have to leave, connections are accepted again after a rest, or peers are pending.
    is_timed: bool,
    turn: Turn,
    faults: u64,
}

// Returns the number of the link at a seat, which is one of sixteen.
fn number_of(seat: usize) -> u32
    ensures { seat ≤ 16 → result ≡ seat }
{
    seat.min(LINKS) as u32
}

fn new_lines(alloc: Global) -> Result<Vec<Line>, AllocError> {
    let mut lines = Vec::with_capacity(alloc, LINKS)?;
    for _ in 0..LINKS {
        if lines.push(Line::new(alloc)?).is_err() {
            return Err(AllocError);
        }
    }
    Ok(lines)
}

impl RealLinks {
    /// Returns new links. No place is open yet, so no peer reaches them.
    pub fn new(rt: HostRuntime, alloc: Global) -> Result<RealLinks, AllocError>
        ensures unopened { IfOk result (λ links. links.entrance.listener ≡ None) }
        ensures turn { IfOk result (λ links. links.turn ≡ Turn.Links) }
        ensures faultless { IfOk result (λ links. links.faults ≡ 0) }
    {
        Ok(RealLinks {
            poll: Poll::new(&rt).ok(),
            reports: Reports::new(alloc)?,
            entrance: Entrance::new(alloc)?,
            lines: new_lines(alloc)?,
            seats: Seats::new(alloc)?,
            buffer: vec![in alloc; 0; PIECE_BYTES]?,
            start: Instant::now(&rt).ok(),
            moment: 0,
            is_timed: false,
            turn: Turn::Links,
            faults: 0,
            rt,
        })
    }

    /// Returns the file that is readable while these links have something, or a number below 0 if there is none. A host
    /// waits for this file and its own files at the same time.
    pub fn ready_file(&self) -> RawFd
        ensures none { self.now.poll ≡ None → result ≡ negsuc 0 }
    {
        match &self.poll {
            Some(poll) => poll.as_raw_fd(),
            None => -1,
        }
    }

    /// Returns the mark that a waiting host sets when this file is readable. From now on a poll asks the system only
    /// if the mark is set, and clears it; the mark is also set while reports are left, so that the host does not wait
    /// then.
    pub fn ready_mark(&mut self, alloc: Global) -> Result<Rc<Cell<bool>>, AllocError>
        ensures shared { IfOk result (λ _. is_some self.new.reports.known ≡ true) }
        ensures faults { self.new.faults ≡ self.old.faults }
        ensures turn { self.new.turn ≡ self.old.turn }
    {
        self.reports.share(alloc)
    }

    /// Limits links and pending peers to `files` open files, half of them each, and returns how many links are
    /// served. It is called before a place is opened.
    pub fn serve_within(&mut self, files: usize) -> usize
        ensures count { result ≡ min (files / 2) 16 }
        ensures seats { self.new.seats ≡ take result self.old.seats }
        ensures pending { self.new.entrance.pending.places.items
            ≡ take (files / 2) self.old.entrance.pending.places.items }
        ensures faults { self.new.faults ≡ self.old.faults }
        ensures turn { self.new.turn ≡ self.old.turn }
    {
        let half = files / 2;
        let seats = half.min(LINKS);
        self.entrance.limit(half);
        self.seats.limit(seats);
        seats
    }

    // Counts a failure, once.
    fn fail(&mut self) -> Failed
        ensures one { self.new.faults ≡ raised self.old.faults }
        ensures later { self.old.faults ≤ self.new.faults }
        ensures turn { self.new.turn ≡ self.old.turn }
    {
        self.faults = self.faults.saturating_add(1);
        Failed
    }

    // Counts a call that failed.
    fn checked<T: Drop>(&mut self, answer: io::Result<T>) -> Result<T, Failed>
        ensures cause { HasCause self.old.faults self.new.faults result }
        ensures counted { IsCounted self.old.faults self.new.faults result }
        ensures turn { self.new.turn ≡ self.old.turn }
    {
        match answer {
            Ok(value) => Ok(value),
            Err(_) => Err(self.fail()),
        }
    }

    // Reads the clock. If it cannot be read, no time has passed.
    fn read_clock(&mut self)
        ensures { self.new.faults ≡ self.old.faults }
    {
        let Some(start) = self.start else {
            return;
        };
        if let Ok(passed) = start.elapsed(&self.rt) {
            self.moment = u64::try_from(passed.as_millis()).unwrap_or(u64::MAX);
        }
    }

    // Starts to listen at this place. Links continue.
    fn listen_at(&mut self, place: &Place) -> io::Result<()>
        ensures { self.new.faults ≡ self.old.faults }
    {
        match &self.poll {
            Some(poll) => self.entrance.listen_at(&self.rt, place, poll.registry()),
            None => Err(unopened()),
        }
    }

    // Ends the link of this seat.
    fn leave(&mut self, seat: usize)
        ensures faults { self.new.faults ≡ self.old.faults }
        ensures turn { self.new.turn ≡ self.old.turn }
    {
        if let Some(line) = self.lines.get_mut(seat) {
            line.end();
        }
        self.seats.set(seat, None);
    }

    // Returns the seat for one more peer: a free seat, or the seat of the link that has been idle for the longest time.
    fn seat_for_peer(&self) -> Option<usize> {
        match self.seats.free() {
            Some(seat) => Some(seat),
            None => self.seats.over(self.moment, 0),
        }
    }

    // Makes the link of this seat busy again: it was answered, or took bytes of its answer.
    fn stay(&mut self, seat: usize)
        ensures { self.new.faults ≡ self.old.faults }
    {
        let idle_from = self.moment.saturating_add(ANSWERED_MS);
        self.seats.set(seat, Some(idle_from));
    }

    // Ends the link of this seat, and returns the event `Ended` with the link's number.
    fn end(&mut self, seat: usize) -> LinkEvent
        ensures { self.new.faults ≡ self.old.faults }
    {
        self.leave(seat);
        LinkEvent::Ended(number_of(seat))
    }

    // Asks the system for all that is ready, if something may be.
    fn fetch(&mut self) -> io::Result<()>
        ensures { self.new.faults ≡ self.old.faults }
    {
        if !self.reports.may_come() {
            return Ok(());
        }
        match &mut self.poll {
            Some(poll) => self.reports.fetch(poll),
            None => Err(unopened()),
        }
    }
}

impl RealLinks {
    // Has the system report the line of this seat.
    fn watch(&mut self, seat: usize) -> io::Result<()>
        ensures { self.new.faults ≡ self.old.faults }
    {
        match (&self.poll, self.lines.get_mut(seat)) {
            (Some(poll), Some(line)) => line.watch(poll.registry(), seat),
            _ => Err(unopened()),
        }
    }

    // Starts a link at this seat, in place of the old link.
    fn begin(&mut self, seat: usize, waiting: PendingPeer) -> io::Result<LinkEvent>
        ensures { self.new.faults ≡ self.old.faults }
    {
        let Some(poll) = &self.poll else {
            return Err(unopened());
        };
        let (mut stream, peer) = waiting.into_parts();
        poll.registry()
            .reregister(&mut stream, Token(seat), Interest::READABLE)?;
        if let Some(line) = self.lines.get_mut(seat) {
            line.begin(stream);
        }
        self.seats.set(seat, Some(self.moment));
        Ok(LinkEvent::Opened {
            link: number_of(seat),
            peer,
        })
    }

    // Starts the link of a pending peer that has sent a whole frame, if there is one and a seat for it.
    fn seat_pending(&mut self) -> io::Result<Option<LinkEvent>>
        ensures { self.new.faults ≡ self.old.faults }
    {
        if !self.entrance.has_ready() {
            return Ok(None);
        }
        let Some(seat) = self.seat_for_peer() else {
            return Ok(None);
        };
        match self.entrance.take_ready() {
            Some(waiting) => Ok(Some(self.begin(seat, waiting)?)),
            None => Ok(None),
        }
    }

    // Accepts the waiting connections.
    fn accept(&mut self) -> io::Result<LinkEvent>
        ensures { self.new.faults ≡ self.old.faults }
    {
        self.is_timed = true;
        match &self.poll {
            Some(poll) => self.entrance.accept(self.moment, poll.registry())?,
            None => return Err(unopened()),
        }
        Ok(LinkEvent::Quiet)
    }

    // Looks at the line of this seat. A line that the system no longer watches has ended.
    fn hear(&mut self, report: Report, into: &mut Piece) -> io::Result<LinkEvent>
        ensures { self.new.faults ≡ self.old.faults }
    {
        let seat = report.place;
        let Some(line) = self.lines.get_mut(seat) else {
            return Ok(LinkEvent::Quiet);
        };
        let heard = line.hear(&mut self.buffer);
        let is_watched = line.is_read_out(heard, self.buffer.len()) && !report.is_last;
        if !is_watched && self.watch(seat).is_err() {
            return Ok(self.end(seat));
        }
        match heard {
            Heard::Bytes(count) => {
                // (a read brings no more than the buffer has)
                let count = count.min(self.buffer.len());
                into.set(&self.buffer[..count]);
                Ok(LinkEvent::Bytes(number_of(seat)))
            }
            Heard::Took => {
                self.stay(seat);
                Ok(LinkEvent::Quiet)
            }
            Heard::Nothing => Ok(LinkEvent::Quiet),
            Heard::End => Ok(self.end(seat)),
        }
    }

    // Returns a link that must leave, if there are links.
    fn leaving(&mut self) -> Option<usize>
        ensures { self.new.faults ≡ self.old.faults }
    {
        if self.seats.has_links() {
            return self.seats.over(self.moment, IDLE_MS);
        }
        self.is_timed = self.entrance.is_timed();
        None
    }

    // Accepts again when the rest after a failed accept has passed.
    fn end_rest(&mut self) -> io::Result<()>
        ensures { self.new.faults ≡ self.old.faults }
    {
        match &self.poll {
            Some(poll) => self.entrance.end_rest(self.moment, poll.registry()),
            None => Err(unopened()),
        }
    }

    // Handles the next report: new connections, the bytes of a pending peer, or the bytes of a link.
    fn next_report(&mut self, into: &mut Piece) -> io::Result<LinkEvent>
        ensures { self.new.faults ≡ self.old.faults }
    {
        match self.reports.take() {
            Some(report) if report.place == LISTENER => self.accept(),
            Some(report) if report.place > LISTENER => {
                self.entrance.hear(report.place, report.is_last);
                Ok(self.seat_pending()?.unwrap_or(LinkEvent::Quiet))
            }
            Some(report) => self.hear(report, into),
            None => Ok(LinkEvent::Quiet),
        }
    }

    // Returns whether there is no link and the host knows of no event. Then neither the clock nor the system is
    // asked.
    fn rests(&self) -> bool {
        !self.is_timed && !self.reports.has_more() && !self.reports.may_come()
    }

    // Handles one event: a link that must leave, or a report. One reading of the clock serves for all reports of one
    // call.
    fn look(&mut self, into: &mut Piece) -> io::Result<LinkEvent>
        ensures { self.new.faults ≡ self.old.faults }
    {
        if self.reports.has_more() {
            return self.next_report(into);
        }
        self.read_clock();
        self.entrance.clear_over(self.moment);
        if let Some(seat) = self.leaving() {
            return Ok(self.end(seat));
        }
        if let Some(event) = self.seat_pending()? {
            return Ok(event);
        }
        self.end_rest()?;
        self.fetch()?;
        self.next_report(into)
    }

    // Writes bytes to the line of this seat, and returns how many it took. It takes none if it cannot be watched for
    // room.
    fn give(&mut self, seat: usize, bytes: &[u8]) -> usize
        ensures fits { result ≤ length bytes.now }
        ensures faults { self.new.faults ≡ self.old.faults }
    {
        let Some(line) = self.lines.get_mut(seat) else {
            return 0;
        };
        let taken = line.write(bytes);
        let waits = line.has_queued();
        if waits && self.watch(seat).is_err() {
            return 0;
        }
        if taken > 0 {
            self.stay(seat);
        }
        taken
    }
}

impl Links for RealLinks {
    ghost past = { λ _. None };

    ghost faults = { λ links. links.faults };

    /// Opens a listener at the place's address and port; for port 0 the system chooses one.
    ///
    /// # Errors
    ///
    /// Another process listens there, or the system refuses.
    fn open(&mut self, place: &Place) -> Result<(), Failed> {
        let answer = self.listen_at(place);
        self.checked(answer)
    }

    /// At most every second poll has an event: after an event the next is Quiet.
    fn poll(&mut self, into: &mut Piece) -> Result<LinkEvent, Failed>
        ensures past { CallsGrewBy None None (LinkCall.Poll result into.new ∷ []) }
        ensures cause { HasCause self.old.faults self.new.faults result }
        ensures turn { TakesTurn self.old.turn result self.new.turn }
    {
        into.clear();
        match self.turn {
            Turn::Host => {
                self.turn = Turn::Links;
                Ok(LinkEvent::Quiet)
            }
            Turn::Links if self.rests() => Ok(LinkEvent::Quiet),
            Turn::Links => {
                let answer = self.look(into);
                let answer = self.checked(answer);
                self.turn = turn_after(&answer);
                answer
            }
        }
    }

    /// Bytes that the peer does not take at once are queued, as far as the queue has room. A link whose peer has gone
    /// takes nothing.
    fn write(&mut self, link: u32, bytes: &[u8]) -> Result<usize, Failed> {
        Ok(self.give(link as usize, bytes))
    }

    fn close(&mut self, link: u32) {
        self.leave(link as usize);
    }
}
