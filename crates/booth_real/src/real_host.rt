//! The real host: a UDP socket, the system clock, files, child programs and the standard streams.
//!
//! No contract says what its calls do to the devices. It never returns `Stop`: a signal ends the process instead.
ghost use Rattle.std.specs.Prelude.{◌≡◌, ◌≤◌, ◌⊎◌, ◌++◌, ◌∷◌, [], None, IfOk, IfSome, OnErr, OnOk};
ghost use Rattle.booth_host.specs.Causes.{raised, HasCause, HasReadCause, IsCounted};
ghost use Rattle.booth_host.specs.Past.{GrewBy};
ghost use Rattle.booth_host.specs.declared.entry.Entry.{Entry};
ghost use Rattle.booth_real.specs.Hearing.{BringsTo, IsOpenAt, hearing, turned_to};
ghost use Rattle.booth_real.specs.Taking.{IsGiven, IsHandler, IsSame, TakesIn, waiting};

use crate::files::contents;
use crate::jobs::{Ended, Jobs, SIGNALLED};
use crate::lock::take_lock;
use crate::mail::{Mail, unopened};
use crate::preparing::receive_or_prepare;
use crate::socket::Socket;
use crate::store::Store;
use crate::streams::{Standing, error_stream, hold_streams, write_to};
use crate::telling::{Telling, socket_text};
use booth_base::{Address, ByteText, Name, PathText, Peer};
use booth_host::{Arrival, Datagram, Failed, Host, Job, Place, ReadFault};
use booth_rec::Record;
use std::alloc::{AllocError, Global};
use std::cell::Cell;
use std::fs::File;
use std::io::ErrorKind;
use std::os::fd::RawFd;
use std::rc::Rc;
use std::time::Duration;
use std::{io, thread};

/// How many datagrams are sent before arrivals are taken from the system.
const SENDS: u32 = 32;

/// The system's devices.
#[derive(Drop)]
pub struct RealHost {
    rt: HostRuntime,
    mail: Mail,
    /// The members that have a socket of their own at places that are opened from now on.
    expected: Vec<Address>,
    /// The records directory, once a place with one was opened, and the source of the time.
    store: Store,
    telling: Telling,
    /// How many datagrams were sent since arrivals were last taken from the system.
    sends: u32,
    /// The path of the configuration, once a place was opened.
    conf_path: Option<PathText>,
    jobs: Jobs,
    /// The file whose lock this host holds.
    locked: Option<File>,
    /// The files in the places of standard streams that were closed.
    standing: Standing,
    faults: u64,
}

// Returns the fault that an error of a read stands for.
fn read_fault(error: &io::Error) -> ReadFault {
    match error.kind() {
        ErrorKind::OutOfMemory => ReadFault::NoMemory,
        _ => ReadFault::Failed,
    }
}

impl RealHost {
    /// Returns the system's devices before anything is opened.
    pub fn new(rt: HostRuntime, alloc: Global) -> Result<RealHost, AllocError>
        ensures unopened { IfOk result (λ host. host.mail.socket ≡ None) }
        ensures nothing { IfOk result (λ host. waiting host.mail.backlog ≡ []) }
        ensures unlocked { IfOk result (λ host. host.locked ≡ None) }
        ensures faultless { IfOk result (λ host. host.faults ≡ 0) }
    {
        let mail = Mail::new(alloc)?;
        let standing = hold_streams(&rt);
        let jobs = Jobs::new(alloc, error_stream(&standing));
        Ok(RealHost {
            rt,
            mail,
            expected: Vec::new(alloc),
            store: Store::new(),
            telling: Telling::new(rt, alloc),
            sends: 0,
            conf_path: None,
            jobs,
            locked: None,
            standing,
            faults: 0,
        })
    }

    /// From now on a `next` also ends its wait, with `Quiet`, when this open file can be read, and then sets the
    /// mark. If `fd` is below 0, only a datagram ends the wait. While the mark is set, no `next` waits: the reader of
    /// the file must clear the mark. The call opens nothing and cannot fail.
    pub fn wake_on(&mut self, fd: RawFd, mark: Rc<Cell<bool>>)
        ensures wake { self.new.mail.wake.file ≡ fd }
        ensures socket { self.new.mail.socket ≡ self.old.mail.socket }
        ensures backlog { self.new.mail.backlog ≡ self.old.mail.backlog }
        ensures faults { self.new.faults ≡ self.old.faults }
    {
        self.mail.wake_on(fd, mark);
    }

    /// From now on this member has a socket of its own at each place with an address, if the system has one for it.
    /// Datagrams of others then take no room from what the member sends. The call opens nothing.
    ///
    /// # Errors
    ///
    /// There is no memory for one more member.
    pub fn expect(&mut self, member: Address) -> Result<(), AllocError>
        ensures ok { OnOk result (self.new.expected.items ≡ self.old.expected.items ++ member ∷ []) }
        ensures err { OnErr result (self.new.expected.items ≡ self.old.expected.items) }
        ensures faults { self.new.faults ≡ self.old.faults }
        ensures mail { self.new.mail ≡ self.old.mail }
    {
        match self.expected.push(member) {
            Ok(()) => Ok(()),
            Err(_) => Err(AllocError),
        }
    }

    /// Makes each write of a record fail that takes longer than this many milliseconds, in directories that are
    /// opened from now on. A write that is late takes no further step.
    pub fn limit_writes(&mut self, limit: Option<u64>)
        ensures faults { self.new.faults ≡ self.old.faults }
        ensures mail { self.new.mail ≡ self.old.mail }
    {
        self.store.limit_writes(limit);
    }

    /// Makes `now` report the clock of this records directory even before the directory is opened. If that fails, a
    /// line on standard error says why, and no place with a directory is opened. That is no fault.
    pub fn await_clock(&mut self, directory: &PathText)
        ensures faults { self.new.faults ≡ self.old.faults }
        ensures mail { self.new.mail ≡ self.old.mail }
    {
        if let Err(error) = self.store.await_clock(&self.rt, directory) {
            self.telling.no_clock(&error);
        }
    }

    /// Makes `now` report the clock that a daemon writes to this records directory. Returns false if none was written
    /// since the boot or it cannot be read; a line on standard error then says why. That is no fault.
    pub fn share_clock(&mut self, directory: &PathText) -> bool
        ensures faults { self.new.faults ≡ self.old.faults }
        ensures mail { self.new.mail ≡ self.old.mail }
    {
        match self.store.share_clock(&self.rt, directory) {
            Ok(()) => true,
            Err(error) => {
                self.telling.no_clock(&error);
                false
            }
        }
    }

    /// Makes each line on standard error begin with this name instead of the daemon's.
    pub fn speak_as(&mut self, name: &'static str)
        ensures faults { self.new.faults ≡ self.old.faults }
        ensures mail { self.new.mail ≡ self.old.mail }
    {
        self.telling.speak_as(name);
    }

    /// From now on programs for this word (their last one that is not a number) run at the same time as the other
    /// programs of their ticket: they end an earlier program for this word, and no other. Without this call each
    /// program ends the earlier one of its ticket.
    pub fn run_beside(&mut self, word: &'static str)
        ensures faults { self.new.faults ≡ self.old.faults }
        ensures mail { self.new.mail ≡ self.old.mail }
    {
        self.jobs.run_beside(word);
    }

    // Counts one failure.
    fn fail(&mut self) -> Failed
        ensures one { self.new.faults ≡ raised self.old.faults }
        ensures later { self.old.faults ≤ self.new.faults }
        ensures mail { self.new.mail ≡ self.old.mail }
    {
        self.faults = self.faults.saturating_add(1);
        Failed
    }

    // Counts the failure of a call that failed.
    fn checked<T: Drop>(&mut self, answer: io::Result<T>) -> Result<T, Failed>
        ensures cause { HasCause self.old.faults self.new.faults result }
        ensures counted { IsCounted self.old.faults self.new.faults result }
        ensures same { IsSame answer result }
        ensures mail { self.new.mail ≡ self.old.mail }
    {
        match answer {
            Ok(value) => Ok(value),
            Err(_) => Err(self.fail()),
        }
    }

    // Opens the socket, and then the directory and its clock, if there is one. It first closes what was open.
    fn open_place(&mut self, place: &Place) -> io::Result<()>
        ensures faults { self.new.faults ≡ self.old.faults }
        ensures opened { OnOk result (IsOpenAt place.now (hearing self.new.mail.socket)) }
        ensures closed { OnErr result (self.new.mail.socket ≡ None) }
        ensures forgotten { waiting self.new.mail.backlog ≡ [] }
    {
        self.mail.close();
        self.conf_path = None;
        self.store.leave();
        let opened = Socket::open(&self.rt, place);
        let mut socket = self.telling.told(&socket_text(place), opened)?;
        socket.set_apart(self.rt.alloc(), place, &self.expected);
        self.open_store(&place.records)?;
        self.mail.begin(socket);
        self.conf_path = Some(place.conf_path.copy());
        Ok(())
    }

    // Opens this directory and its clock, or none if the path is empty.
    fn open_store(&mut self, directory: &PathText) -> io::Result<()>
        ensures faults { self.new.faults ≡ self.old.faults }
        ensures mail { self.new.mail ≡ self.old.mail }
    {
        let alloc = self.rt.alloc();
        self.store
            .open(&self.rt, alloc, directory, &mut self.telling)
    }

    fn start_job(&mut self, job: &Job) -> io::Result<()>
        ensures faults { self.new.faults ≡ self.old.faults }
        ensures mail { self.new.mail ≡ self.old.mail }
    {
        match &self.conf_path {
            Some(conf_path) => {
                let clocks = self.store.clocks();
                let lease_term = self.store.lease_term(&job.ticket);
                self.jobs
                    .start(&self.rt, clocks, job, conf_path, lease_term)
            }
            None => Err(unopened()),
        }
    }

    // Returns how a job ended, if one did.
    fn ended_job(&mut self) -> Option<Arrival>
        ensures handler { IfSome result IsHandler }
        ensures later { self.old.faults ≤ self.new.faults }
        ensures mail { self.new.mail ≡ self.old.mail }
    {
        if self.jobs.are_over() {
            return None;
        }
        self.look_at_jobs()
    }

    // Returns the same, if a job may have ended. If the system cannot say how, or the next program could not be
    // started, the job counts as ended by a signal.
    fn look_at_jobs(&mut self) -> Option<Arrival>
        ensures handler { IfSome result IsHandler }
        ensures later { self.old.faults ≤ self.new.faults }
        ensures mail { self.new.mail ≡ self.old.mail }
    {
        let Ended {
            job,
            ticket,
            status,
        } = self.jobs.poll(&self.rt, self.store.clocks())?;
        if let Err(error) = &status {
            self.telling.unstarted(&ticket, error);
        }
        let status = self.checked(status).unwrap_or(SIGNALLED);
        Some(Arrival::Handler { job, status })
    }

    // Logs that a receive failed, at a place with records. A client itself reports that it got no answer.
    fn tell_unreceived(&mut self, error: &io::Error)
        ensures faults { self.new.faults ≡ self.old.faults }
        ensures mail { self.new.mail ≡ self.old.mail }
    {
        if self.store.has_records() {
            self.telling.unreceived(error);
        }
    }

    // Logs that a send failed, at a place with records.
    fn tell_unsent(&mut self, to: &Peer, error: &io::Error)
        ensures faults { self.new.faults ≡ self.old.faults }
        ensures mail { self.new.mail ≡ self.old.mail }
    {
        if self.store.has_records() {
            self.telling.unsent(to, error);
        }
    }

    // Takes arrivals from the system, at a place with records.
    fn take_in(&mut self)
        ensures faults { self.new.faults ≡ self.old.faults }
        ensures taken { TakesIn (hearing self.old.mail.socket) (waiting self.old.mail.backlog)
            (waiting self.new.mail.backlog) }
        ensures socket { self.new.mail.socket ≡ self.old.mail.socket }
    {
        self.sends = 0;
        if !self.store.has_records() {
            return;
        }
        self.mail.take_in();
        if self.mail.is_full() {
            self.telling.full();
        }
    }

    // Does the same after every 32 sends.
    fn take_in_behind(&mut self)
        ensures faults { self.new.faults ≡ self.old.faults }
        ensures taken { TakesIn (hearing self.old.mail.socket) (waiting self.old.mail.backlog)
            (waiting self.new.mail.backlog) }
        ensures socket { self.new.mail.socket ≡ self.old.mail.socket }
    {
        self.sends = self.sends.saturating_add(1);
        if self.sends >= SENDS {
            self.take_in();
        }
    }
}

impl Host for RealHost {
    ghost past = { λ _. None };

    ghost faults = { λ host. host.faults };

    /// The directory of the records is created for its owner alone if it is missing; the directory above it must
    /// exist. It is locked for this host until the host opens another place or ends. The call fails if another host
    /// holds the directory. A place without a directory has no records. A place that has neither an address nor a
    /// port nor records is a client's: it accepts datagrams only from the peer that it sent to last.
    fn open(&mut self, place: &Place) -> Result<(), Failed>
        ensures past { GrewBy None None
            (Entry.Open place.now.local place.now.port place.now.records place.now.conf_path result ∷ []) }
        ensures cause { HasCause self.old.faults self.new.faults result }
        ensures opened { OnOk result (IsOpenAt place.now (hearing self.new.mail.socket)) }
        ensures closed { OnErr result (self.new.mail.socket ≡ None) }
        ensures forgotten { waiting self.new.mail.backlog ≡ [] }
    {
        let answer = self.open_place(place);
        self.checked(answer)
    }

    /// A job that is over is returned before any datagram, and nothing waits for it. Datagrams that were taken in
    /// follow, the oldest first. If nothing has arrived, the call may prepare a ticket's next write instead of
    /// waiting; then it returns `Quiet` at once.
    fn next(&mut self, wait_ms: u64, into: &mut Datagram) -> Result<Arrival, Failed>
        ensures past { GrewBy None None (Entry.Next wait_ms result into.new ∷ []) }
        ensures cause { HasCause self.old.faults self.new.faults result }
        ensures given { IsGiven (waiting self.old.mail.backlog) result into.new (waiting self.new.mail.backlog) }
        ensures brings { IfOk result (λ arrival. BringsTo (hearing self.old.mail.socket) arrival) }
        ensures socket { self.new.mail.socket ≡ self.old.mail.socket }
    {
        self.store.keep_clock(&self.rt, &mut self.telling);
        if let Some(arrival) = self.ended_job() {
            into.clear();
            return Ok(arrival);
        }
        let answer = receive_or_prepare(&self.rt, &mut self.mail, &mut self.store, wait_ms, into);
        if let Err(error) = &answer {
            self.tell_unreceived(error);
            // A failure may return at once, and a caller that continues must not use a whole processor.
            thread::sleep(&self.rt, Duration::from_millis(wait_ms));
        }
        self.checked(answer)
    }

    /// At a place with records it reads the clock that the records directory holds, which no step of the wall clock
    /// changes; a line on standard error reports such a step. Elsewhere it reads the wall clock. A clock that cannot
    /// be read stands still. After a failed reading of the wall clock no place with records is opened.
    fn now(&mut self) -> u64
        ensures past { GrewBy None None (Entry.Now result ∷ []) }
        ensures later { self.old.faults ≤ self.new.faults }
        ensures mail { self.new.mail ≡ self.old.mail }
    {
        match self.store.now() {
            Ok(told) => {
                if let Some(step) = told.step {
                    self.telling.step(step);
                }
                told.reading
            }
            Err(_) => {
                self.fail();
                self.store.clocks().last()
            }
        }
    }

    /// It never waits for room: if the system has none, the send fails. A peer of the other address family is reached
    /// by another socket, from another address of this machine; the send fails if the machine has none.
    fn send(&mut self, to: &Peer, bytes: &[u8]) -> Result<(), Failed>
        ensures past { GrewBy None None (Entry.Send to.now bytes.now result ∷ []) }
        ensures cause { HasCause self.old.faults self.new.faults result }
        ensures sent { OnOk result (hearing self.new.mail.socket ≡ turned_to to.now (hearing self.old.mail.socket)) }
        ensures unsent { OnErr result ((hearing self.new.mail.socket ≡ hearing self.old.mail.socket)
            ⊎ (hearing self.new.mail.socket ≡ turned_to to.now (hearing self.old.mail.socket))) }
        ensures taken { TakesIn (hearing self.new.mail.socket) (waiting self.old.mail.backlog)
            (waiting self.new.mail.backlog) }
    {
        let answer = self.mail.send(&self.rt, to, bytes);
        self.take_in_behind();
        if let Err(error) = &answer {
            self.tell_unsent(to, error);
        }
        self.checked(answer)
    }

    fn kept(&mut self, ticket: &Name) -> Result<Option<Record>, Failed>
        ensures past { GrewBy None None (Entry.Kept ticket.now result ∷ []) }
        ensures cause { HasCause self.old.faults self.new.faults result }
        ensures mail { self.new.mail ≡ self.old.mail }
    {
        let answer = self.store.read(&self.rt, ticket, &mut self.telling);
        if let Err(error) = &answer {
            self.telling.unread(ticket, error);
        }
        self.checked(answer)
    }

    /// If its result differs from that of the ticket's last write, a line on standard error says so. A write that
    /// takes longer than the limit fails, and the record may be on the disk nevertheless.
    fn keep(&mut self, ticket: &Name, rec: &Record) -> Result<(), Failed>
        ensures past { GrewBy None None (Entry.Keep ticket.now rec.now result ∷ []) }
        ensures cause { HasCause self.old.faults self.new.faults result }
        ensures taken { TakesIn (hearing self.old.mail.socket) (waiting self.old.mail.backlog)
            (waiting self.new.mail.backlog) }
        ensures socket { self.new.mail.socket ≡ self.old.mail.socket }
    {
        self.take_in();
        let answer = self.store.write(&self.rt, ticket, rec);
        self.take_in();
        self.telling.keep(ticket, &answer);
        self.checked(answer)
    }

    /// It first kills the program of the same ticket that still runs. It fails if no place is open, if the handler
    /// cannot be started, if that program cannot be killed, or if one that was killed before has not ended yet.
    fn start(&mut self, job: &Job) -> Result<(), Failed>
        ensures past { GrewBy None None
            (Entry.Start job.now.number job.now.ticket job.now.handler job.now.local job.now.expires result ∷ []) }
        ensures cause { HasCause self.old.faults self.new.faults result }
        ensures mail { self.new.mail ≡ self.old.mail }
    {
        let answer = self.start_job(job);
        if let Err(error) = &answer {
            self.telling.unstarted(&job.ticket, error);
        }
        self.checked(answer)
    }

    /// It reads a regular file of up to 2^30 bytes, and no other.
    fn read_file(&mut self, alloc: Global, path: &str) -> Result<ByteText, ReadFault>
        ensures past { GrewBy None None (Entry.ReadFile path.now result ∷ []) }
        ensures cause { HasReadCause self.old.faults self.new.faults result }
        ensures mail { self.new.mail ≡ self.old.mail }
    {
        let read = contents(&self.rt, alloc, path);
        match self.telling.told(path.as_bytes(), read) {
            Ok(bytes) => Ok(ByteText::from_vec(bytes)),
            Err(error) => {
                self.fail();
                Err(read_fault(&error))
            }
        }
    }

    /// The lock ends with the process, so a file that is left behind is no lock. The file is created for its owner
    /// alone if it is missing; its directory is not. A file that is not regular is not opened. A host may take the
    /// lock that it already holds; a second file's lock is a failure.
    fn lock(&mut self, path: &str) -> Result<bool, Failed>
        ensures past { GrewBy None None (Entry.Lock path.now result ∷ []) }
        ensures cause { HasCause self.old.faults self.new.faults result }
        ensures mail { self.new.mail ≡ self.old.mail }
    {
        let taken = take_lock(&self.rt, &mut self.locked, path);
        let answer = self.telling.told(path.as_bytes(), taken);
        self.checked(answer)
    }

    fn out(&mut self, bytes: &[u8]) -> Result<(), Failed>
        ensures past { GrewBy None None (Entry.Out bytes.now result ∷ []) }
        ensures cause { HasCause self.old.faults self.new.faults result }
        ensures mail { self.new.mail ≡ self.old.mail }
    {
        let answer = write_to(&self.rt.stdout(), bytes);
        self.checked(answer)
    }

    /// If the journal reads standard error, each line begins with the priority of a failure instead of the program's
    /// name.
    fn err(&mut self, bytes: &[u8]) -> Result<(), Failed>
        ensures past { GrewBy None None (Entry.Err bytes.now result ∷ []) }
        ensures cause { HasCause self.old.faults self.new.faults result }
        ensures mail { self.new.mail ≡ self.old.mail }
    {
        let answer = self.telling.write(bytes);
        self.checked(answer)
    }
}
