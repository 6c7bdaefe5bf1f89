//! The jobs of the tickets' handlers. Each lane of a ticket has one job at a time, and a job runs its programs one
//! after the other.
//!
//! Nothing here waits for a program.

ghost use Rattle.std.specs.Prelude.{◌≡◌, ◌<◌, IfSome, vec_len};

use crate::clocks::Clocks;
use crate::programs::{
    FileName, LeaseTerm, Told, is_directory, is_run_for, next_in_directory, start,
};
use crate::streams::ErrorStream;
use booth_base::{Name, PathText};
use booth_host::Job;
use std::alloc::Global;
use std::io;
use std::io::ErrorKind;
use std::process::Child;

/// The status of a program that a signal ended.
pub(crate) const SIGNALLED: i32 = 255;

/// Jobs of a ticket in the same lane end one another; jobs in different lanes do not.
#[derive(Clone, Copy, PartialEq, Eq)]
enum Lane {
    /// The lane of every job, unless there are two lanes.
    Main,
    /// The lane of jobs that run at the same time as the jobs of the main lane.
    Beside,
}

// A job, and its program that runs.
#[derive(Drop)]
struct Running {
    job: Job,
    lane: Lane,
    /// The path of the configuration when the job was started.
    conf_path: PathText,
    lease_term: LeaseTerm,
    error_stream: ErrorStream,
    /// The program of the handler's directory that was started last, if the handler is a directory.
    program: Option<FileName>,
    /// The program that runs; none if a directory has no programs.
    child: Option<Child>,
}

/// How a job ended.
#[derive(Drop)]
pub(crate) struct Ended {
    pub(crate) job: u64,
    pub(crate) ticket: Name,
    /// The status of the last program that ran, or why there is none.
    pub(crate) status: io::Result<i32>,
}

/// The jobs that run, at most one per lane of a ticket, and killed programs that have not been seen to end yet.
#[derive(Drop)]
pub(crate) struct Jobs {
    running: Vec<Running>,
    /// By ticket and lane, at most one each.
    killed: Vec<(Name, Lane, Child)>,
    /// The argument of the programs that run in the second lane. Without it there is one lane.
    beside: Option<&'static str>,
    error_stream: ErrorStream,
}

fn copy_of(job: &Job) -> Job {
    Job {
        number: job.number,
        ticket: job.ticket.copy(),
        handler: job.handler.copy(),
        local: job.local,
        expires: job.expires,
    }
}

impl Running {
    // Returns a job of which no program was started.
    fn new(
        job: &Job,
        lane: Lane,
        conf_path: &PathText,
        lease_term: LeaseTerm,
        error_stream: ErrorStream,
    ) -> Running {
        Running {
            job: copy_of(job),
            lane,
            conf_path: conf_path.copy(),
            lease_term,
            error_stream,
            program: None,
            child: None,
        }
    }

    // Returns whether this is the job of this ticket in this lane.
    fn is_in(&self, ticket: &Name, lane: Lane) -> bool {
        self.job.ticket == *ticket && self.lane == lane
    }

    // Starts the first program.
    fn begin(&mut self, rt: &HostRuntime, clocks: &Clocks) -> io::Result<()> {
        if is_directory(rt, &self.job.handler)? {
            self.start_next(rt, clocks)
        } else {
            self.run(rt, clocks)
        }
    }

    // Starts the next program of the handler's directory, if there is one.
    fn start_next(&mut self, rt: &HostRuntime, clocks: &Clocks) -> io::Result<()> {
        self.child = None;
        let next = next_in_directory(rt, &self.job.handler, self.program.as_ref())?;
        if next.is_none() {
            return Ok(());
        }
        self.program = next;
        self.run(rt, clocks)
    }

    // Starts the current program of the handler's directory, or the handler itself if it is a program.
    fn run(&mut self, rt: &HostRuntime, clocks: &Clocks) -> io::Result<()> {
        self.child = Some(self.started(rt, clocks)?);
        Ok(())
    }

    // Starts the same, and returns the child. The program gets a variable that says how long the lease still lasts.
    fn started(&self, rt: &HostRuntime, clocks: &Clocks) -> io::Result<Child> {
        let told = Told {
            left_ms: clocks.left_until(self.job.expires),
            conf_path: self.conf_path.as_str(),
            lease_term: self.lease_term,
        };
        start(
            rt,
            &self.job,
            told,
            self.program.as_ref(),
            self.error_stream,
        )
    }

    // Returns the program's status once it has ended; 0 if no program runs.
    fn status(&mut self) -> io::Result<Option<i32>> {
        match &mut self.child {
            Some(child) => status_of(child),
            None => Ok(Some(0)),
        }
    }

    // Starts the next program of a directory. If there is none, the job ends with 0.
    fn go_on(&mut self, rt: &HostRuntime, clocks: &Clocks) -> io::Result<Option<i32>> {
        self.start_next(rt, clocks)?;
        Ok(if self.child.is_some() { None } else { Some(0) })
    }

    // Returns the job's status once the job is over. If a program of a directory ended with 0, the next one is
    // started.
    fn poll(&mut self, rt: &HostRuntime, clocks: &Clocks) -> io::Result<Option<i32>> {
        match self.status() {
            Ok(Some(0)) if self.program.is_some() => self.go_on(rt, clocks),
            status => status,
        }
    }
}

// Returns a program's status once it has ended.
fn status_of(child: &mut Child) -> io::Result<Option<i32>> {
    match child.try_wait() {
        Ok(Some(status)) => Ok(Some(status.code().unwrap_or(SIGNALLED))),
        Ok(None) => Ok(None),
        Err(error) => Err(error),
    }
}

impl Jobs {
    pub(crate) fn new(alloc: Global, error_stream: ErrorStream) -> Jobs {
        Jobs {
            running: Vec::new(alloc),
            killed: Vec::new(alloc),
            beside: None,
            error_stream,
        }
    }

    /// Makes the programs with this argument run in a lane of their own, as a follower's programs do. From then on
    /// the last word of a program may be the term of its lease.
    pub(crate) fn run_beside(&mut self, word: &'static str) {
        self.beside = Some(word);
    }

    // Returns the lane of a job.
    fn lane_of(&self, job: &Job) -> Lane {
        match self.beside {
            Some(word) => {
                if is_run_for(&job.handler, word) {
                    Lane::Beside
                } else {
                    Lane::Main
                }
            }
            None => Lane::Main,
        }
    }

    // Returns the source of the lease's term for a job, if the ticket's lease has this one. Before an acquisition
    // there is no lease to renew, although the record may have one that is over.
    fn lease_term(&self, job: &Job, lease_term: u32) -> LeaseTerm {
        match self.beside {
            Some(_) => LeaseTerm::LastWord,
            None if job.expires == 0 => LeaseTerm::Known(0),
            None => LeaseTerm::Known(lease_term),
        }
    }

    /// Returns whether nothing runs and every killed program was seen to end.
    pub(crate) fn are_over(&self) -> bool {
        self.running.is_empty() && self.killed.is_empty()
    }

    // Removes the killed programs that have ended.
    fn reap(&mut self) {
        self.killed
            .retain_mut(|(_, _, child)| matches!(child.try_wait(), Ok(None)));
    }

    // Returns whether a program in this ticket's lane was killed and has not ended yet.
    fn is_ending(&self, ticket: &Name, lane: Lane) -> bool {
        for (name, of, _) in &self.killed {
            if name == ticket && *of == lane {
                return true;
            }
        }
        false
    }

    // Removes the job in a ticket's lane, and returns its program that runs, if there is one.
    fn take(&mut self, ticket: &Name, lane: Lane) -> Option<Child>
        ensures { self.new.killed ≡ self.old.killed }
    {
        let place = self.running.iter().position(|one| one.is_in(ticket, lane))?;
        self.running.remove(place).child
    }

    // Kills the program that runs in a ticket's lane, and removes its job.
    fn end(&mut self, ticket: &Name, lane: Lane) -> io::Result<()> {
        if self.is_ending(ticket, lane) {
            return Err(io::Error::from(ErrorKind::ResourceBusy));
        }
        self.killed.reserve(1)?;
        match self.take(ticket, lane) {
            Some(mut child) => {
                // A program that changed its user, for example by sudo, cannot be killed: it stays in the list until
                // it has ended.
                let ended = child.kill();
                self.killed.push_reserved((ticket.copy(), lane, child));
                ended
            }
            None => Ok(()),
        }
    }

    /// Starts a job of a ticket whose lease has this term, or 0 if it has no lease. It first kills the program that
    /// still runs in this lane of the ticket.
    pub(crate) fn start(
        &mut self,
        rt: &HostRuntime,
        clocks: &Clocks,
        job: &Job,
        conf_path: &PathText,
        lease_term: u32,
    ) -> io::Result<()> {
        self.reap();
        let lane = self.lane_of(job);
        self.end(&job.ticket, lane)?;
        self.running.reserve(1)?;
        let lease_term = self.lease_term(job, lease_term);
        let mut running = Running::new(job, lane, conf_path, lease_term, self.error_stream);
        let begun = running.begin(rt, clocks);
        if begun.is_ok() {
            self.running.push_reserved(running);
        }
        begun
    }

    // Returns the place of the first job that is over, and how it ended.
    fn first_over(&mut self, rt: &HostRuntime, clocks: &Clocks) -> Option<(usize, io::Result<i32>)>
        ensures { IfSome result (λ over. over.0 < vec_len self.new.running) }
    {
        for place in 0..self.running.len() {
            let status = self.running[place].poll(rt, clocks).transpose();
            if let Some(status) = status {
                return Some((place, status));
            }
        }
        None
    }

    /// Polls each job once, up to the first that is over, and removes that one.
    pub(crate) fn poll(&mut self, rt: &HostRuntime, clocks: &Clocks) -> Option<Ended> {
        self.reap();
        let (place, status) = self.first_over(rt, clocks)?;
        let job = self.running.remove(place).job;
        Some(Ended {
            job: job.number,
            ticket: job.ticket,
            status,
        })
    }
}
