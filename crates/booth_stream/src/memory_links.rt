//! Links in memory, which run a script and record their calls.
ghost use Rattle.std.specs.Prelude.{◌≡◌, ◌≤◌, [], ◌∷◌, ◌++◌, None, Ok, IfOk, OnErr, OnOk, length, option_map};
ghost use Rattle.booth_host.specs.Causes.{HasCause, Rose};
ghost use Rattle.booth_stream.specs.Calls.{CallsGrewBy};
ghost use Rattle.booth_stream.specs.declared.link_call.LinkCall.{LinkCall};

use crate::link_call::{poll_call, write_call};
use crate::{LinkCall, LinkEvent, Links, Piece};
use booth_base::ByteText;
use booth_host::{Failed, Place};
use std::alloc::{AllocError, Global};

/// The result of one poll, and how many bytes writes take until the next poll.
#[derive(Drop)]
pub struct LinkStep {
    pub event: Result<LinkEvent, Failed>,
    /// The bytes of the event.
    pub bytes: ByteText,
    /// The most bytes that a write takes. If it is 0, writes fail.
    pub takes: usize,
}

/// Links in memory. Each poll starts the next step, and has no event after the last step. They record their calls
/// until memory runs out or more bytes were written than they have room for, and record nothing from then on.
#[derive(Drop)]
pub struct MemoryLinks {
    alloc: Global,
    script: Vec<LinkStep>,
    begun: usize,
    room: usize,
    calls: Vec<LinkCall>,
    tells: bool,
    faults: u64,
}

// Appends this call, unless the memory has run out.
pub(crate) fn push<T: Drop>(list: &mut Vec<T>, last: T) -> Result<(), AllocError>
    ensures ok { OnOk result (list.new.items ≡ list.old.items ++ last ∷ []) }
    ensures err { OnErr result (list.new.items ≡ list.old.items) }
{
    match list.push(last) {
        Ok(()) => Ok(()),
        Err(_) => Err(AllocError),
    }
}

impl MemoryLinks {
    ghost use Rattle.booth_stream.specs.MemoryLinks.{links_past, running, coming, IsNew, IsPolled, Begins, Stays};

    /// Returns links that run this script, and record calls with at most `room` written bytes.
    pub fn new(alloc: Global, script: Vec<LinkStep>, room: u32) -> Result<MemoryLinks, AllocError>
        ensures { IfOk result (λ links. IsNew links script.items room) }
    {
        Ok(MemoryLinks {
            alloc,
            script,
            begun: 0,
            room: room as usize,
            calls: Vec::new(alloc),
            tells: true,
            faults: 0,
        })
    }

    /// Returns the calls so far, the oldest first, or none if they are no longer recorded.
    pub fn past(&self) -> Option<&[LinkCall]>
        ensures { option_map (λ calls. calls.now) result ≡ links_past self.now }
    {
        if self.tells { Some(&self.calls) } else { None }
    }

    // Records this call, or stops the recording.
    fn note(&mut self, call: Result<LinkCall, AllocError>)
        ensures told { IfOk call (λ call. CallsGrewBy (links_past self.old) (links_past self.new) (call ∷ [])) }
        ensures untold { OnErr call (links_past self.new ≡ None) }
        ensures faults { self.new.faults ≡ self.old.faults }
        ensures stays { Stays self.old self.new }
    {
        let Ok(call) = call else {
            self.tells = false;
            return;
        };
        if push(&mut self.calls, call).is_err() {
            self.tells = false;
        }
    }

    // Uses room for this many written bytes, or stops the recording.
    fn use_room(&mut self, taken: usize)
        ensures past { CallsGrewBy (links_past self.old) (links_past self.new) [] }
        ensures faults { self.new.faults ≡ self.old.faults }
        ensures stays { Stays self.old self.new }
    {
        if taken <= self.room {
            self.room -= taken;
        } else {
            self.tells = false;
        }
    }

    // Counts a failure.
    fn fail(&mut self)
        ensures past { links_past self.new ≡ links_past self.old }
        ensures rose { Rose self.old.faults self.new.faults }
        ensures later { self.old.faults ≤ self.new.faults }
        ensures stays { Stays self.old self.new }
    {
        self.faults = self.faults.saturating_add(1);
    }

    // Starts the next step.
    fn begin(&mut self, into: &mut Piece) -> Result<LinkEvent, Failed>
        ensures past { links_past self.new ≡ links_past self.old }
        ensures cause { HasCause self.old.faults self.new.faults result }
        ensures polled { IsPolled (coming self.old) result into.new }
        ensures begins { Begins self.old self.new }
    {
        let Some(step) = self.script.get(self.begun) else {
            into.set(&[]);
            return Ok(LinkEvent::Quiet);
        };
        into.set(step.bytes.bytes());
        let answer = step.event;
        self.begun = self.begun.saturating_add(1);
        if answer.is_err() {
            self.fail();
        }
        answer
    }

    // Returns the step that runs.
    fn step(&self) -> Option<&LinkStep>
        ensures { option_map (λ step. step.now) result ≡ running self.now }
    {
        if self.begun == 0 {
            return None;
        }
        self.script.get(self.begun - 1)
    }
}

impl Links for MemoryLinks {
    ghost use Rattle.booth_stream.specs.MemoryLinks.{links_past, running, coming, IsPolled, Takes, takes_of, Begins, Stays};

    ghost past = { links_past };

    ghost faults = { λ links. links.faults };

    fn open(&mut self, place: &Place) -> Result<(), Failed>
        ensures past { CallsGrewBy (links_past self.old) (links_past self.new)
            (LinkCall.Open place.now.local place.now.port result ∷ []) }
        ensures cause { HasCause self.old.faults self.new.faults result }
        ensures opens { result ≡ Ok tt }
        ensures stays { Stays self.old self.new }
    {
        self.note(Ok(LinkCall::Open {
            local: place.local,
            port: place.port,
            answer: Ok(()),
        }));
        Ok(())
    }

    fn poll(&mut self, into: &mut Piece) -> Result<LinkEvent, Failed>
        ensures past { CallsGrewBy (links_past self.old) (links_past self.new)
            (LinkCall.Poll result into.new ∷ []) }
        ensures cause { HasCause self.old.faults self.new.faults result }
        ensures polled { IsPolled (coming self.old) result into.new }
        ensures begins { Begins self.old self.new }
    {
        let answer = self.begin(into);
        let call = poll_call(self.alloc, answer, into.bytes());
        self.note(call);
        answer
    }

    #[tactic(auto, using(crate::proofs::CallLemmas::one_behind_none))]
    fn write(&mut self, link: u32, bytes: &[u8]) -> Result<usize, Failed>
        ensures past { CallsGrewBy (links_past self.old) (links_past self.new)
            (LinkCall.Write link bytes.now result ∷ []) }
        ensures fits { IfOk result (λ taken. taken ≤ length bytes.now) }
        ensures cause { HasCause self.old.faults self.new.faults result }
        ensures takes { Takes (takes_of (running self.old) (length bytes.now)) result }
        ensures stays { Stays self.old self.new }
    {
        let most = match self.step() {
            Some(step) => step.takes,
            None => usize::MAX,
        };
        let answer = if most == 0 {
            self.fail();
            Err(Failed)
        } else {
            let taken = most.min(bytes.len());
            self.use_room(taken);
            Ok(taken)
        };
        let call = write_call(self.alloc, link, bytes, answer);
        self.note(call);
        answer
    }

    fn close(&mut self, link: u32)
        ensures past { CallsGrewBy (links_past self.old) (links_past self.new) (LinkCall.Close link ∷ []) }
        ensures later { self.old.faults ≤ self.new.faults }
        ensures stays { Stays self.old self.new }
    {
        self.note(Ok(LinkCall::Close { link }));
    }
}
