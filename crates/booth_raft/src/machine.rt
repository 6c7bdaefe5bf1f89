//! The core: one automatic ticket at one member, as its callers see it. Each call is one rule.
ghost use Rattle.std.specs.Prelude.{◌≡◌, ◌≢◌, ◌<◌, ◌≤◌, ◌^◌, ◌↔◌, IfOk, IsErr, IsTrue, OnErr, OnOk, max, true, false, None};
ghost use Rattle.std.specs.Option.{option_copied};

use crate::ask_and_renew::{are_terms_spent, ask, finish, renew};
use crate::deadlines::{due_now, hello, lose};
use crate::deed::{Deed, Note, Told};
use crate::gain_release_lost::release;
use crate::notes::noted;
use crate::other_messages::hear;
use crate::start_and_learn::started;
use crate::view::{LAST_TERM, View};
use booth_rec::Record;
use booth_wire::{Head, Say, Setup, TermSpent, TicketPart};
use std::marker::Model;

/// The lease rules of one automatic ticket at one member.
///
/// Every `now` is a reading of the member's clock in milliseconds since 1970, below 2^62. The caller does the parts
/// of a deed (an action) in the order keep, say, told. A keep is a write of a record to disk. After a deed with a
/// keep, the next call is `kept`, at the same reading. No call allocates memory.
#[derive(Drop)]
pub struct Core {
    setup: Setup,
    view: View,
}

impl Model for Core {
    ghost use Rattle.booth_raft.specs.State.{CoreFacts, State};

    ghost Value = { State };

    ghost view = { λ core. record { setup = core.setup; view = core.view } };

    ghost invariant = { λ core. CoreFacts core.setup core.view };
}

impl Core {
    ghost use Rattle.booth_rec.specs.Record.{record_or_none};
    ghost use Rattle.booth_raft.specs.AskAndRenew.{ask, finish, renew};
    ghost use Rattle.booth_raft.specs.Deadlines.{due_now, greeted, hello};
    ghost use Rattle.booth_raft.specs.Facts.{KeepWaits, ViewFacts};
    ghost use Rattle.booth_raft.specs.GainReleaseLost.{lost, release};
    ghost use Rattle.booth_raft.specs.Members.{is_leader, is_working};
    ghost use Rattle.booth_raft.specs.Notes.{MayNote, noted};
    ghost use Rattle.booth_raft.specs.OtherMessages.{hear};
    ghost use Rattle.booth_raft.specs.Outcome.{telling};
    ghost use Rattle.booth_raft.specs.Sound.{IsSound};
    ghost use Rattle.booth_raft.specs.StartAndLearn.{started};
    ghost use Rattle.booth_raft.specs.State.{IsDue, IsOver, IsWaiting, MayRelease, State, step, with_view};

    /// Starts a member from the record that it wrote last.
    pub fn start(setup: &Setup, kept: Option<&Record>, now: u64) -> Core
        requires sound { IsSound setup.now }
        requires second { IsTrue setup.now.second }
        requires early { now < 2 ^ 62 }
        ensures { result ≡
            record { setup = setup.now; view = started setup.now (record_or_none (option_copied kept.entry)) now } }
    {
        let kept = kept.copied().unwrap_or(Record::first(0, None));
        Core {
            setup: setup.copy(),
            view: started(setup, kept, now),
        }
    }

    /// Returns the member's view of the ticket.
    pub fn view(&self) -> &View
        ensures value { result.now ≡ self.now.view }
        ensures facts { ViewFacts self.now.setup self.now.view }
    {
        &self.view
    }

    /// Returns the setup with which the core started.
    pub fn setup(&self) -> &Setup
        ensures value { result.now ≡ self.now.setup }
        ensures sound { IsSound result.now }
    {
        &self.setup
    }

    /// Starts an election in a new term.
    ///
    /// # Errors
    ///
    /// Returns `TermSpent` if no term is left. The core is then unchanged.
    pub fn ask(&mut self, now: u64, reason: u32) -> Result<Deed, TermSpent>
        requires early { now < 2 ^ 62 }
        requires idle { self.old.view.waiting ≡ None }
        requires site { IsTrue self.old.setup.site }
        ensures spent { IsErr result ↔ (LAST_TERM ≤ max self.old.view.term self.old.view.seen) }
        ensures err { OnErr result (self.new ≡ self.old) }
        ensures view { OnOk result (self.new ≡ with_view self.old (ask self.old.setup self.old.view reason now).view) }
        ensures deed { IfOk result (λ deed. deed ≡ (ask self.old.setup self.old.view reason now).deed) }
        ensures waits { IfOk result (λ deed. KeepWaits deed.keep self.new.view.waiting now) }
    {
        if are_terms_spent(&self.view) {
            return Err(TermSpent);
        }
        Ok(ask(&self.setup, &mut self.view, reason, now))
    }

    /// Handles a message from the member at the place `from`, which is not this member.
    pub fn hear(&mut self, now: u64, from: u32, head: &Head, part: &TicketPart) -> Deed
        requires early { now < 2 ^ 62 }
        requires idle { self.old.view.waiting ≡ None }
        requires place { from < self.old.setup.members }
        requires other { from ≢ self.old.setup.place }
        ensures step { record { core = self.new; deed = result } ≡ step self.old
            (hear self.old.setup self.old.view from head.now part.now now head.now.cmd) }
        ensures waits { KeepWaits result.keep self.new.view.waiting now }
    {
        hear(&self.setup, &mut self.view, from, head, part, now)
    }

    /// Continues after the write that waits. `ok` is true if the record was written.
    pub fn kept(&mut self, now: u64, ok: bool) -> Deed
        requires early { now < 2 ^ 62 }
        requires waiting { IsWaiting self.old.view now }
        ensures step { record { core = self.new; deed = result } ≡ step self.old
            (finish self.old.setup self.old.view now ok) }
        ensures waits { KeepWaits result.keep self.new.view.waiting now }
    {
        finish(&self.setup, &mut self.view, now, ok)
    }

    /// Asks all members for their state, at the first deadline after the start, and again if the member still asks.
    pub fn hello(&mut self, now: u64) -> Say
        requires early { now < 2 ^ 62 }
        requires idle { self.old.view.waiting ≡ None }
        requires due { IsDue self.old.view now }
        ensures view { self.new ≡ with_view self.old (greeted self.old.setup self.old.view) }
        ensures say { result ≡ hello self.old.setup self.old.view now }
    {
        hello(&self.setup, &mut self.view, now)
    }

    /// Runs the rule for the member's role, at its deadline.
    pub fn tick(&mut self, now: u64) -> Deed
        requires early { now < 2 ^ 62 }
        requires idle { self.old.view.waiting ≡ None }
        requires due { IsDue self.old.view now }
        requires role { is_working self.old.view.role ≡ false }
        ensures step { record { core = self.new; deed = result } ≡ step self.old
            (due_now self.old.setup self.old.view now) }
        ensures waits { KeepWaits result.keep self.new.view.waiting now }
    {
        due_now(&self.setup, &mut self.view, now)
    }

    /// Ends a leader's lease that has run out, as its deadline would, at any time.
    pub fn lose(&mut self, now: u64) -> Deed
        requires early { now < 2 ^ 62 }
        requires idle { self.old.view.waiting ≡ None }
        requires over { IsOver self.old.view now }
        ensures step { record { core = self.new; deed = result } ≡ step self.old
            (telling (lost self.old.setup self.old.view now) Told.Lost) }
        ensures waits { KeepWaits result.keep self.new.view.waiting now }
    {
        lose(&self.setup, &mut self.view, now)
    }

    /// Notes an event of a handler or of a client's request.
    pub fn note(&mut self, now: u64, note_made: Note)
        requires early { now < 2 ^ 62 }
        requires idle { self.old.view.waiting ≡ None }
        requires fitting { MayNote self.old.view note_made }
        ensures { self.new ≡ with_view self.old (noted self.old.setup self.old.view now note_made) }
    {
        noted(&self.setup, &mut self.view, now, note_made);
    }

    /// Renews the lease, after the handler if there is one.
    pub fn renew(&mut self, now: u64) -> Deed
        requires early { now < 2 ^ 62 }
        requires idle { self.old.view.waiting ≡ None }
        requires role { IsTrue (is_leader self.old.view.role) }
        ensures step { record { core = self.new; deed = result } ≡ step self.old
            (renew self.old.setup self.old.view now) }
        ensures waits { KeepWaits result.keep self.new.view.waiting now }
    {
        renew(&self.setup, &mut self.view, now)
    }

    /// Releases the lease.
    pub fn release(&mut self, now: u64, reason: u32) -> Deed
        requires early { now < 2 ^ 62 }
        requires idle { self.old.view.waiting ≡ None }
        requires site { IsTrue self.old.setup.site }
        requires fitting { MayRelease self.old.view reason now }
        ensures step { record { core = self.new; deed = result } ≡ step self.old
            (release self.old.setup self.old.view reason now) }
        ensures waits { KeepWaits result.keep self.new.view.waiting now }
    {
        release(&self.setup, &mut self.view, reason, now)
    }
}
