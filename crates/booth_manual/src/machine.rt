//! One manual ticket at one member, as its callers see it. Each call is one rule.
ghost use Rattle.std.specs.Prelude.{◌≡◌, ◌≤◌, ◌↔◌, IfOk, IsErr, IsSome, IsTrue, OnErr, OnOk, false, None};
ghost use Rattle.std.specs.Option.{option_copied};

use crate::grant_and_revoke::{again, are_terms_spent, finish, grant, revoke};
use crate::hearing::hear;
use crate::messages::asks_state;
use crate::start::started;
use crate::view::{LAST_TERM, ManualView};
use booth_rec::Record;
use booth_wire::{Head, Say, Setup, TermSpent, TicketPart};
use std::marker::Model;

/// The rules of one manual ticket at one member.
///
/// The caller writes the record that a call returns to disk, and then calls `kept` before any other call. No call
/// allocates memory.
#[derive(Drop)]
pub struct Manual {
    setup: Setup,
    view: ManualView,
}

impl Model for Manual {
    ghost use Rattle.std.specs.Prelude.{IsTrue};
    ghost use Rattle.booth_manual.specs.Facts.{ViewFacts};
    ghost use Rattle.booth_manual.specs.State.{State};

    ghost Value = { State };

    ghost view = { λ m. record { setup = m.setup; view = m.view } };

    ghost invariant = { λ m. IsTrue m.setup.second × ViewFacts m.setup m.view };
}

impl Manual {
    ghost use Rattle.booth_rec.specs.Record.{record_or_none};
    ghost use Rattle.booth_manual.specs.Facts.{ViewFacts};
    ghost use Rattle.booth_manual.specs.GrantAndRevoke.{again, finish, grant, revoke};
    ghost use Rattle.booth_manual.specs.Hearing.{hear};
    ghost use Rattle.booth_manual.specs.Messages.{asks_state};
    ghost use Rattle.booth_manual.specs.Start.{started};
    ghost use Rattle.booth_manual.specs.State.{State, with_view};

    /// Starts a member from the record that it wrote last.
    pub fn start(setup: &Setup, kept: Option<&Record>) -> Manual
        requires { IsTrue setup.now.second }
        ensures { result ≡
            record { setup = setup.now; view = started (record_or_none (option_copied kept.entry)) } }
    {
        let kept = kept.copied().unwrap_or(Record::first(0, None));
        Manual {
            setup: setup.copy(),
            view: started(kept),
        }
    }

    /// Returns what the member knows about the ticket.
    pub fn view(&self) -> &ManualView
        ensures value { result.now ≡ self.now.view }
        ensures facts { ViewFacts self.now.setup self.now.view }
    {
        &self.view
    }

    /// Returns the setup with which it started.
    pub fn setup(&self) -> &Setup
        ensures { result.now ≡ self.now.setup }
    {
        &self.setup
    }

    /// Asks all members for their state, as at the first deadline after the start.
    pub fn hello(&self) -> Say
        ensures { result ≡ asks_state self.now.setup self.now.view }
    {
        asks_state(&self.setup, &self.view)
    }

    /// Grants the ticket to this site, and returns the record to write.
    ///
    /// # Errors
    ///
    /// `TermSpent` if no term is left; the ticket is then unchanged.
    pub fn grant(&mut self) -> Result<Record, TermSpent>
        requires idle { self.old.view.waiting ≡ None }
        ensures spent { IsErr result ↔ (LAST_TERM ≤ self.old.view.term) }
        ensures err { OnErr result (self.new ≡ self.old) }
        ensures view { OnOk result (self.new ≡ with_view self.old (grant self.old.setup self.old.view).view) }
        ensures tried { IfOk result (λ tried. tried ≡ (grant self.old.setup self.old.view).tried) }
    {
        if are_terms_spent(&self.view) {
            return Err(TermSpent);
        }
        Ok(grant(&self.setup, &mut self.view))
    }

    /// Returns the owner's record, to write it again after a write that failed.
    pub fn again(&mut self) -> Record
        requires idle { self.old.view.waiting ≡ None }
        requires owner { IsTrue self.old.view.owner }
        requires unsure { self.old.view.sure ≡ false }
        ensures view { self.new ≡ with_view self.old (again self.old.setup self.old.view).view }
        ensures tried { result ≡ (again self.old.setup self.old.view).tried }
    {
        again(&self.setup, &mut self.view)
    }

    /// Releases the ticket at its owner, and returns the record to write.
    pub fn revoke(&mut self) -> Record
        requires idle { self.old.view.waiting ≡ None }
        requires owner { IsTrue self.old.view.owner }
        ensures view { self.new ≡ with_view self.old (revoke self.old.setup self.old.view).view }
        ensures tried { result ≡ (revoke self.old.setup self.old.view).tried }
    {
        revoke(&self.setup, &mut self.view)
    }

    /// Goes on after the write that waits (`ok` if the record was written), and returns the message that follows.
    pub fn kept(&mut self, ok: bool) -> Say
        requires waiting { IsSome self.old.view.waiting }
        ensures view { self.new ≡ with_view self.old (finish self.old.setup self.old.view ok).view }
        ensures say { result ≡ (finish self.old.setup self.old.view ok).say }
        ensures waits { self.new.view.waiting ≡ None }
    {
        finish(&self.setup, &mut self.view, ok)
    }

    /// Handles a message of another member.
    pub fn hear(&mut self, head: &Head, part: &TicketPart) -> Say
        requires idle { self.old.view.waiting ≡ None }
        ensures view { self.new ≡ with_view self.old
            (hear self.old.setup self.old.view head.now part.now head.now.cmd).view }
        ensures say { result ≡
            (hear self.old.setup self.old.view head.now part.now head.now.cmd).say }
        ensures waits { self.new.view.waiting ≡ None }
    {
        hear(&self.setup, &mut self.view, head, part)
    }
}
