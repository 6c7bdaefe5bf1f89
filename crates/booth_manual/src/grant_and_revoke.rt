//! The rules grant, again and revoke: what each writes, and what follows the write.
ghost use Rattle.std.specs.Prelude.{◌≡◌, ◌<◌, IsTrue};
ghost use Rattle.booth_manual.specs.GrantAndRevoke.{are_terms_spent, grant, again, kept_by_hand, revoke, keeping};
ghost use Rattle.booth_manual.specs.GrantAndRevoke.{finish_grant, finish_again, finish_revoke, finish};

use crate::messages::{revokes, tells_grant};
use crate::view::{Call, LAST_TERM, ManualView, NO_END, Waiting};
use booth_rec::{Lease, Record};
use booth_wire::{Say, Setup};

/// Returns whether no grant is possible any more: the term is at least `LAST_TERM`.
pub fn are_terms_spent(view: &ManualView) -> bool
    ensures { result ≡ are_terms_spent view.now }
{
    view.term >= LAST_TERM
}

// Returns the record of a term and perhaps a lease, in the version that the setup names.
fn kept_by_hand(setup: &Setup, term: u32, lease: Option<Lease>) -> Record
    requires { IsTrue setup.now.second }
    ensures { result ≡ kept_by_hand setup.now term lease }
{
    Record::plain(term, lease)
}

// Requests a write for a call, which waits for its result.
fn keeping(view: &mut ManualView, call: Call, tried: Record) -> Record
    ensures view { view.new ≡ (keeping view.old call tried).view }
    ensures record { result ≡ (keeping view.old call tried).tried }
{
    view.waiting = Some(Waiting { call, tried });
    tried
}

// Grants the ticket: a lease without an end, in a new term.
pub(crate) fn grant(setup: &Setup, view: &mut ManualView) -> Record
    requires second { IsTrue setup.now.second }
    requires terms { view.old.term < LAST_TERM }
    ensures view { view.new ≡ (grant setup.now view.old).view }
    ensures record { result ≡ (grant setup.now view.old).tried }
{
    let term = view.term + 1;
    let lease = Lease {
        term,
        until: NO_END,
    };
    let tried = kept_by_hand(setup, term, Some(lease));
    view.term = term;
    view.kept = tried;
    view.owner = true;
    view.shown = None;
    keeping(view, Call::Grant, tried)
}

// Writes the record again.
pub(crate) fn again(setup: &Setup, view: &mut ManualView) -> Record
    requires { IsTrue setup.now.second }
    ensures view { view.new ≡ (again setup.now view.old).view }
    ensures record { result ≡ (again setup.now view.old).tried }
{
    let tried = kept_by_hand(setup, view.kept.term, view.kept.lease);
    keeping(view, Call::Again, tried)
}

// Releases the ticket, with the write of a record without a lease.
pub(crate) fn revoke(setup: &Setup, view: &mut ManualView) -> Record
    requires { IsTrue setup.now.second }
    ensures view { view.new ≡ (revoke setup.now view.old).view }
    ensures record { result ≡ (revoke setup.now view.old).tried }
{
    let tried = kept_by_hand(setup, view.term, None);
    keeping(view, Call::Revoke, tried)
}

// Goes on after the write of a grant.
fn finish_grant(setup: &Setup, view: &mut ManualView, ok: bool) -> Say
    ensures view { view.new ≡ (finish_grant setup.now view.old ok).view }
    ensures say { result ≡ (finish_grant setup.now view.old ok).say }
{
    view.sure = ok;
    if ok {
        tells_grant(setup, view.term)
    } else {
        Say::Nothing
    }
}

// Goes on after the repeated write of the record.
fn finish_again(view: &mut ManualView, tried: Record, ok: bool) -> Say
    ensures view { view.new ≡ (finish_again view.old tried ok).view }
    ensures say { result ≡ (finish_again view.old tried ok).say }
{
    view.sure = ok;
    if !ok {
        return Say::Nothing;
    }
    view.kept = tried;
    Say::Nothing
}

// Goes on after the write of a revocation.
fn finish_revoke(setup: &Setup, view: &mut ManualView, tried: Record, ok: bool) -> Say
    ensures view { view.new ≡ (finish_revoke setup.now view.old tried ok).view }
    ensures say { result ≡ (finish_revoke setup.now view.old tried ok).say }
{
    view.sure = ok;
    if !ok {
        return Say::Nothing;
    }
    view.kept = tried;
    view.owner = false;
    revokes(setup, view.term)
}

// Goes on with the call that waits, after its write.
pub(crate) fn finish(setup: &Setup, view: &mut ManualView, ok: bool) -> Say
    ensures view { view.new ≡ (finish setup.now view.old ok).view }
    ensures say { result ≡ (finish setup.now view.old ok).say }
{
    let Some(waits) = view.waiting else {
        return Say::Nothing;
    };
    view.waiting = None;
    match waits.call {
        Call::Grant => finish_grant(setup, view, ok),
        Call::Again => finish_again(view, waits.tried, ok),
        Call::Revoke => finish_revoke(setup, view, waits.tried, ok),
    }
}
