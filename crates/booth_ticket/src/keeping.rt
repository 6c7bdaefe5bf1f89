//! The calls for an outcome of the lease rules: first the write, and then the messages.
ghost use Rattle.std.specs.Prelude.{◌≡◌, ◌<◌, ◌^◌, None};
ghost use Rattle.std.specs.Option.{ForSome};
ghost use Rattle.booth_raft.specs.Facts.{KeepWaits};
ghost use Rattle.booth_raft.specs.Speech.{IsSpeech};
ghost use Rattle.booth_raft.specs.declared.view.Rule.TheVariants as rules;
ghost use Rattle.booth_ticket.specs.Acts.{Did};
ghost use Rattle.booth_ticket.specs.Keeping.{keep_once, carry_out};

use crate::hands::Hands;
use crate::saying::say;
use booth_raft::{Core, Deed};

// Writes the record of an action, if it has one, and returns the next action. After the result of a gain there is no
// other write. After another result, the write of a gain may come.
fn keep_once<W: Hands>(core: &mut Core, now: u64, deed: Deed, hands: &mut W) -> Deed
    requires early { now < 2 ^ 62 }
    requires waits { KeepWaits deed.keep core.old.view.waiting now }
    requires speech { IsSpeech core.old.setup deed.say }
    ensures did { Did W.did (keep_once now (record { core = core.old; deed = deed }))
        (record { core = core.new; deed = result }) hands.old hands.new }
    ensures waits { KeepWaits result.keep core.new.view.waiting now }
    ensures speech { IsSpeech core.new.setup result.say }
    ensures gains { ForSome core.new.view.waiting (λ waits. waits.rule ≡ rules.Gain) }
    ensures last { ForSome core.old.view.waiting (λ waits. waits.rule ≡ rules.Gain)
        → core.new.view.waiting ≡ None }
{
    let Some(rec) = &deed.keep else {
        return deed;
    };
    let ok = hands.keep(rec);
    core.kept(now, ok)
}

/// Performs a step: its writes, and then its messages. The step may come after a message of the member at the place
/// `from`, or without one. The last action has the result for clients.
#[tactic(auto, using(crate::proofs::DidLemmas::did_calls), unfolding(crate::specs::Keeping::carry_out))]
pub(crate) fn carry_out<W: Hands>(
    core: &mut Core,
    from: Option<u32>,
    now: u64,
    deed: Deed,
    hands: &mut W,
) -> Deed
    requires early { now < 2 ^ 62 }
    requires waits { KeepWaits deed.keep core.old.view.waiting now }
    requires speech { IsSpeech core.old.setup deed.say }
    ensures did { Did W.did (carry_out from now (record { core = core.old; deed = deed }))
        (record { core = core.new; deed = result }) hands.old hands.new }
    ensures idle { core.new.view.waiting ≡ None }
{
    let first = keep_once(core, now, deed, hands);
    let last = keep_once(core, now, first, hands);
    say(core.setup(), from, &last.say, hands);
    last
}
