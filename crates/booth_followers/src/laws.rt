//! What follows from the contracts, for all runs.
ghost use Rattle.booth_followers.specs.Faultless.{FaultlessServices};
ghost use Rattle.booth_followers.specs.Rounds.{RoundsAreTurns};

/// With valid arguments, a valid file and keys, a ticket that can be followed with them, and an environment that does
/// not fail before the turns, `booth-follow` gives Done, TurnsSpent or OutOfMemory.
pub fn faultless_services()
    ensures { FaultlessServices }
{}

/// The turns of all rounds are turns of one following, whatever keys were read between them.
pub fn rounds_are_turns()
    ensures { RoundsAreTurns }
{}
