//! Laws of the tests, as contracts of functions that do nothing: a world that passes a test has the tested property.
ghost use Rattle.booth_examples.specs.Laws.{CheckedWorldsAreWorlds, CheckedWorldsLackOne, CheckedBeginningsAreFree, CheckedSecondWorlds, CheckedHoldersHold, CheckedTwoHold};

/// A world that passes the test is a world, if its members begin free and its clocks are good. The same holds for a
/// world that lacks one premise, and for a world of version 2.
pub fn checked_worlds_are_worlds()
    ensures whole { CheckedWorldsAreWorlds }
    ensures but_one { CheckedWorldsLackOne }
    ensures second { CheckedSecondWorlds }
{}

/// Members whose records pass the test begin free.
pub fn checked_beginnings_are_free()
    ensures { CheckedBeginningsAreFree }
{}

/// A member that passes the test of holding holds.
pub fn checked_holders_hold()
    ensures one { CheckedHoldersHold }
    ensures two { CheckedTwoHold }
{}
