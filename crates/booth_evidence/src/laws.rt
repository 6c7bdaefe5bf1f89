//! The laws of audited journals. Each is the contract of a function that does nothing.
ghost use Rattle.booth_evidence.specs.Evidence.{AuditedJournalsAreWorlds, StartsGoOnUnlessSilent};
ghost use Rattle.booth_evidence.specs.Overlaps.{LinesAreApart};

/// Suppose that an audit finds no fault in the journals of all members. Then each world that fits the journals meets
/// all premises, so no two members ever hold an automatic ticket at the same time. For each lease by which a member
/// holds a ticket, the audit reports a line.
pub fn audited_journals_are_worlds()
    ensures { AuditedJournalsAreWorlds }
{}

/// If the audit reports no silent start, each start of the world goes on.
pub fn starts_go_on()
    ensures { StartsGoOnUnlessSilent }
{}

/// Suppose that two clocks differ by no more than a certain time, and that their members write no later after a clock
/// reading than a second time. Then lines of these members for an automatic ticket overlap for no longer than the two
/// times together, unless one of the leases was released.
pub fn lines_are_apart()
    ensures { LinesAreApart }
{}
