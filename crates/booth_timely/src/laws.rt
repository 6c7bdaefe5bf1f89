//! Laws over worlds. Each is the contract of a function that does nothing.
ghost use Rattle.booth_timely.specs.Holding.{AnsweredRenewalsHold, LeasesLast, ViewsHold};

/// A member whose view has a lease that runs by its clock holds the ticket, if it is between two turns or begins one.
pub fn views_hold()
    ensures { ViewsHold }
{}

/// A leader goes on to hold the ticket until its lease ends, while no call of its daemon is interrupted, each write
/// succeeds, and no client revokes the ticket.
pub fn leases_last()
    ensures { LeasesLast }
{}

/// A leader that renews, and whose turns hear the answers of a majority in time, goes on to hold the ticket until a
/// whole lease after it renewed.
pub fn answered_renewals_hold()
    ensures { AnsweredRenewalsHold }
{}
