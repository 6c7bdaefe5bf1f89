//! What the log lines mean to their readers.
ghost use Rattle.booth_log.specs.Laws.{GainsAreTold, PromisesAreSilent, RenewalsAreSilent};

/// A record that changes no lease, for example a promise to another site, has no line.
pub fn promises_are_silent()
    ensures { PromisesAreSilent }
{}

/// A renewal that was written has no line.
pub fn renewals_are_silent()
    ensures { RenewalsAreSilent }
{}

/// A lease that was written when none was known has its line.
pub fn gains_are_told()
    ensures { GainsAreTold }
{}
