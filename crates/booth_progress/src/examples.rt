//! An example for the laws. It is the contract of a function that does nothing.
ghost use Rattle.booth_progress.specs.RenewalExample.{ALeaseIsRenewed};

/// A site renews its lease with the answer of an arbitrator, while the other site is down.
pub fn a_lease_is_renewed()
    ensures { ALeaseIsRenewed }
{}
