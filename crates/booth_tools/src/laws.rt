//! What follows from the contracts, for all runs.
ghost use Rattle.booth_tools.specs.ClientRun.{FaultlessTalks};

/// With valid arguments, a valid file and key and an environment that does not fail, `booth` and `geostore` give
/// Report, Refused, NoReply, NotRunning or OutOfMemory; a move may also give NotSite or Stranded.
pub fn faultless_talks()
    ensures { FaultlessTalks }
{}
