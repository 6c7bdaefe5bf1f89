//! Laws that follow from the contracts, for all runs.
ghost use Rattle.booth_daemon.specs.AuditedStarts.{AuditsAcceptAsWorlds};
ghost use Rattle.booth_daemon.specs.Faultless.{FaultlessAudits, FaultlessRuns, FaultlessSimulations, FaultlessLooks};
ghost use Rattle.booth_daemon.specs.Headline.{CutRunsAreSessions, DaemonsTurn, RunsAreSessions};

/// Valid arguments and files, a free lock and an environment that does not fail give Done, TurnsSpent or OutOfMemory.
pub fn faultless_runs()
    ensures { FaultlessRuns }
{}

/// Valid arguments, a valid file and an environment that does not fail give Done or OutOfMemory for `sim`.
pub fn faultless_simulations()
    ensures { FaultlessSimulations }
{}

/// Valid arguments, a valid file, its keys and an environment that does not fail give Done, AuditBad or OutOfMemory
/// for `audit`.
pub fn faultless_audits()
    ensures { FaultlessAudits }
{}

/// If a member of a world begins without a record, an audit accepts the records that a start of it reads exactly if the
/// premise `records_return` of worlds does.
pub fn audits_accept_as_worlds()
    ensures { AuditsAcceptAsWorlds }
{}

/// Valid arguments and an environment that does not fail give Done, NotRunning or OutOfMemory for `status`.
pub fn faultless_looks()
    ensures { FaultlessLooks }
{}

/// The calls of a run of the daemon after its opening are a session of a member. Its start has the reading and the
/// records that the opening read, and the calls of its turns follow.
pub fn runs_are_sessions()
    ensures { RunsAreSessions }
{}

/// If a run of the daemon ends after any call, its calls after the opening are still a session of a member.
pub fn cut_runs_are_sessions()
    ensures { CutRunsAreSessions }
{}

/// Each run of a daemon that ends with Done or TurnsSpent made its whole opening and then turns, so these are a
/// session of a member.
pub fn daemons_turn()
    ensures { DaemonsTurn }
{}
