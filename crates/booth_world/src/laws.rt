//! The laws of a ticket's world. Each is the contract of a function that does nothing.
ghost use Rattle.booth_node.specs.World.{OneConfigurationIsEnough};
ghost use Rattle.booth_world.specs.Alone.{GrantGainsAlone};
ghost use Rattle.booth_world.specs.Calls.{CallsAreSteps, PromisesWhereItMayAnswer, StepsOfOneAreSteps};
ghost use Rattle.booth_world.specs.CoreLaws.{CoreTermsNeverFall, CoresAreApart, CoresHoldOne, LaterCoreHasLaterTerm};
ghost use Rattle.booth_world.specs.Fencing.{GainedHavePhases, TermsAreOfOneMember, LaterAskersHaveLaterTerms, LaterRoundsHaveLaterTerms, LivesHaveTheirTerms};
ghost use Rattle.booth_world.specs.Growth.{ShadowsGrow};
ghost use Rattle.booth_world.specs.HostLaws.{HostTermsNeverFall, HostsAreApart, HostsHoldOne, LaterHostHasLaterTerm};
ghost use Rattle.booth_world.specs.Kept.{FailedKeepsSayNothing, ManualWaitersHaveJobs, TicketsKeepTheirKinds, ToldStopWaiting};
ghost use Rattle.booth_world.specs.LastNumbers.{LastNumbers};
ghost use Rattle.booth_world.specs.Laws.{HasOneHolder, HoldersAreApart, HoldersHavePhases, KeptTermsNeverFall, LaterHolderHasLaterTerm, LaterInWindow};
ghost use Rattle.booth_world.specs.Lists.{ListsAreSeats, ListStepsMeet, WaitIsEnough};
ghost use Rattle.booth_world.specs.NodeWaits.{WorldsWaitersHaveDeadlines};
ghost use Rattle.booth_world.specs.OnePhase.{OnePhaseIsEnough};
ghost use Rattle.booth_world.specs.Rules.{lease_rules};
ghost use Rattle.booth_world.specs.Stability.{AgreementStays, CallsLeadOn, MembersStay, RunsAppend};
ghost use Rattle.booth_world.specs.Shadows.{WorldsHaveShadows};
ghost use Rattle.booth_world.specs.Told.{ToldTermsAreGained, WorldsHaveFencingTerms};
ghost use Rattle.booth_world.specs.Tellers.{ClaimsLast, GrantsAreKept, TellersAreApart, WhoTellsHasKept, WhoTellsHolds};
ghost use Rattle.booth_world.specs.TwoSteps.{SmallerTermTwoStepsOn};
ghost use Rattle.booth_world.specs.Waits.{WaitersHaveDeadlines};
ghost use Rattle.booth_world.specs.Worlds.{CutSessionsAreSessions, LogsAreSessions, StoppedLogsAreSessions};
ghost use Rattle.booth_world.specs.Worlds.{LaterHoldersHaveLaterTerms, WorldTermsNeverFall, WorldsAreApart, WorldsHoldOne};

/// No two sites ever hold the ticket at the same time.
pub fn one_holder()
    ensures steps { HasOneHolder }
    ensures worlds { WorldsHoldOne }
{}

/// The lease by which a site holds was gained in a phase, which is the time of one configuration.
pub fn holders_have_phases()
    ensures { HoldersHavePhases }
{}

/// One site holds by a lease, and another site holds later. Then the distance of the lease's phase lies between that
/// lease and the later time, or the first site released the lease between the two. With one configuration, the distance
/// is acquire-after.
pub fn apart()
    ensures steps { HoldersAreApart }
    ensures worlds { WorldsAreApart }
{}

/// The terms of the records that a member may have written never fall.
pub fn terms()
    ensures steps { KeptTermsNeverFall }
    ensures worlds { WorldTermsNeverFall }
{}

/// If each session is of version 2, and two sites hold by leases, one after the other, the later lease has the
/// greater term. Both leases are of one phase, or of a phase and the next.
pub fn later_terms()
    ensures steps { LaterHolderHasLaterTerm }
    ensures worlds { LaterHoldersHaveLaterTerms }
{}

/// If each session is of version 2, the later of two leases has the greater term if both sites hold between the opening
/// of a phase and the opening of the next.
pub fn later_in_window()
    ensures { LaterInWindow }
{}

/// After two steps between configurations, the later lease may have the smaller term.
pub fn smaller_two_steps_on()
    ensures { SmallerTermTwoStepsOn }
{}

/// A cluster with one configuration has phases, and needs no premise on them.
pub fn one_phase_is_enough()
    ensures { OnePhaseIsEnough }
{}

/// The places of a list of members, whose ids are among those of all members, belong to different members. If two such
/// lists pass the test of a step, their majorities meet.
pub fn lists_are_seats()
    ensures named { ListsAreSeats }
    ensures meet { ListStepsMeet }
{}

/// If any clock has counted the time to wait, the slowest clock has counted a promise and a millisecond.
pub fn wait_is_enough()
    ensures { WaitIsEnough }
{}

/// A member that names itself as the holder of an automatic ticket is right. Just before, it may have written a
/// record whose lease bears the claim out. If the claim is a grant's success, that record was written, and it is the
/// only one that may have been written. If the claim has not ended at that moment, the member holds the ticket then,
/// and no other member does. If two members name themselves, one after the other, acquire-after lies between the two
/// moments, or the first member released its lease between them.
pub fn tellers()
    ensures kept { WhoTellsHasKept }
    ensures granted { GrantsAreKept }
    ensures holds { WhoTellsHolds }
    ensures apart { TellersAreApart }
    ensures last { ClaimsLast }
{}

/// After a write that failed, a step of the lease rules writes nothing and sends no message.
pub fn failed_keeps_say_nothing()
    ensures { FailedKeepsSayNothing }
{}

/// If a member rests between two turns, each of its tickets is of the kind that the configuration gives it.
pub fn tickets_keep_their_kinds()
    ensures { TicketsKeepTheirKinds }
{}

/// A client that is sent an outcome no longer waits.
pub fn told_stop_waiting()
    ensures { ToldStopWaiting }
{}

/// Clients wait for a manual ticket only while its handler runs, and then the ticket has a deadline.
pub fn manual_waiters_have_jobs()
    ensures { ManualWaitersHaveJobs }
{}

/// Clients wait for an automatic ticket only while its member is working, is a candidate or leads. Then the ticket
/// has a deadline: at most as long after the last reading as a round is tried, or at the end of the lease.
pub fn waiters_have_deadlines()
    ensures { WaitersHaveDeadlines }
{}

/// In each world, each ticket for which a client waits has a deadline, whether it is automatic or manual. This holds
/// at each moment at which a member rests between two turns, or begins one.
pub fn worlds_waiters_have_deadlines()
    ensures { WorldsWaitersHaveDeadlines }
{}

/// A grant that is not refused, at a member that is a majority by itself, gives the lease at once. The member writes
/// the new term and then the lease, and the client that asked gets success.
pub fn grant_gains_alone()
    ensures { GrantGainsAlone }
{}

/// After the round with the last number, no other round is opened in its term. After the last job number comes 1
/// again. A counter stays at its greatest value.
pub fn last_numbers()
    ensures { LastNumbers }
{}

/// If all starts of a world have one configuration, the laws hold for each of its tickets.
pub fn one_configuration()
    ensures { OneConfigurationIsEnough }
{}

/// A log of a node's turns is part of a session of a world.
pub fn logs_are_sessions()
    ensures { LogsAreSessions }
{}

/// A log whose last turn stopped is part of a session of a world.
pub fn stopped_logs_are_sessions()
    ensures { StoppedLogsAreSessions }
{}

/// A session up to any of its entries is part of a session.
pub fn cut_sessions_are_sessions()
    ensures { CutSessionsAreSessions }
{}

/// All laws over steps, so that a program takes them by one call.
pub fn all()
    ensures one_holder { HasOneHolder }
    ensures apart { HoldersAreApart }
    ensures terms { KeptTermsNeverFall }
    ensures later_terms { LaterHolderHasLaterTerm }
{
    one_holder();
    apart();
    terms();
    later_terms();
}

/// If the lease rules allow an answer to a round, the member of the world may make the promise.
pub fn promises_where_it_may_answer()
    ensures { PromisesWhereItMayAnswer }
{}

/// Each start, each call of `Core` and each result of a write is a list of steps of its member, in a session of
/// either version. The steps lead to a state that agrees with the view, and to a known list of records that may have
/// been written. Each message is a fact, and no other facts are added.
pub fn calls_are_steps()
    ensures { CallsAreSteps lease_rules }
{}

/// The steps that one member may make are steps of the world.
pub fn steps_of_one_are_steps()
    ensures { StepsOfOneAreSteps }
{}

/// While others make steps and time passes, a member's view still agrees, and each message remains a fact.
pub fn agreement_stays()
    ensures { AgreementStays }
{}

/// Each call of a member leads from one world to the next. Its view agrees, its messages are facts, and the views of
/// other members still agree.
pub fn calls_lead_on()
    ensures { CallsLeadOn }
{}

/// Runs append, and split again.
pub fn runs_append()
    ensures { RunsAppend }
{}

/// While others make steps and time passes, a member is unchanged, and if it agreed it still agrees. The same holds if
/// the member itself reads its clock.
pub fn members_stay()
    ensures { MembersStay }
{}

/// Entries of the lease cores of a ticket at all members, with stops at any entry, are a run of the world. After them,
/// no two sites hold the ticket at the same moment.
pub fn cores_hold_one()
    ensures { CoresHoldOne }
{}

/// One site holds after some entries of the cores, and another site holds later. Then acquire-after lies between that
/// lease and the later time, or an entry between the two released the lease.
pub fn cores_are_apart()
    ensures { CoresAreApart }
{}

/// The terms of the records that a member may have written never fall over entries of the cores.
pub fn core_terms()
    ensures { CoreTermsNeverFall }
{}

/// If each start of the cores is of version 2, a later holder has a later term.
pub fn later_core_terms()
    ensures { LaterCoreHasLaterTerm }
{}

/// Entries of the hosts of a ticket, whose turns a stop may interrupt anywhere, are entries of its cores. After them,
/// no two sites hold the ticket at the same moment.
pub fn hosts_hold_one()
    ensures { HostsHoldOne }
{}

/// One site holds after some entries of the hosts, and another site holds later. Then acquire-after lies between that
/// lease and the later time, or a write between the two released the lease.
pub fn hosts_are_apart()
    ensures { HostsAreApart }
{}

/// The terms of the records that a member's writes may have left never fall over entries of the hosts.
pub fn host_terms()
    ensures { HostTermsNeverFall }
{}

/// If each start of the hosts is of version 2, a later holder has a later term.
pub fn later_host_terms()
    ensures { LaterHostHasLaterTerm }
{}

/// All laws over entries of the hosts, so that a program takes them by one call.
pub fn all_over_hosts()
    ensures one_holder { HostsHoldOne }
    ensures apart { HostsAreApart }
    ensures terms { HostTermsNeverFall }
    ensures later_terms { LaterHostHasLaterTerm }
{
    hosts_hold_one();
    hosts_are_apart();
    host_terms();
    later_host_terms();
}

/// Each world has a shadow: for each of its moments and each automatic ticket, a list of the world's steps from the
/// opening state. After these steps, each member may have written the records that it may have written by the
/// entries, and the record that its turn writes next. Each release is the release of an entry. Each round was opened,
/// and each answer given, at a reading that an entry took. Each message that an entry sent states a fact. A member
/// that holds the ticket according to the entries holds it in the state after these steps.
pub fn worlds_have_shadows()
    ensures { WorldsHaveShadows }
{}

/// The shadow of a later moment continues the shadow of an earlier one. Each release in the further steps is the
/// release of an entry between the two moments. If all sessions are of version 2, each start among the steps is of
/// version 2.
pub fn shadows_grow()
    ensures { ShadowsGrow }
{}

/// The terms of leases distinguish them, whatever clocks do, if each start is of version 2. Each gained lease has a
/// phase. Two gained leases with the same term belong to one member. A lease that is asked for later has a greater
/// term. Both hold for leases of one phase, or of a phase and the next. A lease that a member gains after it went down
/// has a greater term than its leases before. The same holds in each world whose clocks rise. In such a world, a member
/// that reports a term has gained a lease of that term, in either version.
pub fn fencing()
    ensures phases { GainedHavePhases }
    ensures terms { TermsAreOfOneMember }
    ensures askers { LaterAskersHaveLaterTerms }
    ensures rounds { LaterRoundsHaveLaterTerms }
    ensures lives { LivesHaveTheirTerms }
    ensures worlds { WorldsHaveFencingTerms }
    ensures told { ToldTermsAreGained }
{}
