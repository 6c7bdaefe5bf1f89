//! Small worlds that show that the laws are not empty, and that they need each premise. Each is the contract of a
//! function that does nothing.
ghost use Rattle.std.specs.Prelude.{ℕ, ◌<◌, false};
ghost use Rattle.booth_world.specs.Shadows.{HasShadow};
ghost use Rattle.booth_node.specs.Held.{Moment};
ghost use Rattle.booth_node.specs.Session.{AreSessions, Down};
ghost use Rattle.booth_node.specs.World.{IsWorld, IsSecondWorld, IsUntimedWorld, entries_of};
ghost use Rattle.booth_examples.specs.ManyKindsExample.{of_many_kinds, web_by_handler};
ghost use Rattle.booth_examples.specs.Premises.{NothingHeld, SameMembers, TrueClocks, RecordsReturn, VersionsRise, MembersSpeak, OneDaemon, IsWorldBut, TwoHold, HoldsAt, PremisesAreNeeded};
ghost use Rattle.booth_examples.specs.TakeOverExample.{taken_over};
ghost use Rattle.booth_examples.specs.Telling.{TellsAt};
ghost use Rattle.booth_examples.specs.PremiseExamples.{with_foreign_records, with_leases_at_first, with_a_lost_record, with_forged_votes, with_two_configurations, with_a_fast_clock, with_two_daemons, AreTrueBut, HasTwoDaemons, daemon_starts, votes_for_one, votes_for_two};
ghost use Rattle.booth_examples.specs.VersionExamples.{promises_kept, one_after_another, fast_in_second, with_a_falling_version};
ghost use Rattle.booth_examples.specs.LostExamples.{with_a_late_vote, with_a_late_return, with_new_disks};
ghost use Rattle.booth_examples.specs.WorldExamples.{one_goes_on, one_holds, site_one, site_two, tells_lease, web};
ghost use Rattle.booth_world.specs.Tellers.{EndsIn, HasLeft};

/// Without the premise that records return: two sites start from a record that they never wrote.
pub fn foreign_records_are_held()
    ensures others { IsWorldBut RecordsReturn with_foreign_records }
    ensures two_hold { TwoHold with_foreign_records }
{}

/// Without the premise that nothing is held at first: two sites begin with leases in force.
pub fn leases_at_first_are_held()
    ensures others { IsWorldBut NothingHeld with_leases_at_first }
    ensures two_hold { TwoHold with_leases_at_first }
{}

/// A member that is alone begins with the record of a lease that has ended, and holds its ticket in the next term.
pub fn one_member_goes_on()
    ensures world { IsWorld one_goes_on }
    ensures holds { HoldsAt one_goes_on web 0 12999 }
{}

/// A member that is alone starts, gets a client's request for its ticket, and holds it.
pub fn one_member_holds()
    ensures world { IsWorld one_holds }
    ensures holds { HoldsAt one_holds web 0 12999 }
{}

/// Without the premise that members send their own messages: each of two sites gets a forged vote of the other.
pub fn forged_votes_give_leases()
    ensures others { IsWorldBut MembersSpeak with_forged_votes }
    ensures two_hold { TwoHold with_forged_votes }
{}

/// A ticket is granted, its holder crashes in the middle of a write and starts again. When the lease has ended,
/// another member takes over the ticket. Each holder announces its lease to the other site, with six seconds left.
pub fn ticket_is_taken_over()
    ensures world { IsWorld taken_over }
    ensures first { HoldsAt taken_over web 0 12999 }
    ensures second { HoldsAt taken_over web 1 25999 }
    ensures first_tells { TellsAt taken_over web 0 7021 (HasLeft (tells_lease site_one 1 7020 6).head 6) }
    ensures second_tells { TellsAt taken_over web 1 20021 (HasLeft (tells_lease site_two 2 20020 6).head 6) }
    ensures shadows { (moment : Moment taken_over) → HasShadow taken_over false web moment }
{}

/// Without the premise that all members have one configuration: according to its own configuration each of two sites is
/// the only member.
pub fn two_configurations_give_leases()
    ensures others { IsWorldBut SameMembers with_two_configurations }
    ensures two_hold { TwoHold with_two_configurations }
{}

/// Without the premise that clocks are true: the clock of a site that voted runs twice as fast, so it votes for
/// itself while the first lease is in force.
pub fn fast_clock_gives_a_lease()
    ensures others { IsWorldBut TrueClocks with_a_fast_clock }
    ensures only_one { AreTrueBut 1 with_a_fast_clock }
    ensures two_hold { TwoHold with_a_fast_clock }
{}

/// In version 2 alone, the clock of a site that voted runs twice as fast. This is an untimed world, whose clocks only
/// rise, and the terms of its leases distinguish them.
pub fn fast_clock_gives_a_lease_of_its_term()
    ensures untimed { IsUntimedWorld fast_in_second }
    ensures second { IsSecondWorld fast_in_second }
    ensures two_hold { TwoHold fast_in_second }
{}

/// Without the premise that one daemon of each member runs: two daemons of an arbitrator vote for two sites in one
/// term.
pub fn two_daemons_vote_twice()
    ensures others { IsWorldBut OneDaemon with_two_daemons }
    ensures two_daemons { HasTwoDaemons with_two_daemons 2 daemon_starts votes_for_one votes_for_two }
    ensures sites { (m : ℕ) → m < 2 → AreSessions Down (entries_of m with_two_daemons.entries) }
    ensures two_hold { TwoHold with_two_daemons }
{}

/// A site holds in version 1, and then this site and an arbitrator start in version 2. The arbitrator promises
/// another site, crashes after its write, starts from that record and answers at once. The other site then holds the
/// ticket.
pub fn promises_are_kept()
    ensures world { IsWorld promises_kept }
    ensures first { HoldsAt promises_kept web 0 12999 }
    ensures second { HoldsAt promises_kept web 1 25999 }
{}

/// In version 2 alone a site holds, and when its lease has ended another site holds.
pub fn second_holder_follows()
    ensures world { IsWorld one_after_another }
    ensures second { IsSecondWorld one_after_another }
    ensures first_holds { HoldsAt one_after_another web 0 12999 }
    ensures then_holds { HoldsAt one_after_another web 1 25999 }
{}

/// A world has a key, a ticket with a handler and a manual ticket. In it a send, a `next`, a write and a start of a
/// handler fail, and calls of each kind are interrupted. A vote reaches another member as well. A site holds by a
/// write without a result yet, by the same write after it failed, and by an interrupted write. The site's handler runs
/// with the time at which the lease ends, in whole seconds.
pub fn many_kinds_happen()
    ensures world { IsWorld of_many_kinds }
    ensures second { IsSecondWorld of_many_kinds }
    ensures coming { HoldsAt of_many_kinds web_by_handler 0 28122 }
    ensures failed { HoldsAt of_many_kinds web_by_handler 0 28130 }
    ensures cut { HoldsAt of_many_kinds web_by_handler 0 33300 }
    ensures handler { TellsAt of_many_kinds web_by_handler 0 33101 (EndsIn 34) }
{}

/// Without the premise that versions rise: an arbitrator goes back from version 2 to version 1. From one record of
/// version 2 it votes for two sites in one term.
pub fn falling_version_gives_leases()
    ensures others { IsWorldBut VersionsRise with_a_falling_version }
    ensures two_hold { TwoHold with_a_falling_version }
{}

/// Without the premise that records return: a site starts without the term that it wrote, and a vote for its earlier
/// round counts for a later one.
pub fn lost_record_gives_a_lease()
    ensures others { IsWorldBut RecordsReturn with_a_lost_record }
    ensures two_hold { TwoHold with_a_lost_record }
{}

/// The same in version 2: the site starts without a record, and abstains for the time of a whole promise.
pub fn late_vote_gives_a_lease()
    ensures others { IsWorldBut RecordsReturn with_a_late_vote }
    ensures second { IsSecondWorld with_a_late_vote }
    ensures two_hold { TwoHold with_a_late_vote }
{}

/// Two members hold although no vote is late. The late message is the one by which the site gave its term back.
pub fn late_return_frees_a_promise()
    ensures others { IsWorldBut RecordsReturn with_a_late_return }
    ensures second { IsSecondWorld with_a_late_return }
    ensures two_hold { TwoHold with_a_late_return }
{}

/// An arbitrator that voted starts without a record, and a site that held starts from a silent record of a later term.
pub fn disks_are_replaced()
    ensures world { IsWorld with_new_disks }
    ensures second { IsSecondWorld with_new_disks }
    ensures holds { HoldsAt with_new_disks web 0 20999 }
{}

/// In each of these worlds the missing premise is not met.
pub fn premises_are_needed()
    ensures { PremisesAreNeeded }
{}
