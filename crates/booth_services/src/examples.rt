//! Example runs and worlds, as the contracts of functions that do nothing. They show that the statement about runs in
//! worlds and the laws of services are not empty.
ghost use Rattle.std.specs.Prelude.{ℕ, ◌≡◌, None};
ghost use Rattle.booth_daemon.specs.Headline.{IsSessionIn};
ghost use Rattle.booth_daemon.specs.Run.{IsRun};
ghost use Rattle.booth_examples.specs.Premises.{HoldsAt};
ghost use Rattle.booth_examples.specs.WorldExamples.{site_one, web};
ghost use Rattle.booth_follow_rule.specs.Margins.{margins_of};
ghost use Rattle.booth_node.specs.Held.{IsAutomatic};
ghost use Rattle.booth_node.specs.World.{IsSecondWorld, IsWorld};
ghost use Rattle.booth_outcomes.specs.declared.outcome.Outcome.TheVariants.{Done};
ghost use Rattle.booth_services.specs.RunExample.{run_calls, run_words, with_a_run};
ghost use Rattle.booth_services.specs.ServiceExample.{following_of, moved, served, serves_next, serves_on, stops_in_time};
ghost use Rattle.booth_services.specs.Services.{GaveBack, IsFollowerAt, MayServe, StopsBeforeReleases};

/// A daemon of a member that is alone makes one turn. It opens, gets a client's request for a grant, writes a term
/// and then a lease, and informs the client. The world contains nothing else.
pub fn boothd_runs_in_a_world()
    ensures run { IsRun run_words Done run_calls }
    ensures world { IsWorld with_a_run }
    ensures second { IsSecondWorld with_a_run }
    ensures holds { HoldsAt with_a_run web 0 12999 }
    ensures session { IsSessionIn with_a_run run_words Done run_calls }
{}

/// A service runs at one site and then at the other one, with default margins. The first site stops its service before
/// it releases the lease, so the two services never run at the same time.
pub fn services_follow_a_move()
    ensures world { IsWorld moved }
    ensures second { IsSecondWorld moved }
    ensures automatic { IsAutomatic moved served }
    ensures margins { margins_of served.times.expire served.times.renewal None None ≡ (following_of site_one).margins }
    ensures first { IsFollowerAt moved served 0 stops_in_time }
    ensures next { IsFollowerAt moved served 1 serves_next }
    ensures first_serves { MayServe moved 0 stops_in_time 6000 }
    ensures next_serves { MayServe moved 1 serves_next 7700 }
    ensures first_stops { StopsBeforeReleases moved served 0 stops_in_time }
    ensures next_stops { StopsBeforeReleases moved served 1 serves_next }
    ensures apart { (time : ℕ) → MayServe moved 0 stops_in_time time → MayServe moved 1 serves_next time → ⊥ }
{}

/// In the same world the first site's service is not stopped before the release. The two services run at the same time.
pub fn services_overlap_without_a_stop()
    ensures first { IsFollowerAt moved served 0 serves_on }
    ensures next { IsFollowerAt moved served 1 serves_next }
    ensures first_serves { MayServe moved 0 serves_on 7700 }
    ensures next_serves { MayServe moved 1 serves_next 7700 }
    ensures released { GaveBack moved served 0 serves_on 7700 }
{}
