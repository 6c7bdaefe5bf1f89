//! Small runs that show that the laws are not empty. Each is the contract of a function that does nothing.
ghost use Rattle.std.specs.Prelude.{◌++◌, []};
ghost use Rattle.booth_base.specs.declared.name.Name.{Name};
ghost use Rattle.booth_world.specs.Calls.{IsMember};
ghost use Rattle.booth_world.specs.CoreLaws.{CoreCourse, CoreHolds, early_cores};
ghost use Rattle.booth_world.specs.HostLaws.{HostCourse, HostHolds, early_hosts};
ghost use Rattle.booth_world.specs.LoneExamples.{lone, lone_cast, lone_grant, lone_restart, lone_turn};
ghost use Rattle.booth_world.specs.Examples.{three, granted, renewed, released, granted_elsewhere, crashed_and_started, start, first_caller};
ghost use Rattle.booth_world.specs.Held.{Held};
ghost use Rattle.booth_world.specs.States.{opening, HasClocks, HasPhases, IsTimed};
ghost use Rattle.booth_world.specs.FencingExample.{wild, first_part, second_part};
ghost use Rattle.booth_world.specs.Steps.{IsRun, AreSecond, world_of};

/// Three members have clocks at the limits of drift. A ticket is granted, renewed, released, and granted at another
/// site.
pub fn ticket_moves()
    ensures clocks { HasClocks three }
    ensures timed { IsTimed three }
    ensures phases { HasPhases three }
    ensures run { IsRun three (opening three) (granted ++ renewed ++ released ++ granted_elsewhere) }
    ensures held { Held three (world_of three granted) 0 }
    ensures renewed { Held three (world_of three (granted ++ renewed)) 0 }
    ensures elsewhere { Held three (world_of three (granted ++ renewed ++ released ++ granted_elsewhere)) 1 }
{}

/// A holder and a member that answered it crash and start again, and the ticket is still held.
pub fn holder_restarts()
    ensures run { IsRun three (opening three) (granted ++ crashed_and_started) }
    ensures held { Held three (world_of three (granted ++ crashed_and_started)) 0 }
{}

/// The law about calls applies to a member that has started.
pub fn started_view_agrees()
    ensures { (ticket : Name) → IsMember three (world_of three start) (first_caller ticket) }
{}

/// A member that is alone in its cluster holds the ticket by the lease rules. The write of a release fails, the next
/// write is interrupted, and the member starts from the record of the write that failed.
pub fn lone_core_holds()
    ensures entered { (ticket : Name) → CoreCourse lone (lone_cast ticket) lone_grant lone_restart }
    ensures held { (ticket : Name) → CoreHolds lone (early_cores lone (lone_cast ticket) lone_grant) 0 }
{}

/// At its host, a member that is alone greets, acquires the ticket and writes twice in one turn. It stops before the
/// turn ends, starts again, and still holds the ticket.
pub fn lone_host_holds()
    ensures hosted { (ticket : Name) → HostCourse lone (lone_cast ticket) lone_turn [] }
    ensures held { (ticket : Name) → HostHolds lone (early_hosts lone (lone_cast ticket) lone_turn) 0 }
{}

/// If a clock steps forward, two sites hold the ticket at the same time although each start is of version 2. Their
/// leases have the terms 1 and 2.
pub fn stepped_clock_gives_a_lease()
    ensures clocks { HasClocks wild }
    ensures phases { HasPhases wild }
    ensures run { IsRun wild (opening wild) (first_part ++ second_part) }
    ensures second { AreSecond (first_part ++ second_part) }
    ensures first_holds { Held wild (world_of wild (first_part ++ second_part)) 0 }
    ensures second_holds { Held wild (world_of wild (first_part ++ second_part)) 1 }
{}
