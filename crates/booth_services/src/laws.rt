//! The laws of services in worlds. Each is the contract of a function that does nothing.
ghost use Rattle.booth_services.specs.Services.{MovesAreSafe, ServesUnderALease, ServicesAreApart};

/// While a service may run, a lease is in force. The site had written that lease when it sent the answer on which the
/// service relies.
pub fn serves_under_a_lease()
    ensures { ServesUnderALease }
{}

/// The services of a ticket at two sites do not run at the same time, unless one of the sites released the lease on
/// which its own service relies, and the end of that lease is still to come.
pub fn services_are_apart()
    ensures { ServicesAreApart }
{}

/// The services of a ticket at two sites never run at the same time, if each site stops its service before it releases
/// the lease.
pub fn moves_are_safe()
    ensures { MovesAreSafe }
{}
