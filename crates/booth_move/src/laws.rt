//! Laws of the actions of every move, whatever pairs it receives.
ghost use Rattle.booth_move.specs.Carried.{CarriesDeeds, RequestsAreSent};
ghost use Rattle.booth_move.specs.Laws.{AsksSeldom, EndsAreTold, EveryMoveEnds, GrantsAreLet, NothingAfterTheEnd, NumbersRise, PlacesAreMembers, StepsAreRows, StepsMakeDeeds};

/// Steps one after the other give the actions of a move, one for each pair. The first step sends the revoke.
pub fn steps_make_deeds()
    ensures { StepsMakeDeeds }
{}

/// Each step is a row of the table.
pub fn steps_are_rows()
    ensures { StepsAreRows }
{}

/// The revoke is redirected at most once, and the grant is sent at most eleven times.
pub fn asks_seldom()
    ensures { AsksSeldom }
{}

/// The number of each repeated grant is the next after the number of the grant before it.
pub fn numbers_rise()
    ensures { NumbersRise }
{}

/// No action follows the end.
pub fn nothing_after_the_end()
    ensures { NothingAfterTheEnd }
{}

/// Every move ends, after at most `most_pairs` pairs.
pub fn every_move_ends()
    ensures { EveryMoveEnds }
{}

/// A grant is sent only after the reply that this move's revoke was done, and never without that reply.
pub fn grants_are_let()
    ensures { GrantsAreLet }
{}

/// Each end of a move reports the reply that arrived with it.
pub fn ends_are_told()
    ensures { EndsAreTold }
{}

/// The calls of a move are its pairs with the sends of its actions between them. The replies that it receives are
/// answers.
pub fn carries_deeds()
    ensures { CarriesDeeds }
{}

/// Each request of a move to a member is sent.
pub fn requests_are_sent()
    ensures { RequestsAreSent }
{}

/// A place among the members' ids is the place of the member with this id in the configuration.
pub fn places_are_members()
    ensures { PlacesAreMembers }
{}
