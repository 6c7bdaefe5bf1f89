//! Laws over the trees. Each is the contract of a function that does nothing.
ghost use Rattle.booth_ticket.specs.Laws.{AnswersWhereItMay, GrantAsksAll, MajorityGains};
ghost use Rattle.booth_ticket.specs.ManualLaws.{GrantsAfterHandler, GrantsByHand, RevokesByHand};

/// A member that may answer a round answers it before all other acts. In version 2 this requires that its promise was
/// written.
pub fn answers_where_it_may()
    ensures { AnswersWhereItMay }
{}

/// A grant that is not refused asks every other member, if the new term was written and the site's own vote is not a
/// majority.
pub fn grant_asks_all()
    ensures { GrantAsksAll }
{}

/// A majority that answers in time gives the lease, if its record was written.
pub fn majority_gains()
    ensures { MajorityGains }
{}

/// Suppose that a manual ticket has no handler, that a grant of it is not refused, and that the write succeeds. Then
/// the grant is written, announced to all other members and answered with success.
pub fn grants_by_hand()
    ensures { GrantsByHand }
{}

/// If the handler of a manual ticket's grant reports that the service can run, the grant is written, announced to all
/// other members and sent to each client that waits. This requires that a term is left and the write succeeds.
pub fn grants_after_handler()
    ensures { GrantsAfterHandler }
{}

/// A manual ticket's revoke at its holder is written, announced to all other members and answered with success, if
/// the write succeeds.
pub fn revokes_by_hand()
    ensures { RevokesByHand }
{}
