//! What holds for all calls of a following.
ghost use Rattle.booth_following.specs.Laws.{AnswersAreAuthentic, AnswersEndNoLater, EndsAreNoLater, ListsAreAuthentic, ServicesHaveTheirTerms, TurnsFollowTheRule, TurnsGoOn};

/// The actions of turns are the rule's for their moments, and so the rule's laws hold for them.
pub fn turns_follow_the_rule()
    ensures { TurnsFollowTheRule }
{}

/// Bytes report the state of the ticket if and only if they are an authentic answer of this site about the ticket.
pub fn answers_are_authentic()
    ensures { AnswersAreAuthentic }
{}

/// The end in such an answer is no later than the daemon's own.
pub fn answers_end_no_later()
    ensures { AnswersEndNoLater }
{}

/// Bytes count as a list if and only if they are an authentic answer of this site to a request for the list.
pub fn lists_are_authentic()
    ensures { ListsAreAuthentic }
{}

/// The end in a line is no later than the daemon's own.
pub fn ends_are_no_later()
    ensures { EndsAreNoLater }
{}

/// Each start is made with the term that is known, and a service that is restarted for a term is ended if it runs with
/// another term. The rule learns of this site only what was said.
pub fn services_have_their_terms()
    ensures { ServicesHaveTheirTerms }
{}

/// The turns up to silence are turns of the following, whatever keys it has afterwards; so are turns after other
/// turns.
pub fn turns_go_on()
    ensures { TurnsGoOn }
{}
