//! What holds for the actions of every follower, whatever its news are.
ghost use Rattle.booth_follow_rule.specs.Examples.{StoriesAreFollowed};
ghost use Rattle.booth_follow_rule.specs.Laws.{DeedsAreLet, KnowsWhatIsHeard, RenewalsAreApart, RenewalsAreTold, ServesBelowAnEnd, ServesInTime, StartsAreHeld};

/// Each action is allowed by what is known before it, and an action that is due is not left out.
pub fn deeds_are_let()
    ensures { DeedsAreLet }
{}

/// From a start of a service, or from the check by which it was taken over, to the end of its stop or kill, the clock
/// is below an armed end.
pub fn serves_in_time()
    ensures { ServesInTime }
{}

/// The rule has the actions of the stories that were worked out manually.
pub fn stories_are_followed()
    ensures { StoriesAreFollowed }
{}

/// Only the last list determines what is known from lists.
pub fn knows_what_is_heard()
    ensures { KnowsWhatIsHeard }
{}

/// At each start the last list shows this site, and an end is armed, and more than the margin is left to both ends.
pub fn starts_are_held()
    ensures { StartsAreHeld }
{}

/// The end of each renewal is the one in the last list that shows this site.
pub fn renewals_are_told()
    ensures { RenewalsAreTold }
{}

/// Two renewals without another between them are 0.9 s apart, or a pause if that is less, unless a run succeeded
/// between them.
pub fn renewals_are_apart()
    ensures { RenewalsAreApart }
{}

/// While the service is started, and for a gap longer, the clock is below an armed end from a list, or one that an
/// earlier follower left, as far as the environment is prompt.
pub fn serves_below_an_end()
    ensures { ServesBelowAnEnd }
{}
