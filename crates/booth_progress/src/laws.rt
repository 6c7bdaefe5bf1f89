//! Laws over the lease rules and over turns. Each is the contract of a function that does nothing.
ghost use Rattle.booth_progress.specs.Behind.{AnswersLeaveBehind, MembersStayBehind};
ghost use Rattle.booth_progress.specs.Exchange.{SessionsSend};
ghost use Rattle.booth_progress.specs.Extending.{AnsweredRoundsExtend};
ghost use Rattle.booth_progress.specs.Leading.{LeadersLeadOn, LeadersOpenRounds};
ghost use Rattle.booth_progress.specs.Renewing.{RenewalsSucceed};
ghost use Rattle.booth_progress.specs.Sessions.{SessionsKeepLeases, SessionsStayBehind};
ghost use Rattle.booth_progress.specs.Speaking.{TicketsSpeak, TurnsSpeak};
ghost use Rattle.booth_progress.specs.Steady.{LeadersTakeNewTerms};
ghost use Rattle.booth_progress.specs.Tickets.{TicketsKeepLeases, TicketsStayBehind};
ghost use Rattle.booth_progress.specs.Turns.{TurnsKeepLeases, TurnsStayBehind};
ghost use Rattle.booth_progress.specs.Winning.{SessionsWin};

/// A member that has promised to a site keeps to the site until the promise ends, whatever it hears from others. This
/// holds for the rules, the calls of its ticket, the turns of its node, and its whole session.
pub fn members_stay_behind()
    ensures rules { MembersStayBehind }
    ensures tickets { TicketsStayBehind }
    ensures turns { TurnsStayBehind }
    ensures sessions { SessionsStayBehind }
{}

/// A member that answers a round is behind the round's site for the time of a promise, and it sends the answer.
pub fn answers_leave_behind()
    ensures { AnswersLeaveBehind }
{}

/// While its lease runs, a leader leads on, whatever it hears. Its round loses no answer, and its lease ends no
/// earlier. The same holds for the calls of its ticket, the turns of its node and its session, until a client revokes
/// the ticket.
pub fn leaders_lead_on()
    ensures rules { LeadersLeadOn }
    ensures tickets { TicketsKeepLeases }
    ensures turns { TurnsKeepLeases }
    ensures sessions { SessionsKeepLeases }
{}

/// At its deadline a leader whose lease runs sends its open round again, or opens one. A ticket that opens a round
/// sends it to each other member, and a ticket that hears a message sends the reply of its rule.
pub fn leaders_open_rounds()
    ensures rules { LeadersOpenRounds }
    ensures tickets { TicketsSpeak }
    ensures turns { TurnsSpeak }
{}

/// If a majority answers a round while the leader's lease runs, the leader has a lease that runs from the opening of
/// the round, whatever else it hears.
pub fn answered_rounds_extend()
    ensures { AnsweredRoundsExtend }
{}

/// By the steady rules, a leader whose round was refused or not won asks in a new term. In a new term a member may
/// answer that voted for another site in the old one.
pub fn leaders_take_new_terms()
    ensures { LeadersTakeNewTerms }
{}

/// A leader renews. If each member of a majority that is behind it hears the round, and the leader hears the replies in
/// time, the leader has a lease from this renewal on, and these members are behind it again.
pub fn renewals_succeed()
    ensures rules { RenewalsSucceed }
    ensures sessions { SessionsWin }
{}

/// A turn that comes to its end makes the sends that its actions contain. Among them are the round of a leader that
/// renews, and the reply to a message.
pub fn turns_send()
    ensures { SessionsSend }
{}
