//! The laws of turns. Each is the contract of a function that does nothing.
ghost use Rattle.booth_node.specs.Laws.{OpensWithItsTickets, KeepsItsTickets, NothingRests, DropsAlone, CountsEachFault, ClientsAreAnswered, OthersAreNotAnswered, NobodyIsForgotten};
ghost use Rattle.booth_node.specs.Lists.{ListsHaveTheseParts};
ghost use Rattle.booth_node.specs.Completeness.{RoundsAreAnswered, GrantsAskAll, MajoritiesGain};

/// A node opens with the tickets of its configuration, each set up for this node.
pub fn opens_with_its_tickets()
    ensures { OpensWithItsTickets }
{}

/// The tickets of a node stay the same through every turn.
pub fn keeps_its_tickets()
    ensures { KeepsItsTickets }
{}

/// Each datagram is dropped, goes to its ticket, is a request about its ticket or that ticket's attributes, or is
/// answered at once.
pub fn nothing_rests()
    ensures { NothingRests }
{}

/// The only effect of a datagram with a fault is that its fault is counted.
pub fn drops_alone()
    ensures { DropsAlone }
{}

/// A turn counts a fault exactly if its datagram has that fault, and it counts no other fault.
pub fn counts_each_fault()
    ensures { CountsEachFault }
{}

/// Each accepted request of a client gets its one reply in the same turn, sent to the client. A request for a list
/// gets its parts.
pub fn clients_are_answered()
    ensures { ClientsAreAnswered }
{}

/// The parts of a list are its lines, with as many in each part as fit. There is only one way to divide them like
/// this.
pub fn lists_have_these_parts()
    ensures { ListsHaveTheseParts }
{}

/// In a turn without a client's request, only clients that wait receive a message.
pub fn others_are_not_answered()
    ensures { OthersAreNotAnswered }
{}

/// After each turn, a client that waited still waits, or was sent the outcome of its grant of that ticket in the
/// turn.
pub fn nobody_is_forgotten()
    ensures { NobodyIsForgotten }
{}

/// If a member may answer a round that it received, it writes its promise and then sends the answer in the same turn.
pub fn rounds_are_answered()
    ensures { RoundsAreAnswered }
{}

/// A grant that is not refused asks every other member for its vote in that turn, if its write succeeds.
pub fn grants_ask_all()
    ensures { GrantsAskAll }
{}

/// If a majority answers in time, the ticket is granted until `expire` after its round was opened, if its write
/// succeeds. All clients that wait for the ticket are informed.
pub fn majorities_gain()
    ensures { MajoritiesGain }
{}
