//! The laws of audits.
ghost use Rattle.booth_audit.specs.Exchanges.{ExchangesTell};
ghost use Rattle.booth_audit.specs.Hearings.{HearingsAreDeeds, ReplaysAreCounted};
ghost use Rattle.booth_audit.specs.Holdings.{HoldingsCover, MembersAreCovered};
ghost use Rattle.booth_audit.specs.Kept.{MayIsNoted};
ghost use Rattle.booth_audit.specs.Noted.{NotesAreDeeds};
ghost use Rattle.booth_audit.specs.Own.{ReplaysAreOwn};
ghost use Rattle.booth_audit.specs.ReadLines.{StartsHaveLines};
ghost use Rattle.booth_audit.specs.Sends.{SendersTell, UnsentIsFound};
ghost use Rattle.booth_audit.specs.Sole.{AuditsHaveOneAnswer};
ghost use Rattle.booth_audit.specs.Starts.{StartsAreReplayed};
ghost use Rattle.booth_audit.specs.Turns.{TurnsAreReplayed};
ghost use Rattle.booth_audit.specs.Watched.{TicketsAreFound, WatchTellsFirst, WatchTellsUnwritten};

/// Each lease that a member may have written has a holding, which began no later than at the reading in use.
pub fn members_are_covered()
    ensures { MembersAreCovered }
{}

/// The holdings of members cover each lease that one of them may have written.
pub fn holdings_cover()
    ensures { HoldingsCover }
{}

/// A turn with a host that replays lines of a journal equals the replay of these lines.
pub fn turns_are_replayed()
    ensures { TurnsAreReplayed }
{}

/// Each call of a start equals the call in the replay of its journal, by the lines for that call.
pub fn starts_are_replayed()
    ensures { StartsAreReplayed }
{}

/// The notes about a member follow from what it did: the reading in use, and the holdings of each ticket.
pub fn notes_are_deeds()
    ensures { NotesAreDeeds }
{}

/// All starts of a replay are starts of its member.
pub fn replays_are_own()
    ensures { ReplaysAreOwn }
{}

/// The noted records of a ticket are the records that its member may have written.
pub fn may_is_noted()
    ensures { MayIsNoted }
{}

/// A start has the line of its last read. The record of each ticket is in the line that a fault names.
pub fn starts_have_lines()
    ensures { StartsHaveLines }
{}

/// Each ticket of a configuration is found by its name at its own place.
pub fn tickets_are_found()
    ensures { TicketsAreFound }
{}

/// The watch over a member's events reports the line of the first record that a start read and may not read.
pub fn watch_tells_first()
    ensures { WatchTellsFirst }
{}

/// The watch over a member's events reports the reads of records that the member may not have written.
pub fn watch_tells_unwritten()
    ensures { WatchTellsUnwritten }
{}

/// The noted messages of a member show which messages that its turns received were sent.
pub fn hearings_are_deeds()
    ensures { HearingsAreDeeds }
{}

/// The lines of a replay's events are counted from 1 on.
pub fn replays_are_counted()
    ensures { ReplaysAreCounted }
{}

/// The sends in the journals are what their members sent.
pub fn senders_tell()
    ensures { SendersTell }
{}

/// The noted messages, compared with what the members sent, give the first message that was received and not sent.
pub fn unsent_is_found()
    ensures { UnsentIsFound }
{}

/// The answer about the exchanges of journals is the fault of the journals, or states that there is no fault.
pub fn exchanges_tell()
    ensures { ExchangesTell }
{}

/// An audit has one answer for given journals: no fault, with these holdings and silent starts, or this fault. Only out
/// of memory may come in place of it.
pub fn audits_have_one_answer()
    ensures { AuditsHaveOneAnswer }
{}
