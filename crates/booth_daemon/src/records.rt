//! The records from which a daemon starts, one for each ticket.
ghost use Rattle.std.specs.Prelude.{◌≡◌, ◌≤◌, IfErr, IfOk, MatchResult, length};
ghost use Rattle.booth_host.specs.Past.{GrewSome};
ghost use Rattle.booth_outcomes.specs.Outcomes.{HasBlame, IsServed};
ghost use Rattle.booth_daemon.specs.Records.{AreKept, AreUnread, IsRecordRead};

use booth_base::Name;
use booth_conf::TicketConf;
use booth_host::{Failed, Host};
use booth_outcomes::{Ended, Outcome, texts};
use booth_rec::Record;
use std::alloc::Global;

// Reads the record of this ticket, if there is one.
fn read_record<H: Host>(ticket: &Name, host: &mut H) -> Result<Option<Record>, Ended>
    ensures past { GrewSome (IsRecordRead ticket.now result) (H.past host.old) (H.past host.new) }
    ensures served { IfErr result (λ ended. IsServed ended.outcome) }
    ensures blame { IfErr result (λ ended. HasBlame ended.outcome (H.faults host.old) (H.faults host.new)) }
    ensures later { H.faults host.old ≤ H.faults host.new }
{
    match host.kept(ticket) {
        Ok(record) => Ok(record),
        Err(Failed) => Err(Ended {
            outcome: Outcome::RecordUnread,
            said: texts::unread_record_text(ticket),
        }),
    }
}

/// Reads the record of each of these tickets, if there is one, in their order.
pub(crate) fn read_records<H: Host>(
    alloc: Global,
    tickets: &[TicketConf],
    host: &mut H,
) -> Result<Vec<Option<Record>>, Ended>
    ensures past { MatchResult result
        (λ records. GrewSome (AreKept tickets.now records.items) (H.past host.old) (H.past host.new))
        (λ ended. GrewSome (AreUnread tickets.now ended.outcome ended.said)
        (H.past host.old) (H.past host.new)) }
    ensures each { IfOk result (λ records. length records.items ≡ length tickets.now) }
    ensures served { IfErr result (λ ended. IsServed ended.outcome) }
    ensures blame { IfErr result (λ ended. HasBlame ended.outcome (H.faults host.old) (H.faults host.new)) }
    ensures later { H.faults host.old ≤ H.faults host.new }
{
    let Ok(mut records) = Vec::with_capacity(alloc, tickets.len()) else {
        return Err(Ended::out_of_memory());
    };
    for ticket in tickets {
        records.push_reserved(read_record(&ticket.name, host)?);
    }
    Ok(records)
}
