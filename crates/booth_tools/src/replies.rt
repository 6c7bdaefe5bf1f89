//! How a talk ends: with the report of a good reply, with a refusal, or without a reply.
ghost use Rattle.std.specs.Prelude.{◌≡◌, ◌≤◌, false, Ok};
ghost use Rattle.booth_host.specs.Past.{GrewSome};
ghost use Rattle.booth_talk.specs.Asking.{is_list};
ghost use Rattle.booth_talk.specs.Report.{IsReportOf};
ghost use Rattle.booth_talk.specs.Talk.{IsHeld, IsReplyIn};
ghost use Rattle.booth_outcomes.specs.Outcomes.{HasBlame};
ghost use Rattle.booth_tools.specs.Client.{EndsWith, IsMemoryFor, IsPrinted, IsReported, IsStopped, IsTalkTold, IsTold, IsUnanswered, is_good};
ghost use Rattle.booth_tools.specs.ClientRun.{IsAnswered};

use crate::lists::list_and_tell;
use crate::memory::Memory;
use crate::refusals::refused_text;
use booth_base::Peer;
use booth_host::{Failed, Host};
use booth_outcomes::{Ended, ErrorLine, Outcome, texts};
use booth_talk::{Asking, Order, Reply, Room, Waited, is_begun, report_of, talk};
use std::alloc::Global;

fn is_good(reply: &Reply) -> bool
    ensures { result ≡ is_good reply.now }
{
    reply.result == 0 || is_begun(reply)
}

// Prints the content of a good reply, which has these bytes.
fn print<H: Host>(
    alloc: Global,
    asking: &Asking,
    reply: &Reply,
    bytes: &[u8],
    host: &mut H,
) -> Ended
    requires { IsReplyIn asking.now reply.now bytes.now }
    ensures past { GrewSome (IsPrinted (IsReportOf asking.now bytes.now) result.outcome result.said)
        (H.past host.old) (H.past host.new) }
    ensures served { IsAnswered result.outcome }
    ensures blame { HasBlame result.outcome (H.faults host.old) (H.faults host.new) }
    ensures later { H.faults host.old ≤ H.faults host.new }
{
    let Ok(report) = report_of(alloc, asking, reply, bytes) else {
        return Ended::out_of_memory();
    };
    match host.out(report.bytes()) {
        Ok(()) => Ended {
            outcome: Outcome::Report,
            said: ErrorLine::none(),
        },
        Err(Failed) => Ended {
            outcome: Outcome::PrintFault,
            said: texts::unprinted_text(),
        },
    }
}

// Reports a good reply, which has these bytes, if it has output.
fn report<H: Host>(
    alloc: Global,
    asking: &Asking,
    reply: &Reply,
    bytes: &[u8],
    host: &mut H,
) -> Ended
    requires { IsReplyIn asking.now reply.now bytes.now }
    ensures past { GrewSome (IsReported asking.now bytes.now result.outcome result.said)
        (H.past host.old) (H.past host.new) }
    ensures served { IsAnswered result.outcome }
    ensures blame { HasBlame result.outcome (H.faults host.old) (H.faults host.new) }
    ensures later { H.faults host.old ≤ H.faults host.new }
{
    if asking.order.is_silent() {
        return Ended {
            outcome: Outcome::Report,
            said: ErrorLine::none(),
        };
    }
    print(alloc, asking, reply, bytes, host)
}

// Prints that the daemon does not run.
fn print_stopped<H: Host>(host: &mut H) -> Ended
    ensures past { GrewSome (IsStopped result.outcome result.said) (H.past host.old) (H.past host.new) }
    ensures served { IsAnswered result.outcome }
    ensures blame { HasBlame result.outcome (H.faults host.old) (H.faults host.new) }
    ensures later { H.faults host.old ≤ H.faults host.new }
{
    match host.out(b"booth daemon is not running\n") {
        Ok(()) => Ended {
            outcome: Outcome::NotRunning,
            said: ErrorLine::none(),
        },
        Err(Failed) => Ended {
            outcome: Outcome::PrintFault,
            said: texts::unprinted_text(),
        },
    }
}

// Returns how a talk ends without a reply.
fn unanswered<H: Host>(order: &Order, host: &mut H) -> Ended
    ensures past { GrewSome (IsUnanswered order.now result.outcome result.said)
        (H.past host.old) (H.past host.new) }
    ensures served { IsAnswered result.outcome }
    ensures blame { HasBlame result.outcome (H.faults host.old) (H.faults host.new) }
    ensures later { H.faults host.old ≤ H.faults host.new }
{
    if order.is_status() {
        return print_stopped(host);
    }
    Ended {
        outcome: Outcome::NoReply,
        said: texts::line_of(b"no reply"),
    }
}

// Returns how a talk ends if its requests were sent and the last reply has these bytes.
fn end<H: Host>(alloc: Global, asking: &Asking, last: &Waited, bytes: &[u8], host: &mut H) -> Ended
    requires { IsHeld asking.now last.now bytes.now }
    ensures past { GrewSome (EndsWith asking.now (Ok last.now) bytes.now result.outcome result.said)
        (H.past host.old) (H.past host.new) }
    ensures served { IsAnswered result.outcome }
    ensures blame { HasBlame result.outcome (H.faults host.old) (H.faults host.new) }
    ensures later { H.faults host.old ≤ H.faults host.new }
{
    match last {
        Waited::Came { reply, .. } => {
            if is_good(reply) {
                report(alloc, asking, reply, bytes, host)
            } else {
                Ended {
                    outcome: Outcome::Refused(reply.result),
                    said: refused_text(reply.result),
                }
            }
        }
        Waited::Over => unanswered(&asking.order, host),
    }
}

// Sends this peer a request that is not for a list, at this reading, and prints the result.
fn talk_and_tell<H: Host>(
    alloc: Global,
    asking: &Asking,
    to: &Peer,
    start: u64,
    room: &mut Room,
    host: &mut H,
) -> Ended
    requires { is_list asking.now.order ≡ false }
    ensures past { GrewSome (IsTalkTold asking.now to.now start result.outcome result.said)
        (H.past host.old) (H.past host.new) }
    ensures served { IsAnswered result.outcome }
    ensures blame { HasBlame result.outcome (H.faults host.old) (H.faults host.new) }
    ensures later { H.faults host.old ≤ H.faults host.new }
{
    match talk(asking, to, start, room, host) {
        Ok(last) => end(alloc, asking, &last, room.datagram.bytes(), host),
        Err(Failed) => Ended {
            outcome: Outcome::SendFault,
            said: texts::line_of(b"cannot send"),
        },
    }
}

/// Sends this peer the request, at this reading, and prints the result. `IsMemoryFor` says that the memory fits the
/// kind of the request.
pub(crate) fn ask_and_tell<H: Host>(
    alloc: Global,
    asking: &Asking,
    to: &Peer,
    start: u64,
    memory: &mut Memory,
    host: &mut H,
) -> Ended
    requires { IsMemoryFor asking.now.order memory.old }
    ensures past { GrewSome (IsTold asking.now to.now start result.outcome result.said)
        (H.past host.old) (H.past host.new) }
    ensures served { IsAnswered result.outcome }
    ensures blame { HasBlame result.outcome (H.faults host.old) (H.faults host.new) }
    ensures later { H.faults host.old ≤ H.faults host.new }
{
    match memory {
        Memory::List(room) => list_and_tell(alloc, asking, to, start, room, host),
        Memory::Talk(room) => talk_and_tell(alloc, asking, to, start, room, host),
    }
}
