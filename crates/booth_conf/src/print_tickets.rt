//! The lines of members and tickets.
ghost use Rattle.std.specs.Prelude.{◌≡◌, ◌∷◌, [], map};
ghost use Rattle.std.specs.List.{flat_map};
ghost use Rattle.booth_conf.specs.Grows.{Grows};
ghost use Rattle.booth_conf.specs.Print.{entries_text, handler_entries, lines_text, prereq_entry, renewal_entries, role_name, steady_entries, ticket_settings, times_entries, weights_entries, word_at, word_of};
ghost use Rattle.booth_conf.specs.declared.keys.Choice.TheVariants.{Mode};
ghost use Rattle.booth_conf.specs.declared.settings.Setting.TheVariants.{Member as MemberSetting};

use crate::keys::ConfKey;
use crate::members::Member;
use crate::prints::{prereq_text, push_line, push_number, weights_text};
use crate::tickets::{Prereq, TicketConf};
use booth_base::{PathText, Times};
use std::alloc::{AllocError, Global};

fn role_name(site: bool) -> &'static str
    ensures { result.now ≡ role_name site }
{
    if site {
        ConfKey::Site.row().name
    } else {
        ConfKey::Arbitrator.row().name
    }
}

fn push_member(out: &mut Vec<u8>, member: &Member) -> Result<(), AllocError>
    ensures { Grows result out.old.items out.new.items (lines_text (MemberSetting member.now ∷ [])) }
{
    push_line(
        out,
        role_name(member.site),
        member.address.print().as_bytes(),
    )
}

/// Prints the members.
#[tactic(auto, using(crate::proofs::LineLemmas::more_lines))]
pub fn push_members(out: &mut Vec<u8>, members: &[Member]) -> Result<(), AllocError>
    ensures { Grows result out.old.items out.new.items (lines_text (map MemberSetting members.now)) }
{
    for member in members {
        push_member(out, member)?;
    }
    Ok(())
}

// Prints the renewal, unless it is half of expire.
fn push_renewal(out: &mut Vec<u8>, times: &Times) -> Result<(), AllocError>
    ensures { Grows result out.old.items out.new.items (entries_text (renewal_entries times.now)) }
{
    if times.renewal == times.expire / 2 {
        return Ok(());
    }
    push_number(out, ConfKey::RenewalFreq, times.renewal / 1000)
}

#[tactic(auto, using(crate::proofs::PushLemmas::five_pushed))]
fn push_times(out: &mut Vec<u8>, times: &Times) -> Result<(), AllocError>
    ensures { Grows result out.old.items out.new.items (entries_text (times_entries times.now)) }
{
    push_number(out, ConfKey::Expire, times.expire / 1000)?;
    push_number(out, ConfKey::AcquireAfter, times.after / 1000)?;
    push_number(out, ConfKey::Timeout, times.timeout / 1000)?;
    push_number(out, ConfKey::Retries, u64::from(times.retries))?;
    push_renewal(out, times)
}

// Prints the weights, unless there are none.
fn push_weights(alloc: Global, out: &mut Vec<u8>, weights: &[u32]) -> Result<(), AllocError>
    ensures { Grows result out.old.items out.new.items (entries_text (weights_entries weights.now)) }
{
    match weights {
        [] => Ok(()),
        [first, rest @ ..] => {
            let text = weights_text(alloc, *first, rest)?;
            push_line(out, ConfKey::Weights.row().name, &text)
        }
    }
}

fn push_handler(out: &mut Vec<u8>, handler: &Option<PathText>) -> Result<(), AllocError>
    ensures { Grows result out.old.items out.new.items (entries_text (handler_entries handler.now)) }
{
    match handler {
        Some(command) => push_line(
            out,
            ConfKey::BeforeAcquireHandler.row().name,
            command.as_str().as_bytes(),
        ),
        None => Ok(()),
    }
}

fn push_prereq(alloc: Global, out: &mut Vec<u8>, prereq: &Prereq) -> Result<(), AllocError>
    ensures { Grows result out.old.items out.new.items (entries_text (prereq_entry prereq.now ∷ [])) }
{
    let text = prereq_text(alloc, prereq)?;
    push_line(out, ConfKey::AttrPrereq.row().name, &text)
}

#[tactic(auto, using(crate::proofs::LineLemmas::more_entries))]
fn push_prereqs(alloc: Global, out: &mut Vec<u8>, prereqs: &[Prereq]) -> Result<(), AllocError>
    ensures { Grows result out.old.items out.new.items (entries_text (map prereq_entry prereqs.now)) }
{
    for prereq in prereqs {
        push_prereq(alloc, out, prereq)?;
    }
    Ok(())
}

fn mode_word(manual: bool) -> &'static [u8]
    ensures { result.now ≡ word_at Mode (word_of manual) }
{
    if manual { b"manual" } else { b"auto" }
}

// Prints that the steady rules are followed, if they are.
fn push_steady(out: &mut Vec<u8>, steady: bool) -> Result<(), AllocError>
    ensures { Grows result out.old.items out.new.items (entries_text (steady_entries steady)) }
{
    if steady {
        push_line(out, ConfKey::Steady.row().name, b"yes")
    } else {
        Ok(())
    }
}

#[tactic(auto, using(crate::proofs::LineLemmas::ticket_pushed))]
fn push_ticket(alloc: Global, out: &mut Vec<u8>, ticket: &TicketConf) -> Result<(), AllocError>
    ensures { Grows result out.old.items out.new.items (lines_text (ticket_settings ticket.now)) }
{
    push_line(out, ConfKey::Ticket.row().name, ticket.name.bytes())?;
    push_times(out, &ticket.times)?;
    push_weights(alloc, out, &ticket.weights)?;
    push_handler(out, &ticket.handler)?;
    push_prereqs(alloc, out, ticket.prereqs.all())?;
    push_line(out, ConfKey::Mode.row().name, mode_word(ticket.manual))?;
    push_steady(out, ticket.steady)
}

/// Prints the tickets.
#[tactic(auto, using(crate::proofs::LineLemmas::tickets_more))]
pub fn push_tickets(
    alloc: Global,
    out: &mut Vec<u8>,
    tickets: &[TicketConf],
) -> Result<(), AllocError>
    ensures { Grows result out.old.items out.new.items
        (lines_text (flat_map ticket_settings tickets.now)) }
{
    for ticket in tickets {
        push_ticket(alloc, out, ticket)?;
    }
    Ok(())
}
