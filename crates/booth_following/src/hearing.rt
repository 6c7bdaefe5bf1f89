//! What a follower learns from an arrival.
ghost use Rattle.std.specs.Prelude.{◌≡◌, MatchBool};
ghost use Rattle.booth_wire.specs.PlainMessage.{content_of, plain_of};
ghost use Rattle.booth_follow_rule.specs.declared.news.News.{News};
ghost use Rattle.booth_following.specs.Hearing.{IsHeard, IsNews, failed_left, how_of, is_answer, is_of_list, is_whole, part_in, part_of};
ghost use Rattle.booth_following.specs.Lists.{TellsOf};

use crate::asking::number_of;
use crate::following::{Following, Seat};
use crate::lines::has_line;
use crate::standing::standing_in;
use booth_auth::is_signed;
use booth_base::Name;
use booth_follow_rule::{News, RunEnd};
use booth_host::{Arrival, Datagram, Failed};
use booth_wire::{Body, Cmd, Message, decode, results};
use std::marker::Model;

// A part of a list.
#[derive(Drop)]
struct Part<'a> {
    /// Whether it is the whole list.
    whole: bool,
    text: &'a [u8],
}

impl<'a> Model for Part<'a> {
    ghost use Rattle.booth_following.specs.Lists.{Part as PlainPart};

    ghost Value = { PlainPart };

    ghost view = { λ part. record { whole = part.whole; text = part.text.now } };
}

// Returns whether an answer with this result is a part of a list.
fn is_of_list(code: u32) -> bool
    ensures { result ≡ is_of_list code }
{
    code == results::SUCCESS || code == results::MORE
}

// Returns whether a message is a part with which this site answers the request that was sent at a reading.
fn is_answer(f: &Following, asked: u64, message: &Message<'_>) -> bool
    ensures { result ≡ is_answer f.now asked (plain_of message.now) }
{
    let head = &message.head;
    head.cmd.code() == Cmd::RLst.code()
        && head.request == number_of(asked)
        && head.from.0 == f.me.0
        && is_of_list(head.result)
}

// Returns whether this is the first part and the last.
fn is_whole(message: &Message<'_>) -> bool
    ensures { result ≡ is_whole (plain_of message.now) }
{
    message.head.options == 0 && message.head.result == results::SUCCESS
}

fn part_of<'a>(whole: bool, body: &Body<'a>) -> Option<Part<'a>>
    ensures { result ≡ part_of whole (content_of body.now) }
{
    match body {
        Body::Text(text) => Some(Part { whole, text }),
        Body::Bare | Body::Ticket(_) | Body::Attr(_) => None,
    }
}

// Returns the part of a list in these bytes, if they are this site's answer.
#[tactic(auto, unfolding(crate::specs::Hearing::part_in))]
fn part_in<'a>(f: &Following, asked: u64, bytes: &'a [u8]) -> Option<Part<'a>>
    ensures { result ≡ part_in f.now asked bytes.now }
{
    match decode(bytes) {
        Ok(message) => {
            if !is_signed(f.ring.as_ref(), &message.head, bytes) {
                return None;
            }
            if !is_answer(f, asked, &message) {
                return None;
            }
            part_of(is_whole(&message), &message.body)
        }
        Err(_) => None,
    }
}

// Returns whether a part covers this ticket.
fn tells_of(ticket: &Name, part: &Part<'_>) -> bool
    ensures { MatchBool result (TellsOf ticket.now part.now) (TellsOf ticket.now part.now → ⊥) }
{
    part.whole || has_line(ticket.bytes(), part.text)
}

// Returns the state of the ticket that a datagram shows.
fn heard_in(f: &Following, asked: Option<u64>, bytes: &[u8]) -> News
    ensures { IsHeard f.now asked bytes.now result }
{
    let Some(asked) = asked else {
        return News::Nothing;
    };
    if let Some(standing) = standing_in(f, asked, bytes) {
        return News::List(standing.shown);
    }
    let Some(part) = part_in(f, asked, bytes) else {
        return News::Nothing;
    };
    if tells_of(&f.ticket, &part) {
        News::List(f.line.shown_in(part.text))
    } else {
        News::Nothing
    }
}

fn how_of(status: i32) -> RunEnd
    ensures { result ≡ how_of status }
{
    if status == 0 {
        RunEnd::Done
    } else {
        RunEnd::Failed
    }
}

// Returns what the rule learns from an arrival, if every run was started.
fn arrived(
    f: &Following,
    asked: Option<u64>,
    answer: &Result<Arrival, Failed>,
    datagram: &Datagram,
) -> News
    ensures { IsNews f.now asked None answer.now datagram.now result }
{
    match answer {
        Ok(Arrival::Datagram(_)) => heard_in(f, asked, datagram.bytes()),
        Ok(Arrival::Handler { job, status }) => News::End {
            run: *job,
            how: how_of(*status),
        },
        Ok(Arrival::Quiet) => News::Nothing,
        Ok(Arrival::Stop) => News::Stop,
        Err(_) => News::Nothing,
    }
}

/// Returns what an arrival says. The failure of a run that could not be started is returned in place of an arrival,
/// but not in place of the end.
pub(crate) fn news_of(
    f: &Following,
    seat: &Seat,
    answer: &Result<Arrival, Failed>,
    datagram: &Datagram,
) -> News
    ensures { IsNews f.now seat.now.asked seat.now.failed answer.now datagram.now result }
{
    match seat.failed {
        None => arrived(f, seat.asked, answer, datagram),
        Some(run) => match answer {
            Ok(Arrival::Stop) => News::Stop,
            Ok(Arrival::Datagram(_)) | Ok(Arrival::Handler { .. }) | Ok(Arrival::Quiet) | Err(_) =>
                News::End {
                    run,
                    how: RunEnd::Failed,
                },
        },
    }
}

/// Returns the failed run that remains to be reported.
pub(crate) fn failed_left(failed: Option<u64>, answer: &Result<Arrival, Failed>) -> Option<u64>
    ensures { result ≡ failed_left failed answer.now }
{
    match answer {
        Ok(Arrival::Stop) => failed,
        Ok(Arrival::Datagram(_)) => None,
        Ok(Arrival::Handler { .. }) => None,
        Ok(Arrival::Quiet) => None,
        Err(_) => None,
    }
}
