//! The call or the answer on a line, without the line's end.
ghost use Rattle.std.specs.Prelude.{◌++◌, codes};
ghost use Rattle.booth_journal.specs.Reading.{ReadsAs, SpellsAnswerTo, SpellsArrival, SpellsCall, SpellsDone, SpellsFound, SpellsReading};

use crate::cutting::{behind, cut};
use crate::fields::{LineFault, datagram, local, name, number, record_of, status};
use crate::{Answer, Call};
use booth_host::DATAGRAM_BYTES;
use std::alloc::Global;

fn open(rest: &[u8]) -> Result<Call, LineFault>
    ensures { ReadsAs (SpellsCall (codes "open " ++ rest.now)) result }
{
    Ok(Call::Open(local(rest)?))
}

fn send(alloc: Global, rest: &[u8]) -> Result<Call, LineFault>
    ensures { ReadsAs (SpellsCall (codes "send " ++ rest.now)) result }
{
    match datagram(alloc, rest) {
        Ok(sent) => Ok(Call::Send {
            to: sent.peer,
            bytes: sent.bytes,
        }),
        Err(fault) => Err(fault),
    }
}

fn kept(rest: &[u8]) -> Result<Call, LineFault>
    ensures { ReadsAs (SpellsCall (codes "kept " ++ rest.now)) result }
{
    Ok(Call::Kept(name(rest)?))
}

fn keep(alloc: Global, rest: &[u8]) -> Result<Call, LineFault>
    ensures { ReadsAs (SpellsCall (codes "keep " ++ rest.now)) result }
{
    let Some((first, second)) = cut(b' ', rest) else {
        return Err(LineFault::NoLine);
    };
    let ticket = match name(first) {
        Ok(ticket) => ticket,
        Err(fault) => return Err(fault),
    };
    match record_of(alloc, second) {
        Ok(record) => Ok(Call::Keep { ticket, record }),
        Err(fault) => Err(fault),
    }
}

fn job(rest: &[u8]) -> Result<Call, LineFault>
    ensures { ReadsAs (SpellsCall (codes "job " ++ rest.now)) result }
{
    let Some((first, more)) = cut(b' ', rest) else {
        return Err(LineFault::NoLine);
    };
    let Some((second, third)) = cut(b' ', more) else {
        return Err(LineFault::NoLine);
    };
    let job = match number(first) {
        Ok(job) => job,
        Err(fault) => return Err(fault),
    };
    let ticket = match name(second) {
        Ok(ticket) => ticket,
        Err(fault) => return Err(fault),
    };
    match number(third) {
        Ok(expires) => Ok(Call::Job {
            number: job,
            ticket,
            expires,
        }),
        Err(fault) => Err(fault),
    }
}

/// Returns the call that this text spells.
pub fn read_call(alloc: Global, text: &[u8]) -> Result<Call, LineFault>
    ensures { ReadsAs (SpellsCall text.now) result }
{
    if text == b"now".as_slice() {
        return Ok(Call::Now);
    }
    if text == b"next".as_slice() {
        return Ok(Call::Next);
    }
    if let Some(rest) = behind(b"open ", text) {
        return open(rest);
    }
    if let Some(rest) = behind(b"send ", text) {
        return send(alloc, rest);
    }
    if let Some(rest) = behind(b"kept ", text) {
        return kept(rest);
    }
    if let Some(rest) = behind(b"keep ", text) {
        return keep(alloc, rest);
    }
    if let Some(rest) = behind(b"job ", text) {
        return job(rest);
    }
    Err(LineFault::NoLine)
}

/// Returns the answer of a call that succeeded or failed.
pub fn read_done(text: &[u8]) -> Result<Answer, LineFault>
    ensures { ReadsAs (SpellsDone text.now) result }
{
    if text == b"ok".as_slice() {
        return Ok(Answer::Done);
    }
    if text == b"fail".as_slice() {
        return Ok(Answer::Fails);
    }
    Err(LineFault::NoLine)
}

/// Returns the answer of a read of a record.
pub fn read_found(alloc: Global, text: &[u8]) -> Result<Answer, LineFault>
    ensures { ReadsAs (SpellsFound text.now) result }
{
    if text == b"none".as_slice() {
        return Ok(Answer::Absent);
    }
    if text == b"fail".as_slice() {
        return Ok(Answer::Fails);
    }
    Ok(Answer::Found(record_of(alloc, text)?))
}

fn ended(rest: &[u8]) -> Result<Answer, LineFault>
    ensures { ReadsAs (SpellsArrival (codes "handler " ++ rest.now)) result }
{
    let Some((first, second)) = cut(b' ', rest) else {
        return Err(LineFault::NoLine);
    };
    let job = match number(first) {
        Ok(job) => job,
        Err(fault) => return Err(fault),
    };
    match status(second) {
        Ok(status) => Ok(Answer::Ended { job, status }),
        Err(fault) => Err(fault),
    }
}

fn data(alloc: Global, rest: &[u8]) -> Result<Answer, LineFault>
    ensures { ReadsAs (SpellsArrival (codes "data " ++ rest.now)) result }
{
    let came = match datagram(alloc, rest) {
        Ok(came) => came,
        Err(fault) => return Err(fault),
    };
    if came.bytes.bytes().len() > DATAGRAM_BYTES {
        return Err(LineFault::NoLine);
    }
    Ok(Answer::Data {
        from: came.peer,
        bytes: came.bytes,
    })
}

/// Returns the answer of a wait.
pub fn read_arrival(alloc: Global, text: &[u8]) -> Result<Answer, LineFault>
    ensures { ReadsAs (SpellsArrival text.now) result }
{
    if text == b"quiet".as_slice() {
        return Ok(Answer::Quiet);
    }
    if text == b"stop".as_slice() {
        return Ok(Answer::Stop);
    }
    if text == b"fail".as_slice() {
        return Ok(Answer::Fails);
    }
    if let Some(rest) = behind(b"handler ", text) {
        return ended(rest);
    }
    if let Some(rest) = behind(b"data ", text) {
        return data(alloc, rest);
    }
    Err(LineFault::NoLine)
}

/// Returns the answer of a reading of the clock.
pub fn read_reading(text: &[u8]) -> Result<Answer, LineFault>
    ensures { ReadsAs (SpellsReading text.now) result }
{
    Ok(Answer::Reading(number(text)?))
}

/// Returns the answer of this call that the text spells.
pub fn read_answer(alloc: Global, call: &Call, text: &[u8]) -> Result<Answer, LineFault>
    ensures { ReadsAs (SpellsAnswerTo call.now text.now) result }
{
    match call {
        Call::Now => read_reading(text),
        Call::Next => read_arrival(alloc, text),
        Call::Kept(_) => read_found(alloc, text),
        Call::Open(_) | Call::Send { .. } | Call::Keep { .. } | Call::Job { .. } => read_done(text),
    }
}
