//! Calls, and the lines of calls and answers, each appended to a draft.
ghost use Rattle.std.specs.Prelude.{◌≡◌, ◌≤◌, ◌+◌, ◌++◌, codes, length};
ghost use Rattle.hex.specs.Hex.{encode_lower};
ghost use Rattle.booth_rec.specs.Spelling.{first_spelling};
ghost use Rattle.booth_journal.specs.Lines.{call_text, answer_text, done_answer, fields_of, kept_answer, hex_text, line, local_text, peer_text, record_text, written};
ghost use Rattle.booth_journal.specs.declared.said.Call.{Call};
ghost use Rattle.booth_journal.specs.declared.said.Answer.{Answer};

use crate::draft::Draft;
use booth_base::{Address, Name, Peer};
use booth_host::{DATAGRAM_BYTES, Failed, Job};
use booth_rec::{Lease, Record};

/// Appends bytes in hexadecimal digits, or `-` for none.
pub(crate) fn put_bytes(bytes: &[u8], draft: &mut Draft)
    requires few { length bytes.now ≤ DATAGRAM_BYTES }
    requires room { length draft.old ≤ 96 }
    ensures bytes { draft.new ≡ draft.old ++ hex_text bytes.now }
    ensures len { length draft.new ≤ 33_020 }
{
    if bytes.is_empty() {
        draft.put(b"-");
    } else {
        draft.put_hex(bytes);
    }
}

// Returns the fields of a lease, which are 0 without one.
fn fields_of(lease: Option<Lease>) -> Lease
    ensures { result ≡ fields_of lease }
{
    lease.unwrap_or(Lease { term: 0, until: 0 })
}

// Appends a record as one of version 1: its term and its lease.
fn put_first(kept: &Record, draft: &mut Draft)
    requires { length draft.old ≤ 1000 }
    ensures bytes { draft.new ≡ draft.old ++ encode_lower (first_spelling kept.now) }
    ensures len { length draft.new ≤ length draft.old + 64 }
{
    let lease = fields_of(kept.lease);
    draft.put_hex(&1_u32.to_be_bytes());
    draft.put_hex(&kept.term.to_be_bytes());
    draft.put_hex(&u32::from(kept.lease.is_some()).to_be_bytes());
    draft.put_hex(&lease.term.to_be_bytes());
    draft.put_hex(&lease.until.to_be_bytes());
    draft.put_hex(&[0; 8]);
}

// Appends a record as it is written.
fn put_record(kept: &Record, draft: &mut Draft)
    requires { length draft.old ≤ 1000 }
    ensures bytes { draft.new ≡ draft.old ++ record_text (written kept.now) }
    ensures len { length draft.new ≤ length draft.old + 128 }
{
    if kept.is_second() {
        draft.put_hex(&kept.encode());
    } else {
        put_first(kept, draft);
    }
}

/// Appends an `open` at this address, or at any.
pub fn spell_open(local: &Option<Address>, draft: &mut Draft)
    ensures bytes { draft.new ≡ call_text (Call.Open local.now) }
    ensures len { length draft.new ≤ 300 }
{
    draft.begin(b"open ");
    match local {
        Some(address) => draft.put_address(address),
        None => draft.put(b"-"),
    }
}

/// Appends the line of an `open` at this address, or at any address if none is given.
pub(crate) fn open_line(local: &Option<Address>, draft: &mut Draft)
    ensures { draft.new ≡ line (call_text (Call.Open local.now)) }
{
    spell_open(local, draft);
    draft.put(b"\n");
}

/// Appends the start of the line of a `send` to this peer.
pub(crate) fn send_head(to: &Peer, draft: &mut Draft)
    ensures bytes { draft.new ≡ codes "send " ++ peer_text to.now ++ codes " " }
    ensures len { length draft.new ≤ 96 }
{
    draft.begin(b"send ");
    draft.put_peer(to);
    draft.put(b" ");
}

/// Appends a `send` of these bytes to this peer.
pub fn spell_send(to: &Peer, bytes: &[u8], draft: &mut Draft)
    requires { length bytes.now ≤ DATAGRAM_BYTES }
    ensures { draft.new ≡ call_text (Call.Send to.now bytes.now) }
{
    send_head(to, draft);
    put_bytes(bytes, draft);
}

/// Appends a `kept` of this ticket.
pub fn spell_kept(ticket: &Name, draft: &mut Draft)
    ensures bytes { draft.new ≡ call_text (Call.Kept ticket.now) }
    ensures len { length draft.new ≤ 300 }
{
    draft.begin(b"kept ");
    draft.put(ticket.bytes());
}

/// Appends the line of a `kept` of this ticket.
pub(crate) fn kept_line(ticket: &Name, draft: &mut Draft)
    ensures { draft.new ≡ line (call_text (Call.Kept ticket.now)) }
{
    spell_kept(ticket, draft);
    draft.put(b"\n");
}

/// Appends a `keep` of this record of this ticket.
pub fn spell_keep(ticket: &Name, kept: &Record, draft: &mut Draft)
    ensures bytes { draft.new ≡ call_text (Call.Keep ticket.now (written kept.now)) }
    ensures len { length draft.new ≤ 300 }
{
    draft.begin(b"keep ");
    draft.put(ticket.bytes());
    draft.put(b" ");
    put_record(kept, draft);
}

/// Appends the line of a `keep` of this record of this ticket.
pub(crate) fn keep_line(ticket: &Name, kept: &Record, draft: &mut Draft)
    ensures { draft.new ≡ line (call_text (Call.Keep ticket.now (written kept.now))) }
{
    spell_keep(ticket, kept, draft);
    draft.put(b"\n");
}

/// Appends the start of this job's handler.
pub fn spell_job(job: &Job, draft: &mut Draft)
    ensures bytes { draft.new ≡ call_text (Call.Job job.now.number job.now.ticket job.now.expires) }
    ensures len { length draft.new ≤ 300 }
{
    draft.begin(b"job ");
    draft.put_number(job.number);
    draft.put(b" ");
    draft.put(job.ticket.bytes());
    draft.put(b" ");
    draft.put_number(job.expires);
}

/// Appends the line of the start of this job's handler.
pub(crate) fn job_line(job: &Job, draft: &mut Draft)
    ensures { draft.new ≡ line (call_text (Call.Job job.now.number job.now.ticket job.now.expires)) }
{
    spell_job(job, draft);
    draft.put(b"\n");
}

/// Appends the line of a reading of the clock.
pub(crate) fn reading_line(reading: u64, draft: &mut Draft)
    ensures { draft.new ≡ line (answer_text (Answer.Reading reading)) }
{
    draft.begin(b"");
    draft.put_number(reading);
    draft.put(b"\n");
}

/// Returns the line of an answer that says whether a call succeeded.
pub(crate) fn done_line(answer: &Result<(), Failed>) -> &'static [u8]
    ensures { result.now ≡ line (answer_text (done_answer answer.now)) }
{
    match answer {
        Ok(()) => b"ok\n",
        Err(Failed) => b"fail\n",
    }
}

/// Appends the line of the answer of a `kept`.
pub(crate) fn found_line(answer: &Result<Option<Record>, Failed>, draft: &mut Draft)
    ensures { draft.new ≡ line (answer_text (kept_answer answer.now)) }
{
    match answer {
        Ok(None) => draft.begin(b"none\n"),
        Ok(Some(kept)) => {
            draft.begin(b"");
            put_record(kept, draft);
            draft.put(b"\n");
        }
        Err(Failed) => draft.begin(b"fail\n"),
    }
}

/// Appends the line of the end of a job's handler.
pub(crate) fn ended_line(job: u64, status: i32, draft: &mut Draft)
    ensures { draft.new ≡ line (answer_text (Answer.Ended job status)) }
{
    draft.begin(b"handler ");
    draft.put_number(job);
    draft.put(b" ");
    draft.put_status(status);
    draft.put(b"\n");
}

/// Appends the start of the line of a datagram from this peer.
pub(crate) fn data_head(from: &Peer, draft: &mut Draft)
    ensures bytes { draft.new ≡ codes "data " ++ peer_text from.now ++ codes " " }
    ensures len { length draft.new ≤ 96 }
{
    draft.begin(b"data ");
    draft.put_peer(from);
    draft.put(b" ");
}
