//! One call of a host, with its arguments and its answer, and functions that make such entries.
ghost use Rattle.std.specs.Prelude.{◌≡◌, IfOk};
ghost use Rattle.booth_host.specs.declared.entry.Entry.{Entry};

use crate::{Arrival, Failed, Job, Place, ReadFault};
use booth_base::{Address, ByteText, Name, Peer};
use booth_rec::Record;
use std::alloc::{AllocError, Global};

/// One call of a host: its arguments and its answer. Texts and bytes are copies.
#[derive(Drop)]
pub enum Entry {
    Open {
        local: Option<Address>,
        port: u16,
        records: ByteText,
        conf_path: ByteText,
        answer: Result<(), Failed>,
    },
    /// `bytes` are the bytes in the datagram after the call.
    Next {
        wait_ms: u64,
        answer: Result<Arrival, Failed>,
        bytes: ByteText,
    },
    Now {
        reading: u64,
    },
    Send {
        to: Peer,
        bytes: ByteText,
        answer: Result<(), Failed>,
    },
    ReadFile {
        path: ByteText,
        answer: Result<ByteText, ReadFault>,
    },
    Lock {
        path: ByteText,
        answer: Result<bool, Failed>,
    },
    /// The read of a ticket's record.
    Kept {
        ticket: ByteText,
        answer: Result<Option<Record>, Failed>,
    },
    /// The write of a ticket's record.
    Keep {
        ticket: ByteText,
        record: Record,
        answer: Result<(), Failed>,
    },
    /// The start of a job's handler.
    Start {
        number: u64,
        ticket: ByteText,
        handler: ByteText,
        local: Address,
        expires: u64,
        answer: Result<(), Failed>,
    },
    Out {
        bytes: ByteText,
        answer: Result<(), Failed>,
    },
    Err {
        bytes: ByteText,
        answer: Result<(), Failed>,
    },
}

pub(crate) fn open_entry(
    alloc: Global,
    place: &Place,
    answer: Result<(), Failed>,
) -> Result<Entry, AllocError>
    ensures { IfOk result (λ entry.
        entry ≡ Entry.Open place.now.local place.now.port place.now.records place.now.conf_path answer) }
{
    let records = ByteText::new(alloc, place.records.as_str().as_bytes())?;
    let conf_path = ByteText::new(alloc, place.conf_path.as_str().as_bytes())?;
    Ok(Entry::Open {
        local: place.local,
        port: place.port,
        records,
        conf_path,
        answer,
    })
}

pub(crate) fn next_entry(
    alloc: Global,
    wait_ms: u64,
    answer: Result<Arrival, Failed>,
    bytes: &[u8],
) -> Result<Entry, AllocError>
    ensures { IfOk result (λ entry. entry ≡ Entry.Next wait_ms answer bytes.now) }
{
    let bytes = ByteText::new(alloc, bytes)?;
    Ok(Entry::Next {
        wait_ms,
        answer,
        bytes,
    })
}

pub(crate) fn send_entry(
    alloc: Global,
    to: &Peer,
    bytes: &[u8],
    answer: Result<(), Failed>,
) -> Result<Entry, AllocError>
    ensures { IfOk result (λ entry. entry ≡ Entry.Send to.now bytes.now answer) }
{
    let bytes = ByteText::new(alloc, bytes)?;
    Ok(Entry::Send {
        to: *to,
        bytes,
        answer,
    })
}

pub(crate) fn read_file_entry(
    alloc: Global,
    path: &str,
    answer: &Result<ByteText, ReadFault>,
) -> Result<Entry, AllocError>
    ensures { IfOk result (λ entry. entry ≡ Entry.ReadFile path.now answer.now) }
{
    let path = ByteText::new(alloc, path.as_bytes())?;
    let answer = match answer {
        Ok(text) => Ok(ByteText::new(alloc, text.bytes())?),
        Err(fault) => Err(*fault),
    };
    Ok(Entry::ReadFile { path, answer })
}

pub(crate) fn lock_entry(
    alloc: Global,
    path: &str,
    answer: Result<bool, Failed>,
) -> Result<Entry, AllocError>
    ensures { IfOk result (λ entry. entry ≡ Entry.Lock path.now answer) }
{
    let path = ByteText::new(alloc, path.as_bytes())?;
    Ok(Entry::Lock { path, answer })
}

pub(crate) fn out_entry(
    alloc: Global,
    bytes: &[u8],
    answer: Result<(), Failed>,
) -> Result<Entry, AllocError>
    ensures { IfOk result (λ entry. entry ≡ Entry.Out bytes.now answer) }
{
    let bytes = ByteText::new(alloc, bytes)?;
    Ok(Entry::Out { bytes, answer })
}

pub(crate) fn err_entry(
    alloc: Global,
    bytes: &[u8],
    answer: Result<(), Failed>,
) -> Result<Entry, AllocError>
    ensures { IfOk result (λ entry. entry ≡ Entry.Err bytes.now answer) }
{
    let bytes = ByteText::new(alloc, bytes)?;
    Ok(Entry::Err { bytes, answer })
}

pub(crate) fn kept_entry(
    alloc: Global,
    ticket: &Name,
    answer: Result<Option<Record>, Failed>,
) -> Result<Entry, AllocError>
    ensures { IfOk result (λ entry. entry ≡ Entry.Kept ticket.now answer) }
{
    let ticket = ByteText::new(alloc, ticket.bytes())?;
    Ok(Entry::Kept { ticket, answer })
}

pub(crate) fn keep_entry(
    alloc: Global,
    ticket: &Name,
    rec: &Record,
    answer: Result<(), Failed>,
) -> Result<Entry, AllocError>
    ensures { IfOk result (λ entry. entry ≡ Entry.Keep ticket.now rec.now answer) }
{
    let ticket = ByteText::new(alloc, ticket.bytes())?;
    Ok(Entry::Keep {
        ticket,
        record: *rec,
        answer,
    })
}

pub(crate) fn start_entry(
    alloc: Global,
    job: &Job,
    answer: Result<(), Failed>,
) -> Result<Entry, AllocError>
    ensures { IfOk result (λ entry.
        entry ≡ Entry.Start job.now.number job.now.ticket job.now.handler job.now.local job.now.expires answer) }
{
    let ticket = ByteText::new(alloc, job.ticket.bytes())?;
    let handler = ByteText::new(alloc, job.handler.as_str().as_bytes())?;
    Ok(Entry::Start {
        number: job.number,
        ticket,
        handler,
        local: job.local,
        expires: job.expires,
        answer,
    })
}
