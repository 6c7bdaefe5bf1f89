//! A record as words, both ways: its version, its term, the lease's term and end, the member that it voted for, the
//! promise's member, term and end, and until when it abstains. `-` stands for each word of a missing part.
use booth_base::MemberId;
use booth_rec::{Lease, Promise, Record};
use booth_rows::{Answer, Words};

// Reads a member, or none.
fn member(words: &mut Words<'_>) -> Option<MemberId> {
    if words.is_none() {
        None
    } else {
        Some(MemberId(words.number()))
    }
}

// Reads a lease, or none.
fn lease(words: &mut Words<'_>) -> Option<Lease> {
    if words.is_none() {
        words.long_or_none();
        return None;
    }
    Some(Lease {
        term: words.number(),
        until: words.long(),
    })
}

// Reads a promise, or none.
fn promise(words: &mut Words<'_>) -> Option<Promise> {
    if words.is_none() {
        words.long_or_none();
        words.long_or_none();
        return None;
    }
    Some(Promise {
        to: MemberId(words.number()),
        term: words.number(),
        until: words.long(),
    })
}

/// Reads the words of a record.
pub fn record_of(words: &mut Words<'_>) -> Record {
    Record {
        version: words.number(),
        term: words.number(),
        lease: lease(words),
        bound: member(words),
        promise: promise(words),
        abstain: words.long(),
    }
}

fn put_lease(answer: &mut Answer, lease: Option<Lease>) {
    match lease {
        None => answer.word("- -"),
        Some(lease) => {
            answer.small(lease.term);
            answer.number(lease.until);
        }
    }
}

/// Appends a member's id, or `-` for nobody.
pub fn put_member(answer: &mut Answer, member: Option<MemberId>) {
    match member {
        None => answer.word("-"),
        Some(member) => answer.small(member.0),
    }
}

/// Appends a promise: to whom, its term and its end.
pub fn put_promise(answer: &mut Answer, promise: Option<Promise>) {
    match promise {
        None => answer.word("- - -"),
        Some(promise) => {
            answer.small(promise.to.0);
            answer.small(promise.term);
            answer.number(promise.until);
        }
    }
}

/// Appends the words of a record.
pub fn put_record(answer: &mut Answer, record: &Record) {
    answer.small(record.version);
    answer.small(record.term);
    put_lease(answer, record.lease);
    put_member(answer, record.bound);
    put_promise(answer, record.promise);
    answer.number(record.abstain);
}
