//! `boothd audit`: reads the journals of members from their files, and prints the holdings and the silent starts.
ghost use Rattle.std.specs.Prelude.{◌≤◌, ℕ, IfErr, MatchResult};
ghost use Rattle.booth_host.specs.Past.{GrewSome};
ghost use Rattle.booth_outcomes.specs.Outcomes.{HasBlame};
ghost use Rattle.booth_daemon.specs.Auditing.{AreFilesRead, AreJournals, AreJournalsUnread, IsAuditEnd, IsAuditOutcome};
ghost use Rattle.booth_daemon.specs.Auditing.{IsAuditing, IsBadEnd, IsJournalRead, IsPrinted};

use crate::report_text::report_text;
use booth_audit::{Audit, audit as audit_journals};
use booth_base::{ByteText, PathText};
use booth_cli::AuditWords;
use booth_conf::Config;
use booth_host::{Failed, Host, ReadFault};
use booth_journal::AuditFault;
use booth_keys::Ring;
use booth_outcomes::{Ended, ErrorLine, Outcome, read_config, read_ring, texts};
use std::alloc::Global;

/// The contents of the files of an audit.
#[derive(Drop)]
struct Files {
    config: Config,
    ring: Option<Ring>,
    /// The texts of the journals, in the order of the arguments.
    journals: Vec<ByteText>,
}

// Reads the journal in the file at this path.
fn read_journal<H: Host>(alloc: Global, path: &PathText, host: &mut H) -> Result<ByteText, Ended>
    ensures past { GrewSome (IsJournalRead path.now result) (H.past host.old) (H.past host.new) }
    ensures outcome { IfErr result (λ ended. IsAuditOutcome ended.outcome) }
    ensures blame { IfErr result (λ ended. HasBlame ended.outcome (H.faults host.old) (H.faults host.new)) }
    ensures later { H.faults host.old ≤ H.faults host.new }
{
    match host.read_file(alloc, path.as_str()) {
        Ok(text) => Ok(text),
        Err(ReadFault::Failed) => Err(Ended {
            outcome: Outcome::JournalUnread,
            said: texts::unread_text(path),
        }),
        Err(ReadFault::NoMemory) => Err(Ended::out_of_memory()),
    }
}

// Reads the journals in the files at these paths, in their order.
fn read_journals<H: Host>(
    alloc: Global,
    paths: &[PathText],
    host: &mut H,
) -> Result<Vec<ByteText>, Ended>
    ensures past { MatchResult result
        (λ texts. GrewSome (AreJournals paths.now texts.items) (H.past host.old) (H.past host.new))
        (λ ended. GrewSome (AreJournalsUnread paths.now ended.outcome ended.said) (H.past host.old) (H.past host.new)) }
    ensures outcome { IfErr result (λ ended. IsAuditOutcome ended.outcome) }
    ensures blame { IfErr result (λ ended. HasBlame ended.outcome (H.faults host.old) (H.faults host.new)) }
    ensures later { H.faults host.old ≤ H.faults host.new }
{
    let Ok(mut journals) = Vec::with_capacity(alloc, paths.len()) else {
        return Err(Ended::out_of_memory());
    };
    for path in paths {
        journals.push_reserved(read_journal(alloc, path, host)?);
    }
    Ok(journals)
}

// Reads all files of an audit.
fn read_files<H: Host>(alloc: Global, asked: &AuditWords, host: &mut H) -> Result<Files, Ended>
    ensures past { GrewSome (AreFilesRead asked.now result) (H.past host.old) (H.past host.new) }
    ensures outcome { IfErr result (λ ended. IsAuditOutcome ended.outcome) }
    ensures blame { IfErr result (λ ended. HasBlame ended.outcome (H.faults host.old) (H.faults host.new)) }
    ensures later { H.faults host.old ≤ H.faults host.new }
{
    let config = read_config(alloc, &asked.conf, host)?;
    let ring = read_ring(alloc, &config, host)?;
    let journals = read_journals(alloc, &asked.journals, host)?;
    Ok(Files {
        config,
        ring,
        journals,
    })
}

// Prints the report about the journals at these paths.
fn print<H: Host>(
    alloc: Global,
    config: &Config,
    paths: &[PathText],
    audit: &Audit,
    host: &mut H,
) -> Ended
    ensures past { GrewSome (IsPrinted config.now paths.now audit.now result.outcome result.said) (H.past host.old)
        (H.past host.new) }
    ensures outcome { IsAuditOutcome result.outcome }
    ensures blame { HasBlame result.outcome (H.faults host.old) (H.faults host.new) }
    ensures later { H.faults host.old ≤ H.faults host.new }
{
    let Ok(text) = report_text(alloc, config, paths, audit) else {
        return Ended::out_of_memory();
    };
    match host.out(&text) {
        Ok(()) => Ended {
            outcome: Outcome::Done,
            said: ErrorLine::none(),
        },
        Err(Failed) => Ended {
            outcome: Outcome::PrintFault,
            said: texts::unprinted_text(),
        },
    }
}

// Returns the end of an audit whose journals at these paths have this fault.
fn refuse(paths: &[PathText], fault: AuditFault) -> Ended
    ensures end { IsBadEnd paths.now fault result.outcome result.said }
    ensures outcome { IsAuditOutcome result.outcome }
    ensures blame { (before after : ℕ) → HasBlame result.outcome before after }
{
    match fault {
        AuditFault::OutOfMemory => Ended::out_of_memory(),
        fault => Ended {
            outcome: Outcome::AuditBad(fault),
            said: texts::audit_text(paths, fault),
        },
    }
}

// Audits the files at these paths, and prints the result.
fn conclude<H: Host>(alloc: Global, paths: &[PathText], files: &Files, host: &mut H) -> Ended
    ensures past { GrewSome (IsAuditEnd files.now.config files.now.ring paths.now files.now.journals.items
        result.outcome result.said) (H.past host.old) (H.past host.new) }
    ensures outcome { IsAuditOutcome result.outcome }
    ensures blame { HasBlame result.outcome (H.faults host.old) (H.faults host.new) }
    ensures later { H.faults host.old ≤ H.faults host.new }
{
    match audit_journals(alloc, &files.config, files.ring.as_ref(), &files.journals) {
        Ok(audit) => print(alloc, &files.config, paths, &audit, host),
        Err(fault) => refuse(paths, fault),
    }
}

/// Makes the calls of the audit, up to the call that decides its outcome.
pub(crate) fn audit<H: Host>(alloc: Global, asked: &AuditWords, host: &mut H) -> Ended
    ensures past { GrewSome (IsAuditing asked.now result.outcome result.said) (H.past host.old) (H.past host.new) }
    ensures outcome { IsAuditOutcome result.outcome }
    ensures blame { HasBlame result.outcome (H.faults host.old) (H.faults host.new) }
    ensures later { H.faults host.old ≤ H.faults host.new }
{
    match read_files(alloc, asked, host) {
        Ok(files) => conclude(alloc, &asked.journals, &files, host),
        Err(ended) => ended,
    }
}
