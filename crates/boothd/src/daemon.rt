//! The program `boothd`: its arguments, over the real host and the real links. A log on standard error reports the
//! daemon's calls. A journal records them if the environment names one.

use crate::error_lines::ErrorLines;
use crate::file_limit::{expect_members, limit_links};
use crate::journal_path::journal_path;
use crate::write_limit::write_limit;
use booth_cli::{Asked, Program, ask};
use booth_conf::Config;
use booth_daemon::{Outcome, boothd};
use booth_host::Host;
use booth_journal::JournalHost;
use booth_links::RealLinks;
use booth_log::LogHost;
use booth_real::{JournalFile, RealHost, contents, files_for_links};
use booth_stream::StreamHost;
use std::alloc::{AllocError, Global};

// Returns the configuration at this path, if it can be read. If it cannot, the daemon prints why when it reads it.
fn config_at(rt: &HostRuntime, alloc: Global, path: &str) -> Option<Config> {
    let text = contents(rt, alloc, path).ok()?;
    Config::parse(alloc, &text).ok()
}

// Gives each member a socket of its own, and returns how many open files remain for links.
fn files_beside_members(config: Option<&Config>, host: &mut RealHost) -> usize {
    let files = usize::try_from(files_for_links()).unwrap_or(usize::MAX);
    match config {
        Some(config) => expect_members(config.members(), files, host),
        None => files,
    }
}

// Sets up the host: the first reading of a daemon is one of the clock that its records have, no write takes longer
// than it may, each member has a socket of its own, and no more links are served than there are open files for.
fn prepare(
    rt: HostRuntime,
    alloc: Global,
    words: &[String],
    host: &mut RealHost,
    links: &mut RealLinks,
) {
    if let Ok(Asked::Daemon(asked)) = &ask(alloc, Program::Boothd, words) {
        host.await_clock(&asked.records);
        let config = config_at(&rt, alloc, asked.conf.as_str());
        host.limit_writes(write_limit(&rt, config.as_ref()));
        let files = files_beside_members(config.as_ref(), host);
        limit_links(rt, alloc, files, links);
    }
}

// Runs the arguments over a host, and logs its calls.
fn serve<H: Host + Drop>(
    rt: HostRuntime,
    alloc: Global,
    words: &[String],
    host: H,
) -> Result<Outcome, AllocError> {
    let mut host = LogHost::new(alloc, host, ErrorLines::new(rt))?;
    Ok(boothd(alloc, words, &mut host))
}

/// Runs `boothd` with these arguments, and returns how that ended.
pub(crate) fn run_daemon(
    rt: HostRuntime,
    alloc: Global,
    words: &[String],
) -> Result<Outcome, AllocError> {
    // (the host comes first: it fills the places of standard streams that were closed, so that no file of the links
    // has one)
    let mut host = RealHost::new(rt, alloc)?;
    let mut links = RealLinks::new(rt, alloc)?;
    prepare(rt, alloc, words, &mut host, &mut links);
    let mark = links.ready_mark(alloc)?;
    host.wake_on(links.ready_file(), mark);
    let host = StreamHost::new(alloc, host, links, 0)?;
    match journal_path(&rt)? {
        Some(path) => {
            let host = JournalHost::new(alloc, host, JournalFile::new(rt, path))?;
            serve(rt, alloc, words, host)
        }
        None => serve(rt, alloc, words, host),
    }
}
