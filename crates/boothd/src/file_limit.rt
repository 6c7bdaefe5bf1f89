//! What the limit on open files leaves room for: sockets of members, and links over TCP.
ghost use Rattle.std.specs.Prelude.{◌≡◌, ◌≤◌, ◌<◌, ◌-◌, length};

use booth_conf::Member;
use booth_links::RealLinks;
use booth_real::{Priority, RealHost, Speaker};
use booth_stream::LINKS;
use std::alloc::Global;

// Prints how many links fit.
fn tell(rt: HostRuntime, alloc: Global, count: usize) {
    let words = "the limit on open files (RLIMIT_NOFILE) leaves room for";
    let text = format!(in alloc; "{words} {count} links over TCP, and not for {LINKS}");
    if let Ok(text) = text {
        Speaker::new(rt, "boothd").say(Priority::Warning, text.as_bytes());
    }
}

/// Opens a socket for each of these members, if the remaining open files suffice for all of them. Returns how many
/// remain. If there is no memory for a member's socket, its datagrams arrive at the common socket.
pub(crate) fn expect_members(members: &[Member], files: usize, host: &mut RealHost) -> usize
    ensures few { files < length members.now → result ≡ files }
    ensures others { files < length members.now → host.new ≡ host.old }
    ensures enough { length members.now ≤ files → result ≡ files - length members.now }
{
    if files < members.len() {
        return files;
    }
    for member in members {
        let _ = host.expect(member.address);
    }
    files - members.len()
}

/// Limits the links that are served and the peers that wait for one to so many open files, and prints it if fewer
/// links are served.
pub(crate) fn limit_links(rt: HostRuntime, alloc: Global, files: usize, links: &mut RealLinks) {
    let count = links.serve_within(files);
    if count < LINKS {
        tell(rt, alloc, count);
    }
}
