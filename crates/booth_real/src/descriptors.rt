//! How many files this process may have open.

use libc::types::rlimit;

/// The most files that a daemon has open besides its TCP links and the sockets of members: the standard streams, and
/// two more for its lines; three locks; two UDP sockets; the journal; a record with its directory, or the clock; those
/// of a program that is being started; and the descriptors to wait for links, the listener, and a peer that was just
/// accepted.
const WITHOUT_LINKS: u64 = 24;

/// Returns how many sockets of members and TCP links this process may have open besides the files that a daemon needs
/// itself, by its limit (getrlimit(2), RLIMIT_NOFILE). Returns `u64::MAX` if the limit cannot be read.
pub fn files_for_links() -> u64 {
    let mut limit = rlimit {
        rlim_cur: u64::MAX,
        rlim_max: u64::MAX,
    };
    if libc::getrlimit(libc::RLIMIT_NOFILE, &mut limit) != 0 {
        return u64::MAX;
    }
    limit.rlim_cur.saturating_sub(WITHOUT_LINKS)
}
