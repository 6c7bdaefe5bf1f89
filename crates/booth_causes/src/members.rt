//! The members, the sites and the tickets of a configuration, for a line.

use crate::cause::Cause;
use booth_conf::{Config, Member};

/// The most tickets in a line.
const NAMED: usize = 8;

// Returns the text after an element of a list, if this many elements are left.
fn separator(left: usize) -> &'static str {
    match left {
        0 => "",
        1 => " and ",
        _ => ", ",
    }
}

fn put_addresses(cause: &mut Cause, members: &[Member], is_site: bool) {
    let mut left = 0usize;
    for member in members {
        if member.site || !is_site {
            left = left.saturating_add(1);
        }
    }
    for member in members {
        if member.site || !is_site {
            cause.put_address(&member.address);
            left = left.saturating_sub(1);
            cause.put(separator(left));
        }
    }
}

/// Returns the members of the configuration at this path.
pub fn members_of(path: &str, config: &Config) -> Cause {
    let mut cause = Cause::new();
    cause.put("members of ");
    cause.put(path);
    cause.put(": ");
    put_addresses(&mut cause, config.members(), false);
    cause
}

/// Returns the sites of the configuration at this path.
pub fn sites_of(path: &str, config: &Config) -> Cause {
    let mut cause = Cause::new();
    cause.put("sites of ");
    cause.put(path);
    cause.put(": ");
    put_addresses(&mut cause, config.members(), true);
    cause
}

/// Appends the tickets of the configuration at this path, up to eight by their names.
pub(crate) fn put_tickets(cause: &mut Cause, path: &str, config: &Config) {
    cause.put("tickets of ");
    cause.put(path);
    cause.put(": ");
    let count = config.tickets().len();
    let more = count.saturating_sub(NAMED);
    let mut left = count.saturating_sub(more);
    for ticket in config.tickets().iter().take(NAMED) {
        cause.put_name(&ticket.name);
        left = left.saturating_sub(1);
        cause.put(if more > 0 && left > 0 {
            ", "
        } else {
            separator(left)
        });
    }
    if more > 0 {
        cause.put(" and ");
        cause.put_number(more as u64);
        cause.put(" more");
    }
}
