//! The text of a simulation's counts.
ghost use Rattle.std.specs.Prelude.{◌≡◌, ◌≤◌, ◌+◌, ◌++◌, length};
ghost use Rattle.booth_daemon.specs.Simulating.{cluster_text, row_text, summary_text, ticket_text};

use arrayvec::ArrayVec;
use booth_sim::Summary;
use itoa::Buffer;

/// The maximal number of bytes in the text.
const SUMMARY_BYTES: usize = 300;

// Appends a line with a name and a number.
fn put_row(text: &mut ArrayVec<u8, SUMMARY_BYTES>, name: &str, number: u64)
    requires name { length name.now ≤ 30 }
    requires room { length text.old.items + length name.now + 23 ≤ 300 }
    ensures bytes { text.new.items ≡ text.old.items ++ row_text name.now number }
    ensures len { length text.new.items ≤ length text.old.items + length name.now + 23 }
{
    let mut digits = Buffer::new();
    text.try_extend_from_slice(name.as_bytes()).unwrap();
    text.try_extend_from_slice(b": ").unwrap();
    text.try_extend_from_slice(digits.format(number).as_bytes())
        .unwrap();
    text.try_extend_from_slice(b"\n").unwrap();
}

// Appends the counts of the cluster.
fn put_cluster(text: &mut ArrayVec<u8, SUMMARY_BYTES>, summary: &Summary)
    requires room { length text.old.items ≤ 100 }
    ensures bytes { text.new.items ≡ text.old.items ++ cluster_text summary.now }
    ensures len { length text.new.items ≤ length text.old.items + 121 }
{
    put_row(text, "events", summary.events);
    put_row(text, "number", summary.number);
    put_row(text, "delivered", summary.delivered);
    put_row(text, "restarts", summary.restarts);
}

// Appends the counts of its tickets.
fn put_tickets(text: &mut ArrayVec<u8, SUMMARY_BYTES>, summary: &Summary)
    requires room { length text.old.items ≤ 150 }
    ensures bytes { text.new.items ≡ text.old.items ++ ticket_text summary.now }
{
    put_row(text, "gains", summary.gains);
    put_row(text, "releases", summary.releases);
    put_row(text, "greatest term", summary.greatest_term);
    put_row(text, "most holders at one moment", summary.most_holders);
}

/// Returns a line for each number.
pub(crate) fn summary_text(summary: &Summary) -> ArrayVec<u8, SUMMARY_BYTES>
    ensures { result.items ≡ summary_text summary.now }
{
    let mut text = ArrayVec::new();
    put_cluster(&mut text, summary);
    put_tickets(&mut text, summary);
    text
}
