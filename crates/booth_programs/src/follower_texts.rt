//! Texts of lines and of the status, which are cut if they are too long.

use arrayvec::ArrayString;
use booth_talk::date_text;
use std::fmt::Write;

/// The most bytes of a text.
const TEXT_BYTES: usize = 300;

/// The text of a line, or of a message to the service manager.
pub(crate) type Text = ArrayString<TEXT_BYTES>;

/// Appends a text, as far as there is room.
pub(crate) fn put(text: &mut Text, more: &str) {
    let _ = text.try_push_str(more);
}

/// Appends a time in milliseconds as seconds.
pub(crate) fn put_seconds(text: &mut Text, time: u64) {
    let _ = write!(text, "{}.{} s", time / 1000, time / 100 % 10);
}

/// Appends a reading in milliseconds as date and time.
pub(crate) fn put_time(text: &mut Text, reading: u64) {
    let date = date_text(reading / 1000);
    let _ = write!(text, "{date} UTC");
}

/// Appends the status of a run.
pub(crate) fn put_status(text: &mut Text, status: i32) {
    let _ = write!(text, " failed with status {status}");
}

/// Appends how often something failed in a row.
pub(crate) fn put_times(text: &mut Text, times: u64) {
    let _ = write!(text, ", {times} times in a row");
}
