//! Points in time as dates and times in UTC.
ghost use Rattle.std.specs.Prelude.{◌≡◌, ◌≤◌, ◌<◌, ◌+◌, ◌*◌, ◌++◌, ◌∷◌, [], pos, codes, decimal, length, unsigned_abs};
ghost use Rattle.jiff.specs.Words.{civil_nanos};
ghost use Rattle.booth_talk.specs.Civil.{pair, moment_text, date_text};

use arrayvec::ArrayString;
use itoa::Buffer;
use jiff::Timestamp;
use jiff::civil::DateTime;
use jiff::tz::Offset;

/// The greatest number of seconds that is written as a date.
const LAST: u64 = 250_000_000_000;

// Returns the date and time in UTC, this many seconds after the start of 1970.
fn moment(seconds: u64) -> DateTime
    requires { seconds ≤ LAST }
    ensures { civil_nanos result ≡ pos (seconds * 1000000000) }
{
    let Ok(at) = Timestamp::from_second(seconds as i64) else {
        unreachable!()
    };
    Offset::UTC.to_datetime(at)
}

// Appends a number below 100, in two digits.
fn put_pair(text: &mut ArrayString<32>, number: u8)
    requires small { number < 100 }
    requires room { length text.old.bytes + 2 ≤ 32 }
    ensures { text.new.bytes ≡ text.old.bytes ++ pair number }
{
    text.push((b'0' + number / 10) as char);
    text.push((b'0' + number % 10) as char);
}

// Returns the year as an unsigned number.
fn year_of(at: &DateTime) -> u16
    ensures year { result ≡ unsigned_abs at.now.date.year }
    ensures fits { result < 10000 }
{
    at.year().unsigned_abs()
}

fn put_moment(text: &mut ArrayString<32>, at: &DateTime)
    requires empty { text.old.bytes ≡ [] }
    ensures { text.new.bytes ≡ moment_text at.now }
{
    let year = year_of(at);
    let plain = at.to_plain();
    put_pair(text, (year / 100) as u8);
    put_pair(text, (year % 100) as u8);
    text.push('-');
    put_pair(text, plain.date.month);
    text.push('-');
    put_pair(text, plain.date.day);
    text.push(' ');
    put_pair(text, plain.time.hour);
    text.push(':');
    put_pair(text, plain.time.minute);
    text.push(':');
    put_pair(text, plain.time.second);
}

/// Returns the text of the time this many seconds after the start of 1970: `YYYY-MM-DD HH:MM:SS` in UTC. Above
/// 250,000,000,000 seconds it is an `@` and the number.
pub fn date_text(seconds: u64) -> ArrayString<32>
    ensures { result.bytes ≡ date_text seconds }
{
    let mut text = ArrayString::new();
    if seconds > LAST {
        let mut digits = Buffer::new();
        text.push('@');
        text.push_str(digits.format(seconds));
    } else {
        put_moment(&mut text, &moment(seconds));
    }
    text
}
