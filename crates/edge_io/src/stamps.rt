//! The stamp of a second.
ghost use Rattle.std.specs.Prelude.{◌≡◌, ◌+◌, ◌/◌, ◌%◌, ◌<◌, ◌≤◌, ◌^◌, ◌≤ℤ◌, pos};
ghost use Rattle.jiff.specs.Words.{epoch_day};
ghost use Rattle.edge_io.specs.Stamps.{zero_digit, HasStampForm, IsDateTime, IsPlain};

use jiff::ToSpan;
use jiff::civil::{Date, date};
use kj_value::Stamp;

pub(crate) const SECONDS_PER_DAY: u64 = 86_400;

pub(crate) const SECONDS_PER_HOUR: u64 = 3_600;

pub(crate) const SECONDS_PER_MINUTE: u64 = 60;

/// The stamp of that many seconds since 1970-01-01T00:00:00Z, as RFC 3339, section 5.6, writes a date-time. It takes no
/// memory.
pub fn stamp_of(seconds: u64) -> Stamp
    requires { seconds < 2 ^ 37 }
    ensures date { IsDateTime seconds result.text }
    ensures form { HasStampForm result.text }
    ensures plain { IsPlain result.text }
{
    let date = date_of(seconds / SECONDS_PER_DAY);
    let year = year_of(date);
    let century = (year / 100) as u8;
    let year = (year % 100) as u8;
    let date = date.to_plain();
    let second = seconds % SECONDS_PER_DAY;
    let hour = (second / SECONDS_PER_HOUR) as u8;
    let minute = (second % SECONDS_PER_HOUR / SECONDS_PER_MINUTE) as u8;
    let second = (second % SECONDS_PER_MINUTE) as u8;
    Stamp {
        text: [
            tens(century),
            ones(century),
            tens(year),
            ones(year),
            b'-',
            tens(date.month),
            ones(date.month),
            b'-',
            tens(date.day),
            ones(date.day),
            b'T',
            tens(hour),
            ones(hour),
            b':',
            tens(minute),
            ones(minute),
            b':',
            tens(second),
            ones(second),
            b'Z',
        ],
    }
}

// The date of that many days since 1970-01-01.
fn date_of(day: u64) -> Date
    requires { day < 2 ^ 21 }
    ensures { epoch_day result ≡ pos day }
{
    match date(1970, 1, 1).checked_add((day as i64).days()) {
        Ok(date) => date,
        Err(_) => unreachable!(),
    }
}

// The year of a date since 1970.
fn year_of(date: Date) -> u16
    requires { pos 0 ≤ℤ epoch_day date }
    ensures same { date.year ≡ pos result }
    ensures fits { result < 10_000 }
{
    date.year().unsigned_abs()
}

fn tens(n: u8) -> u8
    requires { n < 100 }
    ensures value { result ≡ zero_digit + n / 10 }
    ensures digit { (48 ≤ result) × (result < 58) }
{
    b'0' + n / 10
}

fn ones(n: u8) -> u8
    ensures value { result ≡ zero_digit + n % 10 }
    ensures digit { (48 ≤ result) × (result < 58) }
{
    b'0' + n % 10
}
