//! Times that a call names.
ghost use Rattle.std.specs.Prelude.{◌≡◌, pos};
ghost use Rattle.std.specs.Duration.{as_nanos};
ghost use Rattle.jiff.specs.Words.{date_parts, parse_datetime, parse_timestamp, time_parts};
ghost use Rattle.jiff_fmt.specs.Temporal.{parts_nanos};
ghost use Rattle.seek_words.specs.Time.{ago_in, ago_of, civil_in, instant_in, second_in, short_in};

use crate::date::date_in;
use crate::length::length_in;
use crate::size::digits_number;
use jiff::Timestamp;
use jiff::civil::DateTime;
use std::time::Duration;

/// A time that a call names.
#[derive(Clone, Copy, Debug, PartialEq, Eq)]
pub enum Time {
    /// A number of seconds, and of nanoseconds besides, before the call began.
    Ago(u64, u64),
    /// A number of nanoseconds after the beginning of 1970 in UTC.
    At(i128),
}

fn ago_of(length: u128) -> Option<Time>
    ensures { result ≡ ago_of length }
{
    let seconds = u64::try_from(length / 1_000_000_000).ok()?;
    Some(Time::Ago(seconds, (length % 1_000_000_000) as u64))
}

fn ago_in(text: &str) -> Option<Time>
    ensures { result ≡ ago_in text.now }
{
    ago_of(length_in(text)?)
}

/// The text has an offset.
fn instant_in(text: &str) -> Option<Time>
    ensures { result ≡ instant_in (parse_timestamp text.now) }
{
    let instant = text.parse::<Timestamp>().ok()?;
    Some(Time::At(instant.as_nanosecond()))
}

fn civil_nanoseconds(civil: DateTime) -> i128
    ensures { result ≡ parts_nanos (date_parts civil.date) (time_parts civil.time) }
{
    civil.to_plain().to_nanosecond()
}

/// The text has no offset, and is in UTC.
fn civil_in(text: &str) -> Option<Time>
    ensures { result ≡ civil_in (parse_datetime text.now) }
{
    match text.parse::<DateTime>() {
        Ok(civil) => Some(Time::At(civil_nanoseconds(civil))),
        Err(_) => None,
    }
}

/// The numbers of the text need no zeros in front.
fn short_in(text: &str) -> Option<Time>
    ensures { result ≡ short_in text.now }
{
    Some(Time::At(date_in(text)?))
}

/// The text is an `@` followed by seconds.
fn second_in(text: &[u8]) -> Option<Time>
    ensures { result ≡ second_in text.now }
{
    match text {
        [b'@', digits @ ..] => Some(Time::At(i128::from(digits_number(digits)?) * 1_000_000_000)),
        _ => None,
    }
}

impl Time {
    ghost use Rattle.seek_words.specs.Time.{nanoseconds_at, time_in};

    /// Reads a time: at most a hundred lengths of time ago, as `2h 30min` or `3 days`; a date, or a date and a time of day,
    /// in UTC unless they have an offset; or an `@` followed by seconds since 1970. Returns `None` for any other text.
    pub fn read(text: &str) -> Option<Self>
        ensures { result ≡ time_in text.now }
    {
        ago_in(text)
            .or(instant_in(text))
            .or(civil_in(text))
            .or(short_in(text))
            .or(second_in(text.as_bytes()))
    }

    /// Returns the time in nanoseconds since the beginning of 1970. `now` is how long after that the call began.
    pub fn at(self, now: Duration) -> i128
        ensures { result ≡ nanoseconds_at (pos (as_nanos now)) self }
    {
        match self {
            Time::Ago(seconds, nanoseconds) => {
                now.as_nanos() as i128
                    - (i128::from(seconds) * 1_000_000_000 + i128::from(nanoseconds))
            }
            Time::At(nanoseconds) => nanoseconds,
        }
    }
}
