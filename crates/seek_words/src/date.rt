//! Dates and times of day.
ghost use Rattle.std.specs.Prelude.{◌≡◌, ◌≤◌, pos};
ghost use Rattle.std.specs.List.{after_first, before_first};
ghost use Rattle.jiff_core.specs.Calendar.{days_from_civil, days_in_month};
ghost use Rattle.seek_words.specs.Date.{date_in, day_in, day_of, few_digits, is_colon, is_dash, is_space, HasDay, nanoseconds_of, seconds_in, seconds_of};

use crate::size::digits_number;
use jiff::civil::Date;

/// Returns `None` if there are more digits, or other bytes.
fn few_digits(most: usize, text: &str) -> Option<u64>
    ensures { result ≡ few_digits most text.now }
{
    if text.len() > most {
        return None;
    }
    digits_number(text.as_bytes())
}

/// Returns what is in front of the first dash and what is behind it.
fn at_dash(text: &str) -> (&str, &str)
    ensures before { result.0.now ≡ before_first is_dash text.now }
    ensures after { result.1.now ≡ after_first is_dash text.now }
{
    match text.split_once('-') {
        Some(parts) => parts,
        None => (text, ""),
    }
}

/// Returns what is in front of the first colon and what is behind it.
fn at_colon(text: &str) -> (&str, &str)
    ensures before { result.0.now ≡ before_first is_colon text.now }
    ensures after { result.1.now ≡ after_first is_colon text.now }
{
    match text.split_once(':') {
        Some(parts) => parts,
        None => (text, ""),
    }
}

/// Returns what is in front of the first space and what is behind it.
fn at_space(text: &str) -> (&str, &str)
    ensures before { result.0.now ≡ before_first is_space text.now }
    ensures after { result.1.now ≡ after_first is_space text.now }
{
    match text.split_once(' ') {
        Some(parts) => parts,
        None => (text, ""),
    }
}

fn month_length(year: u64, month: u64) -> u64
    ensures value { result ≡ days_in_month (pos year) month }
    ensures bound { result ≤ 31 }
{
    if month == 2 {
        if year % 4 == 0 && (year % 100 != 0 || year % 400 == 0) {
            29
        } else {
            28
        }
    } else if month == 4 || month == 6 || month == 9 || month == 11 {
        30
    } else {
        31
    }
}

/// The calendar has this day.
#[tactic(auto, using(crate::proofs::DateFacts::is_date, crate::proofs::DateFacts::day_most))]
fn day_number(year: u64, month: u64, day: u64) -> Option<i32>
    requires { HasDay year month day }
    ensures { result ≡ Some (days_from_civil (pos year) month day) }
{
    let date = Date::new(year as i16, month as i8, day as i8).ok()?;
    Some(date.to_plain().to_unix_epoch_day())
}

fn day_of(year: u64, month: u64, day: u64) -> Option<i32>
    ensures { result ≡ day_of (Some year) (Some month) (Some day) }
{
    if year <= 9_999 && 1 <= month && month <= 12 && 1 <= day && day <= month_length(year, month) {
        day_number(year, month, day)
    } else {
        None
    }
}

fn day_in(text: &str) -> Option<i32>
    ensures { result ≡ day_in text.now }
{
    let (year, rest) = at_dash(text);
    let (month, day) = at_dash(rest);
    day_of(
        few_digits(4, year)?,
        few_digits(2, month)?,
        few_digits(2, day)?,
    )
}

fn seconds_of(hour: u64, minute: u64, second: u64) -> Option<u64>
    ensures { result ≡ seconds_of (Some hour) (Some minute) (Some second) }
{
    if hour < 24 && minute < 60 && second <= 60 {
        Some(hour * 3_600 + minute * 60 + second)
    } else {
        None
    }
}

/// The empty text is midnight.
fn seconds_in(text: &str) -> Option<u64>
    ensures { result ≡ seconds_in text.now }
{
    if text.is_empty() {
        return Some(0);
    }
    let (hour, rest) = at_colon(text);
    let (minute, second) = at_colon(rest);
    seconds_of(
        few_digits(2, hour)?,
        few_digits(2, minute)?,
        few_digits(2, second)?,
    )
}

fn nanoseconds_of(day: i32, seconds: u64) -> i128
    ensures { Some result ≡ nanoseconds_of (Some day) (Some seconds) }
{
    (i128::from(day) * 86_400 + i128::from(seconds)) * 1_000_000_000
}

/// Reads a date, and a time of day behind a space or none, whose numbers need no zeros in front. Returns nanoseconds since the
/// beginning of 1970 in UTC, or `None` for any other text.
pub(crate) fn date_in(text: &str) -> Option<i128>
    ensures { result ≡ date_in text.now }
{
    let (day, clock) = at_space(text);
    let (day, seconds) = (day_in(day)?, seconds_in(clock)?);
    Some(nanoseconds_of(day, seconds))
}
