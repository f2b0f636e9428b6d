//! Dates and times of day in UTC.
ghost use Rattle.std.specs.Prelude.{◌≡◌, ◌+◌, ◌≤◌, ◌<◌, ◌^◌, ◌++◌, OnOk};
ghost use Rattle.seek_details.specs.Date.{IsWithin, calendar_month, civil_text, clock_at, clock_text, cycle_day, cycle_of, date_and_clock, date_text, day_at, day_of, march_days, month_days, month_of, part_of, time_text, two_digits, year_after, year_of, year_text};

use crate::columns::push_padded;
use itoa::Buffer;
use std::alloc::{AllocError, Global};

/// The days from the beginning of 1970 to 1 March 2000.
const FIRST_CYCLE: i64 = 11_017;

/// The days of 400 years.
const CYCLE: i64 = 146_097;

/// The seconds of a day.
const DAY: i64 = 86_400;

/// The years begin on 1 March, the first one in a year that 400 divides. So a leap day is the last day of a year.
fn march_days(years: u64) -> u64
    requires { years ≤ 400 }
    ensures { result ≡ march_days years }
{
    365 * years + years / 4 - years / 100 + years / 400
}

fn month_days(months: u64) -> u64
    requires { months ≤ 12 }
    ensures { result ≡ month_days months }
{
    (153 * months + 2) / 5
}

#[tactic(auto, using(crate::proofs::DateFacts::year_found))]
fn year_at(day: u64) -> u64
    requires { day < 146097 }
    ensures year { result ≡ part_of march_days 400 day }
    ensures starts { march_days result ≤ day }
    ensures ends { day < march_days (result + 1) }
    ensures most { result < 400 }
{
    let mut year = day / 366;
    while march_days(year + 1) <= day {
        year += 1;
    }
    year
}

fn month_at(day: u64) -> u64
    requires { day < 366 }
    ensures month { result ≡ part_of month_days 12 day }
    ensures starts { month_days result ≤ day }
    ensures most { result < 12 }
{
    (5 * day + 2) / 153
}

#[derive(Drop)]
struct Date {
    year: i64,
    month: u64,
    day: u64,
}

#[tactic(auto, using(crate::proofs::DateFacts::few_cycles))]
fn cycle_of(day: i64) -> i64
    requires { IsWithin (2 ^ 47) day }
    ensures cycle { result ≡ cycle_of day }
    ensures small { IsWithin (2 ^ 31) result }
{
    (day - FIRST_CYCLE).div_euclid(CYCLE)
}

fn cycle_day(day: i64) -> u64
    requires { IsWithin (2 ^ 47) day }
    ensures day { result ≡ cycle_day day }
    ensures most { result < 146097 }
{
    (day - FIRST_CYCLE).rem_euclid(CYCLE) as u64
}

fn year_after(cycle: i64, years: u64) -> i64
    requires cycle { IsWithin (2 ^ 31) cycle }
    requires years { years ≤ 400 }
    ensures { result ≡ year_after cycle years }
{
    cycle * 400 + (2000 + years) as i64
}

fn calendar_month(month: u64) -> u64
    requires { month < 12 }
    ensures { result ≡ calendar_month month }
{
    if month < 10 { month + 3 } else { month - 9 }
}

/// The day is counted from the beginning of 1970.
fn date_of(day: i64) -> Date
    requires { IsWithin (2 ^ 47) day }
    ensures year { result.year ≡ year_of day }
    ensures month { result.month ≡ month_of day }
    ensures day { result.day ≡ day_of day }
{
    let cycle_day = cycle_day(day);
    let cycle_year = year_at(cycle_day);
    let year_day = cycle_day - march_days(cycle_year);
    let month = month_at(year_day);
    let begun = if month < 10 { 0 } else { 1 };
    Date {
        year: year_after(cycle_of(day), cycle_year + begun),
        month: calendar_month(month),
        day: year_day - month_days(month) + 1,
    }
}

fn push_two_digits(number: u64, out: &mut Vec<u8, Global>) -> Result<(), AllocError>
    ensures { OnOk result (out.new.items ≡ out.old.items ++ two_digits number) }
{
    push_padded(b'0', 2, Buffer::new().format(number).as_bytes(), out)
}

fn push_year(year: i64, out: &mut Vec<u8, Global>) -> Result<(), AllocError>
    ensures { OnOk result (out.new.items ≡ out.old.items ++ year_text year) }
{
    if year < 0 {
        out.push(b'-')?;
    }
    push_padded(
        b'0',
        4,
        Buffer::new().format(year.unsigned_abs()).as_bytes(),
        out,
    )
}

fn push_civil(date: Date, out: &mut Vec<u8, Global>) -> Result<(), AllocError>
    ensures { OnOk result (out.new.items ≡ out.old.items ++ civil_text date.year date.month date.day) }
{
    push_year(date.year, out)?;
    out.push(b'-')?;
    push_two_digits(date.month, out)?;
    out.push(b'-')?;
    push_two_digits(date.day, out)
}

fn push_date(day: i64, out: &mut Vec<u8, Global>) -> Result<(), AllocError>
    requires { IsWithin (2 ^ 47) day }
    ensures { OnOk result (out.new.items ≡ out.old.items ++ date_text day) }
{
    push_civil(date_of(day), out)
}

#[tactic(auto, unfolding(crate::specs::Date::clock_text))]
fn push_clock(second: u64, out: &mut Vec<u8, Global>) -> Result<(), AllocError>
    ensures { OnOk result (out.new.items ≡ out.old.items ++ clock_text second) }
{
    push_two_digits(second / 3600, out)?;
    out.push(b':')?;
    push_two_digits(second / 60 % 60, out)?;
    out.push(b':')?;
    push_two_digits(second % 60, out)
}

fn push_date_and_clock(day: i64, second: u64, out: &mut Vec<u8, Global>) -> Result<(), AllocError>
    requires { IsWithin (2 ^ 47) day }
    ensures { OnOk result (out.new.items ≡ out.old.items ++ date_and_clock day second) }
{
    push_date(day, out)?;
    out.push(b' ')?;
    push_clock(second, out)
}

fn day_at(second: i64) -> i64
    ensures day { result ≡ day_at second }
    ensures few { IsWithin (2 ^ 47) result }
{
    second.div_euclid(DAY)
}

fn clock_at(second: i64) -> u64
    ensures { result ≡ clock_at second }
{
    second.rem_euclid(DAY) as u64
}

/// Appends the date and the time in UTC of a second, which is counted from the beginning of 1970.
pub(crate) fn push_time(second: i64, out: &mut Vec<u8, Global>) -> Result<(), AllocError>
    ensures { OnOk result (out.new.items ≡ out.old.items ++ time_text second) }
{
    push_date_and_clock(day_at(second), clock_at(second), out)
}
