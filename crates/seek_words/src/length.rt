//! Lengths of time.
ghost use Rattle.std.specs.Prelude.{◌≡◌, ◌*◌, Some};
ghost use Rattle.seek_words.specs.Length.{after_length, clock_unit, first_length, from_unit, in_128_bits, is_called, length_in, lengths_in, letter_count, long_unit, number_in, product, short_unit, space_count, together, trimmed, unit_in};

use crate::size::{digit_count, number_of};

fn letter_count(text: &[u8]) -> usize
    ensures { result ≡ letter_count text.now }
{
    let mut count = 0;
    while count < text.len() && text[count].is_ascii_alphabetic() {
        count += 1;
    }
    count
}

fn space_count(text: &[u8]) -> usize
    ensures { result ≡ space_count text.now }
{
    let mut count = 0;
    while count < text.len() && text[count].is_ascii_whitespace() {
        count += 1;
    }
    count
}

#[tactic(auto, using(crate::proofs::LengthFacts::spaces_most))]
fn trimmed(text: &[u8]) -> &[u8]
    ensures { result.now ≡ trimmed text.now }
{
    text.split_at(space_count(text)).1
}

fn is_called(unit: &[u8], long: &str, middle: &str, short: &str) -> bool
    ensures { result ≡ is_called unit.now long.now middle.now short.now }
{
    unit == long.as_bytes() || unit == middle.as_bytes() || unit == short.as_bytes()
}

fn short_unit(unit: &[u8]) -> Option<u64>
    ensures { result ≡ short_unit unit.now }
{
    if is_called(unit, "nanos", "nsec", "ns") {
        Some(1)
    } else if is_called(unit, "usec", "usec", "us") {
        Some(1_000)
    } else if is_called(unit, "millis", "msec", "ms") {
        Some(1_000_000)
    } else if is_called(unit, "seconds", "secs", "s") {
        Some(1_000_000_000)
    } else if is_called(unit, "second", "sec", "s") {
        Some(1_000_000_000)
    } else {
        None
    }
}

fn clock_unit(unit: &[u8]) -> Option<u64>
    ensures { result ≡ clock_unit unit.now }
{
    if is_called(unit, "minutes", "mins", "m") {
        Some(60_000_000_000)
    } else if is_called(unit, "minute", "min", "m") {
        Some(60_000_000_000)
    } else if is_called(unit, "hours", "hrs", "h") {
        Some(3_600_000_000_000)
    } else if is_called(unit, "hour", "hr", "h") {
        Some(3_600_000_000_000)
    } else {
        None
    }
}

fn long_unit(unit: &[u8]) -> Option<u64>
    ensures { result ≡ long_unit unit.now }
{
    if is_called(unit, "days", "day", "d") {
        Some(86_400_000_000_000)
    } else if is_called(unit, "weeks", "week", "w") {
        Some(604_800_000_000_000)
    } else if is_called(unit, "months", "month", "M") {
        Some(2_630_016_000_000_000)
    } else if is_called(unit, "years", "year", "y") {
        Some(31_557_600_000_000_000)
    } else {
        None
    }
}

fn unit_in(unit: &[u8]) -> Option<u64>
    ensures { result ≡ unit_in unit.now }
{
    short_unit(unit).or(clock_unit(unit)).or(long_unit(unit))
}

#[tactic(auto, using(crate::proofs::SizeFacts::digits_most))]
fn number_in(text: &[u8]) -> Option<u64>
    ensures { result ≡ number_in text.now }
{
    let count = digit_count(text);
    if count == 0 {
        return None;
    }
    number_of(text.split_at(count).0)
}

#[tactic(auto, using(crate::proofs::SizeFacts::digits_most))]
fn from_unit(text: &[u8]) -> &[u8]
    ensures { result.now ≡ from_unit text.now }
{
    trimmed(text.split_at(digit_count(text)).1)
}

/// Returns `None` if the product has more than 128 bits.
fn product(number: u64, unit: u64) -> Option<u128>
    ensures { result ≡ in_128_bits (number * unit) }
{
    u128::from(number).checked_mul(u128::from(unit))
}

#[tactic(auto, using(crate::proofs::LengthFacts::letters_most))]
fn first_length(text: &[u8]) -> Option<u128>
    ensures { result ≡ first_length text.now }
{
    let rest = from_unit(text);
    let (unit, _) = rest.split_at(letter_count(rest));
    product(number_in(text)?, unit_in(unit)?)
}

#[tactic(auto, using(crate::proofs::LengthFacts::letters_most))]
fn after_length(text: &[u8]) -> &[u8]
    ensures { result.now ≡ after_length text.now }
{
    let rest = from_unit(text);
    trimmed(rest.split_at(letter_count(rest)).1)
}

/// Returns `None` if the sum has more than 128 bits.
fn together(length: u128, more: u128) -> Option<u128>
    ensures { result ≡ together (Some length) (Some more) }
{
    length.checked_add(more)
}

/// Returns `None` if one of the lengths can't be read, or if there are more than `most`.
fn lengths_in(most: usize, text: &[u8]) -> Option<u128>
    ensures { result ≡ lengths_in most text.now }
{
    if most == 0 {
        return None;
    }
    let length = first_length(text)?;
    let rest = after_length(text);
    if rest.is_empty() {
        return together(length, 0);
    }
    let more = lengths_in(most - 1, rest)?;
    together(length, more)
}

/// Reads lengths of time, as `2h 30min`, and returns the nanoseconds of all together. Returns `None` for any other text.
pub(crate) fn length_in(text: &str) -> Option<u128>
    ensures { result ≡ length_in text.now }
{
    lengths_in(100, trimmed(text.as_bytes()))
}
