//! Numbers, moments and texts, written and read.
ghost use Rattle.std.specs.Prelude.{◌≡◌, ◌++◌, option_map, string_bytes, OnOk};
ghost use Rattle.std.specs.Str.{bytes_eq};
ghost use Rattle.jwalk_snapshot.specs.Reading.{field_at, moment_at, number_at, number_in, signed_at, signed_in};
ghost use Rattle.jwalk_snapshot.specs.Text.{ended, is_text, moment_text, number_text, signed_text, MomentFits};

use itoa::{Buffer, Integer};
use jwalk_model::metadata::Moment;
use std::alloc::AllocError;

/// Adds a number and a space.
pub fn push_number(out: &mut String, number: u64) -> Result<(), AllocError>
    ensures { OnOk result (string_bytes out.new ≡ string_bytes out.old ++ number_text number) }
{
    out.push_str(Buffer::new().format(number))?;
    out.push_str(" ")
}

/// Adds a number that may be below 0, and a space.
fn push_signed(out: &mut String, number: i64) -> Result<(), AllocError>
    ensures { OnOk result (string_bytes out.new ≡ string_bytes out.old ++ signed_text number) }
{
    out.push_str(Buffer::new().format(number))?;
    out.push_str(" ")
}

/// Adds seconds and nanoseconds.
pub fn push_moment(out: &mut String, moment: Moment) -> Result<(), AllocError>
    ensures text { OnOk result (string_bytes out.new ≡ string_bytes out.old ++ moment_text moment) }
    ensures fits { MomentFits moment }
{
    push_signed(out, moment.seconds)?;
    push_number(out, moment.nanoseconds as u64)
}

/// Adds a text and a NUL.
pub fn push_ended(out: &mut String, text: &str) -> Result<(), AllocError>
    ensures { OnOk result (string_bytes out.new ≡ string_bytes out.old ++ ended text.now) }
{
    out.push_str(text)?;
    out.push_str("\0")
}

/// Returns whether a text has no NUL.
pub fn is_text(text: &str) -> bool
    ensures { result ≡ is_text text.now }
{
    text.as_bytes().iter().all(|b| *b != 0)
}

/// Returns the word before the first space, and what is behind it.
pub fn word_at(text: &str) -> Option<(&str, &str)>
    ensures { option_map (λ x. (x.0.now, x.1.now)) result ≡ field_at 32 text.now }
{
    text.split_once(' ')
}

/// Returns the text before the first NUL, and what is behind it.
pub fn ended_at(text: &str) -> Option<(&str, &str)>
    ensures { option_map (λ x. (x.0.now, x.1.now)) result ≡ field_at 0 text.now }
{
    text.split_once('\0')
}

/// Returns whether a text is the one that a number has.
fn is_text_of<I: Integer>(number: I, word: &str) -> bool
    ensures { result ≡ bytes_eq (I.text number) word.now }
{
    Buffer::new().format(number) == word
}

/// Returns the number that has this text.
fn number_in(word: &str) -> Option<u64>
    ensures { result ≡ number_in word.now }
{
    match word.parse::<u64>() {
        Ok(number) => is_text_of(number, word).then_some(number),
        Err(_) => None,
    }
}

/// Returns the number with a sign that has this text.
fn signed_in(word: &str) -> Option<i64>
    ensures { result ≡ signed_in word.now }
{
    match word.parse::<i64>() {
        Ok(number) => is_text_of(number, word).then_some(number),
        Err(_) => None,
    }
}

/// Returns the number at the front, and what is behind it.
#[tactic(auto, unfolding(crate::specs::Reading::number_at))]
pub fn number_at(text: &str) -> Option<(u64, &str)>
    ensures { option_map (λ x. (x.0, x.1.now)) result ≡ number_at text.now }
{
    let (word, rest) = word_at(text)?;
    Some((number_in(word)?, rest))
}

#[tactic(auto, unfolding(crate::specs::Reading::signed_at))]
fn signed_at(text: &str) -> Option<(i64, &str)>
    ensures { option_map (λ x. (x.0, x.1.now)) result ≡ signed_at text.now }
{
    let (word, rest) = word_at(text)?;
    Some((signed_in(word)?, rest))
}

/// Returns the moment at the front, and what is behind it.
#[tactic(auto, unfolding(crate::specs::Reading::moment_at))]
pub fn moment_at(text: &str) -> Option<(Moment, &str)>
    ensures { option_map (λ x. (x.0, x.1.now)) result ≡ moment_at text.now }
{
    let (seconds, rest) = signed_at(text)?;
    let (nanoseconds, rest) = number_at(rest)?;
    if nanoseconds > u32::MAX as u64 {
        return None;
    }
    let moment = Moment {
        seconds,
        nanoseconds: nanoseconds as u32,
    };
    Some((moment, rest))
}
