//! Sizes of files.
ghost use Rattle.std.specs.Prelude.{◌≡◌, ◌*◌};
ghost use Rattle.std.specs.List.{list_all};
ghost use Rattle.std.specs.Option.{option_copied};
ghost use Rattle.jwalk_model.specs.Metadata.{len_of};
ghost use Rattle.seek_words.specs.Size.{bytes_in, bytes_of, bytes_of_ten, bytes_of_two, digit_count, digits_number, has_sizes, in_64_bits, is_size, is_sized, is_unit, number_of, with_digit};

use jwalk_model::file_type::FileType;
use jwalk_model::metadata::Metadata;

/// Sizes of files that are looked for.
#[derive(Clone, Copy, Debug, PartialEq, Eq)]
pub enum Size {
    /// At least this many bytes.
    AtLeast(u64),
    /// At most this many bytes.
    AtMost(u64),
    /// This many bytes.
    Exactly(u64),
}

pub(crate) fn digit_count(text: &[u8]) -> usize
    ensures { result ≡ digit_count text.now }
{
    let mut count = 0;
    while count < text.len() && text[count].is_ascii_digit() {
        count += 1;
    }
    count
}

/// Returns `None` if the number has more than 64 bits.
fn with_digit(number: u64, digit: u8) -> Option<u64>
    ensures { result ≡ in_64_bits (with_digit number digit) }
{
    number
        .checked_mul(10)?
        .checked_add(u64::from(digit.saturating_sub(b'0')))
}

/// Returns `None` if the number has more than 64 bits.
pub(crate) fn number_of(digits: &[u8]) -> Option<u64>
    ensures { result ≡ in_64_bits (number_of digits.now) }
{
    let mut number = 0;
    for digit in digits {
        number = with_digit(number, *digit)?;
    }
    Some(number)
}

#[tactic(auto, using(crate::proofs::ExtensionFacts::same_folded))]
fn is_unit(unit: &[u8], short: &str, long: &str) -> bool
    ensures { result ≡ is_unit unit.now short.now long.now }
{
    unit.eq_ignore_ascii_case(short.as_bytes()) || unit.eq_ignore_ascii_case(long.as_bytes())
}

fn bytes_of_ten(unit: &[u8]) -> Option<u64>
    ensures { result ≡ bytes_of_ten unit.now }
{
    if is_unit(unit, "k", "kb") {
        Some(1_000)
    } else if is_unit(unit, "m", "mb") {
        Some(1_000_000)
    } else if is_unit(unit, "g", "gb") {
        Some(1_000_000_000)
    } else if is_unit(unit, "t", "tb") {
        Some(1_000_000_000_000)
    } else {
        None
    }
}

fn bytes_of_two(unit: &[u8]) -> Option<u64>
    ensures { result ≡ bytes_of_two unit.now }
{
    if is_unit(unit, "ki", "kib") {
        Some(1_024)
    } else if is_unit(unit, "mi", "mib") {
        Some(1_048_576)
    } else if is_unit(unit, "gi", "gib") {
        Some(1_073_741_824)
    } else if is_unit(unit, "ti", "tib") {
        Some(1_099_511_627_776)
    } else {
        None
    }
}

fn bytes_of(unit: &[u8]) -> Option<u64>
    ensures { result ≡ bytes_of unit.now }
{
    if is_unit(unit, "b", "b") {
        return Some(1);
    }
    bytes_of_ten(unit).or(bytes_of_two(unit))
}

/// The unit follows the number.
#[tactic(auto, using(crate::proofs::SizeFacts::digits_most))]
fn bytes_in(text: &[u8]) -> Option<u64>
    ensures { result ≡ bytes_in text.now }
{
    let count = digit_count(text);
    if count == 0 {
        return None;
    }
    let (digits, unit) = text.split_at(count);
    number_of(digits)?.checked_mul(bytes_of(unit)?)
}

/// Returns the number of a text of digits, or `None` if the text isn't of digits alone, or if the number has more than 64
/// bits.
pub fn digits_number(text: &[u8]) -> Option<u64>
    ensures { result ≡ digits_number text.now }
{
    if text.is_empty() || digit_count(text) < text.len() {
        return None;
    }
    number_of(text)
}

impl Size {
    ghost use Rattle.seek_words.specs.Size.{size_in};

    /// Reads a size: a number and a unit in either case of letters, after a `+` for at least that size, a `-` for at
    /// most that size, or neither. Returns `None` for any other text, or if the number of bytes has more than 64 bits.
    pub fn read(text: &str) -> Option<Self>
        ensures { result ≡ size_in text.now }
    {
        match text.as_bytes() {
            [b'+', size @ ..] => Some(Size::AtLeast(bytes_in(size)?)),
            [b'-', size @ ..] => Some(Size::AtMost(bytes_in(size)?)),
            size => Some(Size::Exactly(bytes_in(size)?)),
        }
    }

    fn is(self, bytes: u64) -> bool
        ensures { result ≡ is_size bytes self }
    {
        match self {
            Size::AtLeast(least) => bytes >= least,
            Size::AtMost(most) => bytes <= most,
            Size::Exactly(exact) => bytes == exact,
        }
    }
}

fn has_all(sizes: &[Size], len: u64) -> bool
    ensures { result ≡ list_all (is_size len) sizes.now }
{
    sizes.iter().all(|size| size.is(len))
}

fn has_sizes(sizes: &[Size], seen: Option<&Metadata>) -> bool
    ensures { result ≡ has_sizes sizes.now (option_copied seen.entry) }
{
    match seen {
        Some(metadata) => has_all(sizes, metadata.len()),
        None => false,
    }
}

/// Returns whether `sizes` is empty, or an entry is a regular file of each of these sizes.
pub fn is_sized(sizes: &[Size], file_type: FileType, seen: Option<&Metadata>) -> bool
    ensures { result ≡ is_sized sizes.now file_type (option_copied seen.entry) }
{
    sizes.is_empty() || (file_type.is_file() && has_sizes(sizes, seen))
}
