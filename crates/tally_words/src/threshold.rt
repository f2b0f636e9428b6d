//! Which sizes are written.
ghost use Rattle.std.specs.Prelude.{◌≡◌};
ghost use Rattle.tally_words.specs.Threshold.{bytes_by, bytes_in, bytes_of, bytes_of_ten, bytes_of_two, digit_count, in_64_bits, most_of, number_of, with_digit};

/// Which sizes are written.
#[derive(Clone, Copy, Debug, PartialEq, Eq)]
pub enum Threshold {
    /// Those of at least this many bytes.
    AtLeast(u64),
    /// Those of at most this many bytes.
    AtMost(u64),
}

fn digit_count(text: &[u8]) -> usize
    ensures { result ≡ digit_count text.now }
{
    let mut count = 0;
    while count < text.len() && text[count].is_ascii_digit() {
        count += 1;
    }
    count
}

/// Returns `None` if the number has more than 64 bits.
fn with_digit(number: u64, digit: u8) -> Option<u64>
    ensures { result ≡ in_64_bits (with_digit number digit) }
{
    number
        .checked_mul(10)?
        .checked_add(u64::from(digit.saturating_sub(b'0')))
}

/// Returns `None` if the number has more than 64 bits.
fn number_of(digits: &[u8]) -> Option<u64>
    ensures { result ≡ in_64_bits (number_of digits.now) }
{
    let mut number = 0;
    for digit in digits {
        number = with_digit(number, *digit)?;
    }
    Some(number)
}

fn bytes_of_two(letter: u8) -> Option<u64>
    ensures { result ≡ bytes_of_two letter }
{
    match letter {
        b'k' | b'K' => Some(1_024),
        b'm' | b'M' => Some(1_048_576),
        b'G' => Some(1_073_741_824),
        b'T' => Some(1_099_511_627_776),
        b'P' => Some(1_125_899_906_842_624),
        b'E' => Some(1_152_921_504_606_846_976),
        _ => None,
    }
}

fn bytes_of_ten(letter: u8) -> Option<u64>
    ensures { result ≡ bytes_of_ten letter }
{
    match letter {
        b'k' | b'K' => Some(1_000),
        b'm' | b'M' => Some(1_000_000),
        b'G' => Some(1_000_000_000),
        b'T' => Some(1_000_000_000_000),
        b'P' => Some(1_000_000_000_000_000),
        b'E' => Some(1_000_000_000_000_000_000),
        _ => None,
    }
}

fn bytes_by(letter: u8, rest: &[u8]) -> Option<u64>
    ensures { result ≡ bytes_by letter rest.now }
{
    if rest.is_empty() || rest == b"iB".as_slice() {
        bytes_of_two(letter)
    } else if rest == b"B".as_slice() {
        bytes_of_ten(letter)
    } else {
        None
    }
}

fn bytes_of(unit: &[u8]) -> Option<u64>
    ensures { result ≡ bytes_of unit.now }
{
    match unit {
        [letter, rest @ ..] => bytes_by(*letter, rest),
        [] => Some(1),
    }
}

/// The unit follows the number.
#[tactic(auto, using(crate::proofs::ThresholdFacts::digits_most))]
fn bytes_in(text: &[u8]) -> Option<u64>
    ensures { result ≡ bytes_in text.now }
{
    let count = digit_count(text);
    if count == 0 {
        return None;
    }
    let (digits, unit) = text.split_at(count);
    number_of(digits)?.checked_mul(bytes_of(unit)?)
}

fn most_of(most: u64) -> Option<Threshold>
    ensures { result ≡ most_of most }
{
    if most == 0 {
        return None;
    }
    Some(Threshold::AtMost(most))
}

impl Threshold {
    ghost use Rattle.tally_words.specs.Threshold.{is_within, threshold_in};

    /// Reads a size: a number, and a unit as `K`, `KiB` or `KB`, after a `-` for at most that size. Returns `None` for any
    /// other text, for `-0`, or if the number of bytes has more than 64 bits.
    pub fn read(text: &str) -> Option<Self>
        ensures { result ≡ threshold_in text.now }
    {
        match text.as_bytes() {
            [b'-', size @ ..] => most_of(bytes_in(size)?),
            size => Some(Threshold::AtLeast(bytes_in(size)?)),
        }
    }

    /// Returns whether a size is written.
    pub fn has(self, bytes: u128) -> bool
        ensures { result ≡ is_within self bytes }
    {
        match self {
            Threshold::AtLeast(least) => bytes >= u128::from(least),
            Threshold::AtMost(most) => bytes <= u128::from(most),
        }
    }
}
