//! Decimal numbers in words and tree lines.
ghost use Rattle.std.specs.Prelude.{SomeIff};
ghost use Rattle.walk_text.specs.Number.{IsNumber, value_of};

/// Returns the number that is written in 1 to 20 decimal digits, with leading zeros or without. None if it needs more
/// than 64 bits, and for any other text, such as one with a sign.
pub fn parse_number(text: &str) -> Option<u64>
    ensures { SomeIff result (IsNumber text.now) (value_of text.now) }
{
    if text.len() > 20 || text.starts_with('+') {
        return None;
    }
    text.parse::<u64>().ok()
}
