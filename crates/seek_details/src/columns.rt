//! Texts and numbers in columns.
ghost use Rattle.std.specs.Prelude.{◌≡◌, ◌++◌, OnOk};
ghost use Rattle.seek_details.specs.Columns.{number_column, padded};

use itoa::Buffer;
use std::alloc::{AllocError, Global};

/// Appends a text behind as many of these bytes as `width` asks for. A longer text has none.
pub(crate) fn push_padded(
    fill: u8,
    width: usize,
    text: &[u8],
    out: &mut Vec<u8, Global>,
) -> Result<(), AllocError>
    ensures { OnOk result (out.new.items ≡ out.old.items ++ padded fill width text.now) }
{
    let mut missing = width.saturating_sub(text.len());
    while missing > 0 {
        out.push(fill)?;
        missing -= 1;
    }
    out.extend_from_slice(text)
}

/// Appends a space and a number at the end of its column, or a question mark if it isn't known.
pub(crate) fn push_number(
    number: Option<u64>,
    width: usize,
    out: &mut Vec<u8, Global>,
) -> Result<(), AllocError>
    ensures { OnOk result (out.new.items ≡ out.old.items ++ number_column width number) }
{
    out.push(b' ')?;
    match number {
        Some(number) => push_padded(b' ', width, Buffer::new().format(number).as_bytes(), out),
        None => push_padded(b' ', width, b"?", out),
    }
}
