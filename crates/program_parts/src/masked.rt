//! Texts without control characters.
ghost use Rattle.std.specs.Prelude.{◌≡◌, string_bytes, IfOk};
ghost use Rattle.program_parts.specs.Masked.{masked, shown_char};

use std::alloc::{AllocError, Allocator};

fn shown_char(c: char) -> char
    ensures { result ≡ shown_char c }
{
    if c.is_control() { '?' } else { c }
}

/// Returns a text with a question mark for each control character.
///
/// # Errors
///
/// If memory runs out.
pub fn masked<A: Allocator>(alloc: A, text: &str) -> Result<String<A>, AllocError>
    ensures { IfOk result (λ shown. string_bytes shown ≡ masked text.now) }
{
    let mut shown = String::new(alloc);
    for next in text.chars() {
        shown.push(shown_char(next))?;
    }
    Ok(shown)
}
