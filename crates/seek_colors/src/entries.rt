//! The entries of `LS_COLORS`.
ghost use Rattle.std.specs.Prelude.{◌≡◌, map, IfOk};
ghost use Rattle.std.specs.List.{list_all};
ghost use Rattle.std.specs.Option.{option_map};
ghost use Rattle.seek_colors.specs.Entries.{entry_in, is_color_byte, parts_in};

use std::alloc::{AllocError, Global};

fn is_color(text: &[u8]) -> bool
    ensures { result ≡ list_all is_color_byte text.now }
{
    text.iter()
        .all(|byte| byte.is_ascii_digit() || *byte == b';')
}

/// Returns a key and its color, or `None` for any other text.
pub(crate) fn entry_in(text: &str) -> Option<(&str, &str)>
    ensures { option_map (λ it. (it.0.now, it.1.now)) result ≡ entry_in text.now }
{
    let (key, color) = text.split_once('=')?;
    if is_color(color.as_bytes()) {
        Some((key, color))
    } else {
        None
    }
}

/// Returns what is between the colons of a text.
pub(crate) fn parts_in(alloc: Global, text: &str) -> Result<Vec<&str>, AllocError>
    ensures { IfOk result (λ parts. map (λ it. it.now) parts.items ≡ parts_in text.now) }
{
    text.split(':').collect(alloc)
}
