//! The texts that a glob with braces is short for.
#![tactic(auto)]

ghost use Rattle.std.specs.Prelude.{◌≡◌, map, string_bytes, IfOk};
ghost use Rattle.std.specs.Option.{option_map};
ghost use Rattle.seek_braces.specs.Expanded.{expansions};

mod item;
mod place;
mod reading;

use crate::item::items_of;
use crate::reading::read;
use std::alloc::{AllocError, Global};

/// The greatest number of texts that a glob may be short for.
pub const MOST: usize = 1024;

/// Returns the texts that a glob is short for, each without the braces that list alternatives. Returns `None` if there
/// are more than [`MOST`].
///
/// `{a,b}` lists alternatives, of which each may be empty, or have such lists of its own. A brace behind a backslash or
/// in a class is itself, and so is one without its partner, and a comma outside of a list. Backslashes stay.
///
/// ```text
/// expansions(alloc, "*.{c,h}")?    // Some(["*.c", "*.h"])
/// ```
pub fn expansions(alloc: Global, text: &str) -> Result<Option<Vec<String>>, AllocError>
    ensures { IfOk result (λ r. option_map (λ texts. map string_bytes texts.items) r ≡ expansions text.now) }
{
    let items = items_of(alloc, text.as_bytes())?;
    match read(alloc, items.as_slice())? {
        Some(reading) => Ok(Some(reading.finish(alloc)?)),
        None => Ok(None),
    }
}
