//! The text of help, as it is printed.
ghost use Rattle.std.specs.Prelude.{◌≡◌, IfOk};
ghost use Rattle.program_parts.specs.Help.{help_text};

mod broken;
mod undotted;

use crate::help::broken::broken;
use crate::help::undotted::undotted;
use std::alloc::{AllocError, Global};

/// Returns the text of help as it is printed, of the text that the parser of words has. Options that take no value have
/// no dots behind them. If a width is known, lines are broken at spaces in what is said of an option, so that each has at
/// most this width, or a single word.
///
/// # Errors
///
/// If memory runs out.
pub fn help_text(alloc: Global, width: Option<usize>, text: &str) -> Result<Vec<u8>, AllocError>
    ensures { IfOk result (λ shown. shown.items ≡ help_text width text.now) }
{
    let shown = undotted(alloc, text.as_bytes())?;
    match width {
        Some(width) => broken(alloc, width, shown.as_slice()),
        None => Ok(shown),
    }
}
