//! Lines of a size and a path.
ghost use Rattle.std.specs.Prelude.{◌≡◌, ◌++◌, OnOk};
ghost use Rattle.tally_text.specs.Line.{line_of};

use crate::scale::Scale;
use program_parts::paths::Style;
use std::alloc::{AllocError, Global};

/// Appends the line of a size and of the path of a name in a folder to `out`.
///
/// # Errors
///
/// If memory runs out.
pub fn push_line(
    scale: Scale,
    style: Style,
    bytes: u128,
    folder: &str,
    name: &str,
    out: &mut Vec<u8, Global>,
) -> Result<(), AllocError>
    ensures { OnOk result (out.new.items ≡ out.old.items ++ line_of scale style bytes folder.now name.now) }
{
    scale.push(bytes, out)?;
    out.push(b'\t')?;
    style.write(folder, name, out)
}
