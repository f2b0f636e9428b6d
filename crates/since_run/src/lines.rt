//! The lines of differences, written.
ghost use Rattle.std.specs.Prelude.{◌≡◌, IfOk, OnOk};
ghost use Rattle.std.specs.Io.KnownBytes.{Appends};
ghost use Rattle.since_parts.specs.Json.{json_lines};
ghost use Rattle.since_parts.specs.Line.{lines_of};

use jwalk_changes::{Change, Kept};
use program_parts::gathered::Gathered;
use program_parts::halt::Halt;
use program_parts::paths::Style;
use since_parts::held::Held;
use since_parts::json::push_json_line;
use since_parts::line::push_line;
use std::alloc::{AllocError, Global};
use std::io::Write;

fn lines_of(
    alloc: Global,
    style: Style,
    long: bool,
    changes: &[Change<Held<'_, '_>, &Kept>],
) -> Result<Vec<u8>, AllocError>
    ensures { IfOk result (λ text. text.items ≡ lines_of style long changes.now) }
{
    let mut text = Vec::new(alloc);
    for change in changes {
        push_line(style, long, change, &mut text)?;
    }
    Ok(text)
}

/// Writes the line of each difference, and flushes the output.
pub(crate) fn write_lines<W: Write>(
    alloc: Global,
    style: Style,
    long: bool,
    changes: &[Change<Held<'_, '_>, &Kept>],
    out: &mut W,
) -> Result<(), Halt>
    ensures { OnOk result (Appends (W.contents out.old) (W.contents out.new) (lines_of style long changes.now)) }
{
    let bytes = lines_of(alloc, style, long, changes)?;
    Gathered { bytes }.finish(out)
}

fn json_lines(
    alloc: Global,
    long: bool,
    changes: &[Change<Held<'_, '_>, &Kept>],
) -> Result<Vec<u8>, AllocError>
    ensures { IfOk result (λ text. text.items ≡ json_lines long changes.now) }
{
    let mut text = Vec::new(alloc);
    for change in changes {
        push_json_line(long, change, &mut text)?;
    }
    Ok(text)
}

/// Writes a JSON object for each difference, and flushes the output.
pub(crate) fn write_json<W: Write>(
    alloc: Global,
    long: bool,
    changes: &[Change<Held<'_, '_>, &Kept>],
    out: &mut W,
) -> Result<(), Halt>
    ensures { OnOk result (Appends (W.contents out.old) (W.contents out.new) (json_lines long changes.now)) }
{
    let bytes = json_lines(alloc, long, changes)?;
    Gathered { bytes }.finish(out)
}
