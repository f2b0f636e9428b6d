//! The rows of a snapshot, written.
ghost use Rattle.std.specs.Prelude.{map, OnOk};
ghost use Rattle.std.specs.Io.KnownBytes.{append_known, Appends};
ghost use Rattle.jwalk_snapshot.specs.Text.{folder_of};
ghost use Rattle.since_parts.specs.Row.{rows_in, rows_of};

use jwalk_snapshot::Block;
use program_parts::gathered::Gathered;
use program_parts::halt::Halt;
use program_parts::paths::Style;
use since_parts::row::push_rows;
use std::alloc::Global;
use std::io::Write;

/// Adds the rows of a directory to those that are gathered, which are written once there are enough.
fn gather_rows<W: Write>(
    style: Style,
    block: &Block<'_>,
    gathered: &mut Gathered,
    out: &mut W,
) -> Result<(), Halt>
    ensures { OnOk result (Appends (append_known (W.contents out.old) gathered.old.bytes.items)
        (append_known (W.contents out.new) gathered.new.bytes.items) (rows_in style (folder_of block.now))) }
{
    push_rows(style, block, &mut gathered.bytes)?;
    if gathered.are_due(style.to_terminal) {
        gathered.write(out)?;
    }
    Ok(())
}

/// Writes the rows of directories, and flushes the output.
pub(crate) fn write_rows<W: Write>(
    alloc: Global,
    style: Style,
    blocks: &[Block<'_>],
    out: &mut W,
) -> Result<(), Halt>
    ensures { OnOk result (Appends (W.contents out.old) (W.contents out.new) (rows_of style (map folder_of blocks.now))) }
{
    let mut gathered = Gathered::new(alloc)?;
    for block in blocks {
        gather_rows(style, block, &mut gathered, out)?;
    }
    gathered.finish(out)
}
