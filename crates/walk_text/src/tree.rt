//! A tree from its lines.
ghost use Rattle.std.specs.Prelude.{◌≡◌, ◌≢◌, OnOk, IfOk, IfErr, IsErr};
ghost use Rattle.jwalk_memory_fs.specs.MemoryFs.{tree_of, IsBuilt};
ghost use Rattle.walk_text.specs.TextLines.{text_lines};
ghost use Rattle.walk_text.specs.Built.{added, Adds, Builds, CannotAdd, TellsOf};

use crate::failure::Failure;
use crate::lines::NumberedLines;
use crate::tree_line::{TreeLine, parse_tree_line};
use jwalk_memory_fs::build_error::BuildError;
use jwalk_memory_fs::memory_fs::MemoryFs;
use std::alloc::Allocator;
use std::io::ErrorKind;
use std::str;

fn add<A: Allocator + Copy>(fs: &mut MemoryFs<A>, line: TreeLine<'_>) -> Result<(), BuildError>
    ensures ok { OnOk result (IsBuilt (added line.entry (tree_of fs.old)) (tree_of fs.new)) }
    ensures err { IfErr result (λ e. e ≢ BuildError.Memory → IsErr (added line.entry (tree_of fs.old))) }
{
    match line {
        TreeLine::Dir(path) => fs.add_dir(path),
        TreeLine::File(len, path) => fs.add_file(path, len),
        TreeLine::Link(target, path) => fs.add_link(path, target),
        TreeLine::Deny(path) => fs.deny(path, ErrorKind::PermissionDenied),
    }
}

/// An empty line changes nothing.
fn add_line<A: Allocator + Copy>(
    fs: &mut MemoryFs<A>,
    number: usize,
    line: &[u8],
) -> Result<(), Failure>
    ensures ok { OnOk result (Adds line.now (tree_of fs.old) (tree_of fs.new)) }
    ensures bad { IfErr result (λ failure. failure ≢ Failure.Memory
        → (failure ≡ Failure.BadTree number) × CannotAdd line.now (tree_of fs.old)) }
{
    if line.is_empty() {
        return Ok(());
    }
    let Ok(text) = str::from_utf8(line) else {
        return Err(Failure::BadTree(number));
    };
    let Some(said) = parse_tree_line(text) else {
        return Err(Failure::BadTree(number));
    };
    match add(fs, said) {
        Ok(()) => Ok(()),
        Err(BuildError::Memory) => Err(Failure::Memory),
        Err(_) => Err(Failure::BadTree(number)),
    }
}

/// Builds the tree that the lines describe, one after another. The last may end without a line feed. The first bad line
/// is named by its number, counted from 1; empty lines count.
pub fn build_tree<A: Allocator + Copy>(alloc: A, lines: &[u8]) -> Result<MemoryFs<A>, Failure>
    ensures built { IfOk result (λ fs. Builds (text_lines lines.now) (tree_of fs)) }
    ensures bad { IfErr result (TellsOf (text_lines lines.now)) }
{
    let mut fs = MemoryFs::new(alloc);
    for (number, line) in NumberedLines::new(lines) {
        add_line(&mut fs, number, line)?;
    }
    Ok(fs)
}
