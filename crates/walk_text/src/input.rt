//! The tree that standard input describes.
ghost use Rattle.std.specs.Prelude.{◌≡◌, ◌⊎◌, IfOk, IfErr, IfSome};
ghost use Rattle.jwalk_memory_fs.specs.MemoryFs.{tree_of};
ghost use Rattle.walk_text.specs.TextLines.{text_lines};
ghost use Rattle.walk_text.specs.Built.{Builds, TellsOfInput};

use crate::failure::Failure;
use crate::tree::build_tree;
use jwalk_memory_fs::memory_fs::MemoryFs;
use std::alloc::Allocator;
use std::io::{ErrorKind, Read};

fn read_whole<A: Allocator + Copy, R: Read>(alloc: A, input: &mut R) -> Result<Vec<u8, A>, Failure>
    ensures ok { IfOk result (λ read. IfSome (R.remaining input.old) (λ bytes. read.items ≡ bytes)) }
    ensures err { IfErr result (λ failure. (failure ≡ Failure.Memory) ⊎ (failure ≡ Failure.BadTree 0)) }
{
    let mut bytes = Vec::new(alloc);
    match input.read_to_end(&mut bytes) {
        Ok(_) => Ok(bytes),
        Err(err) if err.kind() == ErrorKind::OutOfMemory => Err(Failure::Memory),
        Err(_) => Err(Failure::BadTree(0)),
    }
}

/// Reads the input whole, and then builds the tree that its lines describe. The first bad line is named; its number is
/// 0 if the input can't be read.
pub fn read_tree<A: Allocator + Copy, R: Read>(
    alloc: A,
    input: &mut R,
) -> Result<MemoryFs<A>, Failure>
    ensures built { IfOk result (λ fs. IfSome (R.remaining input.old)
        (λ bytes. Builds (text_lines bytes) (tree_of fs))) }
    ensures bad { IfErr result (TellsOfInput (R.remaining input.old)) }
{
    let bytes = read_whole(alloc, input)?;
    build_tree(alloc, bytes.as_slice())
}
