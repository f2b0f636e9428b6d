//! What a walk reads from.
ghost use Rattle.std.specs.Prelude.{◌≡◌, true, IfOk, IfErr};
ghost use Rattle.walk_text.specs.Built.{TellsOfInput};
ghost use Rattle.walk_run.specs.Source.{GoesOver};

use jwalk::file_system::{Fault, FileSystem, Listed, MemoryFs, Metadata, Sink};
use std::alloc::Allocator;
use std::io;
use std::io::Read;
use walk_text::failure::Failure;
use walk_text::input::read_tree;

/// The disk, or a tree that standard input describes. Both are walked by the same code.
#[derive(Drop)]
pub enum Source<S: FileSystem, A: Allocator + Copy> {
    Disk(S),
    Tree(MemoryFs<A>),
}

impl<S: FileSystem, A: Allocator + Copy> FileSystem for Source<S, A> {
    ghost use Rattle.walk_run.specs.Source.{IsFixedSource, source_functions};

    ghost IsFixed = { λ source. IsFixedSource S.IsFixed source };

    ghost functions = { λ source. source_functions S.functions source };

    fn read_dir<B: Allocator + Copy>(
        &self,
        alloc: B,
        path: &str,
    ) -> Result<Vec<io::Result<Listed<B>>, B>, Fault> {
        match self {
            Source::Disk(disk) => disk.read_dir(alloc, path),
            Source::Tree(tree) => tree.read_dir(alloc, path),
        }
    }

    fn read_dir_into<B: Allocator + Copy, K: Sink>(
        &self,
        alloc: B,
        path: &str,
        sink: &mut K,
    ) -> Result<(), Fault> {
        match self {
            Source::Disk(disk) => disk.read_dir_into(alloc, path, sink),
            Source::Tree(tree) => tree.read_dir_into(alloc, path, sink),
        }
    }

    fn metadata(&self, path: &str) -> Result<Metadata, Fault> {
        match self {
            Source::Disk(disk) => disk.metadata(path),
            Source::Tree(tree) => tree.metadata(path),
        }
    }

    fn symlink_metadata(&self, path: &str) -> Result<Metadata, Fault> {
        match self {
            Source::Disk(disk) => disk.symlink_metadata(path),
            Source::Tree(tree) => tree.symlink_metadata(path),
        }
    }

    fn read_link<B: Allocator + Copy>(&self, alloc: B, path: &str) -> Result<String<B>, Fault> {
        match self {
            Source::Disk(disk) => disk.read_link(alloc, path),
            Source::Tree(tree) => tree.read_link(alloc, path),
        }
    }
}

/// Returns what a walk goes over: the tree that the input describes, if one is asked for, and the disk otherwise. The
/// input isn't read then.
pub fn source_of<S: FileSystem, A: Allocator + Copy, R: Read>(
    alloc: A,
    disk: S,
    tree: bool,
    input: &mut R,
) -> Result<Source<S, A>, Failure>
    ensures over { IfOk result (GoesOver tree disk (R.remaining input.old)) }
    ensures told { IfErr result (λ failure. (tree ≡ true) × TellsOfInput (R.remaining input.old) failure) }
    ensures unread { ¬ (tree ≡ true) → input.new ≡ input.old }
{
    if tree {
        return Ok(Source::Tree(read_tree(alloc, input)?));
    }
    Ok(Source::Disk(disk))
}
