//! A tree in memory each of whose calls passes a gate first.
ghost use Rattle.jwalk.specs.jwalk_model.Tree.{functions_of, only_root};

use jwalk::file_system::{Fault, FileSystem, Listed, MemoryFs, Metadata};
use std::alloc::Allocator;
use std::io;

/// What comes before each call to a tree, which may make the call fail.
pub trait Gate {
    /// Comes before the directory of a path is listed, and, without a path, before each other call.
    fn before(&self, listed: Option<&str>) -> Result<(), Fault>;
}

/// A tree behind a gate.
#[derive(Drop)]
pub struct Gated<G: Drop> {
    pub fs: MemoryFs,
    pub gate: G,
}

impl<G: Gate + Drop> FileSystem for Gated<G> {
    ghost IsFixed = { λ _. ⊥ };

    ghost functions = { λ _. functions_of only_root };

    fn read_dir<A: Allocator + Copy>(
        &self,
        alloc: A,
        path: &str,
    ) -> Result<Vec<io::Result<Listed<A>>, A>, Fault> {
        self.gate.before(Some(path))?;
        self.fs.read_dir(alloc, path)
    }

    fn metadata(&self, path: &str) -> Result<Metadata, Fault> {
        self.gate.before(None)?;
        self.fs.metadata(path)
    }

    fn symlink_metadata(&self, path: &str) -> Result<Metadata, Fault> {
        self.gate.before(None)?;
        self.fs.symlink_metadata(path)
    }

    fn read_link<A: Allocator + Copy>(&self, alloc: A, path: &str) -> Result<String<A>, Fault> {
        self.gate.before(None)?;
        self.fs.read_link(alloc, path)
    }
}
