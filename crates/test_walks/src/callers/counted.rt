//! A file system of one's own.
use jwalk::file_system::{Fault, FileSystem, Listed, Metadata};
use std::alloc::Allocator;
use std::cell::Cell;
use std::io;

/// A file system that returns what another does, and counts how often a directory is listed.
#[derive(Drop)]
pub struct Counted<S: FileSystem> {
    fs: S,
    listings: Cell<usize>,
}

impl<S: FileSystem> Counted<S> {
    /// Returns the same file system, counted from 0.
    pub fn new(fs: S) -> Self {
        Counted {
            fs,
            listings: Cell::new(0),
        }
    }

    /// Returns how often a directory was listed, by the calls that were made so far.
    pub fn listings(&self) -> usize {
        self.listings.get()
    }
}

// begin methods
impl<S: FileSystem> FileSystem for Counted<S> {
    // It is fixed where the other is, and returns at each path what that does.
    ghost IsFixed = { λ s. S.IsFixed s.fs };

    ghost functions = { λ s. S.functions s.fs };

    fn read_dir<A: Allocator + Copy>(
        &self,
        alloc: A,
        path: &str,
    ) -> Result<Vec<io::Result<Listed<A>>, A>, Fault> {
        self.listings.set(self.listings.get().saturating_add(1));
        self.fs.read_dir(alloc, path)
    }

    fn metadata(&self, path: &str) -> Result<Metadata, Fault> {
        self.fs.metadata(path)
    }

    fn symlink_metadata(&self, path: &str) -> Result<Metadata, Fault> {
        self.fs.symlink_metadata(path)
    }

    fn read_link<A: Allocator + Copy>(&self, alloc: A, path: &str) -> Result<String<A>, Fault> {
        self.fs.read_link(alloc, path)
    }
}
// end methods
