//! A tree in memory that counts its calls, and that may fail at a path.
ghost use Rattle.jwalk_model.specs.Tree.{functions_of, only_root};

use jwalk_fs::fault::Fault;
use jwalk_fs::file_system::FileSystem;
use jwalk_fs::listed::Listed;
use jwalk_memory_fs::memory_fs::MemoryFs;
use jwalk_model::metadata::Metadata;
use std::alloc::Allocator;
use std::io;
use std::io::ErrorKind;
use std::sync::atomic::{AtomicUsize, Ordering};

/// The path at which a tree fails, and how it fails.
#[derive(Clone, Copy)]
pub enum Failing {
    Never,
    /// A listing fails with an error of this kind.
    List(&'static str, ErrorKind),
    /// Memory runs out for a listing.
    ListForMemory(&'static str),
    /// Memory runs out for metadata.
    MetadataForMemory(&'static str),
}

/// The number of calls to a tree.
#[derive(Clone, Copy, PartialEq, Eq)]
pub struct Calls {
    /// The calls for a listing.
    pub lists: usize,
    /// The calls for a path itself.
    pub looks: usize,
    /// The calls for the target of a path, or for the text of a link.
    pub follows: usize,
}

/// The tree, with the counts of its calls.
#[derive(Drop)]
pub struct Watched {
    fs: MemoryFs,
    failing: Failing,
    lists: AtomicUsize,
    looks: AtomicUsize,
    follows: AtomicUsize,
}

impl Watched {
    /// Returns a tree without a call yet.
    pub fn new(fs: MemoryFs, failing: Failing) -> Self {
        Watched {
            fs,
            failing,
            lists: AtomicUsize::new(0),
            looks: AtomicUsize::new(0),
            follows: AtomicUsize::new(0),
        }
    }

    /// Returns how often a listing was asked for.
    pub fn lists(&self) -> usize {
        self.lists.load(Ordering::SeqCst)
    }

    /// Returns the counts of the calls.
    pub fn calls(&self) -> Calls {
        Calls {
            lists: self.lists.load(Ordering::SeqCst),
            looks: self.looks.load(Ordering::SeqCst),
            follows: self.follows.load(Ordering::SeqCst),
        }
    }

    fn list_fault(&self, path: &str) -> Option<Fault> {
        match self.failing {
            Failing::List(at, kind) if at == path => Some(Fault::Io(io::Error::from(kind))),
            Failing::ListForMemory(at) if at == path => Some(Fault::Memory),
            _ => None,
        }
    }
}

impl FileSystem for Watched {
    ghost IsFixed = { λ _. ⊥ };

    ghost functions = { λ _. functions_of only_root };

    fn read_dir<A: Allocator + Copy>(
        &self,
        alloc: A,
        path: &str,
    ) -> Result<Vec<io::Result<Listed<A>>, A>, Fault> {
        self.lists.fetch_add(1, Ordering::SeqCst);
        match self.list_fault(path) {
            Some(fault) => Err(fault),
            None => self.fs.read_dir(alloc, path),
        }
    }

    fn metadata(&self, path: &str) -> Result<Metadata, Fault> {
        self.follows.fetch_add(1, Ordering::SeqCst);
        self.fs.metadata(path)
    }

    fn symlink_metadata(&self, path: &str) -> Result<Metadata, Fault> {
        self.looks.fetch_add(1, Ordering::SeqCst);
        match self.failing {
            Failing::MetadataForMemory(at) if at == path => Err(Fault::Memory),
            _ => self.fs.symlink_metadata(path),
        }
    }

    fn read_link<A: Allocator + Copy>(&self, alloc: A, path: &str) -> Result<String<A>, Fault> {
        self.follows.fetch_add(1, Ordering::SeqCst);
        self.fs.read_link(alloc, path)
    }
}
