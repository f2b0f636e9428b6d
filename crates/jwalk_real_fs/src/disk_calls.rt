//! The calls of a disk that a walk makes.
ghost use Rattle.std.specs.Prelude.{ℕ, List, Result};
ghost use Rattle.std.specs.declared.fs.attrs.Metadata as found;
ghost use Rattle.std.specs.declared.io.Error.{Error};
ghost use Rattle.jwalk_real_fs.specs.DiskCalls.{link_text};

use std::alloc::Allocator;
use std::fs;
use std::io::{self, Read};
use std::path::PathBuf;
use std::rt::Files;

/// The calls of a disk that a walk makes, those of `std::rt::Files`. Every runtime with files has them.
///
/// The ghost members say what a call at a path returned. Contracts of `RealFs` name them, and so say which calls make up
/// an answer, and at which paths. That holds of any disk. A runtime says nothing of what its calls return.
pub trait DiskCalls: Drop {
    /// An open directory. It is read as its names, each ended by a NUL, and no read ends inside a name.
    type Dir: Read + Drop;

    /// Opening the directory at this path returned this.
    ghost open_dir_gives: { Self → List ℕ → Result Self.Dir Error → Type 0 } = { λ _ _ _. Unit {0} };

    /// `metadata` of this path returned this.
    ghost metadata_gives: { Self → List ℕ → Result found.Metadata Error → Type 0 } = { λ _ _ _. Unit {0} };

    /// `symlink_metadata` of this path returned this.
    ghost symlink_metadata_gives: { Self → List ℕ → Result found.Metadata Error → Type 0 } = { λ _ _ _. Unit {0} };

    /// Reading the link at this path returned this text.
    ghost read_link_gives: { Self → List ℕ → Result (List ℕ) Error → Type 0 } = { λ _ _ _. Unit {0} };

    /// Opens a directory.
    ///
    /// # Errors
    ///
    /// Those of the system.
    fn open_dir(&self, path: &str) -> io::Result<Self::Dir>
        ensures { open_dir_gives self.now path.now result };

    /// Returns what is known of what a path leads to, all links followed (`std::fs::metadata`).
    ///
    /// # Errors
    ///
    /// Those of the system.
    fn metadata(&self, path: &str) -> io::Result<fs::Metadata>
        ensures { metadata_gives self.now path.now result };

    /// Returns the same without following the last component (`std::fs::symlink_metadata`).
    ///
    /// # Errors
    ///
    /// Those of the system.
    fn symlink_metadata(&self, path: &str) -> io::Result<fs::Metadata>
        ensures { symlink_metadata_gives self.now path.now result };

    /// Returns the target of a symbolic link (`std::fs::read_link`).
    ///
    /// # Errors
    ///
    /// Those of the system, and that memory ran out.
    fn read_link<A: Allocator>(&self, alloc: A, path: &str) -> io::Result<PathBuf<A>>
        ensures { read_link_gives self.now path.now (link_text result) };
}

impl<R: Files + Drop> DiskCalls for R {
    type Dir = R::Dir;

    fn open_dir(&self, path: &str) -> io::Result<R::Dir> {
        Files::open_dir(self, path)
    }

    fn metadata(&self, path: &str) -> io::Result<fs::Metadata> {
        Files::metadata(self, path)
    }

    fn symlink_metadata(&self, path: &str) -> io::Result<fs::Metadata> {
        Files::symlink_metadata(self, path)
    }

    fn read_link<A: Allocator>(&self, alloc: A, path: &str) -> io::Result<PathBuf<A>> {
        Files::read_link(self, alloc, path)
    }
}
