//! Two directories where two threads wait for each other.
ghost use Rattle.jwalk_model.specs.Tree.{functions_of, only_root};

use crate::listed_directory::{Item, ListedDirectory};
use jwalk_fs::fault::Fault;
use jwalk_fs::file_system::FileSystem;
use jwalk_fs::listed::Listed;
use jwalk_model::file_type::FileType;
use jwalk_model::metadata::Metadata;
use std::alloc::Allocator;
use std::io::ErrorKind;
use std::sync::atomic::{AtomicBool, Ordering};
use std::time::{Clock, Duration};
use std::{io, thread};

const BOTH: ListedDirectory<'static> = ListedDirectory {
    path: "/r",
    file_type: FileType::Dir,
    target: Some(FileType::Dir),
    items: &[
        Item::Typed("a", FileType::Dir),
        Item::Typed("b", FileType::Dir),
    ],
};

/// Each of the two is a directory of one file.
const ONE_FILE: ListedDirectory<'static> = ListedDirectory {
    path: "/r/a",
    file_type: FileType::Dir,
    target: Some(FileType::Dir),
    items: &[Item::Typed("f", FileType::File)],
};

/// The calls at which the two threads wait for each other.
#[derive(Clone, Copy, PartialEq, Eq)]
pub enum Place {
    /// The listings of the two directories.
    Listings,
    /// The looks at the two files.
    Looks,
}

/// The directory `/r` of the directories `a` and `b`, each with a file `f`, of 3 and of 4 bytes. A call for one of them
/// blocks until the call for the other has come, too, and fails after too long a wait.
#[derive(Drop)]
pub struct Meeting<R> {
    clock: R,
    place: Place,
    /// The milliseconds that one call waits for the other, at most.
    patience: u64,
    a: AtomicBool,
    b: AtomicBool,
}

impl<R: Clock> Meeting<R> {
    /// Returns the directory, without a call yet.
    pub fn new(clock: R, place: Place, patience: u64) -> Self {
        Meeting {
            clock,
            place,
            patience,
            a: AtomicBool::new(false),
            b: AtomicBool::new(false),
        }
    }

    /// Blocks until the other call has come, too.
    fn wait(&self, own: &AtomicBool, other: &AtomicBool) -> Result<(), Fault> {
        own.store(true, Ordering::SeqCst);
        for _ in 0..self.patience {
            if other.load(Ordering::SeqCst) {
                return Ok(());
            }
            thread::sleep(&self.clock, Duration::from_millis(1));
        }
        Err(Fault::Io(io::Error::from(ErrorKind::Other)))
    }

    /// Waits if this is the place, and the path is one of the two.
    fn meet(&self, place: Place, path: &str, a: &str, b: &str) -> Result<(), Fault> {
        if place == self.place && path == a {
            self.wait(&self.a, &self.b)
        } else if place == self.place && path == b {
            self.wait(&self.b, &self.a)
        } else {
            Ok(())
        }
    }
}

impl<R: Clock + Drop> FileSystem for Meeting<R> {
    ghost IsFixed = { λ _. ⊥ };

    ghost functions = { λ _. functions_of only_root };

    fn read_dir<A: Allocator + Copy>(
        &self,
        alloc: A,
        path: &str,
    ) -> Result<Vec<io::Result<Listed<A>>, A>, Fault> {
        self.meet(Place::Listings, path, "/r/a", "/r/b")?;
        match path {
            "/r" => BOTH.read_dir(alloc, path),
            _ => ONE_FILE.read_dir(alloc, ONE_FILE.path),
        }
    }

    fn metadata(&self, path: &str) -> Result<Metadata, Fault> {
        self.symlink_metadata(path)
    }

    fn symlink_metadata(&self, path: &str) -> Result<Metadata, Fault> {
        self.meet(Place::Looks, path, "/r/a/f", "/r/b/f")?;
        match path {
            "/r/a/f" => Ok(Metadata::new(FileType::File, 3)),
            "/r/b/f" => Ok(Metadata::new(FileType::File, 4)),
            _ => Ok(Metadata::new(FileType::Dir, 0)),
        }
    }

    fn read_link<A: Allocator + Copy>(&self, _alloc: A, _path: &str) -> Result<String<A>, Fault> {
        Err(Fault::Io(io::Error::from(ErrorKind::InvalidInput)))
    }
}
