//! A file system that tries again where no descriptor was left.
ghost use Rattle.std.specs.Prelude.{◌≡◌};
ghost use Rattle.jwalk_real_fs.specs.Patient as patient;

use jwalk_fs::fault::Fault;
use jwalk_fs::file_system::FileSystem;
use jwalk_fs::listed::Listed;
use jwalk_fs::sink::{Kept, Sink};
use jwalk_model::metadata::Metadata;
use std::alloc::Allocator;
use std::sync::atomic::{AtomicBool, Ordering};
use std::time::{Clock, Duration};
use std::{io, thread};

/// The system's number of an error that the process has as many descriptors as it may have (`EMFILE`).
const NONE_FOR_PROCESS: i32 = 24;

/// The system's number of an error that all processes together have as many as they may have (`ENFILE`).
const NONE_FOR_ALL: i32 = 23;

/// How often one directory is tried again.
const TRIES: usize = 160;

/// How many microseconds a listing sleeps before it tries again: 80 milliseconds in all for one directory.
const PAUSE: u64 = 500;

/// A file system that lists a directory again, after a moment, where no descriptor was left to open it.
///
/// A walk that several threads read opens as many directories at once as there are threads, and so may itself be what
/// leaves no descriptor. Each listing tries again for less than 100 milliseconds. Once a directory has failed even so, the
/// next ones are tried once, until one can be listed again: so descriptors that are used up for good cost that time once.
///
/// It sleeps by a clock, which a runtime is: `Patient::new(RealFs::new(rt.clone()?), rt.clone()?)`. All else is what the
/// file system behind it returns.
#[derive(Drop)]
pub struct Patient<S: FileSystem, R: Clock + Drop> {
    fs: S,
    clock: R,
    /// A directory failed however often it was tried, and none was listed since then.
    has_failed: AtomicBool,
}

fn lacks_descriptor<T>(found: &Result<T, Fault>) -> bool
    ensures { result ≡ patient.lacks_descriptor found.now }
{
    match found {
        Err(Fault::Io(error)) => matches!(
            error.raw_os_error(),
            Some(NONE_FOR_PROCESS | NONE_FOR_ALL)
        ),
        Err(Fault::Memory) | Ok(_) => false,
    }
}

impl<S: FileSystem, R: Clock + Drop> Patient<S, R> {
    ghost use Rattle.jwalk_real_fs.specs.Patient.{behind};

    /// Returns the same file system, which tries again, and sleeps by this clock.
    pub fn new(fs: S, clock: R) -> Self
        ensures { behind result ≡ fs }
    {
        Patient {
            fs,
            clock,
            has_failed: AtomicBool::new(false),
        }
    }

    /// How often a directory is tried again.
    fn tries(&self) -> usize {
        if self.has_failed.load(Ordering::SeqCst) {
            0
        } else {
            TRIES
        }
    }

    /// Notes whether a directory failed however often it was tried.
    fn note(&self, has_failed: bool) {
        if self.has_failed.load(Ordering::SeqCst) != has_failed {
            self.has_failed.store(has_failed, Ordering::SeqCst);
        }
    }
}

impl<S: FileSystem, R: Clock + Drop> FileSystem for Patient<S, R> {
    ghost use Rattle.jwalk_real_fs.specs.Patient.{behind};

    ghost IsFixed = { λ fs. S.IsFixed (behind fs) };

    ghost functions = { λ fs. S.functions (behind fs) };

    ghost read_dir_gives = { λ fs. S.read_dir_gives (behind fs) };

    fn read_dir<A: Allocator + Copy>(
        &self,
        alloc: A,
        path: &str,
    ) -> Result<Vec<io::Result<Listed<A>>, A>, Fault> {
        let mut kept = Kept::new(alloc);
        self.read_dir_into(alloc, path, &mut kept)?;
        Ok(kept.items)
    }

    fn read_dir_into<A: Allocator + Copy, K: Sink>(
        &self,
        alloc: A,
        path: &str,
        sink: &mut K,
    ) -> Result<(), Fault> {
        for _ in 0..self.tries() {
            let found = self.fs.read_dir_into(alloc, path, sink);
            if !lacks_descriptor(&found) {
                self.note(false);
                return found;
            }
            thread::sleep(&self.clock, Duration::from_micros(PAUSE));
        }
        let found = self.fs.read_dir_into(alloc, path, sink);
        self.note(lacks_descriptor(&found));
        found
    }

    fn metadata(&self, path: &str) -> Result<Metadata, Fault> {
        self.fs.metadata(path)
    }

    fn symlink_metadata(&self, path: &str) -> Result<Metadata, Fault> {
        self.fs.symlink_metadata(path)
    }

    fn read_link<A: Allocator + Copy>(&self, alloc: A, path: &str) -> Result<String<A>, Fault> {
        self.fs.read_link(alloc, path)
    }
}
