//! The file system that keeps records.
use crate::index::Index;
use crate::records::Record;
use crate::taken;
use jwalk_fs::fault::Fault;
use jwalk_fs::file_system::FileSystem;
use jwalk_fs::listed::Listed;
use jwalk_fs::sink::{Kept, Sink};
use jwalk_model::metadata::{Metadata, Moment};
use std::alloc::{AllocError, Allocator, Global};
use std::io;
use std::sync::{Mutex, Wait};
use std::time::{Clock, SystemTime, UNIX_EPOCH};

/// A file system that returns what another does, and keeps a record of each directory that is listed.
///
/// It lies below all options of a walk: a record has the names of the whole listing, whatever the walk leaves out. Its
/// stamp is that from before the listing. There is none if an item was an error, if it isn't known which directory it
/// is, or if that had changed less than about two seconds before the walk began: a change that comes right after the
/// listing could leave the same time.
///
/// Threads may list side by side: each record is put among the others under a lock.
#[derive(Drop)]
pub struct RecordingFs<S: FileSystem, R: Wait + Drop> {
    fs: S,
    rt: R,
    alloc: Global,
    start: Moment,
    index: Mutex<Index>,
}

impl<S: FileSystem, R: Wait + Drop> RecordingFs<S, R> {
    ghost use Rattle.std.specs.Prelude.{◌≡◌};

    /// Returns the file system, with no record yet. `start` is the time at which the walk begins.
    pub fn new(alloc: Global, rt: R, fs: S, start: Moment) -> Self
        ensures fs { result.fs ≡ fs }
        ensures start { result.start ≡ start }
    {
        RecordingFs {
            fs,
            rt,
            alloc,
            start,
            index: Mutex::new(Index::new(alloc)),
        }
    }

    /// Returns the records of all directories that were listed.
    pub fn into_index(self) -> Index {
        self.index.into_inner()
    }

    fn keep(&self, path: &str, kept: Record) -> Result<(), AllocError> {
        let path = String::from_str(self.alloc, path)?;
        self.index.lock(&self.rt).insert(path, kept)
    }
}

impl<S: FileSystem, R: Wait + Drop> FileSystem for RecordingFs<S, R> {
    ghost IsFixed = { λ s. S.IsFixed s.fs };

    ghost functions = { λ s. S.functions s.fs };

    fn read_dir<A>(&self, alloc: A, path: &str) -> Result<Vec<io::Result<Listed<A>>, A>, Fault>
    where
        A: Allocator + Copy,
    {
        let mut items = Kept::new(alloc);
        self.read_dir_into(alloc, path, &mut items)?;
        Ok(items.items)
    }

    fn read_dir_into<A, K>(&self, alloc: A, path: &str, sink: &mut K) -> Result<(), Fault>
    where
        A: Allocator + Copy,
        K: Sink,
    {
        let kept = taken::list_into(&self.fs, self.start, self.alloc, alloc, path, sink)?;
        self.keep(path, kept)?;
        Ok(())
    }

    fn metadata(&self, path: &str) -> Result<Metadata, Fault> {
        self.fs.metadata(path)
    }

    fn symlink_metadata(&self, path: &str) -> Result<Metadata, Fault> {
        self.fs.symlink_metadata(path)
    }

    fn read_link<A: Allocator + Copy>(&self, alloc: A, path: &str) -> Result<String<A>, Fault> {
        self.fs.read_link(alloc, path)
    }
}

/// Returns the time now, for [`RecordingFs::new`]. A time before 1970 is returned as the beginning of that year, before
/// which no directory has settled.
///
/// # Errors
///
/// If the clock can't be read.
pub fn now<R: Clock>(rt: &R) -> io::Result<Moment> {
    let Ok(since_1970) = SystemTime::now(rt)?.duration_since(UNIX_EPOCH) else {
        return Ok(Moment {
            seconds: 0,
            nanoseconds: 0,
        });
    };
    Ok(Moment {
        seconds: i64::try_from(since_1970.as_secs()).unwrap_or(0),
        nanoseconds: since_1970.subsec_nanos(),
    })
}
