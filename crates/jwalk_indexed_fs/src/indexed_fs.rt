//! The file system that lists from records.
ghost use Rattle.std.specs.Prelude.{◌≡◌, IfOk, IfErr, MatchOption, map};
ghost use Rattle.jwalk_fs.specs.Views.{listed};
ghost use Rattle.jwalk_indexed_fs.specs.Index.{IsCurrent, Vouches};
ghost use Rattle.jwalk_indexed_fs.specs.Listing.{typed_functions};

use crate::index::Index;
use crate::records::Record;
use crate::typed;
use jwalk_fs::fault::Fault;
use jwalk_fs::file_system::FileSystem;
use jwalk_fs::listed::Listed;
use jwalk_fs::sink::{Kept, Sink};
use jwalk_model::metadata::Metadata;
use std::alloc::Allocator;
use std::io;

/// A file system that lists a directory from its record while the directory's stamp is that of the record, and else as
/// another file system does. All else it asks of that one.
///
/// Its listings say types alone, in the order of the bytes of names, and then the errors, whichever way they come. What
/// it lists is right if the records vouch for what the directories hold, as [`records_vouch`](crate::laws) says. What is
/// listed at the path of a link never comes from a record.
#[derive(Drop)]
pub struct IndexedFs<S: FileSystem> {
    fs: S,
    index: Index,
}

impl<S: FileSystem> IndexedFs<S> {
    /// Returns the file system that lists from these records, and else as `fs` does.
    pub fn new(fs: S, index: Index) -> Self
        ensures fs { result.fs ≡ fs }
        ensures index { result.index ≡ index }
    {
        IndexedFs { fs, index }
    }

    /// Returns what is kept of a directory, if its stamp is the same.
    fn current(&self, path: &str) -> Result<Option<&Record>, Fault>
        ensures memory { IfErr result (λ fault. fault ≡ Fault.Memory) }
        ensures current { S.IsFixed self.now.fs → IfOk result (λ found. MatchOption found (Unit {0})
            (λ kept. IsCurrent (S.functions self.now.fs) self.now.index path.now kept.now)) }
    {
        let Some(kept) = self.index.get(path) else {
            return Ok(None);
        };
        match self.fs.symlink_metadata(path) {
            Ok(found) if kept.has_stamp_of(&found) => Ok(Some(kept)),
            Ok(_) => Ok(None),
            Err(Fault::Memory) => Err(Fault::Memory),
            Err(Fault::Io(_)) => Ok(None),
        }
    }
}

impl<S: FileSystem> FileSystem for IndexedFs<S> {
    ghost IsFixed = { λ s. S.IsFixed s.fs × Vouches (S.functions s.fs) s.index };

    ghost functions = { λ s. typed_functions (S.functions s.fs) };

    fn read_dir<A>(&self, alloc: A, path: &str) -> Result<Vec<io::Result<Listed<A>>, A>, Fault>
    where
        A: Allocator + Copy,
    {
        let mut items = Kept::new(alloc);
        self.read_dir_into(alloc, path, &mut items)?;
        Ok(items.items)
    }

    fn read_dir_into<A, K>(&self, alloc: A, path: &str, sink: &mut K) -> Result<(), Fault>
    where
        A: Allocator + Copy,
        K: Sink,
    {
        match self.current(path)? {
            Some(kept) => {
                kept.list_into(sink)?;
                Ok(())
            }
            None => typed::list_into(&self.fs, alloc, path, sink),
        }
    }

    fn metadata(&self, path: &str) -> Result<Metadata, Fault> {
        self.fs.metadata(path)
    }

    fn symlink_metadata(&self, path: &str) -> Result<Metadata, Fault> {
        self.fs.symlink_metadata(path)
    }

    fn read_link<A: Allocator + Copy>(&self, alloc: A, path: &str) -> Result<String<A>, Fault> {
        self.fs.read_link(alloc, path)
    }
}
