//! The file system as the standard library's calls show it.
ghost use Rattle.std.specs.Prelude.{◌≡◌, List, map, IfErr, IfOk, OnOk};
ghost use Rattle.jwalk_model.specs.FileSystem as value;
ghost use Rattle.jwalk_fs.specs.Views.{listed, IfIo, TakesAll};

use crate::disk_calls::DiskCalls;
use crate::{listing, seen};
use jwalk_fs::fault::Fault;
use jwalk_fs::file_system::FileSystem;
use jwalk_fs::listed::Listed;
use jwalk_fs::sink::{Kept, Sink};
use jwalk_model::metadata::Metadata;
use std::alloc::Allocator;
use std::io;
use std::rt::HostRuntime;

/// The file system that a runtime reaches: the disk, if the runtime is the host's. It is made with the runtime that
/// `main` is given, or with a `&` of it.
///
/// It returns what is there at the time of the call, and nothing is promised of that.
#[derive(Drop)]
pub struct RealFs<R = HostRuntime> {
    rt: R,
}

impl<R: Drop> RealFs<R> {
    ghost use Rattle.jwalk_real_fs.specs.RealFs.{runtime_of};

    /// Returns the file system that this runtime reaches. It makes no call yet.
    pub fn new(rt: R) -> Self
        ensures { runtime_of result ≡ rt }
    {
        RealFs { rt }
    }
}

impl<R: DiskCalls> FileSystem for RealFs<R> {
    ghost use Rattle.jwalk_model.specs.Tree.{functions_of, only_root};
    ghost use Rattle.jwalk_real_fs.specs.Listing.{IsListing, IsUnopened};
    ghost use Rattle.jwalk_real_fs.specs.RealFs.{runtime_of};
    ghost use Rattle.jwalk_real_fs.specs.Seen.{IsGiven, IsTarget};

    ghost IsFixed = { λ _. ⊥ };

    ghost functions = { λ _. functions_of only_root };

    ghost read_dir_gives = { λ fs. IsListing R.DiskCalls (runtime_of fs) R.Dir.remaining };

    fn read_dir<A: Allocator + Copy>(
        &self,
        alloc: A,
        path: &str,
    ) -> Result<Vec<io::Result<Listed<A>>, A>, Fault>
        ensures gives { IfOk result (λ v. IsListing R.DiskCalls (runtime_of self.now) R.Dir.remaining path.now
            (map listed v.items)) }
        ensures unopened { IfErr result (λ fault. IfIo fault
            (IsUnopened R.DiskCalls (runtime_of self.now) path.now fault)) }
    {
        let mut kept = Kept::new(alloc);
        self.read_dir_into(alloc, path, &mut kept)?;
        Ok(kept.items)
    }

    fn read_dir_into<A: Allocator + Copy, K: Sink>(
        &self,
        alloc: A,
        path: &str,
        sink: &mut K,
    ) -> Result<(), Fault>
        ensures taken { OnOk result ((items : List value.Listed) × TakesAll K.Took items sink.old sink.new
            × IsListing R.DiskCalls (runtime_of self.now) R.Dir.remaining path.now items) }
        ensures unopened { IfErr result (λ fault. IfIo fault
            (IsUnopened R.DiskCalls (runtime_of self.now) path.now fault)) }
        ensures unchanged { IfErr result (λ fault. IfIo fault (sink.new ≡ sink.old)) }
    {
        listing::read_dir_into(&self.rt, alloc, path, sink)
    }

    fn metadata(&self, path: &str) -> Result<Metadata, Fault>
        ensures { IsGiven (R.metadata_gives (runtime_of self.now) path.now) result }
    {
        seen::metadata(self.rt.metadata(path))
    }

    fn symlink_metadata(&self, path: &str) -> Result<Metadata, Fault>
        ensures { IsGiven (R.symlink_metadata_gives (runtime_of self.now) path.now) result }
    {
        seen::metadata(self.rt.symlink_metadata(path))
    }

    fn read_link<A: Allocator + Copy>(&self, alloc: A, path: &str) -> Result<String<A>, Fault>
        ensures { IsTarget (R.read_link_gives (runtime_of self.now) path.now) result }
    {
        match self.rt.read_link(alloc, path) {
            Ok(target) => Ok(target.into_string()),
            Err(error) => Err(seen::fault(error)),
        }
    }
}
