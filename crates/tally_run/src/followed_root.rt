//! A disk on which a root that is a link is what it leads to.
ghost use Rattle.jwalk.specs.jwalk_fs.Views.{AnswersValue};
ghost use Rattle.tally_run.specs.FollowedRoot.{target_or_own};

use jwalk::file_system::{Fault, FileSystem, Listed, Metadata, Sink};
use std::alloc::Allocator;
use std::io;
use std::sync::Arc;

/// A disk on which the root of a walk is what it leads to, if that is known.
#[derive(Drop)]
pub(crate) struct FollowedRoot<S> {
    pub(crate) disk: Arc<S>,
    pub(crate) root: String,
}

fn target_or_own<S: FileSystem>(disk: &S, path: &str) -> Result<Metadata, Fault>
    ensures { S.IsFixed disk.now → AnswersValue (λ m. m) result
        (target_or_own ((S.functions disk.now).meta_of path.now) ((S.functions disk.now).link_meta_of path.now)) }
{
    match disk.metadata(path) {
        Err(Fault::Io(_)) => disk.symlink_metadata(path),
        found => found,
    }
}

impl<S: FileSystem> FileSystem for FollowedRoot<S> {
    ghost use Rattle.std.specs.Prelude.{string_bytes};
    ghost use Rattle.std.specs.Arc.{arc_value};
    ghost use Rattle.tally_run.specs.FollowedRoot.{functions_from};

    ghost IsFixed = { λ it. S.IsFixed (arc_value it.disk) };

    ghost functions = { λ it. functions_from (string_bytes it.root) (S.functions (arc_value it.disk)) };

    fn read_dir<A: Allocator + Copy>(
        &self,
        alloc: A,
        path: &str,
    ) -> Result<Vec<io::Result<Listed<A>>, A>, Fault> {
        self.disk.read_dir(alloc, path)
    }

    fn read_dir_into<A: Allocator + Copy, K: Sink>(
        &self,
        alloc: A,
        path: &str,
        sink: &mut K,
    ) -> Result<(), Fault> {
        self.disk.read_dir_into(alloc, path, sink)
    }

    fn metadata(&self, path: &str) -> Result<Metadata, Fault> {
        self.disk.metadata(path)
    }

    fn symlink_metadata(&self, path: &str) -> Result<Metadata, Fault> {
        if path == self.root.as_str() {
            return target_or_own(&self.disk, path);
        }
        self.disk.symlink_metadata(path)
    }

    fn read_link<A: Allocator + Copy>(&self, alloc: A, path: &str) -> Result<String<A>, Fault> {
        self.disk.read_link(alloc, path)
    }
}
