//! A disk on which a link that leads nowhere is its own target.
ghost use Rattle.std.specs.Prelude.{◌≡◌};
ghost use Rattle.std.specs.IoError.{error_kind};
ghost use Rattle.jwalk.specs.jwalk_fs.Views.{AnswersValue};
ghost use Rattle.seek_search.specs.KeptLinks.{is_missing, link_alone};

use jwalk::file_system::{Fault, FileSystem, Listed, Metadata, Sink};
use std::alloc::Allocator;
use std::io;
use std::io::ErrorKind;

/// A disk on which a link that leads nowhere is its own target in place of an error, if links are followed.
#[derive(Drop)]
pub(crate) struct KeptLinks<S> {
    pub(crate) disk: S,
    pub(crate) follow: bool,
}

fn is_missing(error: &io::Error) -> bool
    ensures { result ≡ is_missing (error_kind error.now) }
{
    matches!(error.kind(), ErrorKind::NotFound | ErrorKind::NotADirectory)
}

/// The error is that of the path's target.
fn link_alone<S: FileSystem>(disk: &S, path: &str, error: io::Error) -> Result<Metadata, Fault>
    ensures { S.IsFixed disk.now → AnswersValue (λ m. m) result
        (link_alone (error_kind error) ((S.functions disk.now).link_meta_of path.now)) }
{
    match disk.symlink_metadata(path) {
        Ok(link) if link.file_type().is_symlink() => Ok(link),
        Err(Fault::Memory) => Err(Fault::Memory),
        _ => Err(Fault::Io(error)),
    }
}

impl<S: FileSystem> FileSystem for KeptLinks<S> {
    ghost use Rattle.seek_search.specs.KeptLinks.{functions_kept};

    ghost IsFixed = { λ it. S.IsFixed it.disk };

    ghost functions = { λ it. functions_kept it.follow (S.functions it.disk) };

    fn read_dir<A: Allocator + Copy>(
        &self,
        alloc: A,
        path: &str,
    ) -> Result<Vec<io::Result<Listed<A>>, A>, Fault> {
        self.disk.read_dir(alloc, path)
    }

    fn read_dir_into<A: Allocator + Copy, K: Sink>(
        &self,
        alloc: A,
        path: &str,
        sink: &mut K,
    ) -> Result<(), Fault> {
        self.disk.read_dir_into(alloc, path, sink)
    }

    fn metadata(&self, path: &str) -> Result<Metadata, Fault> {
        match self.disk.metadata(path) {
            Err(Fault::Io(error)) if self.follow && is_missing(&error) => {
                link_alone(&self.disk, path, error)
            }
            found => found,
        }
    }

    fn symlink_metadata(&self, path: &str) -> Result<Metadata, Fault> {
        self.disk.symlink_metadata(path)
    }

    fn read_link<A: Allocator + Copy>(&self, alloc: A, path: &str) -> Result<String<A>, Fault> {
        self.disk.read_link(alloc, path)
    }
}
