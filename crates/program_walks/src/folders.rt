//! Which roots a crew reads below.
ghost use Rattle.std.specs.Prelude.{◌≡◌, IfOk};
ghost use Rattle.program_walks.specs.Folders.{found_in, has_folders};

use jwalk::file_system::{Fault, FileSystem, Metadata};
use std::alloc::AllocError;

/// Returns what a path leads to, if that is known.
///
/// # Errors
///
/// If memory runs out.
pub fn look_at<S: FileSystem>(disk: &S, path: &str) -> Result<Option<Metadata>, AllocError>
    ensures { S.IsFixed disk.now → IfOk result (λ found. found ≡ found_in ((S.functions disk.now).meta_of path.now)) }
{
    match disk.metadata(path) {
        Ok(found) => Ok(Some(found)),
        Err(Fault::Io(_)) => Ok(None),
        Err(Fault::Memory) => Err(AllocError),
    }
}

/// Returns whether directories may be in something. A directory without one has two names, where a file system counts them.
/// Where links are followed, one may lead to a directory.
pub fn has_folders(found: Option<Metadata>, follow: bool) -> bool
    ensures { result ≡ has_folders follow found }
{
    let Some(found) = found else {
        return false;
    };
    found.is_dir() && (follow || !matches!(found.details(), Some(details) if details.links == 2))
}
