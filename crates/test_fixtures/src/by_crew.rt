//! Walks that a crew reads for.
ghost use Rattle.jwalk.specs.WalkDir.{callback_of};

use crate::answers::Answer;
use crate::host::Host;
use crate::ways::all_of;
use jwalk::file_system::FileSystem;
use jwalk::read_dir::ProcessReadDir;
use jwalk::{ClientState, Crew, WalkDirGeneric};
use std::alloc::{AllocError, Global};

/// Returns all that a walk yields, for which a crew may read.
pub fn all_by_crew<
    R: Host,
    C: ClientState + Send + 'static,
    S: FileSystem + Send + Sync + 'static,
    P: ProcessReadDir<C, Global> + Send + Sync + 'static,
>(
    alloc: Global,
    walk: WalkDirGeneric<C, S, P, Global, Crew<R>>,
) -> Result<Vec<Answer<C>>, AllocError>
where
    C::ReadDirState: Send + 'static,
    C::DirEntryState: Send + 'static,
    requires { P.IsLawful (callback_of walk) }
{
    all_of(alloc, walk.into_iter())
}
