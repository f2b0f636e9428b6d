//! A whole walk at once.
ghost use Rattle.std.specs.Prelude.{◌≡◌, IfOk};
ghost use Rattle.jwalk.specs.jwalk_model.Walk.{stateless_walk, whole_walk};
ghost use Rattle.jwalk.specs.jwalk_job.Given.{counted_list};
ghost use Rattle.jwalk.specs.jwalk_job.Job.{IsSteady};
ghost use Rattle.jwalk.specs.WalkDir.{file_system_of, callback_of, root_of, state_of, options_of, job_for, stateless};
ghost use Rattle.jwalk.specs.DirEntryIter.{NoneRefused};

use jwalk::error::Result as Answer;
use jwalk::file_system::FileSystem;
use jwalk::read_dir::{NoProcess, ProcessReadDir};
use jwalk::{ClientState, DirEntry, WalkDirGeneric};
use std::alloc::{AllocError, Allocator};

/// Returns all that a walk yields, with its states as they count. It is the whole walk of the definition, unless one of
/// the answers reports that memory ran out. This holds if the file system always answers the same, the callback makes
/// what is given, and clones and defaults of states count so.
///
/// # Errors
///
/// If memory runs out for the list.
pub(crate) fn walk_given<
    C: ClientState,
    S: FileSystem,
    P: ProcessReadDir<C, A>,
    A: Allocator + Copy,
>(
    alloc: A,
    walk: WalkDirGeneric<C, S, P, A>,
) -> Result<Vec<Answer<DirEntry<C, A>, A>, A>, AllocError>
    requires { P.IsLawful (callback_of walk) }
    ensures { IfOk result (λ found. (given : _) → IsSteady S.FileSystem P.ProcessReadDir
        C.ReadDirState.Clone C.DirEntryState.Default (file_system_of walk) (callback_of walk) given
        → NoneRefused found.items → counted_list given found.items
        ≡ whole_walk (job_for S.FileSystem given walk) (root_of walk) (given.read_dir_state (state_of walk))) }
{
    let mut found = Vec::new(alloc);
    walk.into_iter().fill(usize::MAX, &mut found)?;
    Ok(found)
}

/// Returns all that a walk without a callback yields. Over a file system that always answers the same it is the whole
/// walk of the definition, unless one of the answers reports that memory ran out. A `MemoryFs` is such a file system.
///
/// # Errors
///
/// If memory runs out for the list.
// begin whole
pub fn walk_whole<C: ClientState, S: FileSystem, A: Allocator + Copy>(
    alloc: A,
    walk: WalkDirGeneric<C, S, NoProcess, A>,
) -> Result<Vec<Answer<DirEntry<C, A>, A>, A>, AllocError>
    ensures { IfOk result (λ found. S.IsFixed (file_system_of walk) → NoneRefused found.items
        → counted_list stateless found.items
        ≡ stateless_walk (S.functions (file_system_of walk)) (options_of walk) (root_of walk)) }
{
    // begin fill
    let mut found = Vec::new(alloc);
    walk.into_iter().fill(usize::MAX, &mut found)?;
    // end fill
    Ok(found)
}
// end whole
