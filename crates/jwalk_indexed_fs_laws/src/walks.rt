//! A whole walk over records.
ghost use Rattle.std.specs.Prelude.{◌≡◌, false, map, IfOk};
ghost use Rattle.jwalk.specs.jwalk_model.Kept.{forgotten_item};
ghost use Rattle.jwalk.specs.jwalk_model.Options.{with_keep_metadata};
ghost use Rattle.jwalk.specs.jwalk_model.Walk.{stateless_walk};
ghost use Rattle.jwalk.specs.jwalk_job.Given.{counted_list};
ghost use Rattle.jwalk.specs.WalkDir.{file_system_of, root_of, options_of, stateless};
ghost use Rattle.jwalk.specs.DirEntryIter.{NoneRefused};
ghost use Rattle.jwalk_indexed_fs.specs.Index.{Vouches};
ghost use Rattle.jwalk_indexed_fs.specs.Walks.{NeedsTypesAlone};

use jwalk::error::Result as Answer;
use jwalk::file_system::FileSystem;
use jwalk::read_dir::NoProcess;
use jwalk::{ClientState, DirEntry, WalkDirGeneric};
use jwalk_indexed_fs::indexed_fs::IndexedFs;
use std::alloc::{AllocError, Allocator};

/// Returns all that a walk without a callback yields over records of a file system. If it sorts, follows no links and
/// may leave its file system, that is what the same walk yields over the file system itself, metadata aside, unless one
/// of the answers reports that memory ran out. This holds if the file system always returns the same, and the records
/// vouch for what its directories hold.
///
/// # Errors
///
/// If memory runs out for the list.
pub fn walk_over_records<C: ClientState, S: FileSystem, A: Allocator + Copy>(
    alloc: A,
    walk: WalkDirGeneric<C, IndexedFs<S>, NoProcess, A>,
) -> Result<Vec<Answer<DirEntry<C, A>, A>, A>, AllocError>
    ensures { IfOk result (λ found. let over = file_system_of walk in NeedsTypesAlone (options_of walk)
        → S.IsFixed over.fs → Vouches (S.functions over.fs) over.index → NoneRefused found.items
        → map forgotten_item (counted_list stateless found.items)
        ≡ stateless_walk (S.functions over.fs) (with_keep_metadata false (options_of walk)) (root_of walk)) }
{
    let mut found = Vec::new(alloc);
    walk.into_iter().fill(usize::MAX, &mut found)?;
    Ok(found)
}
