//! Subtotals of walks over a tree in memory. They are known of the tree, whoever reads the directories.
ghost use Rattle.std.specs.Prelude.{◌≡◌, true, None, is_ok, string_bytes, IfOk};
ghost use Rattle.std.specs.Iterator.{IsFinite, YieldsThen};
ghost use Rattle.std.specs.List.{list_all};
ghost use Rattle.jwalk.specs.jwalk_model.Options.{defaults, with_keep_metadata};
ghost use Rattle.jwalk.specs.jwalk_model.Tree.{functions_of};
ghost use Rattle.jwalk.specs.jwalk_model.Walk.{stateless_walk};
ghost use Rattle.jwalk.specs.jwalk_memory_fs.MemoryFs.{tree_of};
ghost use Rattle.jwalk_subtotals.specs.Subtotals.{subtotals};
ghost use Rattle.example_proofs.specs.Subtotals.{by_value};

use jwalk::file_system::MemoryFs;
use jwalk::{Crew, Host, Parallelism, WalkDirGeneric};
use jwalk_subtotals::{SubtotalError, SubtotalOptions, WithSubtotal, subtotals};
use std::alloc::{AllocError, Global};

/// What is yielded of subtotals of a walk without states.
type Yielded = Result<WithSubtotal<((), ()), Global>, SubtotalError<Global>>;

/// Takes what is yielded up to `None`.
fn take_all<I: Iterator<Item = Yielded>>(
    alloc: Global,
    subtotals: &mut I,
) -> Result<Vec<Yielded>, AllocError>
    requires can { I.can_next subtotals.old }
    requires ends { IsFinite (I.remaining subtotals.old) }
    ensures { IfOk result (λ all. YieldsThen I.next_gives subtotals.old all.items None subtotals.new) }
{
    let mut all = Vec::new(alloc);
    while let Some(yielded) = subtotals.next() {
        all.push(yielded)?;
    }
    Ok(all)
}

/// Returns all that is yielded of the subtotals of a walk from a root. If none of it is an error, these are the subtotals
/// of the whole walk of the tree. They are the same for one thread, for batches and for a crew.
///
/// # Errors
///
/// If memory runs out for the list.
pub fn subtotals_of_tree<R: Host>(
    alloc: Global,
    fs: MemoryFs,
    root: String,
    parallelism: Parallelism<Crew<R>>,
    options: SubtotalOptions,
) -> Result<Vec<Yielded>, AllocError>
    ensures { IfOk result (λ all. list_all is_ok all.items ≡ true
        → by_value all.items
        ≡ subtotals options (stateless_walk (functions_of (tree_of fs)) (with_keep_metadata true defaults) (string_bytes root))) }
{
    let walk = WalkDirGeneric::<((), ()), _, _, _, _>::with_crew(fs, root)
        .keep_metadata(true)
        .parallelism(parallelism);
    let mut subtotals = subtotals(alloc, walk.into_iter(), options);
    take_all(alloc, &mut subtotals)
}
