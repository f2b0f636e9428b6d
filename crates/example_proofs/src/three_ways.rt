//! One walk, whose directories are read in three ways.
ghost use Rattle.std.specs.Prelude.{◌≡◌, IfOk};
ghost use Rattle.std.specs.Arc.{arc_value};
ghost use Rattle.jwalk.specs.jwalk_model.Options.{defaults};
ghost use Rattle.jwalk.specs.jwalk_model.Walk.{stateless_walk};
ghost use Rattle.jwalk.specs.jwalk_job.Given.{counted_list};
ghost use Rattle.jwalk.specs.WalkDir.{stateless, NoneBusy};
ghost use Rattle.jwalk.specs.DirEntryIter.{NoneRefused};
ghost use Rattle.example_proofs.specs.ThreeWays.{AreSame};

use jwalk::error::Result as Answer;
use jwalk::file_system::FileSystem;
use jwalk::{Crew, DirEntry, Host, Parallelism, WalkDirGeneric};
use std::alloc::{AllocError, Global};
use std::sync::Arc;

/// What a walk without states yields.
type Found = Answer<DirEntry<((), ())>>;

/// What one walk yields, read in three ways.
#[derive(Drop)]
pub struct ThreeWays {
    /// One directory is read after another.
    pub in_turn: Vec<Found>,
    /// Directories are read together.
    pub in_batches: Vec<Found>,
    /// The workers of a crew read ahead.
    pub by_crew: Vec<Found>,
}

fn walk_by<R: Host, S: FileSystem + Send + Sync + 'static>(
    alloc: Global,
    fs: Arc<S>,
    root: &str,
    parallelism: Parallelism<Crew<R>>,
) -> Result<Vec<Found>, AllocError>
    ensures { IfOk result (λ found. S.IsFixed (arc_value fs) → NoneRefused found.items → NoneBusy found.items
        → counted_list stateless found.items ≡ stateless_walk (S.functions (arc_value fs)) defaults root.now) }
{
    let root = String::from_str(alloc, root)?;
    let walk = WalkDirGeneric::<((), ()), _, _, _, _>::with_crew(fs, root).parallelism(parallelism);
    let mut found = Vec::new(alloc);
    walk.into_iter().fill(usize::MAX, &mut found)?;
    Ok(found)
}

/// Returns all that a walk yields from a root, read in three ways: one directory after another, this many together, and
/// by a crew. Over a file system that always answers the same the three lists are the same, unless one of the answers
/// reports that memory ran out or that the crew was busy.
///
/// # Errors
///
/// If memory runs out for a list.
pub fn walk_three_ways<R: Host, S: FileSystem + Send + Sync + 'static>(
    alloc: Global,
    fs: Arc<S>,
    root: &str,
    width: usize,
    crew: Arc<Crew<R>>,
) -> Result<ThreeWays, AllocError>
    ensures in_batches { IfOk result (λ ways. S.IsFixed (arc_value fs)
        → AreSame ways.in_turn.items ways.in_batches.items) }
    ensures by_crew { IfOk result (λ ways. S.IsFixed (arc_value fs)
        → AreSame ways.in_turn.items ways.by_crew.items) }
{
    let by_crew = Parallelism::RayonExistingPool {
        pool: crew,
        busy_timeout: None,
    };
    let in_batches = Parallelism::RayonNewPool(width);
    Ok(ThreeWays {
        in_turn: walk_by::<R, S>(alloc, fs.clone()?, root, Parallelism::Serial)?,
        in_batches: walk_by::<R, S>(alloc, fs.clone()?, root, in_batches)?,
        by_crew: walk_by(alloc, fs, root, by_crew)?,
    })
}
