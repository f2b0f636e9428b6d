//! How far a crew reads ahead.
ghost use Rattle.std.specs.Prelude.{◌≤◌, ◌+◌, max, IfOk};
ghost use Rattle.jwalk.specs.tree_crew.Crew.{workers_of};

use jwalk::error::Result as Answer;
use jwalk::file_system::FileSystem;
use jwalk::read_dir::NoProcess;
use jwalk::{Crew, Error, Host, Parallelism, WalkDirGeneric};
use std::alloc::Global;
use std::sync::Arc;

/// Returns how many readings are ahead of a walk that has begun, for which a crew with this bound reads. It is at most one
/// more than the bound, where one below the number of the crew's workers counts as that number.
///
/// # Errors
///
/// If the crew is busy, or if memory runs out.
pub fn ahead_over_crew<R: Host, S: FileSystem + Send + Sync + 'static>(
    alloc: Global,
    crew: Crew<R>,
    readings: usize,
    walk: WalkDirGeneric<((), ()), S, NoProcess, Global, Crew<R>>,
) -> Answer<usize>
    ensures { IfOk result (λ ahead. ahead ≤ max readings (workers_of crew) + 1) }
{
    let Ok(pool) = Arc::new(alloc, crew.with_read_ahead(readings)) else {
        return Err(Error::memory());
    };
    let by_crew = Parallelism::RayonExistingPool {
        pool,
        busy_timeout: None,
    };
    let answers = walk.parallelism(by_crew).try_into_iter()?;
    Ok(answers.ahead())
}
