//! Walks that threads of their own read ahead.
ghost use Rattle.std.specs.Prelude.{◌≡◌, ◌<◌, min, None, IfOk, IsSomeAnd};

use crate::crew::threads_for;
use crate::host::Host;
use crate::walk_dir::WalkDirGeneric;
use jwalk_fs::file_system::FileSystem;
use jwalk_job::client_state::ClientState;
use jwalk_job::process_read_dir::ProcessReadDir;
use jwalk_readings::parallelism::Parallelism;
use jwalk_readings::readers::NoCrew;
use std::alloc::{AllocError, Allocator};
use std::sync::Arc;
use tree_crew::crew::Crew;

impl<C: ClientState, S: FileSystem, P: ProcessReadDir<C, A>, A: Allocator + Copy> WalkDirGeneric<
    C,
    S,
    P,
    A,
    NoCrew,
> {
    ghost use Rattle.std.specs.Arc.{arc_value};
    ghost use Rattle.jwalk_model.specs.Options as parallelism;
    ghost use Rattle.jwalk_model.specs.Options.{with_parallelism};
    ghost use Rattle.tree_crew.specs.Crew.{workers_of, limit_of};
    ghost use Rattle.jwalk.specs.WalkDir.{options_of, described, with_crew, Sets};

    /// Returns the same walk, which a crew of `count` threads of its own reads ahead. The threads are started when the
    /// walk begins, read directories while the answers are taken, also in a `for` over `walk.into_iter()`, and end with
    /// the walk. Its answers and their order are those of a serial walk.
    ///
    /// A count of 0 means as many threads as can run side by side ([`available_parallelism`]), or 1 where that isn't
    /// known. More than 256 count as 256. (In [`Crew::new`], 0 counts as 1.)
    ///
    /// The walk is busy only if no thread can be started. Then `try_into_iter` fails with an error whose `is_busy` is
    /// true, and the walk of `into_iter` yields that error in place of a root that would be read. Walks that are to
    /// share one crew are made by `with_crew`.
    ///
    /// # Errors
    ///
    /// If memory runs out.
    pub fn workers<R: Host>(
        self,
        rt: &R,
        count: usize,
    ) -> Result<WalkDirGeneric<C, S, P, A, Crew<R>>, AllocError>
        ensures threads { IfOk result (λ walk. IsSomeAnd walk.crew (λ own. 0 < count
            → workers_of (arc_value own.0) ≡ min count 256)) }
        ensures read_ahead { IfOk result (λ walk. IsSomeAnd walk.crew (λ own. limit_of (arc_value own.0) ≡ 1024)) }
        ensures limit { IfOk result (λ walk. IsSomeAnd walk.crew (λ own. own.1 ≡ None)) }
        ensures rest { IfOk result (λ walk. Sets (record (with_crew walk.crew (described self)) {
          options = with_parallelism parallelism.crew (options_of self);
        }) walk) }
    {
        let alloc = *self.root.allocator();
        let crew = Crew::new(rt.clone()?, 1, threads_for(rt, count));
        let pool = Arc::new(alloc, crew)?;
        Ok(
            self.for_crew().parallelism(Parallelism::RayonExistingPool {
                pool,
                busy_timeout: None,
            }),
        )
    }

    fn for_crew<W: Drop>(self) -> WalkDirGeneric<C, S, P, A, W>
        ensures { Sets (with_crew None (described self)) result }
    {
        let WalkDirGeneric {
            fs,
            root,
            process,
            options,
            root_read_dir_state,
            crew: _,
        } = self;
        WalkDirGeneric {
            fs,
            root,
            process,
            options,
            root_read_dir_state,
            crew: None,
        }
    }
}
