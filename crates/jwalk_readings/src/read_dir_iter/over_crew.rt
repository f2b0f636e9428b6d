//! Readings in preorder, as a crew makes them.
ghost use Rattle.std.specs.Prelude.{◌≡◌, ◌⊎◌, ◌+◌, false, map, IfOk, IfErr, IfSome};
ghost use Rattle.std.specs.Arc.{arc_value};
ghost use Rattle.jwalk_model.specs.Error.{memory, busy};
ghost use Rattle.jwalk_model.specs.Options as value;
ghost use Rattle.jwalk_job.specs.Error.{failure};
ghost use Rattle.jwalk_job.specs.Job.{callback};
ghost use Rattle.jwalk_job.specs.ReadDirSpec.{spec};

use crate::crew_reads::CrewReads;
use crate::crew_reads::started::start_error;
use crate::parallelism::Parallelism;
use crate::read_dir_iter::ReadDirIter;
use crate::readers::Readers;
use crate::session::Session;
use jwalk_fs::file_system::FileSystem;
use jwalk_job::client_state::ClientState;
use jwalk_job::error::Error;
use jwalk_job::job::Job;
use jwalk_job::process_read_dir::ProcessReadDir;
use jwalk_job::read_dir_spec::ReadDirSpec;
use std::alloc::Allocator;
use std::sync::Wait;
use std::thread::Threads;
use std::time::Clock;
use tree_crew::crew::Crew;

impl<
    R: Wait + Threads + Clock + Drop + Send + Sync + 'static,
    C: ClientState + Send + 'static,
    S: FileSystem + Send + Sync + 'static,
    P: ProcessReadDir<C, A> + Send + Sync + 'static,
    A: Allocator + Copy + Send + Sync + 'static,
> ReadDirIter<C, S, P, A, Session<R, C, S, P, A>>
where
    C::ReadDirState: Send + 'static,
    C::DirEntryState: Send + 'static,
{
    ghost use Rattle.jwalk_job.specs.Options as options;
    ghost use Rattle.jwalk_readings.specs.ReadAhead.{BeginsWith};
    ghost use Rattle.tree_crew.specs.Crew.{limit_of};
    ghost use Rattle.jwalk_readings.specs.Parallelism.{parallelism_value, is_by_crew, crew_of};
    ghost use Rattle.jwalk_readings.specs.ReadDirIter.{by_crew, job_of, to_read, width_of, read_ahead, frontier_of, most_ahead, StartsSteady};

    /// Returns the readings of these directories and of all that is below them, like `try_new`, but a crew may read.
    /// Its workers begin at once. The call first blocks until a place of the crew is free, for at most the
    /// `busy_timeout` of `parallelism`.
    ///
    /// # Errors
    ///
    /// An error whose `is_busy` is true, if a crew is to read, and no place was free in time or no worker could be
    /// started. An error whose `is_memory` is true, if memory runs out. After an error no place is taken.
    pub fn try_with_crew(
        job: Job<C, S, P, A>,
        roots: Vec<ReadDirSpec<C, A>, A>,
        parallelism: Parallelism<Crew<R>, A>,
    ) -> Result<Self, Error<A>>
        requires { P.IsLawful (callback job) }
        ensures by { IfOk result (λ reads. by_crew reads ≡ is_by_crew (parallelism_value parallelism)) }
        ensures job { IfOk result (λ reads. job_of reads ≡ job) }
        ensures width { IfOk result (λ reads. width_of reads ≡ options.width_of (parallelism_value parallelism)) }
        ensures to_read { IfOk result (λ reads. to_read reads ≡ map spec roots.items) }
        ensures read_ahead { IfOk result (λ reads. by_crew reads ≡ false
            → BeginsWith (map spec roots.items) (frontier_of reads) (read_ahead reads)) }
        ensures most { IfOk result (λ reads. IfSome (crew_of parallelism) (λ own.
            most_ahead ⟦<Session<R, C, S, P, A> as Readers<C, S, P, A>>⟧ reads ≡ limit_of (arc_value own.0) + 1)) }
        ensures steady { IfOk result (StartsSteady S.FileSystem P.ProcessReadDir C.ReadDirState.Clone
            C.DirEntryState.Default ⟦<Session<R, C, S, P, A> as Readers<C, S, P, A>>⟧) }
        ensures fails { IfErr result (λ error. (failure error ≡ memory)
            ⊎ ((failure error ≡ busy) × (parallelism_value parallelism ≡ value.crew))) }
    {
        let mode = parallelism.mode();
        match parallelism.into_crew() {
            Some((crew, busy_timeout)) => {
                match CrewReads::by_workers(&crew, busy_timeout, job, roots) {
                    Ok(reads) => Ok(ReadDirIter::CrewWalk(reads)),
                    Err(why_not) => Err(start_error(why_not)),
                }
            }
            None => ReadDirIter::alone(job, roots, mode),
        }
    }
}
