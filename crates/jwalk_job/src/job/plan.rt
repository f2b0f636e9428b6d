//! A job as a plan.
ghost use Rattle.jwalk_model.specs.ReadDir.{Spec, Outcome};
ghost use Rattle.jwalk_model.specs.Counted.{Worth};
ghost use Rattle.jwalk_job.specs.ReadDirSpec.{spec};
ghost use Rattle.jwalk_job.specs.ReadDir.{outcome};
ghost use Rattle.jwalk_job.specs.Given.{Given as GivenStates, counted_spec, counted_outcome};
ghost use Rattle.jwalk_job.specs.Job.{callback, job_by, IsSteadyJob};
ghost use Rattle.jwalk_job.specs.Plan.{tree_of};
ghost use Rattle.jwalk_job.specs.PlanReading.{IsPlanReading, reads_as_given};
ghost use Rattle.jwalk_job.specs.PlanFacts.{tree_of-falls};

use super::Job;
use crate::client_state::ClientState;
use crate::error::Error;
use crate::process_read_dir::ProcessReadDir;
use crate::read_dir::{ReadDir, directories_of};
use crate::read_dir_spec::ReadDirSpec;
use jwalk_board::board::{Plan, Refused};
use jwalk_fs::file_system::FileSystem;
use std::alloc::Allocator;

/// A job reads directories by `read_one`, with its own allocator. A reading is its outcome, a list or an error, and its
/// children are the directories of the list.
impl<C: ClientState, S: FileSystem, P: ProcessReadDir<C, A>, A: Allocator + Copy> Plan<A>
    for Job<C, S, P, A> {
    type Spec = ReadDirSpec<C, A>;

    type Reading = Result<ReadDir<C, A>, Error<A>>;

    ghost Given = { GivenStates C.ReadDirState C.DirEntryState };

    ghost SpecValue = { Spec Worth };

    ghost ReadingValue = { Outcome Worth Worth };

    ghost spec_value = { λ given of. counted_spec given (spec of) };

    ghost reading_value = { λ given read. counted_outcome given (outcome read) };

    ghost IsLawful = { λ job. P.IsLawful (callback job) };

    ghost IsFixed = { λ job given. IsSteadyJob S.FileSystem P.ProcessReadDir C.ReadDirState.Clone
        C.DirEntryState.Default job given };

    ghost IsReading = { IsPlanReading S.FileSystem P.ProcessReadDir C.ReadDirState.Clone C.DirEntryState.Default };

    ghost tree = { λ job given. tree_of (job_by S.FileSystem given job) };

    ghost as_given = { reads_as_given S.FileSystem P.ProcessReadDir C.ReadDirState.Clone C.DirEntryState.Default };

    ghost falls = { λ job given _. tree_of-falls (job_by S.FileSystem given job) (GivenStates.keeps_depths given) };

    fn read(
        &self,
        alloc: A,
        spec: &ReadDirSpec<C, A>,
    ) -> Result<(Self::Reading, Vec<ReadDirSpec<C, A>, A>), Refused> {
        let outcome = self.read_one(spec)?;
        let children = directories_of(alloc, &outcome)?;
        Ok((outcome, children))
    }
}
