//! Where the readings of a walk come from.
use jwalk_job::job::Job;
use jwalk_job::read_dir_spec::ReadDirSpec;
use std::alloc::Global;

/// Where the readings of a walk come from: the job that reads, and the directories that the walk begins with.
pub type Origin<C, S, P, A = Global> = tree_crew::origin::Origin<
    ReadDirSpec<C, A>,
    Job<C, S, P, A>,
    A,
>;
