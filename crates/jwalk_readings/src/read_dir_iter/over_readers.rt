//! Readings in preorder that a walk's own `Readers` give.
ghost use Rattle.std.specs.Prelude.{◌≡◌, true, length, map, IfOk, IfErr};
ghost use Rattle.std.specs.Arc.{arc_value};
ghost use Rattle.jwalk_model.specs.Error.{memory};
ghost use Rattle.jwalk_job.specs.Error.{failure};
ghost use Rattle.jwalk_job.specs.ReadDirSpec.{spec};

use crate::crew_reads::CrewReads;
use crate::read_dir_iter::ReadDirIter;
use crate::readers::Readers;
use jwalk_fs::file_system::FileSystem;
use jwalk_job::client_state::ClientState;
use jwalk_job::error::Error;
use jwalk_job::job::Job;
use jwalk_job::process_read_dir::ProcessReadDir;
use jwalk_job::read_dir_spec::ReadDirSpec;
use std::alloc::Allocator;
use std::sync::Arc;

impl<
    C: ClientState,
    S: FileSystem,
    P: ProcessReadDir<C, A>,
    A: Allocator + Copy,
    L: Readers<C, S, P, A>,
> ReadDirIter<C, S, P, A, L> {
    ghost use Rattle.jwalk_order.specs.Frontier.{roots as root_addresses};
    ghost use Rattle.jwalk_readings.specs.CrewReads.{IsMadeFor};
    ghost use Rattle.jwalk_readings.specs.ReadDirIter.{by_crew, job_of, to_read, most_ahead, StartsSteady};

    /// Returns the readings of these directories and of all that is below them, as these readers give them. Only a
    /// reading of the directory that comes next, made by this job's options, is handed on. Readers that read by this
    /// very job have a clone of the `Arc`.
    ///
    /// # Errors
    ///
    /// If memory runs out.
    pub fn over_readers(
        job: Arc<Job<C, S, P, A>, A>,
        roots: Vec<ReadDirSpec<C, A>, A>,
        readers: L,
    ) -> Result<Self, Error<A>>
        ensures by { IfOk result (λ reads. by_crew reads ≡ true) }
        ensures job { IfOk result (λ reads. job_of reads ≡ arc_value job) }
        ensures to_read { IfOk result (λ reads. to_read reads ≡ map spec roots.items) }
        ensures most { IfOk result (λ reads. most_ahead L.Readers reads ≡ L.most readers) }
        ensures steady { IsMadeFor L.Readers readers (record { job = arc_value job; roots = map spec roots.items })
            (root_addresses (length roots.items)) → IfOk result (StartsSteady S.FileSystem P.ProcessReadDir
            C.ReadDirState.Clone C.DirEntryState.Default L.Readers) }
        ensures memory { IfErr result (λ error. failure error ≡ memory) }
    {
        match CrewReads::over(job, roots, readers) {
            Ok(reads) => Ok(ReadDirIter::CrewWalk(reads)),
            Err(_) => Err(Error::memory()),
        }
    }
}
