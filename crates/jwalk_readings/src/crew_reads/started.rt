//! The start of readings that a crew makes ahead.
ghost use Rattle.std.specs.Prelude.{◌≡◌, ◌+◌, map, IfOk, OnErr, OnOk};
ghost use Rattle.std.specs.Arc.{arc_value};
ghost use Rattle.jwalk_job.specs.Error.{failure};
ghost use Rattle.jwalk_job.specs.ReadDirSpec.{spec};
ghost use Rattle.jwalk_job.specs.Job.{callback};
ghost use Rattle.tree_crew.specs.Crew.{limit_of};
ghost use Rattle.jwalk_readings.specs.Origin.{CountAlike};
ghost use Rattle.jwalk_readings.specs.Session.{origin_of, awaited_by};
ghost use Rattle.jwalk_readings.specs.CrewReads.{job_of, to_read, start_failure, most_ahead, BeginsBy};

use crate::crew_reads::CrewReads;
use crate::origin::Origin;
use crate::readers::Readers;
use crate::session::Session;
use jwalk_fs::file_system::FileSystem;
use jwalk_job::client_state::ClientState;
use jwalk_job::error::Error;
use jwalk_job::job::Job;
use jwalk_job::process_read_dir::ProcessReadDir;
use jwalk_job::read_dir_spec::ReadDirSpec;
use jwalk_order::ordered_queue::OrderedMatcher;
use std::alloc::Allocator;
use std::sync::{Arc, Wait};
use std::thread::Threads;
use std::time::{Clock, Duration};
use tree_crew::crew::{Crew, NotStarted, Place};

/// Returns the error that reports why a crew's readings don't begin.
pub fn start_error<A: Allocator + Copy>(why_not: NotStarted) -> Error<A>
    ensures { failure result ≡ start_failure why_not }
{
    match why_not {
        NotStarted::Busy => Error::busy(),
        NotStarted::Memory => Error::memory(),
    }
}

impl<
    R: Wait + Threads + Clock + Drop + Send + Sync + 'static,
    C: ClientState + Send + 'static,
    S: FileSystem + Send + Sync + 'static,
    P: ProcessReadDir<C, A> + Send + Sync + 'static,
    A: Allocator + Copy + Send + Sync + 'static,
> CrewReads<C, S, P, A, Session<R, C, S, P, A>>
where
    C::ReadDirState: Send + 'static,
    C::DirEntryState: Send + 'static,
{
    /// Starts a crew's readings of these directories, and of those below them. The directories are given twice: once
    /// for the walk, and once for the workers. It blocks until a place of the crew is free, for at most `busy_timeout`.
    ///
    /// # Errors
    ///
    /// `Memory` if memory runs out. `Busy` if no place was free in time, or no worker could be started. After an error
    /// the readings are unchanged, and no place is taken.
    pub fn start(
        &mut self,
        crew: &Arc<Crew<R>, A>,
        busy_timeout: Option<Duration>,
        own: Vec<ReadDirSpec<C, A>, A>,
        shared: Vec<ReadDirSpec<C, A>, A>,
    ) -> Result<(), NotStarted>
        requires lawful { P.IsLawful (callback (job_of self.old)) }
        requires alike { CountAlike C.ReadDirState.Clone (map spec shared.items) (map spec own.items) }
        ensures job { job_of self.new ≡ job_of self.old }
        ensures to_read { OnOk result (to_read self.new ≡ map spec own.items) }
        ensures begins { OnOk result (BeginsBy (λ session origin addresses.
            (origin_of session ≡ origin) × (awaited_by session ≡ addresses)) self.new) }
        ensures most { OnOk result (most_ahead ⟦<Session<R, C, S, P, A> as Readers<C, S, P, A>>⟧ self.new
            ≡ limit_of (arc_value crew.now) + 1) }
        ensures unchanged { OnErr result (self.new ≡ self.old) }
    {
        let matcher = OrderedMatcher::with_roots(*own.allocator(), own.len())?;
        let job = self.job.clone()?;
        let place = Place::take(crew, busy_timeout)?;
        let origin = Origin::new(job, own);
        self.readers = Some(Session::start(place, &origin, shared)?);
        let mut own = origin.into_roots();
        own.reverse();
        self.unread = own;
        self.matcher = matcher;
        Ok(())
    }

    /// Blocks and fails as [`start`](CrewReads::start) does.
    pub(crate) fn by_workers(
        crew: &Arc<Crew<R>, A>,
        busy_timeout: Option<Duration>,
        job: Job<C, S, P, A>,
        roots: Vec<ReadDirSpec<C, A>, A>,
    ) -> Result<Self, NotStarted>
        requires { P.IsLawful (callback job) }
        ensures job { IfOk result (λ reads. job_of reads ≡ job) }
        ensures to_read { IfOk result (λ reads. to_read reads ≡ map spec roots.items) }
        ensures begins { IfOk result (BeginsBy (λ session origin addresses.
            (origin_of session ≡ origin) × (awaited_by session ≡ addresses))) }
        ensures most { IfOk result (λ reads. most_ahead ⟦<Session<R, C, S, P, A> as Readers<C, S, P, A>>⟧ reads
            ≡ limit_of (arc_value crew.now) + 1) }
    {
        let shared = roots.clone()?;
        let Ok(mut reads) = CrewReads::new(*roots.allocator(), job) else {
            return Err(NotStarted::Memory);
        };
        reads.start(crew, busy_timeout, roots, shared)?;
        Ok(reads)
    }
}
