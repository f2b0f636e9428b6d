//! Readings in preorder.
ghost use Rattle.std.specs.Prelude.{◌≡◌, ◌≤◌, ◌+◌, true, false, Ok, [], length, map, IfOk, IfErr, OnOk, OnErr, IsSome};
ghost use Rattle.jwalk_model.specs.Error.{memory};
ghost use Rattle.jwalk_job.specs.Error.{failure};
ghost use Rattle.jwalk_job.specs.Entry.{entry};
ghost use Rattle.jwalk_job.specs.ReadDirSpec.{spec};
ghost use Rattle.jwalk_job.specs.Job.{callback};

mod on_threads;
mod over_crew;
mod over_readers;

use crate::batch_reads::BatchReads;
use crate::crew_reads::{CrewReads, error_of};
use crate::parallelism::Parallelism;
use crate::readers::{NoCrew, Readers};
use crate::readings::Readings;
use jwalk_fs::file_system::FileSystem;
use jwalk_job::client_state::ClientState;
use jwalk_job::dir_entry::DirEntry;
use jwalk_job::error::Error;
use jwalk_job::job::Job;
use jwalk_job::mode::Mode;
use jwalk_job::process_read_dir::ProcessReadDir;
use jwalk_job::read_dir::{Outcome, ReadDir};
use jwalk_job::read_dir_spec::ReadDirSpec;
use std::alloc::{AllocError, Allocator, Global};

/// An iterator over readings, each before those of its own directories: the one of the first directory not given yet
/// comes next, and then those below it.
///
/// If memory runs out, one error is yielded whose `is_memory` is true, and then `None`. If a crew's reading is lost,
/// one error is yielded whose `is_lost` is true, and then `None`.
///
/// No reading is lost if three things hold. The file system's answers stay the same, the callback always does the same,
/// and the iterator is asked for no other directory than the next one.
///
/// Over a crew, calls may block: `next` and `next_of`, on threads or not, for a reading, and these, `ahead` and the drop
/// for a lock.
pub enum ReadDirIter<C: ClientState, S, P, A: Allocator + Copy = Global, L = NoCrew> {
    /// One directory or several are read together, when a reading is asked for that isn't there yet.
    Walk(BatchReads<C, S, P, A>),
    /// The workers of a crew read ahead.
    CrewWalk(CrewReads<C, S, P, A, L>),
}

impl<C: ClientState, S: Drop, P: Drop, A: Allocator + Copy, L: Drop> Drop
    for ReadDirIter<C, S, P, A, L> {
    fn drop(self) {
        match self {
            ReadDirIter::Walk(_) => (),
            ReadDirIter::CrewWalk(_) => (),
        }
    }
}

impl<
    C: ClientState,
    S: FileSystem,
    P: ProcessReadDir<C, A>,
    A: Allocator + Copy,
    L: Readers<C, S, P, A>,
> ReadDirIter<C, S, P, A, L> {
    ghost use Rattle.jwalk_job.specs.Options as options;
    ghost use Rattle.jwalk_job.specs.Options.{mode_value};
    ghost use Rattle.jwalk_readings.specs.ReadAhead.{nothing_ahead, BeginsWith};
    ghost use Rattle.jwalk_readings.specs.ReadDirIter.{by_crew, job_of, to_read, width_of, read_ahead, early_of, frontier_of, base_of, most_ahead, CountsAhead, StaysSteady, Gives, GivesOf};

    /// Returns readings that no crew makes, of no directory yet. [`begin`](ReadDirIter::begin) names the directories.
    pub fn new(alloc: A, job: Job<C, S, P, A>, mode: Mode) -> Self
        ensures own { by_crew result ≡ false }
        ensures job { job_of result ≡ job }
        ensures width { width_of result ≡ options.width_of (mode_value mode) }
        ensures to_read { to_read result ≡ [] }
        ensures read_ahead { read_ahead result ≡ nothing_ahead }
        ensures frontier { frontier_of result ≡ [] }
    {
        ReadDirIter::Walk(BatchReads::new(alloc, job, mode.width()))
    }

    /// Begins the readings of these directories and of all that is below them, in place of those before. The
    /// readings must be ones that no crew makes.
    ///
    /// # Errors
    ///
    /// If memory runs out. Then nothing is left to be read.
    pub fn begin(&mut self, roots: Vec<ReadDirSpec<C, A>, A>) -> Result<(), AllocError>
        requires { by_crew self.old ≡ false }
        ensures base { base_of self.new ≡ base_of self.old }
        ensures to_read { OnOk result (to_read self.new ≡ map spec roots.items) }
        ensures read_ahead { OnOk result (BeginsWith (map spec roots.items) (frontier_of self.new)
            (read_ahead self.new)) }
        ensures stopped { OnErr result (to_read self.new ≡ []) }
        ensures nothing_ahead { OnErr result (read_ahead self.new ≡ nothing_ahead) }
    {
        match self {
            ReadDirIter::Walk(walk) => walk.begin(roots),
            ReadDirIter::CrewWalk(_) => unreachable!(),
        }
    }

    fn alone(
        job: Job<C, S, P, A>,
        roots: Vec<ReadDirSpec<C, A>, A>,
        mode: Mode,
    ) -> Result<Self, Error<A>>
        ensures own { IfOk result (λ reads. by_crew reads ≡ false) }
        ensures job { IfOk result (λ reads. job_of reads ≡ job) }
        ensures width { IfOk result (λ reads. width_of reads ≡ options.width_of (mode_value mode)) }
        ensures to_read { IfOk result (λ reads. to_read reads ≡ map spec roots.items) }
        ensures read_ahead { IfOk result (λ reads. BeginsWith (map spec roots.items) (frontier_of reads)
            (read_ahead reads)) }
        ensures memory { IfErr result (λ error. failure error ≡ memory) }
    {
        let mut reads = ReadDirIter::new(*roots.allocator(), job, mode);
        match reads.begin(roots) {
            Ok(()) => Ok(reads),
            Err(_) => Err(Error::memory()),
        }
    }

    /// Returns the next reading; or the error that reports why it won't come, and then nothing is left to be read.
    fn next_or_stop(&mut self) -> Option<Outcome<C, A>>
        requires { P.IsLawful (callback (job_of self.old)) }
        ensures { Gives S.FileSystem P.ProcessReadDir C.ReadDirState.Clone C.DirEntryState.Default L.Readers
            self.old result self.new }
    {
        match self.read_next() {
            Ok(read) => read,
            Err(missed) => Some(Err(error_of(missed))),
        }
    }

    /// Returns the reading of an entry's directory. It is the next one if the entries are those of the readings so far
    /// in the walk's order. The entry must have `read_children`. `None` means that nothing is left to be read.
    ///
    /// Over a crew it is the reading of the entry's directory, or the error whose `is_lost` is true: after that nothing
    /// is left to be read. There the call may block for a reading or for a lock.
    pub fn next_of(&mut self, found: &DirEntry<C, A>) -> Option<Result<ReadDir<C, A>, Error<A>>>
        requires lawful { P.IsLawful (callback (job_of self.old)) }
        requires has_directory { IsSome found.now.read_children }
        ensures { GivesOf S.FileSystem P.ProcessReadDir C.ReadDirState.Clone C.DirEntryState.Default L.Readers
            self.old (Ok (entry found.now)) result self.new }
    {
        prove!(found.read_children.is_some());
        if !self.is_next(found) {
            Readings::stop(self);
            return Some(Err(Error::lost()));
        }
        self.next_or_stop()
    }

    pub(crate) fn job(&self) -> &Job<C, S, P, A>
        ensures { result.now ≡ job_of self.now }
    {
        match self {
            ReadDirIter::Walk(walk) => walk.job(),
            ReadDirIter::CrewWalk(reads) => reads.job(),
        }
    }

    /// Returns how many readings were made and not handed on. Over a crew it changes while the workers read, but is at
    /// most one more than the crew's bound, and the call may block for a lock.
    pub fn ahead(&self) -> usize
        ensures alone { by_crew self.now ≡ false → result ≡ length (early_of self.now) }
        ensures counted { CountsAhead L.Readers self.now result }
        ensures crew { by_crew self.now ≡ true → result ≤ most_ahead L.Readers self.now }
    {
        match self {
            ReadDirIter::Walk(walk) => walk.ahead(),
            ReadDirIter::CrewWalk(reads) => reads.ahead(),
        }
    }

    /// Drops what is not read yet, and what was read early. Over a crew its workers end, and the call may block for a
    /// lock.
    pub fn stop(&mut self)
        ensures base { base_of self.new ≡ base_of self.old }
        ensures to_read { to_read self.new ≡ [] }
        ensures read_ahead { read_ahead self.new ≡ nothing_ahead }
        ensures frontier { by_crew self.old ≡ false → frontier_of self.new ≡ [] }
        ensures most { most_ahead L.Readers self.new ≡ 0 }
        ensures steady { StaysSteady S.FileSystem P.ProcessReadDir C.ReadDirState.Clone C.DirEntryState.Default L.Readers
            self.old self.new }
    {
        match self {
            ReadDirIter::Walk(walk) => walk.stop(),
            ReadDirIter::CrewWalk(reads) => reads.stop(),
        }
    }
}

impl<C: ClientState, S: FileSystem, P: ProcessReadDir<C, A>, A: Allocator + Copy> ReadDirIter<
    C,
    S,
    P,
    A,
    NoCrew,
> {
    ghost use Rattle.jwalk_job.specs.Options as options;
    ghost use Rattle.jwalk_readings.specs.ReadAhead.{BeginsWith};
    ghost use Rattle.jwalk_readings.specs.Parallelism.{parallelism_value};
    ghost use Rattle.jwalk_readings.specs.ReadDirIter.{by_crew, job_of, to_read, width_of, read_ahead, frontier_of};

    /// Returns the readings of these directories and of all that is below them.
    ///
    /// # Errors
    ///
    /// If memory runs out.
    pub fn try_new(
        job: Job<C, S, P, A>,
        roots: Vec<ReadDirSpec<C, A>, A>,
        parallelism: Parallelism<NoCrew, A>,
    ) -> Result<Self, Error<A>>
        ensures own { IfOk result (λ reads. by_crew reads ≡ false) }
        ensures job { IfOk result (λ reads. job_of reads ≡ job) }
        ensures width { IfOk result (λ reads. width_of reads ≡ options.width_of (parallelism_value parallelism)) }
        ensures to_read { IfOk result (λ reads. to_read reads ≡ map spec roots.items) }
        ensures read_ahead { IfOk result (λ reads. BeginsWith (map spec roots.items) (frontier_of reads)
            (read_ahead reads)) }
        ensures memory { IfErr result (λ error. failure error ≡ memory) }
    {
        ReadDirIter::alone(job, roots, parallelism.mode())
    }
}

impl<
    C: ClientState,
    S: FileSystem,
    P: ProcessReadDir<C, A>,
    A: Allocator + Copy,
    L: Readers<C, S, P, A>,
> Iterator for ReadDirIter<C, S, P, A, L> {
    type Item = Result<ReadDir<C, A>, Error<A>>;

    ghost use Rattle.std.specs.Iterator.{at_most};
    ghost use Rattle.jwalk_model.specs.Held.{spec_weight};
    ghost use Rattle.jwalk_job.specs.Job.{greatest_depth};
    ghost use Rattle.jwalk_readings.specs.ReadDirIter.{job_of, to_read, Gives};

    ghost can_next = { λ s. P.IsLawful (callback (job_of s)) };

    ghost next_gives = { Gives S.FileSystem P.ProcessReadDir C.ReadDirState.Clone C.DirEntryState.Default L.Readers };

    ghost remaining = { λ s. at_most (spec_weight (greatest_depth (job_of s)) (to_read s)) };

    fn next(&mut self) -> Option<Result<ReadDir<C, A>, Error<A>>> {
        self.next_or_stop()
    }
}
