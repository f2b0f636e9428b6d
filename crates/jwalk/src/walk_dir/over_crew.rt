//! Walks over a crew.
ghost use Rattle.std.specs.Prelude.{◌≡◌, ◌⊎◌, string_bytes, IfOk, IfErr, IfSome, IfNone, Some, None};
ghost use Rattle.jwalk_model.specs.Options as parallelism;
ghost use Rattle.jwalk_job.specs.Options.{mode_value};
ghost use Rattle.jwalk_model.specs.Error.{memory, busy};
ghost use Rattle.jwalk_job.specs.Error.{failure};

use crate::walk_dir::WalkDirGeneric;
use crate::walk_dir::crew_start::{Begun, CrewWalk, from_root_alone};
use jwalk_fs::file_system::FileSystem;
use jwalk_iter::dir_entry_iter::DirEntryIter;
use jwalk_job::client_state::ClientState;
use jwalk_job::error::Error;
use jwalk_job::job::Job;
use jwalk_job::mode::Mode;
use jwalk_job::process_read_dir::{NoProcess, ProcessReadDir};
use jwalk_readings::crew_reads::started::start_error;
use jwalk_readings::readers::Readers;
use jwalk_readings::session::Session;
use std::alloc::Allocator;
use std::sync::Wait;
use std::thread::Threads;
use std::time::Clock;
use tree_crew::crew::Crew;

impl<C: ClientState, S: FileSystem, A: Allocator + Copy, R: Wait + Clock + Drop> WalkDirGeneric<
    C,
    S,
    NoProcess,
    A,
    Crew<R>,
> {
    ghost use Rattle.jwalk_model.specs.Options.{defaults};
    ghost use Rattle.jwalk.specs.WalkDir.{file_system_of, root_of, state_of, options_of};

    /// Returns a walk that can be set to read by a crew, with `parallelism`. Until then it is serial, like one made by
    /// `new`.
    pub fn with_crew(fs: S, root: String<A>) -> Self
        ensures file_system { file_system_of result ≡ fs }
        ensures root { root_of result ≡ string_bytes root }
        ensures options { options_of result ≡ defaults }
        ensures state { C.ReadDirState.is_default (state_of result) }
        ensures crew { result.crew ≡ None }
    {
        WalkDirGeneric::with_no_options(fs, root)
    }
}

fn crew_to_ask<W: Drop>(mode: Mode, crew: Option<W>) -> Option<W>
    ensures some { IfSome result (λ w. (mode_value mode ≡ parallelism.crew) × (crew ≡ Some w)) }
    ensures none { IfNone result (mode_value mode ≡ parallelism.crew → crew ≡ None) }
{
    match mode {
        Mode::Crew => crew,
        Mode::Serial | Mode::Batches(_) => None,
    }
}

impl<
    R: Wait + Threads + Clock + Drop + Send + Sync + 'static,
    C: ClientState + Send + 'static,
    S: FileSystem + Send + Sync + 'static,
    P: ProcessReadDir<C, A> + Send + Sync + 'static,
    A: Allocator + Copy + Send + Sync + 'static,
> WalkDirGeneric<C, S, P, A, Crew<R>>
where
    C::ReadDirState: Send + 'static,
    C::DirEntryState: Send + 'static,
{
    ghost use Rattle.jwalk.specs.WalkDir.{callback_of, options_of, Starts, HoldsOne, HoldsRoot, KeepsBound, Begins};
    ghost use Rattle.jwalk_iter.specs.DirEntryIter.{StartsSteady};

    fn begin_by(self) -> Begun<CrewWalk<R, C, S, P, A>>
        requires { P.IsLawful (callback_of self) }
        ensures starts { Starts self result.walk }
        ensures begins { Begins S.FileSystem P.ProcessReadDir C.ReadDirState.Clone C.DirEntryState.Default
            self result.why_not result.walk }
        ensures one { HoldsOne P.ProcessReadDir self result.walk }
        ensures root { HoldsRoot P.ProcessReadDir self result.walk }
        ensures most { KeepsBound ⟦<Session<R, C, S, P, A> as Readers<C, S, P, A>>⟧ self result.walk }
        ensures steady { StartsSteady S.FileSystem P.ProcessReadDir C.ReadDirState.Clone C.DirEntryState.Default
            ⟦<Session<R, C, S, P, A> as Readers<C, S, P, A>>⟧ result.walk }
    {
        let alloc = *self.root.allocator();
        let WalkDirGeneric {
            fs,
            root,
            process,
            options,
            root_read_dir_state,
            crew,
        } = self;
        let job = Job::new(alloc, fs, process, options);
        let read = job.root_list(root.as_str(), root_read_dir_state).ok();
        match crew_to_ask(options.mode(), crew) {
            Some((crew, busy_timeout)) => {
                WalkDirGeneric::from_root_by(alloc, job, read, &crew, busy_timeout)
            }
            None => from_root_alone(alloc, job, read),
        }
    }

    /// Begins the walk: makes its root's list, and starts the crew's workers. It blocks until a place of its crew is
    /// free, for at most its `busy_timeout`. A walk that isn't to be read by a crew takes no place.
    ///
    /// # Errors
    ///
    /// An error whose `is_busy` is true, if no place was free in time, or no worker could be started. An error whose
    /// `is_memory` is true, if memory runs out. After an error no place is taken.
    pub fn try_into_iter(self) -> Result<DirEntryIter<C, S, P, A, Session<R, C, S, P, A>>, Error<A>>
        requires { P.IsLawful (callback_of self) }
        ensures starts { IfOk result (Starts self) }
        ensures begins { IfOk result (Begins S.FileSystem P.ProcessReadDir C.ReadDirState.Clone
            C.DirEntryState.Default self None) }
        ensures one { IfOk result (HoldsOne P.ProcessReadDir self) }
        ensures root { IfOk result (HoldsRoot P.ProcessReadDir self) }
        ensures most { IfOk result (KeepsBound ⟦<Session<R, C, S, P, A> as Readers<C, S, P, A>>⟧ self) }
        ensures steady { IfOk result (StartsSteady S.FileSystem P.ProcessReadDir C.ReadDirState.Clone
            C.DirEntryState.Default ⟦<Session<R, C, S, P, A> as Readers<C, S, P, A>>⟧) }
        ensures fails { IfErr result (λ error. (failure error ≡ memory)
            ⊎ ((failure error ≡ busy) × ((options_of self).parallelism ≡ parallelism.crew))) }
    {
        let Begun { walk, why_not } = self.begin_by();
        match why_not {
            None => Ok(walk),
            Some(why_not) => Err(start_error(why_not)),
        }
    }

    /// Begins the walk, like `try_into_iter`. If the crew is busy, the walk yields the items of the root's list. Each
    /// entry whose directory would be read is then replaced by an error whose `is_busy` is true. If memory runs out,
    /// the walk yields one error whose `is_memory` is true, and nothing else.
    pub fn into_iter(self) -> DirEntryIter<C, S, P, A, Session<R, C, S, P, A>>
        requires { P.IsLawful (callback_of self) }
        ensures starts { Starts self result }
        ensures begins { (why_not : _) × Begins S.FileSystem P.ProcessReadDir C.ReadDirState.Clone
            C.DirEntryState.Default self why_not result }
        ensures one { HoldsOne P.ProcessReadDir self result }
        ensures root { HoldsRoot P.ProcessReadDir self result }
        ensures most { KeepsBound ⟦<Session<R, C, S, P, A> as Readers<C, S, P, A>>⟧ self result }
        ensures steady { StartsSteady S.FileSystem P.ProcessReadDir C.ReadDirState.Clone C.DirEntryState.Default
            ⟦<Session<R, C, S, P, A> as Readers<C, S, P, A>>⟧ result }
    {
        self.begin_by().walk
    }
}
