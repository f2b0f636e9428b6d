//! Walks whose answers are handed to a closure, or appended to a list.
ghost use Rattle.jwalk_iter.specs.DirEntryIter.{Answers};
ghost use Rattle.jwalk.specs.Each.{BeginsAlone, BeginsOver, CallsWithEach, CallsUntilError, Appends};
ghost use Rattle.jwalk.specs.WalkDir.{callback_of};

use crate::walk_dir::WalkDirGeneric;
use crate::walk_dir::handed::{append_to, hand_to, hand_until_error};
use jwalk_fs::file_system::FileSystem;
use jwalk_job::client_state::ClientState;
use jwalk_job::dir_entry::DirEntry;
use jwalk_job::error::Error;
use jwalk_job::process_read_dir::ProcessReadDir;
use jwalk_readings::readers::{NoCrew, Readers};
use jwalk_readings::session::Session;
use std::alloc::{AllocError, Global};
use std::sync::Wait;
use std::thread::Threads;
use std::time::Clock;
use tree_crew::crew::Crew;

impl<C: ClientState, S: FileSystem, P: ProcessReadDir<C, Global>> WalkDirGeneric<
    C,
    S,
    P,
    Global,
    NoCrew,
> {
    /// Begins the walk as `into_iter` does, and calls a closure with each of its answers, in order.
    pub fn for_each<F: FnMut(Result<DirEntry<C, Global>, Error<Global>>)>(self, f: F)
        requires lawful { P.IsLawful (callback_of self) }
        requires callable { F.IsAlwaysCallable f }
        ensures { CallsWithEach
            (BeginsAlone S.FileSystem P.ProcessReadDir C.ReadDirState.Clone C.DirEntryState.Default self)
            (Answers S.FileSystem P.ProcessReadDir C.ReadDirState.Clone C.DirEntryState.Default
            ⟦<NoCrew as Readers<C, S, P, Global>>⟧) F.FnMut f }
    {
        hand_to(self.into_iter(), f)
    }

    /// Begins the walk as `into_iter` does, and calls a closure with its answers, in order, until it returns an error
    /// or the walk ends.
    ///
    /// # Errors
    ///
    /// The first error that the closure returns. The walk ends there, and no further answer is taken.
    pub fn try_for_each<
        E: Drop,
        F: FnMut(Result<DirEntry<C, Global>, Error<Global>>) -> Result<(), E>,
    >(self, f: F) -> Result<(), E>
        requires lawful { P.IsLawful (callback_of self) }
        requires callable { F.IsAlwaysCallable f }
        ensures { CallsUntilError
            (BeginsAlone S.FileSystem P.ProcessReadDir C.ReadDirState.Clone C.DirEntryState.Default self)
            (Answers S.FileSystem P.ProcessReadDir C.ReadDirState.Clone C.DirEntryState.Default
            ⟦<NoCrew as Readers<C, S, P, Global>>⟧) F.FnMut f result }
    {
        hand_until_error(self.into_iter(), f)
    }

    /// Begins the walk as `into_iter` does, and appends all its answers to `out`, in order.
    ///
    /// # Errors
    ///
    /// If memory runs out for `out`. It keeps the answers that were appended before, and the walk ends there. If the
    /// walk itself runs out of memory, the error is one of the answers.
    pub fn collect_into(
        self,
        out: &mut Vec<Result<DirEntry<C, Global>, Error<Global>>, Global>,
    ) -> Result<(), AllocError>
        requires { P.IsLawful (callback_of self) }
        ensures { Appends
            (BeginsAlone S.FileSystem P.ProcessReadDir C.ReadDirState.Clone C.DirEntryState.Default self)
            (Answers S.FileSystem P.ProcessReadDir C.ReadDirState.Clone C.DirEntryState.Default
            ⟦<NoCrew as Readers<C, S, P, Global>>⟧) out.old.items result out.new.items }
    {
        append_to(self.into_iter(), out)
    }
}

impl<
    R: Wait + Threads + Clock + Drop + Send + Sync + 'static,
    C: ClientState + Send + 'static,
    S: FileSystem + Send + Sync + 'static,
    P: ProcessReadDir<C, Global> + Send + Sync + 'static,
> WalkDirGeneric<C, S, P, Global, Crew<R>>
where
    C::ReadDirState: Send + 'static,
    C::DirEntryState: Send + 'static,
{
    /// Begins the walk as `into_iter` does, and calls a closure with each of its answers, in order.
    ///
    /// The call may block: for a place of the crew, for a reading, or for a lock.
    pub fn for_each<F: FnMut(Result<DirEntry<C, Global>, Error<Global>>)>(self, f: F)
        requires lawful { P.IsLawful (callback_of self) }
        requires callable { F.IsAlwaysCallable f }
        ensures { CallsWithEach
            (BeginsOver S.FileSystem P.ProcessReadDir C.ReadDirState.Clone C.DirEntryState.Default
            ⟦<Session<R, C, S, P, Global> as Readers<C, S, P, Global>>⟧ self)
            (Answers S.FileSystem P.ProcessReadDir C.ReadDirState.Clone C.DirEntryState.Default
            ⟦<Session<R, C, S, P, Global> as Readers<C, S, P, Global>>⟧) F.FnMut f }
    {
        hand_to(self.into_iter(), f)
    }

    /// Begins the walk as `into_iter` does, and calls a closure with its answers, in order, until it returns an error
    /// or the walk ends.
    ///
    /// The call may block: for a place of the crew, for a reading, or for a lock.
    ///
    /// # Errors
    ///
    /// The first error that the closure returns. The walk ends there, and no further answer is taken.
    pub fn try_for_each<
        E: Drop,
        F: FnMut(Result<DirEntry<C, Global>, Error<Global>>) -> Result<(), E>,
    >(self, f: F) -> Result<(), E>
        requires lawful { P.IsLawful (callback_of self) }
        requires callable { F.IsAlwaysCallable f }
        ensures { CallsUntilError
            (BeginsOver S.FileSystem P.ProcessReadDir C.ReadDirState.Clone C.DirEntryState.Default
            ⟦<Session<R, C, S, P, Global> as Readers<C, S, P, Global>>⟧ self)
            (Answers S.FileSystem P.ProcessReadDir C.ReadDirState.Clone C.DirEntryState.Default
            ⟦<Session<R, C, S, P, Global> as Readers<C, S, P, Global>>⟧) F.FnMut f result }
    {
        hand_until_error(self.into_iter(), f)
    }

    /// Begins the walk as `into_iter` does, and appends all its answers to `out`, in order.
    ///
    /// The call may block: for a place of the crew, for a reading, or for a lock.
    ///
    /// # Errors
    ///
    /// If memory runs out for `out`. It keeps the answers that were appended before, and the walk ends there. If the
    /// walk itself runs out of memory, the error is one of the answers.
    pub fn collect_into(
        self,
        out: &mut Vec<Result<DirEntry<C, Global>, Error<Global>>, Global>,
    ) -> Result<(), AllocError>
        requires { P.IsLawful (callback_of self) }
        ensures { Appends
            (BeginsOver S.FileSystem P.ProcessReadDir C.ReadDirState.Clone C.DirEntryState.Default
            ⟦<Session<R, C, S, P, Global> as Readers<C, S, P, Global>>⟧ self)
            (Answers S.FileSystem P.ProcessReadDir C.ReadDirState.Clone C.DirEntryState.Default
            ⟦<Session<R, C, S, P, Global> as Readers<C, S, P, Global>>⟧) out.old.items result out.new.items }
    {
        append_to(self.into_iter(), out)
    }
}
