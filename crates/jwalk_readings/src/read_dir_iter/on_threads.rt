//! Readings in preorder, with threads for those that are made together.
ghost use Rattle.std.specs.Prelude.{◌≡◌, ◌⊎◌, false, Ok, [], OnOk, IsSome};
ghost use Rattle.jwalk_job.specs.Entry.{entry};
ghost use Rattle.jwalk_job.specs.Job.{callback};

use crate::read_dir_iter::ReadDirIter;
use crate::readers::Readers;
use crate::readings::Readings;
use jwalk_fs::file_system::FileSystem;
use jwalk_job::client_state::ClientState;
use jwalk_job::dir_entry::DirEntry;
use jwalk_job::error::Error;
use jwalk_job::process_read_dir::ProcessReadDir;
use jwalk_job::read_dir::Outcome;
use std::alloc::{AllocError, Allocator};
use std::thread::Threads;

impl<
    C: ClientState + Send,
    S: FileSystem + Send + Sync,
    P: ProcessReadDir<C, A> + Send + Sync,
    A: Allocator + Copy + Send + Sync,
    L: Readers<C, S, P, A>,
> ReadDirIter<C, S, P, A, L>
where
    C::ReadDirState: Send,
    C::DirEntryState: Send,
{
    ghost use Rattle.jwalk_order.specs.Addresses.{IsAmong};
    ghost use Rattle.jwalk_readings.specs.Gives.{Prepares};
    ghost use Rattle.jwalk_readings.specs.ReadDirIter.{by_crew, job_of, to_read, early_of, next_address, Gives, GivesOf};

    /// Makes sure that the next reading is made, if any is left and no crew reads. If it isn't made yet, the
    /// directories that are read together with it are read, on several threads if there are enough of them to be worth
    /// it. The next call then reads nothing.
    ///
    /// # Errors
    ///
    /// If memory runs out. Then nothing is left to be read.
    pub fn prepare_on<R: Threads + Sync>(&mut self, rt: &R) -> Result<(), AllocError>
        requires { P.IsLawful (callback (job_of self.old)) }
        ensures steps { Prepares ⟦<ReadDirIter<C, S, P, A, L> as Readings<C, A>>⟧ self.old result self.new }
        ensures ready { OnOk result (by_crew self.old ≡ false
            → (to_read self.new ≡ []) ⊎ IsAmong (next_address self.new) (early_of self.new)) }
    {
        match self {
            ReadDirIter::Walk(walk) => walk.prepare_on(rt),
            ReadDirIter::CrewWalk(_) => Ok(()),
        }
    }

    /// Returns the next reading, like `Iterator::next`, with threads of this runtime to make those that are made
    /// together. `while let Some(read) = reads.next_on(&rt)` is the loop that uses several threads.
    pub fn next_on<R: Threads + Sync>(&mut self, rt: &R) -> Option<Outcome<C, A>>
        requires { P.IsLawful (callback (job_of self.old)) }
        ensures { Gives S.FileSystem P.ProcessReadDir C.ReadDirState.Clone C.DirEntryState.Default L.Readers
            self.old result self.new }
    {
        match self.prepare_on(rt) {
            Ok(()) => self.next_or_stop(),
            Err(_) => Some(Err(Error::memory())),
        }
    }

    /// Returns the reading of an entry's directory, like [`next_of`](ReadDirIter::next_of), with threads of this runtime
    /// to make those that are made together.
    pub fn next_of_on<R: Threads + Sync>(
        &mut self,
        rt: &R,
        found: &DirEntry<C, A>,
    ) -> Option<Outcome<C, A>>
        requires lawful { P.IsLawful (callback (job_of self.old)) }
        requires has_directory { IsSome found.now.read_children }
        ensures { GivesOf S.FileSystem P.ProcessReadDir C.ReadDirState.Clone C.DirEntryState.Default L.Readers
            self.old (Ok (entry found.now)) result self.new }
    {
        prove!(found.read_children.is_some());
        if !self.is_next(found) {
            Readings::stop(self);
            return Some(Err(Error::lost()));
        }
        self.next_on(rt)
    }
}
