//! A walk's answers, where threads read the directories that are read together.
ghost use Rattle.std.specs.Prelude.{◌≡◌, ◌≢◌, ◌⊎◌, true, false, [], OnOk};
ghost use Rattle.jwalk_job.specs.Job.{callback};

use crate::dir_entry_iter::DirEntryIter;
use crate::skip::Skip;
use jwalk_fs::file_system::FileSystem;
use jwalk_job::client_state::ClientState;
use jwalk_job::error::Error;
use jwalk_job::item::{Item, List};
use jwalk_job::process_read_dir::ProcessReadDir;
use jwalk_readings::read_dir_iter::ReadDirIter;
use jwalk_readings::readers::{Missed, Readers};
use jwalk_readings::readings::Readings;
use std::alloc::{AllocError, Allocator};
use std::thread::Threads;

impl<
    C: ClientState + Send,
    S: FileSystem + Send + Sync,
    P: ProcessReadDir<C, A> + Send + Sync,
    A: Allocator + Copy + Send + Sync,
    L: Readers<C, S, P, A>,
> DirEntryIter<C, S, P, A, L>
where
    C::ReadDirState: Send,
    C::DirEntryState: Send,
{
    ghost use Rattle.jwalk_order.specs.Addresses.{IsAmong};
    ghost use Rattle.jwalk_readings.specs.ReadDirIter.{next_address};
    ghost use Rattle.jwalk_iter.specs.DirEntryIter.{reads_of, by_crew, job_of, unread_of, early_of};
    ghost use Rattle.jwalk_iter.specs.Entries.{items_of, Prepares, Passes, GoesOn, Answers, Fills};
    ghost use Rattle.jwalk_iter.specs.Step.{IsAtDirectory};

    fn is_at_directory(&self) -> bool
        ensures yes { result ≡ true → unread_of self.now ≢ []
            → IsAtDirectory (items_of self.now) (unread_of self.now) }
        ensures no { result ≡ false → ¬ IsAtDirectory (items_of self.now) (unread_of self.now) }
    {
        match self.items.last() {
            Some(Ok(found)) => found.read_children.is_some(),
            Some(Err(_error)) => false,
            None => false,
        }
    }

    /// Makes sure that the next item can be passed without a reading. Nothing is read unless that item enters a
    /// directory.
    fn prepare_on<R: Threads + Sync>(&mut self, rt: &R) -> Result<(), AllocError>
        requires { P.IsLawful (callback (job_of self.old)) }
        ensures steps { Prepares ⟦<ReadDirIter<C, S, P, A, L> as Readings<C, A>>⟧
            self.old result self.new }
        ensures ready { IsAtDirectory (items_of self.old) (unread_of self.old) → OnOk result (by_crew self.old ≡ false
            → (unread_of self.new ≡ []) ⊎ IsAmong (next_address (reads_of self.new)) (early_of self.new)) }
    {
        if !self.is_at_directory() {
            return Ok(());
        }
        self.reads.prepare_on(rt)
    }

    fn pass_on<R: Threads + Sync>(&mut self, rt: &R) -> Result<Option<Item<C, A>>, Missed>
        requires { P.IsLawful (callback (job_of self.old)) }
        ensures { Passes ⟦<ReadDirIter<C, S, P, A, L> as Readings<C, A>>⟧
            self.old result self.new }
    {
        self.prepare_on(rt)?;
        self.pass()
    }

    fn next_kept_on<R: Threads + Sync>(&mut self, rt: &R) -> Result<Option<Item<C, A>>, Missed>
        requires { P.IsLawful (callback (job_of self.old)) }
        ensures { GoesOn ⟦<ReadDirIter<C, S, P, A, L> as Readings<C, A>>⟧
            self.old result self.new }
    {
        while let Some(passed) = self.pass_on(rt)? {
            if let Some(answer) = self.unless_too_shallow(passed) {
                return Ok(Some(answer));
            }
        }
        Ok(None)
    }

    /// Returns the next answer, like `Iterator::next`, with threads of this runtime to read the directories that are
    /// read together.
    ///
    /// `while let Some(answer) = walk.next_on(&rt)` is the loop that uses several threads. A `for` loop, and an
    /// iterator's adapters, call `Iterator::next`: the answers and their order are the same there. Over a crew both may
    /// block for a reading or for a lock.
    pub fn next_on<R: Threads + Sync>(&mut self, rt: &R) -> Option<Item<C, A>>
        requires { P.IsLawful (callback (job_of self.old)) }
        ensures { Answers ⟦<ReadDirIter<C, S, P, A, L> as Readings<C, A>>⟧
            self.old result self.new }
    {
        if self.refused {
            self.refused = false;
            self.skip = Skip::Nothing;
            return Some(Err(Error::memory()));
        }
        let came = self.next_kept_on(rt);
        self.answer(came)
    }

    /// Appends up to `n` answers to `out`, like [`fill`](DirEntryIter::fill), with threads of this runtime to read the
    /// directories that are read together.
    ///
    /// # Errors
    ///
    /// If memory runs out for the place, as with `fill`.
    pub fn fill_on<R: Threads + Sync>(
        &mut self,
        rt: &R,
        n: usize,
        out: &mut List<C, A>,
    ) -> Result<usize, AllocError>
        requires { P.IsLawful (callback (job_of self.old)) }
        ensures { Fills ⟦<ReadDirIter<C, S, P, A, L> as Readings<C, A>>⟧
            n self.old out.old.items result out.new.items self.new }
    {
        let mut filled = 0;
        while filled < n {
            out.reserve(1)?;
            let Some(answer) = self.next_on(rt) else {
                return Ok(filled);
            };
            out.push_reserved(answer);
            filled += 1;
        }
        Ok(filled)
    }
}
