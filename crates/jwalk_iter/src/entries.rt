//! A walk over any readings.
ghost use Rattle.std.specs.Prelude.{◌≡◌, true, Ok, IfOk, OnErr};
ghost use Rattle.jwalk_model.specs.Entry.{has_directory};
ghost use Rattle.jwalk_job.specs.Entry.{entry, item};
ghost use Rattle.jwalk_iter.specs.Skip.{drops};

mod on_threads;
mod starts;

use crate::skip::Skip;
use jwalk_job::client_state::ClientState;
use jwalk_job::dir_entry::DirEntry;
use jwalk_job::error::Error;
use jwalk_job::item::{Item, List};
use jwalk_job::read_dir::{Outcome, ReadDir};
use jwalk_readings::crew_reads::error_of;
use jwalk_readings::readers::Missed;
use jwalk_readings::readings::Readings;
use std::alloc::{AllocError, Allocator};

/// A walk under way: an iterator over its entries and errors, in strict depth-first order.
pub struct Entries<C: ClientState, A: Allocator + Copy, B> {
    reads: B,
    // What was received and not yet passed on, the next one last.
    items: List<C, A>,
    // Memory ran out at the start, and the error was not yielded yet.
    refused: bool,
    // What a skip drops, by the item that was yielded last.
    skip: Skip,
}

impl<C: ClientState, A: Allocator + Copy, B: Drop> Drop for Entries<C, A, B> {
    fn drop(self) {
        let Entries {
            reads: _,
            items: _,
            refused: _,
            skip: _,
        } = self;
    }
}

fn has_directory<C: ClientState, A: Allocator + Copy>(held: &Item<C, A>) -> bool
    ensures { result ≡ has_directory (item held.now) }
{
    match held {
        Ok(found) => found.read_children.is_some(),
        Err(_error) => false,
    }
}

impl<C: ClientState, A: Allocator + Copy, B> Entries<C, A, B> {
    ghost use Rattle.std.specs.Prelude.{◌++◌, ◌∷◌, ◌<◌, length, OnOk, IsSome, IfSome, IfNone, option_map, map};
    ghost use Rattle.std.specs.List.{prefix_len};
    ghost use Rattle.jwalk_job.specs.ReadDir.{reading, outcome};
    ghost use Rattle.jwalk_iter.specs.declared.skip.Skip.TheVariants.{Nothing};
    ghost use Rattle.jwalk_iter.specs.Entries.{reads_of, is_refused, items_of, skip_of};
    ghost use Rattle.jwalk_iter.specs.Step.{Receives};

    /// Returns the walk over these readings that holds a root's list. If `refused`, memory ran out: the walk first
    /// yields the error that reports it.
    pub fn with_list(reads: B, list: List<C, A>, refused: bool) -> Self
        ensures reads { reads_of result ≡ reads }
        ensures items { items_of result ≡ map item list.items }
        ensures refused { is_refused result ≡ refused }
        ensures skip { skip_of result ≡ Nothing }
    {
        let mut items = list;
        items.reverse();
        Entries {
            reads,
            items,
            refused,
            skip: Skip::Nothing,
        }
    }

    /// Returns whether memory ran out at the start, and the error that reports it was not yielded yet.
    pub fn is_refused(&self) -> bool
        ensures { result ≡ is_refused self.now }
    {
        self.refused
    }

    fn receive(&mut self, read: ReadDir<C, A>) -> Result<(), AllocError>
        ensures reads { self.new.reads ≡ self.old.reads }
        ensures refused { self.new.refused ≡ self.old.refused }
        ensures items { OnOk result (items_of self.new ≡ (reading read).list ++ items_of self.old) }
    {
        let mut items = read.into_results_list();
        items.reverse();
        if self.items.is_empty() {
            self.items = items;
            return Ok(());
        }
        self.items.append(&mut items)
    }

    /// Takes the next item from what is held, if a skip drops it.
    fn pop_dropped(&mut self) -> Option<Item<C, A>>
        ensures others { self.new ≡ record self.old { items = self.new.items } }
        ensures first { IfSome result (λ x. items_of self.old ≡ item x ∷ items_of self.new) }
        ensures dropped { IfSome result (λ x. drops self.old.skip (item x) ≡ true) }
        ensures fewer { IfSome result (λ x. length self.new.items.items < length self.old.items.items) }
        ensures none { IfNone result ((self.new ≡ self.old)
            × (prefix_len (drops self.old.skip) (items_of self.old) ≡ 0)) }
    {
        let Some(next) = self.items.last() else {
            return None;
        };
        if !self.skip.drops(next) {
            return None;
        }
        self.items.pop()
    }

    fn entered(
        &mut self,
        found: DirEntry<C, A>,
        read: Option<Outcome<C, A>>,
    ) -> Result<DirEntry<C, A>, AllocError>
        ensures refused { self.new.refused ≡ self.old.refused }
        ensures received { IfOk result (λ e. Receives (option_map outcome read) (Ok (entry found))
            (items_of self.old) (Ok (entry e)) (items_of self.new)) }
        ensures reads { self.new.reads ≡ self.old.reads }
        ensures stopped { OnErr result (IsSome read) }
    {
        match read {
            None => Ok(found),
            Some(Err(error)) => found.with_error(error),
            Some(Ok(read)) => {
                self.receive(read)?;
                Ok(found)
            }
        }
    }
}

impl<C: ClientState, A: Allocator + Copy, B: Readings<C, A>> Entries<C, A, B> {
    ghost use Rattle.std.specs.Prelude.{[], false, ◌<◌, IfSome, IfNone, OnOk};
    ghost use Rattle.std.specs.List.{prefix_len};
    ghost use Rattle.jwalk_model.specs.Listing.{is_answered};
    ghost use Rattle.jwalk_readings.specs.ReadAhead.{nothing_ahead};
    ghost use Rattle.jwalk_iter.specs.Entries.{min_depth_of, items_of, unread_of, Stays, Passes, GoesOn, Answers, AnswersWhatCame, Fills, Counts, StaysBehind, DropsFirst, DropsNext, Skips};

    fn stop(&mut self)
        ensures stays { Stays B.Readings self.old self.new }
        ensures items { items_of self.new ≡ [] }
        ensures unread { unread_of B.Readings self.new ≡ [] }
        ensures read_ahead { B.read_ahead self.new.reads ≡ nothing_ahead }
    {
        self.items.clear();
        self.reads.stop();
    }

    fn pass(&mut self) -> Result<Option<Item<C, A>>, Missed>
        requires { B.can_read (B.base self.old.reads) }
        ensures { Passes B.Readings self.old result self.new }
    {
        match self.items.pop() {
            None => Ok(None),
            Some(Err(error)) => Ok(Some(Err(error))),
            Some(Ok(found)) => {
                if found.read_children.is_none() {
                    return Ok(Some(Ok(found)));
                }
                if !self.reads.is_next(&found) {
                    return Err(Missed::Lost);
                }
                let read = self.reads.read_next()?;
                Ok(Some(Ok(self.entered(found, read)?)))
            }
        }
    }

    fn unless_too_shallow(&self, passed: Item<C, A>) -> Option<Item<C, A>>
        ensures some { IfSome result (λ answer. (answer
            ≡ passed) × (is_answered (min_depth_of B.Readings self.now) (item passed) ≡ true)) }
        ensures none { IfNone result (is_answered (min_depth_of B.Readings self.now) (item passed) ≡ false) }
    {
        if self.reads.options().is_deep_enough(&passed) {
            Some(passed)
        } else {
            None
        }
    }

    fn next_kept(&mut self) -> Result<Option<Item<C, A>>, Missed>
        requires { B.can_read (B.base self.old.reads) }
        ensures { GoesOn B.Readings self.old result self.new }
    {
        while let Some(passed) = self.pass()? {
            if let Some(answer) = self.unless_too_shallow(passed) {
                return Ok(Some(answer));
            }
        }
        Ok(None)
    }

    /// Returns what came; or the error that reports why nothing did, and then nothing is left.
    fn answer(&mut self, came: Result<Option<Item<C, A>>, Missed>) -> Option<Item<C, A>>
        ensures { AnswersWhatCame B.Readings came self.old result self.new }
    {
        let answer = match came {
            Ok(answer) => answer,
            Err(missed) => {
                self.stop();
                Some(Err(error_of(missed)))
            }
        };
        if let Some(yielded) = &answer {
            self.skip = Skip::behind(yielded);
        }
        answer
    }

    /// Returns the next answer; or the error that reports why it won't come, and then nothing is left.
    fn next_answer(&mut self) -> Option<Item<C, A>>
        requires { B.can_read (B.base self.old.reads) }
        ensures { Answers B.Readings self.old result self.new }
    {
        if self.refused {
            self.refused = false;
            self.skip = Skip::Nothing;
            return Some(Err(Error::memory()));
        }
        let came = self.next_kept();
        self.answer(came)
    }

    /// Appends up to `n` answers to `out`, fewer if the walk ends before that, and returns how many.
    ///
    /// An answer is taken from the walk only once `out` has a free place. Over a crew the call may block for a reading
    /// or for a lock.
    ///
    /// # Errors
    ///
    /// If memory runs out for the place. No answer is lost then: `out` has those that were appended, and another call
    /// appends the next ones. If the walk itself runs out of memory, the error is one of the answers.
    pub fn fill(&mut self, n: usize, out: &mut List<C, A>) -> Result<usize, AllocError>
        requires { B.can_read (B.base self.old.reads) }
        ensures { Fills B.Readings n self.old out.old.items result out.new.items self.new }
    {
        let mut filled = 0;
        while filled < n {
            out.reserve(1)?;
            let Some(answer) = self.next() else {
                return Ok(filled);
            };
            out.push_reserved(answer);
            filled += 1;
        }
        Ok(filled)
    }

    /// Drops the next item, if a skip drops it, and returns whether it did.
    ///
    /// # Errors
    ///
    /// If memory runs out for the directory below it.
    fn drop_next(&mut self) -> Result<bool, AllocError>
        ensures stays { StaysBehind B.Readings self.old self.new }
        ensures dropped { IfOk result (λ more. DropsNext B.Readings self.old more self.new) }
        ensures some { OnErr result (0 < prefix_len (drops self.old.skip) (items_of self.old)) }
    {
        let Some(dropped) = self.pop_dropped() else {
            return Ok(false);
        };
        if has_directory(&dropped) {
            self.reads.skip_next()?;
        }
        Ok(true)
    }

    /// Drops all that a skip drops.
    ///
    /// # Errors
    ///
    /// If memory runs out for a directory. A part is dropped then.
    fn drop_skipped(&mut self) -> Result<(), AllocError>
        ensures stays { StaysBehind B.Readings self.old self.new }
        ensures dropped { OnOk result (DropsFirst B.Readings self.old self.new
            × (prefix_len (drops self.new.skip) (items_of self.new) ≡ 0)) }
        ensures some { OnErr result (0 < prefix_len (drops self.old.skip) (items_of self.old)) }
    {
        while self.drop_next()? {}
        Ok(())
    }

    /// Skips what is left of a directory, by the item that was yielded last. It goes from what the walk holds, whatever
    /// the least depth is, and none of it is read or yielded any more:
    ///
    /// - behind a directory that was read, all that is below it;
    /// - behind a directory that was not read, since it is at the greatest depth, couldn't be read or was not to be read,
    ///   nothing: what is beside it comes;
    /// - behind any other entry, and behind an error, the rest of the list that it lies in. What is dropped ends before the
    ///   first item that lies less deep. An error that reports that memory ran out, or on a crew, lies in no list: nothing
    ///   goes behind it.
    ///
    /// Before the first answer, after `None` and a second time nothing changes. After `fill` the last of its answers
    /// counts. A directory that was yielded was read before. Of those that are skipped a serial walk reads none. In
    /// batches and over a crew some may have been read already, and readings that a crew's workers are at go on to their
    /// end: these are dropped, and no call waits for them. Over a crew it may block for a lock.
    ///
    /// If memory runs out, the walk yields the error that reports it, and then nothing is left.
    pub fn skip_current_dir(&mut self)
        ensures { Skips B.Readings self.old self.new }
    {
        if !self.refused && self.drop_skipped().is_err() {
            self.stop();
            self.refused = true;
        }
    }

    /// Returns how many directories were read whose readings are not yet handed on. A serial walk reads none ahead.
    /// Over a crew the number changes while the workers read, but it is at most one more than the crew's bound. There
    /// the call may block for a lock.
    pub fn ahead(&self) -> usize
        ensures { B.ready self.now.reads result }
    {
        self.reads.ahead()
    }

    /// Returns the number of answers that are still to come, or the greatest `usize` if there are more. Unlike
    /// `Iterator::count`, it needs no bound of them. Over a crew it may block for a reading or for a lock.
    pub fn count(self) -> usize
        requires { B.can_read (B.base self.reads) }
        ensures { Counts B.Readings self result }
    {
        let mut count: usize = 0;
        for _ in self {
            count = count.saturating_add(1);
        }
        count
    }
}

impl<C: ClientState, A: Allocator + Copy, B: Readings<C, A>> Iterator for Entries<C, A, B> {
    type Item = Item<C, A>;

    ghost use Rattle.std.specs.Iterator.{at_most};
    ghost use Rattle.jwalk_iter.specs.Entries.{weight_of, Answers};

    ghost can_next = { λ s. B.can_read (B.base s.reads) };

    ghost next_gives = { Answers B.Readings };

    ghost remaining = { λ s. at_most (weight_of B.Readings s) };

    fn next(&mut self) -> Option<Item<C, A>> {
        self.next_answer()
    }
}
