//! Subtotals while a walk is under way.
ghost use Rattle.std.specs.Prelude.{◌≡◌};
ghost use Rattle.std.specs.Iterator.{at_most};
ghost use Rattle.jwalk.specs.jwalk_job.Entry.{entry};
ghost use Rattle.jwalk_subtotals.specs.Subtotals.{is_asked};
ghost use Rattle.jwalk_subtotals.specs.Coming.{CanGoOn, Gives, weight};

use crate::counting::{one_error, own, size_of};
use crate::error::{SubtotalError, ends_walk};
use crate::files::Files;
use crate::options::SubtotalOptions;
use crate::stack::{Stack, WithSubtotal};
use crate::subtotal::Subtotal;
use jwalk::error::Result as Answer;
use jwalk::{ClientState, DirEntry, Error};
use jwalk_usage::UsageFault;
use std::alloc::Allocator;
use std::mem;

/// What is known of the walk's next answer.
#[derive(Drop)]
enum Ahead<C: ClientState, A: Allocator + Copy> {
    /// It wasn't taken from the walk.
    Unasked,
    /// It was taken, and isn't counted yet.
    Taken(Answer<DirEntry<C, A>, A>),
    /// There is none: the walk has ended.
    Over,
}

/// What a turn does.
#[derive(Drop)]
enum Turn<C: ClientState, A: Allocator + Copy> {
    Yields(Result<WithSubtotal<C, A>, SubtotalError<A>>),
    GoesOn,
    Ends,
}

/// An iterator over the subtotals of a walk, which [`subtotals`](crate::subtotals) returns.
pub struct Subtotals<C: ClientState, A: Allocator + Copy, I> {
    answers: I,
    options: SubtotalOptions,
    stack: Stack<C, A>,
    files: Files<A>,
    ahead: Ahead<C, A>,
    // An error was yielded behind which nothing comes.
    stopped: bool,
}

impl<C: ClientState, A: Allocator + Copy, I: Drop> Drop for Subtotals<C, A, I> {
    fn drop(self) {
        let Subtotals {
            answers: _,
            options: _,
            stack: _,
            files: _,
            ahead: _,
            stopped: _,
        } = self;
    }
}

fn is_asked<C: ClientState, A: Allocator + Copy>(
    options: &SubtotalOptions,
    found: &DirEntry<C, A>,
) -> bool
    ensures { result ≡ is_asked options.now (entry found.now) }
{
    let depth = found.depth();
    depth <= options.max_depth
        && (options.all
            || depth == 0
            || found.file_type().is_dir()
            || found.read_children_error().is_some())
}

impl<C: ClientState, A: Allocator + Copy, I: Iterator<Item = Answer<DirEntry<C, A>, A>>> Subtotals<
    C,
    A,
    I,
> {
    ghost use Rattle.std.specs.Prelude.{[], true, false, Ok, Err, OnOk, IfOk, IfErr};
    ghost use Rattle.std.specs.Iterator.{IsFinite};
    ghost use Rattle.jwalk_subtotals.specs.declared.iter.Turn.TheVariants.{Yields, GoesOn};
    ghost use Rattle.jwalk_subtotals.specs.declared.iter.Ahead.TheVariants.{Unasked, Taken, Over};
    ghost use Rattle.jwalk_subtotals.specs.Coming.{answers_of, options_of, held, is_stopped, is_taken, IsFreshBeside};
    ghost use Rattle.jwalk_subtotals.specs.Files.{files_of};
    ghost use Rattle.jwalk_subtotals.specs.Error.{is_last};
    ghost use Rattle.jwalk_subtotals.specs.Stack.{open_total};
    ghost use Rattle.jwalk_subtotals.specs.Subtotal.{IsTooGreat};
    ghost use Rattle.jwalk_subtotals.specs.declared.error.SubtotalError.TheVariants.{TooMany};
    ghost use Rattle.jwalk_subtotals.specs.Turns.{CannotEnter, Closes, Enters, Turns};

    pub(crate) fn new(alloc: A, files: Files<A>, answers: I, options: SubtotalOptions) -> Self
        ensures fresh { IsFreshBeside (files_of files) result }
        ensures answers { answers_of result ≡ answers }
        ensures options { options_of result ≡ options }
    {
        Subtotals {
            answers,
            options,
            stack: Stack::new(alloc),
            files,
            ahead: Ahead::Unasked,
            stopped: false,
        }
    }

    /// Returns the files that were counted so far, for the subtotals of another walk
    /// ([`subtotals_beside`](crate::subtotals_beside)), and leaves none: what comes later counts as if none were counted.
    pub fn take_files(&mut self) -> Files<A>
        ensures taken { files_of result ≡ (held self.old).files }
        ensures rest { self.new ≡ record self.old { files = self.new.files } }
        ensures none { (held self.new).files ≡ [] }
    {
        self.files.take()
    }

    /// Returns what the entries that are open, and what was taken below them, count so far.
    ///
    /// # Errors
    ///
    /// `UsageFault::TooMany` if a number passes the greatest `u128`.
    pub fn so_far(&self) -> Result<Subtotal, UsageFault>
        ensures total { IfOk result (λ total. total ≡ open_total (held self.now).frames) }
        ensures too_many { IfErr result (λ fault. (fault ≡ UsageFault.TooMany) × IsTooGreat (open_total (held self.now).frames)) }
    {
        self.stack.total()
    }

    fn stop(&mut self, error: SubtotalError<A>) -> Turn<C, A>
        ensures yields { result ≡ Yields (Err error) }
        ensures stopped { self.new ≡ record self.old { stopped = true } }
    {
        self.stopped = true;
        Turn::Yields(Err(error))
    }

    fn close(&mut self) -> Turn<C, A>
        requires runs { is_stopped self.old ≡ false }
        ensures { Closes self.old result self.new }
    {
        match self.stack.close() {
            Ok(Some(closed)) => Turn::Yields(Ok(closed)),
            Ok(None) => Turn::GoesOn,
            Err(_) => self.stop(SubtotalError::TooMany),
        }
    }

    /// Opens an entry that is asked for. Another counts below the last open entry, and isn't kept.
    fn enter(&mut self, found: DirEntry<C, A>) -> Result<(), SubtotalError<A>>
        ensures rest { self.new ≡ record self.old { stack = self.new.stack; files = self.new.files } }
        ensures entered { OnOk result (Enters (options_of self.old) (held self.old) (entry found) (held self.new)) }
        ensures last { IfErr result (λ error. is_last error ≡ true) }
        ensures too_many { IfErr result (λ error. error ≡ TooMany → CannotEnter (options_of self.old) (held self.old) (entry found)) }
    {
        let size = size_of(&self.options, &found);
        let again = self.files.insert(size.file)?;
        let counted = own(&size, again, &found);
        if is_asked(&self.options, &found) {
            self.stack.push(found, counted)?;
        } else {
            self.stack.count(&counted)?;
        }
        Ok(())
    }

    /// Enters an entry that was taken; or first closes one that it isn't below.
    fn place(&mut self, found: DirEntry<C, A>) -> Turn<C, A>
        requires can { I.can_next (answers_of self.old) }
        requires ends { IsFinite (I.remaining (answers_of self.old)) }
        requires runs { is_stopped self.old ≡ false }
        requires unasked { self.old.ahead ≡ Unasked }
        ensures { Turns I.next_gives I.can_next I.remaining (record self.old { ahead = Taken (Ok found) }) result self.new }
    {
        if !self.stack.is_above(found.depth()) {
            self.ahead = Ahead::Taken(Ok(found));
            return self.close();
        }
        match self.enter(found) {
            Ok(()) => Turn::GoesOn,
            Err(error) => self.stop(error),
        }
    }

    /// Counts an error that was taken; or first closes an entry that it isn't below. An error with which the walk ends
    /// is yielded at once.
    fn place_error(&mut self, error: Error<A>) -> Turn<C, A>
        requires can { I.can_next (answers_of self.old) }
        requires ends { IsFinite (I.remaining (answers_of self.old)) }
        requires runs { is_stopped self.old ≡ false }
        requires unasked { self.old.ahead ≡ Unasked }
        ensures { Turns I.next_gives I.can_next I.remaining (record self.old { ahead = Taken (Err error) }) result self.new }
    {
        if ends_walk(&error) {
            return self.stop(SubtotalError::Walk(error));
        }
        if !self.stack.is_above(error.depth()) {
            self.ahead = Ahead::Taken(Err(error));
            return self.close();
        }
        match self.stack.count(&one_error()) {
            Ok(()) => Turn::Yields(Err(SubtotalError::Walk(error))),
            Err(_) => self.stop(SubtotalError::TooMany),
        }
    }

    fn close_last(&mut self) -> Turn<C, A>
        requires runs { is_stopped self.old ≡ false }
        requires over { self.old.ahead ≡ Over }
        ensures { Turns I.next_gives I.can_next I.remaining self.old result self.new }
    {
        if self.stack.is_empty() {
            return Turn::Ends;
        }
        self.close()
    }

    /// Takes an answer, and counts it, unless an open entry is closed first.
    fn take(&mut self) -> Turn<C, A>
        requires can { I.can_next (answers_of self.old) }
        requires ends { IsFinite (I.remaining (answers_of self.old)) }
        requires runs { is_stopped self.old ≡ false }
        requires unasked { self.old.ahead ≡ Unasked }
        ensures { Turns I.next_gives I.can_next I.remaining self.old result self.new }
    {
        match self.answers.next() {
            Some(Ok(found)) => self.place(found),
            Some(Err(error)) => self.place_error(error),
            None => {
                self.ahead = Ahead::Over;
                self.close_last()
            }
        }
    }

    /// Places the answer that was taken.
    fn place_taken(&mut self) -> Turn<C, A>
        requires can { I.can_next (answers_of self.old) }
        requires ends { IsFinite (I.remaining (answers_of self.old)) }
        requires runs { is_stopped self.old ≡ false }
        requires taken { is_taken self.old ≡ true }
        ensures { Turns I.next_gives I.can_next I.remaining self.old result self.new }
    {
        match mem::replace(&mut self.ahead, Ahead::Unasked) {
            Ahead::Taken(Ok(found)) => self.place(found),
            Ahead::Taken(Err(error)) => self.place_error(error),
            Ahead::Unasked | Ahead::Over => unreachable!(),
        }
    }

    /// Counts an answer or closes an entry.
    fn turn(&mut self) -> Turn<C, A>
        requires { CanGoOn I.can_next I.remaining self.old }
        ensures { Turns I.next_gives I.can_next I.remaining self.old result self.new }
    {
        if self.stopped {
            return Turn::Ends;
        }
        match &self.ahead {
            Ahead::Unasked => self.take(),
            Ahead::Taken(_) => self.place_taken(),
            Ahead::Over => self.close_last(),
        }
    }
}

impl<C: ClientState, A: Allocator + Copy, I: Iterator<Item = Answer<DirEntry<C, A>, A>>> Iterator
    for Subtotals<C, A, I> {
    type Item = Result<WithSubtotal<C, A>, SubtotalError<A>>;

    ghost can_next = { CanGoOn I.can_next I.remaining };

    ghost next_gives = { Gives I.next_gives };

    ghost remaining = { λ s. at_most (weight I.remaining s) };

    fn next(&mut self) -> Option<Result<WithSubtotal<C, A>, SubtotalError<A>>> {
        loop {
            match self.turn() {
                Turn::Yields(yielded) => return Some(yielded),
                Turn::GoesOn => {}
                Turn::Ends => return None,
            }
        }
    }
}
