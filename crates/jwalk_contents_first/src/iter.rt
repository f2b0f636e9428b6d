//! The entries of a walk, each behind what is below it, while the walk is under way.
ghost use Rattle.std.specs.Prelude.{◌≡◌};
ghost use Rattle.std.specs.Iterator.{at_most};
ghost use Rattle.jwalk_job.specs.Error.{failure};
ghost use Rattle.jwalk_contents_first.specs.ContentsFirst.{ends_walk};
ghost use Rattle.jwalk_contents_first.specs.Coming.{CanGoOn, Gives, weight};

use crate::held::Held;
use jwalk_job::client_state::ClientState;
use jwalk_job::dir_entry::DirEntry;
use jwalk_job::error::Error;
use std::alloc::Allocator;
use std::mem;

/// What is known of the walk's next answer.
#[derive(Drop)]
enum Ahead<C: ClientState, A: Allocator + Copy> {
    /// It wasn't taken from the walk.
    Unasked,
    /// It was taken, and isn't placed yet.
    Taken(Result<DirEntry<C, A>, Error<A>>),
    /// There is none: the walk has ended.
    Over,
}

/// What a turn does.
#[derive(Drop)]
enum Turn<C: ClientState, A: Allocator + Copy> {
    Yields(Result<DirEntry<C, A>, Error<A>>),
    GoesOn,
    Ends,
}

/// An iterator over the entries of a walk, each behind what is below it, which
/// [`contents_first`](crate::WalkExt::contents_first) returns.
pub struct ContentsFirst<C: ClientState, A: Allocator + Copy, I> {
    answers: I,
    held: Held<C, A>,
    ahead: Ahead<C, A>,
    // An error was yielded behind which nothing comes.
    stopped: bool,
}

impl<C: ClientState, A: Allocator + Copy, I: Drop> Drop for ContentsFirst<C, A, I> {
    fn drop(self) {
        let ContentsFirst {
            answers: _,
            held: _,
            ahead: _,
            stopped: _,
        } = self;
    }
}

/// Returns whether an error of a walk is one with which the walk ends: memory ran out, or it reports on a crew.
fn ends_walk<A: Allocator + Copy>(error: &Error<A>) -> bool
    ensures { result ≡ ends_walk (failure error.now) }
{
    error.is_memory() || error.is_lost() || error.is_busy()
}

impl<
    C: ClientState,
    A: Allocator + Copy,
    I: Iterator<Item = Result<DirEntry<C, A>, Error<A>>>,
> ContentsFirst<C, A, I> {
    ghost use Rattle.std.specs.Prelude.{true, false, Ok, Err};
    ghost use Rattle.std.specs.Iterator.{IsFinite};
    ghost use Rattle.jwalk_contents_first.specs.declared.iter.Turn.TheVariants.{Yields};
    ghost use Rattle.jwalk_contents_first.specs.declared.iter.Ahead.TheVariants.{Unasked, Taken, Over};
    ghost use Rattle.jwalk_contents_first.specs.Coming.{answers_of, asks, is_stopped, is_taken, IsFresh};
    ghost use Rattle.jwalk_contents_first.specs.Turns.{ahead_of, turn_of, LetsOut, Turns};

    pub(crate) fn new(answers: I) -> Self
        ensures fresh { IsFresh result }
        ensures answers { answers_of result ≡ answers }
    {
        ContentsFirst {
            answers,
            held: Held::new(),
            ahead: Ahead::Unasked,
            stopped: false,
        }
    }

    fn stop(&mut self, error: Error<A>) -> Turn<C, A>
        ensures yields { result ≡ Yields (Err error) }
        ensures stopped { self.new ≡ record self.old { stopped = true } }
    {
        self.stopped = true;
        Turn::Yields(Err(error))
    }

    /// Yields the last entry that is held back.
    fn let_out(&mut self) -> Turn<C, A>
        requires runs { is_stopped self.old ≡ false }
        ensures { LetsOut self.old result self.new }
    {
        match self.held.pop() {
            Some(found) => Turn::Yields(Ok(found)),
            None => Turn::GoesOn,
        }
    }

    /// Holds back an entry that was taken; or first lets out one that it isn't below.
    fn place(&mut self, found: DirEntry<C, A>) -> Turn<C, A>
        requires can { I.can_next (answers_of self.old) }
        requires ends { IsFinite (I.remaining (answers_of self.old)) }
        requires runs { is_stopped self.old ≡ false }
        requires unasked { self.old.ahead ≡ Unasked }
        ensures { Turns I.next_gives I.can_next I.remaining (record self.old { ahead = Taken (Ok found) }) result self.new }
    {
        if !self.held.is_above(found.depth()) {
            self.ahead = Ahead::Taken(Ok(found));
            return self.let_out();
        }
        match self.held.push(found) {
            Ok(()) => Turn::GoesOn,
            Err(_) => self.stop(Error::memory()),
        }
    }

    /// Yields an error that was taken; or first lets out an entry that it isn't below. An error with which the walk ends
    /// is yielded at once.
    fn place_error(&mut self, error: Error<A>) -> Turn<C, A>
        requires can { I.can_next (answers_of self.old) }
        requires ends { IsFinite (I.remaining (answers_of self.old)) }
        requires runs { is_stopped self.old ≡ false }
        requires unasked { self.old.ahead ≡ Unasked }
        ensures { Turns I.next_gives I.can_next I.remaining (record self.old { ahead = Taken (Err error) }) result self.new }
    {
        if ends_walk(&error) {
            return self.stop(error);
        }
        if !self.held.is_above(error.depth()) {
            self.ahead = Ahead::Taken(Err(error));
            return self.let_out();
        }
        Turn::Yields(Err(error))
    }

    /// Returns whether an answer is to be taken from the walk.
    fn asks(&self) -> bool
        ensures { result ≡ asks self.now }
    {
        !self.stopped && matches!(self.ahead, Ahead::Unasked)
    }

    /// Has an answer wait to be placed. If it is `None`, the walk has ended.
    // Apart, since few answers wait: `take` is faster without the variables of this.
    #[inline(never)]
    fn wait(&mut self, answer: Option<Result<DirEntry<C, A>, Error<A>>>)
        ensures { self.new ≡ record self.old { ahead = ahead_of answer } }
    {
        self.ahead = match answer {
            Some(taken) => Ahead::Taken(taken),
            None => Ahead::Over,
        };
    }

    /// Takes an answer, which then waits. If it is an entry that can take the place of the last one held back, it does so
    /// at once, and that one is returned.
    fn take(&mut self) -> Option<Result<DirEntry<C, A>, Error<A>>>
        requires can { CanGoOn I.can_next I.remaining self.old }
        requires asks { asks self.old ≡ true }
        ensures { Turns I.next_gives I.can_next I.remaining self.old (turn_of result) self.new }
    {
        let mut answer = self.answers.next();
        if let Some(Ok(found)) = &mut answer {
            if self.held.swap_last(found) {
                return answer;
            }
        }
        self.wait(answer);
        None
    }

    /// Places the answer that was taken.
    fn place_taken(&mut self) -> Turn<C, A>
        requires can { I.can_next (answers_of self.old) }
        requires ends { IsFinite (I.remaining (answers_of self.old)) }
        requires runs { is_stopped self.old ≡ false }
        requires taken { is_taken self.old ≡ true }
        ensures { Turns I.next_gives I.can_next I.remaining self.old result self.new }
    {
        match mem::replace(&mut self.ahead, Ahead::Unasked) {
            Ahead::Taken(Ok(found)) => self.place(found),
            Ahead::Taken(Err(error)) => self.place_error(error),
            Ahead::Unasked | Ahead::Over => unreachable!(),
        }
    }

    /// Lets out an entry once the walk has ended.
    fn let_out_last(&mut self) -> Turn<C, A>
        requires runs { is_stopped self.old ≡ false }
        requires over { self.old.ahead ≡ Over }
        ensures { Turns I.next_gives I.can_next I.remaining self.old result self.new }
    {
        match self.held.pop() {
            Some(found) => Turn::Yields(Ok(found)),
            None => Turn::Ends,
        }
    }

    /// Places the answer that waits, or lets out an entry.
    // Apart, since most calls of `next` only take an answer: they are faster without the variables of this.
    #[inline(never)]
    fn turn(&mut self) -> Turn<C, A>
        requires can { CanGoOn I.can_next I.remaining self.old }
        requires waits { asks self.old ≡ false }
        ensures { Turns I.next_gives I.can_next I.remaining self.old result self.new }
    {
        if self.stopped {
            return Turn::Ends;
        }
        match &self.ahead {
            Ahead::Unasked => unreachable!(),
            Ahead::Taken(_) => self.place_taken(),
            Ahead::Over => self.let_out_last(),
        }
    }
}

impl<
    C: ClientState,
    A: Allocator + Copy,
    I: Iterator<Item = Result<DirEntry<C, A>, Error<A>>>,
> Iterator for ContentsFirst<C, A, I> {
    type Item = Result<DirEntry<C, A>, Error<A>>;

    ghost can_next = { CanGoOn I.can_next I.remaining };

    ghost next_gives = { Gives I.next_gives };

    ghost remaining = { λ s. at_most (weight I.remaining s) };

    fn next(&mut self) -> Option<Result<DirEntry<C, A>, Error<A>>> {
        loop {
            if self.asks() {
                if let Some(yielded) = self.take() {
                    return Some(yielded);
                }
            } else {
                match self.turn() {
                    Turn::Yields(yielded) => return Some(yielded),
                    Turn::GoesOn => {}
                    Turn::Ends => return None,
                }
            }
        }
    }
}
