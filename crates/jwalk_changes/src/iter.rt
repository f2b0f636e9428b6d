//! Differences while two lists are compared.
ghost use Rattle.std.specs.Prelude.{◌≡◌};
ghost use Rattle.std.specs.Iterator.{at_most};
ghost use Rattle.jwalk_changes.specs.Coming.{CanGoOn, Gives, weight};
ghost use Rattle.jwalk_changes.specs.Steps.{step_of, step_at, step_behind, turn_both};

use crate::at_path::{AtPath, compare, is_below};
use crate::change::{Change, NotAscending};
use crate::entry::Entry;
use crate::side::{Ahead, Side};
use std::cmp::Ordering;

/// Which side has the first entry that isn't compared yet.
#[derive(Clone, Copy)]
pub(crate) enum First {
    Old,
    New,
    /// Both have one at the same path.
    Both,
}

/// What comes next.
#[derive(Clone, Copy)]
pub(crate) enum Step {
    /// The first entry is compared.
    Tell(First),
    /// The first entry is below a place whose contents aren't known.
    Skip(First),
    /// The next of these places doesn't matter to what is left.
    Pass,
    /// Nothing is left.
    End,
}

/// What a turn does.
#[derive(Drop)]
enum Turn<O, N> {
    Yields(Result<Change<O, N>, NotAscending>),
    GoesOn,
    Ends,
}

/// An iterator over the differences of two lists, which [`changes`](crate::changes) returns.
#[derive(Drop)]
pub struct Changes<I, J, K, O, N, U> {
    olds: Side<O, I>,
    news: Side<N, J>,
    unknown: Side<U, K>,
    // An error was yielded.
    stopped: bool,
}

fn step_at<P: AtPath, U: AtPath>(unknown: &Ahead<U>, entry: &P, first: First) -> Step
    ensures { result ≡ step_at U.path unknown.now (P.path entry.now) first }
{
    match unknown {
        Ahead::Taken(place) if compare(place, entry).is_lt() => {
            if is_below(place, entry) {
                Step::Skip(first)
            } else {
                Step::Pass
            }
        }
        _ => Step::Tell(first),
    }
}

fn step_behind<U>(unknown: &Ahead<U>) -> Step
    ensures { result ≡ step_behind unknown.now }
{
    match unknown {
        Ahead::Taken(_) => Step::Pass,
        _ => Step::End,
    }
}

fn step_of<O: AtPath, N: AtPath, U: AtPath>(
    old: &Ahead<O>,
    new: &Ahead<N>,
    unknown: &Ahead<U>,
) -> Step
    ensures { result ≡ step_of O.path N.path U.path old.now new.now unknown.now }
{
    match (old, new) {
        (Ahead::Taken(old), Ahead::Taken(new)) => match compare(old, new) {
            Ordering::Less => step_at(unknown, old, First::Old),
            Ordering::Equal => step_at(unknown, old, First::Both),
            Ordering::Greater => step_at(unknown, new, First::New),
        },
        (Ahead::Taken(old), _) => step_at(unknown, old, First::Old),
        (_, Ahead::Taken(new)) => step_at(unknown, new, First::New),
        _ => step_behind(unknown),
    }
}

/// Returns what is told of two entries at one path.
fn told_both<O: Entry, N: Entry>(old: Option<O>, new: Option<N>) -> Turn<O, N>
    ensures { result ≡ turn_both O.facts N.facts old new }
{
    match (old, new) {
        (Some(old), Some(new)) => {
            let which = old.facts().which(new.facts());
            if which.any() {
                Turn::Yields(Ok(Change::Changed(old, new, which)))
            } else {
                Turn::GoesOn
            }
        }
        _ => Turn::GoesOn,
    }
}

impl<
    O: Entry,
    N: Entry,
    U: AtPath,
    I: Iterator<Item = O>,
    J: Iterator<Item = N>,
    K: Iterator<Item = U>,
> Changes<I, J, K, O, N, U> {
    ghost use Rattle.std.specs.Prelude.{false, true, IfSome, IfNone};
    ghost use Rattle.std.specs.Bool.{OnTrue, OnFalse};
    ghost use Rattle.jwalk_changes.specs.declared.iter.Turn.TheVariants.{GoesOn};
    ghost use Rattle.jwalk_changes.specs.declared.iter.Step.TheVariants.{Tell, Skip, Pass};
    ghost use Rattle.jwalk_changes.specs.Coming.{old_of, new_of, unknown_of, IsFresh, HasFallen, is_stopped};
    ghost use Rattle.jwalk_changes.specs.Steps.{AreAsked, DoAscend, Turns};
    ghost use Rattle.jwalk_changes.specs.declared.iter.First.TheVariants.{Old, New, Both};

    pub(crate) fn new(old: I, new: J, unknown: K) -> Self
        ensures fresh { IsFresh result }
        ensures old { old_of result ≡ old }
        ensures new { new_of result ≡ new }
        ensures unknown { unknown_of result ≡ unknown }
    {
        Changes {
            olds: Side::new(old),
            news: Side::new(new),
            unknown: Side::new(unknown),
            stopped: false,
        }
    }

    /// Returns an input that was found not to ascend.
    fn fallen(&self) -> Option<NotAscending>
        ensures fallen { IfSome result (λ input. HasFallen self.now input) }
        ensures ascend { is_stopped self.now ≡ false → IfNone result (DoAscend self.now) }
    {
        match (&self.olds.ahead, &self.news.ahead, &self.unknown.ahead) {
            (Ahead::Fallen, _, _) => Some(NotAscending::Old),
            (_, Ahead::Fallen, _) => Some(NotAscending::New),
            (_, _, Ahead::Fallen) => Some(NotAscending::Unknown),
            _ => None,
        }
    }

    fn stop(&mut self, input: NotAscending) -> Turn<O, N>
        requires can { CanGoOn I.can_next I.remaining J.can_next J.remaining K.can_next K.remaining self.old }
        requires runs { is_stopped self.old ≡ false }
        requires fallen { HasFallen self.old input }
        ensures { Turns I.next_gives J.next_gives K.next_gives I.can_next I.remaining J.can_next J.remaining K.can_next K.remaining O.path O.facts N.path N.facts U.path self.old result self.new }
    {
        self.stopped = true;
        Turn::Yields(Err(input))
    }

    /// Asks an input that wasn't asked yet, if there is one.
    fn ask(&mut self) -> bool
        requires can { CanGoOn I.can_next I.remaining J.can_next J.remaining K.can_next K.remaining self.old }
        requires ascend { DoAscend self.old }
        ensures asked { OnTrue result (Turns I.next_gives J.next_gives K.next_gives I.can_next I.remaining J.can_next J.remaining K.can_next K.remaining O.path O.facts N.path N.facts U.path self.old GoesOn self.new) }
        ensures unchanged { OnFalse result (self.new ≡ self.old) }
        ensures all_asked { OnFalse result (AreAsked self.old) }
    {
        if let Ahead::Unasked = &self.olds.ahead {
            self.olds.advance();
        } else if let Ahead::Unasked = &self.news.ahead {
            self.news.advance();
        } else if let Ahead::Unasked = &self.unknown.ahead {
            self.unknown.advance();
        } else {
            return false;
        }
        true
    }

    /// Passes the first entry, and yields what differs at its path.
    fn tell(&mut self, first: First) -> Turn<O, N>
        requires can { CanGoOn I.can_next I.remaining J.can_next J.remaining K.can_next K.remaining self.old }
        requires asked { AreAsked self.old }
        requires step { step_of O.path N.path U.path self.old.olds.ahead self.old.news.ahead self.old.unknown.ahead ≡ Tell first }
        ensures { Turns I.next_gives J.next_gives K.next_gives I.can_next I.remaining J.can_next J.remaining K.can_next K.remaining O.path O.facts N.path N.facts U.path self.old result self.new }
    {
        match first {
            First::Old => self.tell_old(),
            First::New => self.tell_new(),
            First::Both => self.tell_both(),
        }
    }

    fn tell_old(&mut self) -> Turn<O, N>
        requires can { CanGoOn I.can_next I.remaining J.can_next J.remaining K.can_next K.remaining self.old }
        requires asked { AreAsked self.old }
        requires step { step_of O.path N.path U.path self.old.olds.ahead self.old.news.ahead self.old.unknown.ahead ≡ Tell Old }
        ensures { Turns I.next_gives J.next_gives K.next_gives I.can_next I.remaining J.can_next J.remaining K.can_next K.remaining O.path O.facts N.path N.facts U.path self.old result self.new }
    {
        match self.olds.advance() {
            Some(old) => Turn::Yields(Ok(Change::Removed(old))),
            None => Turn::GoesOn,
        }
    }

    fn tell_new(&mut self) -> Turn<O, N>
        requires can { CanGoOn I.can_next I.remaining J.can_next J.remaining K.can_next K.remaining self.old }
        requires asked { AreAsked self.old }
        requires step { step_of O.path N.path U.path self.old.olds.ahead self.old.news.ahead self.old.unknown.ahead ≡ Tell New }
        ensures { Turns I.next_gives J.next_gives K.next_gives I.can_next I.remaining J.can_next J.remaining K.can_next K.remaining O.path O.facts N.path N.facts U.path self.old result self.new }
    {
        match self.news.advance() {
            Some(new) => Turn::Yields(Ok(Change::Added(new))),
            None => Turn::GoesOn,
        }
    }

    fn tell_both(&mut self) -> Turn<O, N>
        requires can { CanGoOn I.can_next I.remaining J.can_next J.remaining K.can_next K.remaining self.old }
        requires asked { AreAsked self.old }
        requires step { step_of O.path N.path U.path self.old.olds.ahead self.old.news.ahead self.old.unknown.ahead ≡ Tell Both }
        ensures { Turns I.next_gives J.next_gives K.next_gives I.can_next I.remaining J.can_next J.remaining K.can_next K.remaining O.path O.facts N.path N.facts U.path self.old result self.new }
    {
        let old = self.olds.advance();
        let new = self.news.advance();
        told_both(old, new)
    }

    /// Passes the first entry, of which nothing is told.
    fn skip(&mut self, first: First)
        requires can { CanGoOn I.can_next I.remaining J.can_next J.remaining K.can_next K.remaining self.old }
        requires asked { AreAsked self.old }
        requires step { step_of O.path N.path U.path self.old.olds.ahead self.old.news.ahead self.old.unknown.ahead ≡ Skip first }
        ensures { Turns I.next_gives J.next_gives K.next_gives I.can_next I.remaining J.can_next J.remaining K.can_next K.remaining O.path O.facts N.path N.facts U.path self.old GoesOn self.new }
    {
        match first {
            First::Old => {
                self.olds.advance();
            }
            First::New => {
                self.news.advance();
            }
            First::Both => {
                self.olds.advance();
                self.news.advance();
            }
        }
    }

    /// Passes a place that isn't above anything that is left.
    fn pass(&mut self)
        requires can { CanGoOn I.can_next I.remaining J.can_next J.remaining K.can_next K.remaining self.old }
        requires asked { AreAsked self.old }
        requires step { step_of O.path N.path U.path self.old.olds.ahead self.old.news.ahead self.old.unknown.ahead ≡ Pass }
        ensures { Turns I.next_gives J.next_gives K.next_gives I.can_next I.remaining J.can_next J.remaining K.can_next K.remaining O.path O.facts N.path N.facts U.path self.old GoesOn self.new }
    {
        self.unknown.advance();
    }

    /// Asks, tells, skips or passes one thing.
    fn turn(&mut self) -> Turn<O, N>
        requires { CanGoOn I.can_next I.remaining J.can_next J.remaining K.can_next K.remaining self.old }
        ensures { Turns I.next_gives J.next_gives K.next_gives I.can_next I.remaining J.can_next J.remaining K.can_next K.remaining O.path O.facts N.path N.facts U.path self.old result self.new }
    {
        if self.stopped {
            return Turn::Ends;
        }
        if let Some(input) = self.fallen() {
            return self.stop(input);
        }
        if self.ask() {
            return Turn::GoesOn;
        }
        match step_of(&self.olds.ahead, &self.news.ahead, &self.unknown.ahead) {
            Step::Tell(first) => self.tell(first),
            Step::Skip(first) => {
                self.skip(first);
                Turn::GoesOn
            }
            Step::Pass => {
                self.pass();
                Turn::GoesOn
            }
            Step::End => Turn::Ends,
        }
    }
}

impl<
    O: Entry,
    N: Entry,
    U: AtPath,
    I: Iterator<Item = O>,
    J: Iterator<Item = N>,
    K: Iterator<Item = U>,
> Iterator for Changes<I, J, K, O, N, U> {
    type Item = Result<Change<O, N>, NotAscending>;

    ghost can_next = { CanGoOn I.can_next I.remaining J.can_next J.remaining K.can_next K.remaining };

    ghost next_gives = { Gives I.next_gives J.next_gives K.next_gives O.path O.facts N.path N.facts U.path };

    ghost remaining = { λ s. at_most (weight I.remaining J.remaining K.remaining s) };

    fn next(&mut self) -> Option<Result<Change<O, N>, NotAscending>> {
        loop {
            match self.turn() {
                Turn::Yields(yielded) => return Some(yielded),
                Turn::GoesOn => {}
                Turn::Ends => return None,
            }
        }
    }
}
