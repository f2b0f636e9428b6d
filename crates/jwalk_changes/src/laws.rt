//! The laws on differences, each as the contract of a function that does nothing.
ghost use Rattle.jwalk_changes.specs.Laws.{DifferencesExist, DifferencesAreOne, NoneIfEqual, AppliedGiveNew};
ghost use Rattle.jwalk_changes.specs.Whole.{AllAreYielded, ErrorsAreTrue};

use crate::at_path::AtPath;
use crate::entry::Entry;

/// Any two ascending lists have differences, whatever places aren't known.
pub fn differences_exist<O: Entry, N: Entry, U: AtPath>()
    ensures { DifferencesExist O.path O.facts N.path N.facts U.path }
{}

/// There is one list of differences.
pub fn differences_are_one<O: Entry, N: Entry, U: AtPath>()
    ensures { DifferencesAreOne O.path O.facts N.path N.facts U.path }
{}

/// Nothing differs if and only if both lists have the same paths with equal facts, outside the places whose contents
/// aren't known.
pub fn none_if_equal<O: Entry, N: Entry, U: AtPath>()
    ensures { NoneIfEqual O.path O.facts N.path N.facts U.path }
{}

/// Applied to the old list, the differences give the new one: a list with the same paths and equal facts, outside the
/// places whose contents aren't known.
pub fn applied_give_new<X: Entry, U: AtPath>()
    ensures { AppliedGiveNew X.path X.facts U.path }
{}

/// What [`changes`](crate::changes) yields up to `None` are all differences, if none of it is an error.
pub fn all_are_yielded<
    O: Entry,
    N: Entry,
    U: AtPath,
    I: Iterator<Item = O>,
    J: Iterator<Item = N>,
    K: Iterator<Item = U>,
>()
    ensures { AllAreYielded I.next_gives J.next_gives K.next_gives O.path O.facts N.path N.facts U.path }
{}

/// Where it yields an error, the input that this names doesn't ascend.
pub fn errors_are_true<
    O: Entry,
    N: Entry,
    U: AtPath,
    I: Iterator<Item = O>,
    J: Iterator<Item = N>,
    K: Iterator<Item = U>,
>()
    ensures { ErrorsAreTrue I.next_gives J.next_gives K.next_gives O.path O.facts N.path N.facts U.path }
{}
