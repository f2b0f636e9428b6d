//! The laws on subtotals, each as the contract of a function that does nothing.
ghost use Rattle.jwalk_subtotals.specs.Alike.{StatesDoNotCount, ErrorsAreYielded};
ghost use Rattle.jwalk_subtotals.specs.Firsts.{RootsAreFirsts};
ghost use Rattle.jwalk_subtotals.specs.Roots.{RootsAreAll, RootsAreTotals, SubtotalsAddUp};
ghost use Rattle.jwalk_subtotals.specs.Whole.{AllAreYielded, AllAreYieldedBeside, FirstAreYielded};

use jwalk::error::Result as Answer;
use jwalk::{ClientState, DirEntry};
use std::alloc::Allocator;

/// Each subtotal is what an answer counts by itself and the subtotals of what lies directly in it.
pub fn subtotals_add_up<R, E>()
    ensures { SubtotalsAddUp R E }
{}

/// The subtotals of the roots come to what all answers count.
pub fn roots_are_all<R, E>()
    ensures { RootsAreAll R E }
{}

/// Where each name is counted, the subtotals of the roots come to the totals by what entries keep.
pub fn roots_are_totals<R, E>()
    ensures { RootsAreTotals R E }
{}

/// The bytes of the roots' subtotals come to the sizes of all entries, of each file that is counted once at the first of
/// its names.
pub fn roots_are_firsts<R, E>()
    ensures { RootsAreFirsts R E }
{}

/// Subtotals don't go by the states of a walk.
pub fn states_do_not_count<R, E, V, W>()
    ensures { StatesDoNotCount R E V W }
{}

/// Where nothing that is yielded is an error, no answer is.
pub fn errors_are_yielded<R, E>()
    ensures { ErrorsAreYielded R E }
{}

/// What is yielded up to `None` are the subtotals of all answers of the walk, unless an error was yielded behind which
/// nothing comes.
pub fn all_are_yielded<
    C: ClientState,
    A: Allocator + Copy,
    I: Iterator<Item = Answer<DirEntry<C, A>, A>>,
>()
    ensures { AllAreYielded I.next_gives }
{}

/// So it is beside files that were counted before. The files that are counted at the end, which `take_files` returns, are
/// those and the ones of these answers.
pub fn all_are_yielded_beside<
    C: ClientState,
    A: Allocator + Copy,
    I: Iterator<Item = Answer<DirEntry<C, A>, A>>,
>()
    ensures { AllAreYieldedBeside I.next_gives }
{}

/// What is yielded up to an error behind which nothing comes is the beginning of the subtotals of any answers that begin
/// with those that were taken.
pub fn first_are_yielded<
    C: ClientState,
    A: Allocator + Copy,
    I: Iterator<Item = Answer<DirEntry<C, A>, A>>,
>()
    ensures { FirstAreYielded I.next_gives }
{}
