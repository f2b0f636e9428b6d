//! The laws on contents first, each as the contract of a function that does nothing.
ghost use Rattle.jwalk_contents_first.specs.ContentsFirst.{ContentsComeBefore, DepthsKeepOrder, SameItems};
ghost use Rattle.jwalk_contents_first.specs.Whole.{AllAreYielded, FirstAreYielded, NothingComesBehind, OneForEachDepth};

use jwalk_job::client_state::ClientState;
use jwalk_job::dir_entry::DirEntry;
use jwalk_job::error::Error;
use std::alloc::Allocator;

/// Contents first are the same items, each as often.
pub fn same_items<R, E>()
    ensures { SameItems R E }
{}

/// The items at each depth keep their order, and so do those that lie beside each other in one directory.
pub fn depths_keep_order<R, E>()
    ensures { DepthsKeepOrder R E }
{}

/// What is below an entry comes right before it, each entry behind what is below it.
pub fn contents_come_before<R, E>()
    ensures { ContentsComeBefore R E }
{}

/// What is yielded up to `None` are all answers of the walk, contents first, unless an error was yielded behind which
/// nothing comes.
pub fn all_are_yielded<
    C: ClientState,
    A: Allocator + Copy,
    I: Iterator<Item = Result<DirEntry<C, A>, Error<A>>>,
>()
    ensures { AllAreYielded I.next_gives }
{}

/// What is yielded up to an error behind which nothing comes is the beginning of any answers, contents first, that begin
/// with those that were taken.
pub fn first_are_yielded<
    C: ClientState,
    A: Allocator + Copy,
    I: Iterator<Item = Result<DirEntry<C, A>, Error<A>>>,
>()
    ensures { FirstAreYielded I.next_gives }
{}

/// Behind an error with which the walk ends nothing comes.
pub fn nothing_comes_behind<
    C: ClientState,
    A: Allocator + Copy,
    I: Iterator<Item = Result<DirEntry<C, A>, Error<A>>>,
>()
    ensures { NothingComesBehind I.next_gives }
{}

/// Of the entries that are held back, each is deeper than the one before.
pub fn one_for_each_depth<
    C: ClientState,
    A: Allocator + Copy,
    I: Iterator<Item = Result<DirEntry<C, A>, Error<A>>>,
>()
    ensures { OneForEachDepth I.next_gives }
{}
