//! Callbacks that are added behind a walk's own.
ghost use Rattle.std.specs.Prelude.{◌≡◌};
ghost use Rattle.jwalk_callbacks.specs.Both.{first_of, second_of};
ghost use Rattle.jwalk.specs.WalkDir.{callback_of, described, with_callback, Sets};

use crate::walk_dir::WalkDirGeneric;
use jwalk_callbacks::both::Both;
use jwalk_callbacks::filter_entry::FilterEntry;
use jwalk_fs::file_system::FileSystem;
use jwalk_job::client_state::ClientState;
use jwalk_job::dir_entry::DirEntry;
use jwalk_job::process_read_dir::ProcessReadDir;
use jwalk_model::file_type::FileType;
use jwalk_sort_by::SortBy;
use jwalk_sort_by::compares::{ByKey, ByOrder};
use std::alloc::{Allocator, Global};
use std::cmp::Ordering;

impl<
    C: ClientState,
    S: FileSystem,
    P: ProcessReadDir<C, A>,
    A: Allocator + Copy,
    W: Drop,
> WalkDirGeneric<C, S, P, A, W> {
    ghost use Rattle.jwalk_callbacks.specs.FilterEntry.{test_of};

    /// Returns the same walk with this callback behind its own: it is given each list as the walk's own callback left
    /// it, and isn't called if that runs out of memory. So `filter_entry`, `sort_by`, `sort_by_key` and `then` work one
    /// after the other, in the order of their calls.
    ///
    /// A later `process_read_dir` replaces them all.
    pub fn then<Q: ProcessReadDir<C, A>>(self, process: Q) -> WalkDirGeneric<C, S, Both<P, Q>, A, W>
        ensures own { first_of (callback_of result) ≡ callback_of self }
        ensures added { second_of (callback_of result) ≡ process }
        ensures rest { Sets (with_callback (callback_of result) (described self)) result }
    {
        let WalkDirGeneric {
            fs,
            root,
            process: own,
            options,
            root_read_dir_state,
            crew,
        } = self;
        WalkDirGeneric {
            fs,
            root,
            process: Both::new(own, process),
            options,
            root_read_dir_state,
            crew,
        }
    }

    /// Returns the same walk without the entries for which this test of their depth, name and type is false, and without
    /// all that is below them. See [`FilterEntry`]: the root isn't tested, entries above the least depth are, and errors
    /// stay.
    ///
    /// The test is added behind the walk's own callback, as by `then`.
    pub fn filter_entry<F: Fn(usize, &str, FileType) -> bool + Drop>(
        self,
        keep: F,
    ) -> WalkDirGeneric<C, S, Both<P, FilterEntry<F>>, A, W>
        ensures own { first_of (callback_of result) ≡ callback_of self }
        ensures test { test_of (second_of (callback_of result)) ≡ keep }
        ensures rest { Sets (with_callback (callback_of result) (described self)) result }
    {
        self.then(FilterEntry::new(keep))
    }
}

impl<C: ClientState, S: FileSystem, P: ProcessReadDir<C, Global>, W: Drop> WalkDirGeneric<
    C,
    S,
    P,
    Global,
    W,
> {
    ghost use Rattle.jwalk_sort_by.specs.SortBy.{comparison_of, key_of};

    /// Returns the same walk with the entries of each directory in the order of this comparison, and its errors behind
    /// them. See [`SortBy`]: entries that compare as equal keep their order, which is that of their names after
    /// `sort(true)`.
    ///
    /// The sort is added behind the walk's own callback, as by `then`. A walk over another allocator than `Global` takes
    /// `then(SortBy::new(..))`.
    pub fn sort_by<F: Fn(&DirEntry<C, Global>, &DirEntry<C, Global>) -> Ordering + Drop>(
        self,
        compare: F,
    ) -> WalkDirGeneric<C, S, Both<P, SortBy<ByOrder<F>>>, Global, W>
        ensures own { first_of (callback_of result) ≡ callback_of self }
        ensures comparison { comparison_of (second_of (callback_of result)) ≡ compare }
        ensures rest { Sets (with_callback (callback_of result) (described self)) result }
    {
        self.then(SortBy::new(compare))
    }

    /// Returns the same walk with the entries of each directory in the order of their keys, the least first, and its
    /// errors behind them. The key is computed twice for each comparison. In all else it is as `sort_by`.
    pub fn sort_by_key<K: Ord + Drop, F: Fn(&DirEntry<C, Global>) -> K + Drop>(
        self,
        key: F,
    ) -> WalkDirGeneric<C, S, Both<P, SortBy<ByKey<F>>>, Global, W>
        ensures own { first_of (callback_of result) ≡ callback_of self }
        ensures key { key_of (second_of (callback_of result)) ≡ key }
        ensures rest { Sets (with_callback (callback_of result) (described self)) result }
    {
        self.then(SortBy::key(key))
    }
}
