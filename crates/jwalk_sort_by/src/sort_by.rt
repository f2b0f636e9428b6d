//! Entries in an order of one's own.
ghost use Rattle.std.specs.Prelude.{◌≡◌, None, OnOk, IsPermutation};
ghost use Rattle.std.specs.Cmp.{IsStrictWeakOrder};
ghost use Rattle.jwalk_sort_by.specs.SortBy.{gives_of, ordered, IsBy};

use crate::compares::{ByKey, ByOrder, Compares};
use jwalk_job::client_state::ClientState;
use jwalk_job::dir_entry::DirEntry;
use jwalk_job::item::{Item, List};
use jwalk_job::process_read_dir::ProcessReadDir;
use std::alloc::{AllocError, Allocator};
use std::cmp::Ordering;

/// A callback that sorts the entries of each directory, with its errors behind them.
///
/// ```text
/// let walk = walk.process_read_dir(SortBy::key(|entry: &DirEntry<((), ())>| entry.file_name().len()));
/// ```
///
/// The sort is stable: entries that compare as equal keep the order in which they were listed, and so do the errors.
/// (walkdir's `sort_by` puts errors first.) A comparison may look at all of an entry, as at the metadata that a walk with
/// `keep_metadata(true)` keeps. If it is no order, as where a is less than b and b less than a, the entries and errors
/// are the same, in some order.
///
/// The sort takes memory for lists of more than 20 items, and fails if that runs out.
#[derive(Drop)]
pub struct SortBy<O> {
    order: O,
}

impl<F> SortBy<ByOrder<F>> {
    ghost use Rattle.jwalk_sort_by.specs.SortBy.{comparison_of};

    /// Returns the callback that sorts by a closure which compares two entries. Its user must ensure that it may be
    /// called; a closure that can't go wrong needs nothing more.
    pub fn new<T>(compare: F) -> Self
    where
        F: Fn(&T, &T) -> Ordering,
        ensures { comparison_of result ≡ compare }
    {
        SortBy {
            order: ByOrder::new(compare),
        }
    }
}

impl<F> SortBy<ByKey<F>> {
    ghost use Rattle.jwalk_sort_by.specs.SortBy.{key_of};

    /// Returns the callback that sorts by what a closure returns of each entry, the least first. The closure is called
    /// twice for each comparison.
    pub fn key<T, K>(key: F) -> Self
    where
        F: Fn(&T) -> K,
        ensures { key_of result ≡ key }
    {
        SortBy {
            order: ByKey::new(key),
        }
    }
}

/// Compares two items: entries by an order, and an entry is less than an error.
fn compare_items<C: ClientState, A: Allocator + Copy, O: Compares<DirEntry<C, A>>>(
    order: &O,
    a: &Item<C, A>,
    b: &Item<C, A>,
) -> Ordering
    requires { O.IsCallable order.now }
    ensures { gives_of (O.gives order.now) a.now b.now result }
{
    match (a, b) {
        (Ok(a), Ok(b)) => order.compare(a, b),
        (Ok(_), Err(_)) => Ordering::Less,
        (Err(_), Ok(_)) => Ordering::Greater,
        (Err(_), Err(_)) => Ordering::Equal,
    }
}

fn sort_items<C: ClientState, A: Allocator + Copy, O: Compares<DirEntry<C, A>>>(
    order: &O,
    list: &mut List<C, A>,
) -> Result<(), AllocError>
    requires { O.IsCallable order.now }
    ensures same { IsPermutation list.old.items list.new.items }
    ensures ordered { OnOk result ((less : _) → IsStrictWeakOrder less → IsBy (O.gives order.now) less
        → list.new.items ≡ ordered less list.old.items) }
{
    list.sort_by(|a, b| compare_items(order, a, b))
}

impl<C: ClientState, A: Allocator + Copy, O: Compares<DirEntry<C, A>>> ProcessReadDir<C, A>
    for SortBy<O> {
    ghost use Rattle.jwalk_sort_by.specs.SortBy.{SortsAs, order_of, ordered_at};

    ghost IsLawful = { λ s. O.IsCallable (order_of s) };

    ghost Makes = { λ s g. SortsAs (O.gives (order_of s)) g };

    ghost KeepsRoot = { λ _. Unit {0} };

    fn process(
        &self,
        depth: Option<usize>,
        _path: &str,
        _state: &mut C::ReadDirState,
        list: &mut List<C, A>,
    ) -> Result<(), AllocError>
        requires { O.IsCallable (order_of self.now) }
        ensures state { _state.new ≡ _state.old }
        ensures same { IsPermutation list.old.items list.new.items }
        ensures root { depth ≡ None → list.new.items ≡ list.old.items }
        ensures ordered { OnOk result ((less : _) → IsStrictWeakOrder less → IsBy (O.gives (order_of self.now)) less
            → list.new.items ≡ ordered_at less depth list.old.items) }
    {
        if depth.is_none() {
            return Ok(());
        }
        sort_items(&self.order, list)
    }
}
