//! Values at their addresses.
ghost use Rattle.std.specs.Prelude.{◌≡◌, nat_eq};
ghost use Rattle.std.specs.Cmp.{partial_order_from_own_ties};
ghost use Rattle.std.specs.Cmp.Lexicographic.{pointwise};
ghost use Rattle.std.specs.Cmp.Rules.{comparing};
ghost use Rattle.std.specs.Ordering.{as_partial_cmp, on};
ghost use Rattle.std.proofs.Common.{rules};
ghost use Rattle.jwalk_order.specs.Ordered.{address_of, child_count_of, ordered_cmp};

use crate::index_path::IndexPath;
use std::alloc::{Allocator, Global};
use std::cmp::Ordering;

/// A value with its address and the count of its children. Comparisons look at the address alone.
#[derive(Debug, Drop)]
pub struct Ordered<T, A: Allocator + Copy = Global> {
    /// The value.
    pub value: T,
    /// Its address in the tree.
    pub index_path: IndexPath<A>,
    child_count: usize,
}

impl<T, A: Allocator + Copy> Ordered<T, A> {
    /// Returns the value at this address, with that many children.
    pub fn new(value: T, index_path: IndexPath<A>, child_count: usize) -> Self
        ensures value { result.value ≡ value }
        ensures index_path { result.index_path ≡ index_path }
        ensures child_count { child_count_of result ≡ child_count }
    {
        Ordered {
            value,
            index_path,
            child_count,
        }
    }

    /// Returns how many children it was made with.
    pub fn child_count(&self) -> usize
        ensures { result ≡ child_count_of self.now }
    {
        self.child_count
    }
}

impl<T, A: Allocator + Copy> PartialEq for Ordered<T, A> {
    ghost eq = { on address_of (pointwise nat_eq) };

    ghost laws = { Prim.search (comparing, rules) };

    fn eq(&self, other: &Self) -> bool {
        self.index_path == other.index_path
    }
}

impl<T, A: Allocator + Copy> Eq for Ordered<T, A> {
    ghost laws = { Prim.search (comparing, rules) };
}

impl<T, A: Allocator + Copy> Ord for Ordered<T, A> {
    ghost cmp = { ordered_cmp };

    ghost total = { Prim.search (comparing, rules) };

    ghost matches_partial_cmp = { Prim.search (comparing, rules) };

    ghost matches_eq = { Prim.search (comparing, rules) };

    fn cmp(&self, other: &Self) -> Ordering {
        self.index_path.cmp(&other.index_path)
    }
}

impl<T, A: Allocator + Copy> PartialOrd for Ordered<T, A> {
    ghost partial_cmp = { as_partial_cmp ordered_cmp };

    ghost laws = { partial_order_from_own_ties (Prim.search (comparing, rules)) (Prim.search (comparing, rules)) };

    fn partial_cmp(&self, other: &Self) -> Option<Ordering> {
        Some(self.cmp(other))
    }
}
