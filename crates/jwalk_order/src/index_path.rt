//! Addresses.
ghost use Rattle.std.specs.Prelude.{◌≡◌, ◌<◌, ◌+◌, ◌-◌, ◌^◌, ◌++◌, ◌∷◌, [], ◌↔◌, length, nat_eq, slice_index, slice_set, option_to_list, IfOk, IsSome, IsTrue, OnErr, OnOk};
ghost use Rattle.std.specs.Cmp.{partial_order_from_own_ties};
ghost use Rattle.std.specs.Cmp.Lexicographic.{pointwise};
ghost use Rattle.std.specs.Cmp.Rules.{comparing};
ghost use Rattle.std.specs.Ordering.{as_partial_cmp, on};
ghost use Rattle.std.proofs.Common.{rules};
ghost use Rattle.jwalk_order.specs.IndexPath.{address, is_within, reversed_cmp, IsAbove};

use std::alloc::{AllocError, Allocator, Global};
use std::cmp::Ordering;

/// The address of a node in a tree: the index of its root, then that of each child on the way to it. Child `i` of a
/// node has the node's indices followed by `i`.
#[derive(Debug, Drop)]
pub struct IndexPath<A: Allocator + Copy = Global> {
    /// The indices on the way down, that of the root first. An address without any is above all roots.
    pub indices: Vec<usize, A>,
}

impl<A: Allocator + Copy> IndexPath<A> {
    /// Returns the address with these indices.
    pub fn new(indices: Vec<usize, A>) -> Self
        ensures { result.indices ≡ indices }
    {
        Self { indices }
    }

    /// Returns the address of the child at `index`, made with this one's allocator.
    ///
    /// # Errors
    ///
    /// If memory runs out.
    pub fn adding(&self, index: usize) -> Result<Self, AllocError>
        ensures { IfOk result (λ child. address child ≡ address self.now ++ index ∷ []) }
    {
        let mut indices = Vec::with_capacity(*self.indices.allocator(), self.indices.len() + 1)?;
        indices.extend_from_slice(self.indices.as_slice())?;
        indices.push(index)?;
        Ok(IndexPath { indices })
    }

    /// Goes to the child at `index`.
    ///
    /// # Errors
    ///
    /// If memory runs out. The address is then unchanged.
    pub fn push(&mut self, index: usize) -> Result<(), AllocError>
        ensures pushed { OnOk result (address self.new ≡ address self.old ++ index ∷ []) }
        ensures refused { OnErr result (address self.new ≡ address self.old) }
    {
        Ok(self.indices.push(index)?)
    }

    /// Goes to the next sibling. The address must have an index, and its last one must be below 2^64 - 1.
    pub fn increment_last(&mut self)
        requires some { 0 < length (address self.old) }
        requires room { slice_index (address self.old) (length (address self.old) - 1) + 1 < 2 ^ 64 }
        ensures { let last = length (address self.old) - 1 in
            address self.new ≡ slice_set (address self.old) last (slice_index (address self.old) last + 1) }
    {
        let last = self.indices.len() - 1;
        self.indices[last] += 1;
    }

    /// Goes to the parent, and returns the index that was last. A root's parent is the empty address. At the empty
    /// address it returns `None`.
    pub fn pop(&mut self) -> Option<usize>
        ensures some { IsSome result ↔ (0 < length (address self.old)) }
        ensures last { address self.old ≡ address self.new ++ option_to_list result }
    {
        self.indices.pop()
    }

    /// Returns whether there is no index.
    pub fn is_empty(&self) -> bool
        ensures { IsTrue result ↔ (address self.now ≡ []) }
    {
        self.indices.is_empty()
    }

    /// Returns whether it is that address, or lies below it.
    pub fn is_within(&self, above: &Self) -> bool
        ensures { result ≡ is_within (address above.now) (address self.now) }
    {
        self.indices
            .as_slice()
            .starts_with(above.indices.as_slice())
    }

    /// Returns an equal address, made with this one's allocator.
    ///
    /// # Errors
    ///
    /// If memory runs out.
    pub fn try_clone(&self) -> Result<Self, AllocError>
        ensures { IfOk result (λ copy. address copy ≡ address self.now) }
    {
        let indices = Vec::from_slice(*self.indices.allocator(), self.indices.as_slice())?;
        Ok(IndexPath { indices })
    }
}

impl<A: Allocator + Copy> PartialEq for IndexPath<A> {
    ghost eq = { on address (pointwise nat_eq) };

    ghost laws = { Prim.search (comparing, rules) };

    fn eq(&self, other: &Self) -> bool {
        self.indices.as_slice() == other.indices.as_slice()
    }
}

impl<A: Allocator + Copy> Eq for IndexPath<A> {
    ghost laws = { Prim.search (comparing, rules) };
}

/// The reversed lexicographic order, so that a greatest-first heap gives the least address, and a node before all that
/// is below it.
impl<A: Allocator + Copy> Ord for IndexPath<A> {
    ghost cmp = { reversed_cmp };

    ghost total = { Prim.search (comparing, rules) };

    ghost matches_partial_cmp = { Prim.search (comparing, rules) };

    ghost matches_eq = { Prim.search (comparing, rules) };

    fn cmp(&self, other: &Self) -> Ordering
        ensures order { result ≡ reversed_cmp self.now other.now }
        ensures parent_first { IsAbove (address self.now) (address other.now) → result ≡ Ordering.Greater }
    {
        other.indices.as_slice().cmp(&self.indices.as_slice())
    }
}

impl<A: Allocator + Copy> PartialOrd for IndexPath<A> {
    ghost partial_cmp = { as_partial_cmp reversed_cmp };

    ghost laws = { partial_order_from_own_ties (Prim.search (comparing, rules)) (Prim.search (comparing, rules)) };

    fn partial_cmp(&self, other: &Self) -> Option<Ordering> {
        Some(self.cmp(other))
    }
}
