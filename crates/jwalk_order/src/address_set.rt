//! A set of addresses.
ghost use Rattle.std.specs.Prelude.{◌≡◌, ◌≤◌, ◌^◌, ◌∷◌, [], ◌↔◌, ◌&&◌, length, not, IsTrue, OnErr, OnOk};
ghost use Rattle.std.specs.List.{filter};
ghost use Rattle.std.specs.List.Sorted.{IsPermutation};
ghost use Rattle.jwalk_order.specs.IndexPath.{address, is_within};
ghost use Rattle.jwalk_order.specs.Addresses.{times, IsAmong};

use crate::index_path::IndexPath;
use std::alloc::{AllocError, Allocator};
use std::collections::BTreeSet;
use std::marker::Model;

/// A set of addresses. One is kept apart, in memory that is used again, so that a set of one seldom takes any.
#[derive(Drop)]
pub struct AddressSet<A: Allocator + Copy> {
    apart: IndexPath<A>,
    // Whether that one is in the set.
    has_apart: bool,
    others: BTreeSet<IndexPath<A>, A>,
}

impl<A: Allocator + Copy> Model for AddressSet<A> {
    ghost use Rattle.std.specs.Prelude.{ℕ, List, ◌++◌, ◌∷◌, [], cond, map};
    ghost use Rattle.jwalk_order.specs.IndexPath.{address};

    ghost Value = { List (List ℕ) };

    ghost view = { λ s. map address (cond s.has_apart (s.apart ∷ []) [] ++ s.others.keys) };
}

impl<A: Allocator + Copy> AddressSet<A> {
    /// Returns an empty set, which takes no memory.
    pub fn new(alloc: A) -> Self
        ensures { result ≡ [] }
    {
        AddressSet {
            apart: IndexPath::new(Vec::new(alloc)),
            has_apart: false,
            others: BTreeSet::new(alloc),
        }
    }

    /// Returns how many addresses are in it.
    pub fn len(&self) -> usize
        ensures len { result ≡ length self.now }
        ensures small { result ≤ 2 ^ 63 }
    {
        if self.has_apart {
            self.others.len() + 1
        } else {
            self.others.len()
        }
    }

    /// Returns whether an address is in it.
    pub fn contains(&self, path: &IndexPath<A>) -> bool
        ensures { IsTrue result ↔ IsAmong (address path.now) self.now }
    {
        if self.has_apart && self.apart == *path {
            return true;
        }
        self.others.contains(path)
    }

    /// Adds an address that isn't in it yet. If memory runs out, nothing is changed.
    pub fn insert(&mut self, path: &IndexPath<A>) -> Result<(), AllocError>
        requires { times (address path.now) self.old ≡ 0 }
        ensures added { OnOk result (IsPermutation (address path.now ∷ self.old) self.new) }
        ensures unchanged { OnErr result (self.new ≡ self.old) }
    {
        if self.has_apart {
            self.others.insert(path.try_clone()?)?;
            return Ok(());
        }
        self.apart.indices.clear();
        self.apart
            .indices
            .extend_from_slice(path.indices.as_slice())?;
        self.has_apart = true;
        Ok(())
    }

    /// Removes an address that is in it.
    pub fn remove(&mut self, path: &IndexPath<A>)
        requires { IsAmong (address path.now) self.old }
        ensures { IsPermutation self.old (address path.now ∷ self.new) }
    {
        if self.has_apart && self.apart == *path {
            self.has_apart = false;
            return;
        }
        self.others.remove(path);
    }

    /// Removes an address, if it is in it, and all that lie below it.
    pub fn remove_within(&mut self, path: &IndexPath<A>)
        ensures { self.new ≡ filter (λ a. not (is_within (address path.now) a)) self.old }
    {
        self.has_apart = stays(self.has_apart, &self.apart, path);
        self.others.retain(|other| stays(true, other, path));
    }
}

// Whether an address, if it is in a set, doesn't lie at or below another.
fn stays<A: Allocator + Copy>(is_in: bool, one: &IndexPath<A>, path: &IndexPath<A>) -> bool
    ensures { result ≡ (is_in && not (is_within (address path.now) (address one.now))) }
{
    is_in && !one.is_within(path)
}
