//! Which address comes next.
ghost use Rattle.std.specs.Prelude.{◌≡◌, ◌≢◌, ◌<◌, ◌-◌, [], ◌↔◌, length, slice_index, IfOk, IsOk, IsTrue, OnErr, OnOk};
ghost use Rattle.jwalk_order.specs.Frontier.{next_address, passed, roots};
ghost use Rattle.jwalk_order.specs.IndexPath.{address};
ghost use Rattle.jwalk_order.specs.OrderedMatcher.{siblings, IsPaired};
ghost use Rattle.jwalk_order.specs.Ordered.{address_of, child_count_of};

use crate::index_path::IndexPath;
use crate::ordered::Ordered;
use std::alloc::{AllocError, Allocator, Global};
use std::marker::Model;

/// What is still to be passed of a tree whose items say how many children they have. A parent comes first, then its
/// children in order, each with all that is below it. The matcher keeps the address looked for, and for each index of
/// it how many siblings come after.
#[derive(Drop)]
pub struct OrderedMatcher<A: Allocator + Copy = Global> {
    looking_for: IndexPath<A>,
    counts: Vec<usize, A>,
}

impl<A: Allocator + Copy> Model for OrderedMatcher<A> {
    ghost use Rattle.std.specs.Prelude.{ℕ, List};
    ghost use Rattle.jwalk_order.specs.OrderedMatcher.{frontier_of, IsPaired};

    ghost Value = { List (List ℕ) };

    ghost view = { λ m. frontier_of m.looking_for.indices.items m.counts.items };

    ghost invariant = { λ m. IsPaired m.looking_for.indices.items m.counts.items };
}

impl<A: Allocator + Copy> OrderedMatcher<A> {
    /// Returns the matcher of a tree with one root.
    ///
    /// # Errors
    ///
    /// If memory runs out.
    pub fn new(alloc: A) -> Result<Self, AllocError>
        ensures { IfOk result (λ matcher. matcher ≡ roots 1) }
    {
        Self::with_roots(alloc, 1)
    }

    /// Returns the matcher of a tree with `count` roots.
    ///
    /// # Errors
    ///
    /// If memory runs out.
    pub fn with_roots(alloc: A, count: usize) -> Result<Self, AllocError>
        ensures { IfOk result (λ matcher. matcher ≡ roots count) }
    {
        let mut indices = Vec::new(alloc);
        let mut counts = Vec::new(alloc);
        if count > 0 {
            indices.push(0)?;
            counts.push(count - 1)?;
        }
        Ok(OrderedMatcher {
            looking_for: IndexPath::new(indices),
            counts,
        })
    }

    /// Returns the address looked for, the empty one if there is none.
    pub fn looking_for(&self) -> &IndexPath<A>
        ensures { address result.now ≡ next_address self.now }
    {
        &self.looking_for
    }

    /// Returns whether everything is passed.
    pub fn is_none(&self) -> bool
        ensures { IsTrue result ↔ (self.now ≡ []) }
    {
        self.looking_for.is_empty()
    }

    /// Passes the item at the address looked for: its children are looked for next. It takes memory only if there are
    /// children.
    ///
    /// # Errors
    ///
    /// If memory runs out. The matcher is then unchanged.
    pub fn advance_past<T>(&mut self, item: &Ordered<T, A>) -> Result<(), AllocError>
        requires some { self.old ≢ [] }
        requires looked_for { address_of item.now ≡ next_address self.old }
        ensures passed { OnOk result (self.new ≡ passed self.old (child_count_of item.now)) }
        ensures refused { OnErr result (self.new ≡ self.old) }
        ensures childless { child_count_of item.now ≡ 0 → IsOk result }
    {
        let count = item.child_count();
        if count > 0 {
            self.enter(count)
        } else {
            self.go_on();
            Ok(())
        }
    }

    fn enter(&mut self, count: usize) -> Result<(), AllocError>
        requires some { self.old ≢ [] }
        requires children { 0 < count }
        ensures entered { OnOk result (self.new ≡ passed self.old count) }
        ensures refused { OnErr result (self.new ≡ self.old) }
    {
        self.counts.reserve(1)?;
        self.looking_for.push(0)?;
        self.counts.push_reserved(count - 1);
        Ok(())
    }

    /// Passes the address looked for as one without children. It takes no memory.
    pub fn go_on(&mut self)
        requires { self.old ≢ [] }
        ensures { self.new ≡ passed self.old 0 }
    {
        leave_finished(&mut self.looking_for.indices, &mut self.counts);
        if let Some(last) = self.counts.len().checked_sub(1) {
            self.counts[last] -= 1;
            self.looking_for.increment_last();
        }
    }
}

// Drops the indices after which no sibling is left.
fn leave_finished<A: Allocator + Copy>(indices: &mut Vec<usize, A>, counts: &mut Vec<usize, A>)
    requires { IsPaired indices.old.items counts.old.items }
    ensures paired { IsPaired indices.new.items counts.new.items }
    ensures siblings { siblings [] indices.new.items counts.new.items ≡ siblings [] indices.old.items counts.old.items }
    ensures unfinished { 0 < length counts.new.items → 0 < slice_index counts.new.items (length counts.new.items - 1) }
{
    while !counts.is_empty() && counts[counts.len() - 1] == 0 {
        counts.pop();
        indices.pop();
    }
}
