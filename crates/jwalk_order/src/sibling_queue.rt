//! Values by address, the least first, with one entry for all siblings that came together.
ghost use Rattle.std.specs.Prelude.{◌≡◌, ◌<◌, ◌^◌, ◌∷◌, ◌++◌, [], length, IfErr, IfNone, IfSome, OnErr, OnOk};
ghost use Rattle.std.specs.List.Sorted.{IsPermutation};
ghost use Rattle.jwalk_order.specs.Frontier.{next_address};
ghost use Rattle.jwalk_order.specs.IndexPath.{address};
ghost use Rattle.jwalk_order.specs.Addressed.{addresses_of, numbered, IsFirst};
ghost use Rattle.jwalk_order.specs.Addresses.{IsAmong};
ghost use Rattle.jwalk_order.specs.Within.{RemovesWithin};

use crate::address_heap::AddressHeap;
use crate::index_path::IndexPath;
use crate::ordered::Ordered;
use std::alloc::Allocator;
use std::marker::Model;
use std::vec::IntoIter;

/// Values by address, of which the least comes out first. Siblings that came together have one entry, and are stored in
/// order at its address and the ones after it.
#[derive(Drop)]
pub struct SiblingQueue<T, A: Allocator + Copy> {
    entries: AddressHeap<IntoIter<T, A>, A>,
    len: usize,
}

impl<T, A: Allocator + Copy> Model for SiblingQueue<T, A> {
    ghost use Rattle.std.specs.Prelude.{◌≡◌, ◌<◌, ◌^◌, List, length as length_of, All};
    ghost use Rattle.std.specs.Vec.Iter.{into_iter_items};
    ghost use Rattle.jwalk_order.specs.Addressed.{Addressed};
    ghost use Rattle.jwalk_order.specs.Siblings.{all_siblings, AreSiblings};

    ghost Value = { List (Addressed T) };

    ghost view = { λ q. all_siblings into_iter_items q.entries.items };

    ghost invariant = { λ q. All (AreSiblings into_iter_items) q.entries.items
        × (q.len ≡ length_of (all_siblings into_iter_items q.entries.items))
        × (q.len < 2 ^ 63) };
}

impl<T: Drop, A: Allocator + Copy> SiblingQueue<T, A> {
    /// Returns an empty queue, which takes no memory.
    pub fn new(alloc: A) -> Self
        ensures { result ≡ [] }
    {
        SiblingQueue {
            entries: AddressHeap::new(alloc),
            len: 0,
        }
    }

    /// Returns how many values it holds.
    pub fn len(&self) -> usize
        ensures len { result ≡ length self.now }
        ensures small { result < 2 ^ 63 }
    {
        self.len
    }

    /// Puts values at the children of an address. It fails if memory runs out, or if the count of all would be above
    /// that of any list. Then it gives the values back, and nothing is changed.
    pub fn push_children(
        &mut self,
        parent: &IndexPath<A>,
        values: Vec<T, A>,
    ) -> Result<(), Vec<T, A>>
        ensures pushed { OnOk result (IsPermutation
            (numbered (address parent.now) 0 values.items ++ self.old) self.new) }
        ensures handed_back { IfErr result (λ refused. refused ≡ values) }
        ensures unchanged { OnErr result (self.new ≡ self.old) }
    {
        if values.is_empty() {
            return Ok(());
        }
        let len = self.len.saturating_add(values.len());
        if len > usize::MAX / 2 {
            return Err(values);
        }
        let (Ok(first), Ok(())) = (parent.adding(0), self.entries.reserve_one()) else {
            return Err(values);
        };
        self.entries
            .push_reserved(Ordered::new(values.into_iter(), first, 0));
        self.len = len;
        Ok(())
    }

    /// Returns the least address, if there is one.
    pub fn least(&self) -> Option<&IndexPath<A>>
        ensures some { IfSome result (λ path. IsAmong (address path.now) (addresses_of self.now)) }
        ensures next { IfSome result (λ path. address path.now ≡ next_address (addresses_of self.now)) }
        ensures least { IfSome result (λ path. IsFirst (address path.now) self.now) }
        ensures none { IfNone result (self.now ≡ []) }
    {
        let entry = self.entries.peek()?;
        Some(&entry.index_path)
    }

    /// Removes the value at the address that `least` shows, if there is one, and returns it.
    pub fn pop(&mut self) -> Option<T>
        ensures some { IfSome result (λ value. IsPermutation self.old
            (record { at = next_address (addresses_of self.old); value = value; child_count = 0 } ∷ self.new)) }
        ensures none { IfNone result (self.old ≡ []) }
    {
        let mut entry = self.entries.pop()?;
        let value = entry.value.next()?;
        self.len -= 1;
        if entry.value.len() > 0 {
            entry.index_path.increment_last();
            self.entries.push_reserved(entry);
        }
        Some(value)
    }

    /// Removes the values at an address and below it, if they come first.
    pub fn remove_within(&mut self, path: &IndexPath<A>)
        ensures { RemovesWithin (address path.now) self.old self.new }
    {
        while let Some(least) = self.least() {
            if !least.is_within(path) {
                return;
            }
            self.pop();
        }
    }
}
