//! Values by address, the least first.
ghost use Rattle.std.specs.Prelude.{◌≡◌, ◌+◌, ◌<◌, ◌≤◌, ◌∷◌, [], false, length, IfNone, IfSome, IsTrue, OnOk, OnSome, slice_index_or};
ghost use Rattle.std.specs.BinaryHeap.{heap_items, heap_len, heap_capacity, IsHeap};
ghost use Rattle.std.specs.List.Sorted.{IsPermutation};
ghost use Rattle.jwalk_order.specs.Frontier.{next_address};
ghost use Rattle.jwalk_order.specs.IndexPath.{address, is_before};
ghost use Rattle.jwalk_order.specs.Ordered.{address_of, ordered_cmp};
ghost use Rattle.jwalk_order.specs.Addressed.{addressed, addresses_of, IsFirst};
ghost use Rattle.jwalk_order.specs.Addresses.{IsAmong};
ghost use Rattle.jwalk_order.specs.Within.{RemovesWithin};

use crate::index_path::IndexPath;
use crate::ordered::Ordered;
use std::alloc::{AllocError, Allocator};
use std::collections::BinaryHeap;
use std::marker::Model;

/// Values by address, of which the least comes out first.
///
/// The one in front, if there is one, comes before all others and is kept outside the heap. If what is pushed is then
/// the first, it is put there, so that no sift is made if it comes out at once.
#[derive(Drop)]
pub struct AddressHeap<T, A: Allocator + Copy> {
    front: Option<Ordered<T, A>>,
    others: BinaryHeap<Ordered<T, A>, A>,
}

impl<T, A: Allocator + Copy> Model for AddressHeap<T, A> {
    ghost use Rattle.std.specs.Prelude.{◌-◌, ◌≤◌, ◌++◌, length, map, option_to_list, IfSome};
    ghost use Rattle.std.specs.BinaryHeap.{heap_items, heap_capacity, IsHeap};
    ghost use Rattle.jwalk_order.specs.Ordered.{address_of, ordered_cmp};
    ghost use Rattle.jwalk_order.specs.Addressed.{addressed, IsFirst};
    ghost use Rattle.jwalk_order.specs.Heap.{Heap};

    ghost Value = { Heap T };

    ghost view = { λ h. record {
      items = map addressed (option_to_list h.front ++ heap_items h.others);
      room = heap_capacity h.others - length (option_to_list h.front ++ heap_items h.others);
    } };

    ghost invariant = { λ h. IsHeap ordered_cmp (heap_items h.others)
        × IfSome h.front (λ x. IsFirst (address_of x) (map addressed (heap_items h.others)))
        × (length (option_to_list h.front ++ heap_items h.others) ≤ heap_capacity h.others) };
}

impl<T, A: Allocator + Copy> AddressHeap<T, A> {
    /// Returns an empty heap, which takes no memory.
    pub fn new(alloc: A) -> Self
        ensures { result.items ≡ [] }
    {
        AddressHeap {
            front: None,
            others: BinaryHeap::new(alloc),
        }
    }

    /// Returns how many values it holds.
    pub fn len(&self) -> usize
        ensures { result ≡ length self.now.items }
    {
        match &self.front {
            Some(_) => self.others.len() + 1,
            None => self.others.len(),
        }
    }

    /// Makes room for one more. If memory runs out, nothing is changed.
    pub fn reserve_one(&mut self) -> Result<(), AllocError>
        ensures items { self.new.items ≡ self.old.items }
        ensures room { OnOk result (0 < self.new.room) }
    {
        self.others.reserve(2)
    }

    /// Adds a value, for which `reserve_one` has made room.
    pub fn push_reserved(&mut self, item: Ordered<T, A>)
        requires { 0 < self.old.room }
        ensures { IsPermutation (addressed item ∷ self.old.items) self.new.items }
    {
        if self.is_ahead_of(&item) {
            push_within(&mut self.others, item);
            return;
        }
        if let Some(old) = self.front.replace(item) {
            push_within(&mut self.others, old);
        }
    }

    // Whether the first comes before this.
    fn is_ahead_of(&self, item: &Ordered<T, A>) -> bool
        ensures ahead { IsTrue result → IsTrue (is_before (next_address (addresses_of self.now.items))
            (address_of item.now)) }
        ensures behind { result ≡ false → IsFirst (address_of item.now) self.now.items }
    {
        match self.peek() {
            Some(first) => item.index_path.cmp(&first.index_path).is_lt(),
            None => false,
        }
    }

    /// Returns an item at the least address, if there is one.
    pub fn peek(&self) -> Option<&Ordered<T, A>>
        ensures some { IfSome result (λ item. IsAmong (address_of item.now) (addresses_of self.now.items)) }
        ensures top { IfSome result (λ item. addressed item.now
            ≡ slice_index_or self.now.items 0 (addressed item.now)) }
        ensures least { IfSome result (λ item. IsFirst (address_of item.now) self.now.items) }
        ensures none { IfNone result (self.now.items ≡ []) }
    {
        match &self.front {
            Some(item) => Some(item),
            None => self.others.peek(),
        }
    }

    /// Removes the item that `peek` shows, and leaves room for one more.
    pub fn pop(&mut self) -> Option<Ordered<T, A>>
        ensures items { IfSome result (λ item. IsPermutation self.old.items (addressed item ∷ self.new.items)) }
        ensures top { IfSome result (λ item. addressed item ≡ slice_index_or self.old.items 0 (addressed item)) }
        ensures room { OnSome result (0 < self.new.room) }
        ensures none { IfNone result (self.old.items ≡ []) }
        ensures unchanged { IfNone result (self.new.items ≡ self.old.items) }
    {
        match self.front.take() {
            Some(item) => Some(item),
            None => self.others.pop(),
        }
    }

    /// Removes the values at an address and below it, if they come first.
    pub fn remove_within(&mut self, path: &IndexPath<A>)
    where
        T: Drop,
        ensures { RemovesWithin (address path.now) self.old.items self.new.items }
    {
        while let Some(least) = self.peek() {
            if !least.index_path.is_within(path) {
                return;
            }
            self.pop();
        }
    }
}

// Pushes an item, for which there is room.
fn push_within<T, A: Allocator + Copy>(heap: &mut BinaryHeap<Ordered<T, A>, A>, item: Ordered<T, A>)
    requires room { heap_len heap.old < heap_capacity heap.old }
    requires order { IsHeap ordered_cmp (heap_items heap.old) }
    ensures items { IsPermutation (item ∷ heap_items heap.old) (heap_items heap.new) }
    ensures order { IsHeap ordered_cmp (heap_items heap.new) }
    ensures len { heap_len heap.new ≡ heap_len heap.old + 1 }
    ensures capacity { heap_capacity heap.old ≤ heap_capacity heap.new }
{
    match heap.push(item) {
        Ok(()) => {}
        Err(_) => unreachable!(),
    }
}
