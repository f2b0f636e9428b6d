//! A queue that gives what is at the least address first.
ghost use Rattle.std.specs.Prelude.{◌≡◌, ◌-◌, ◌+◌, ◌<◌, ◌≤◌, ◌^◌, IfErr, IfOk, IsOk, OnErr, OnOk, false, true};
ghost use Rattle.jwalk_order.specs.OrderedQueue.{IsNew, IsUnchanged, Adds};
ghost use Rattle.jwalk_order.specs.OrderedQueueIter.{IsOver};
ghost use Rattle.jwalk_order.specs.Step.{StepGives, MayRefuse};

use crate::ordered::Ordered;
use std::alloc::{AllocError, Allocator, Global};
use std::collections::BinaryHeap;
use std::marker::Model;

mod ordered_matcher;
mod ordered_queue_iter;

pub use ordered_matcher::OrderedMatcher;
pub use ordered_queue_iter::{OrderedQueueIter, Step};

/// When an item may come.
#[derive(Clone, Copy, Debug, PartialEq, Eq)]
pub enum Ordering {
    /// As soon as it has the least address of those that are there.
    Relaxed,
    /// When all that comes before it in the tree has come.
    Strict,
}

/// Items with their addresses, any number of them at one address, of which those at the least address come first. It
/// counts the items that are pending, and can be stopped.
#[derive(Drop)]
pub struct OrderedQueue<T, A: Allocator + Copy = Global> {
    items: BinaryHeap<Ordered<T, A>, A>,
    pending: usize,
    is_stopped: bool,
    ordering: Ordering,
    matcher: OrderedMatcher<A>,
}

impl<T, A: Allocator + Copy> Model for OrderedQueue<T, A> {
    ghost use Rattle.std.specs.Prelude.{◌-◌};
    ghost use Rattle.std.specs.BinaryHeap.{heap_items, heap_len, heap_capacity, IsHeap};
    ghost use Rattle.jwalk_order.specs.Ordered.{ordered_cmp};
    ghost use Rattle.jwalk_order.specs.OrderedQueue.{Queue};

    ghost Value = { Queue T A };

    ghost view = { λ q. record {
      items = heap_items q.items;
      pending = q.pending;
      stopped = q.is_stopped;
      ordering = q.ordering;
      frontier = q.matcher;
      room = heap_capacity q.items - heap_len q.items;
    } };

    ghost invariant = { λ q. IsHeap ordered_cmp (heap_items q.items) };
}

impl<T, A: Allocator + Copy> OrderedQueue<T, A> {
    /// Returns an empty queue over a tree with one root.
    ///
    /// # Errors
    ///
    /// If memory runs out.
    pub fn new(alloc: A, ordering: Ordering) -> Result<Self, AllocError>
        ensures { IfOk result (IsNew ordering 1) }
    {
        Self::with_roots(alloc, ordering, 1)
    }

    /// Returns an empty queue over a tree with `count` roots.
    ///
    /// # Errors
    ///
    /// If memory runs out.
    pub fn with_roots(alloc: A, ordering: Ordering, count: usize) -> Result<Self, AllocError>
        ensures { IfOk result (IsNew ordering count) }
    {
        let matcher = OrderedMatcher::with_roots(alloc, count)?;
        Ok(OrderedQueue {
            items: BinaryHeap::new(alloc),
            pending: 0,
            is_stopped: false,
            ordering,
            matcher,
        })
    }

    /// Adds an item, which is then pending. Fewer than 2^64 - 1 items may be pending before.
    ///
    /// # Errors
    ///
    /// If memory runs out. The queue is then unchanged, and the item is given back.
    pub fn push(&mut self, item: Ordered<T, A>) -> Result<(), Ordered<T, A>>
        requires { self.old.pending + 1 < 2 ^ 64 }
        ensures added { OnOk result (Adds item self.old self.new) }
        ensures handed_back { IfErr result (λ refused. refused ≡ item) }
        ensures unchanged { OnErr result (IsUnchanged self.old self.new) }
        ensures in_room { 0 < self.old.room → IsOk result }
    {
        match self.items.push(item) {
            Ok(()) => {
                self.pending += 1;
                Ok(())
            }
            Err(refused) => Err(refused.value),
        }
    }

    /// Counts an item that came as completed, so that it is no longer pending. At least one item must be pending.
    pub fn complete_item(&mut self)
        requires { 0 < self.old.pending }
        ensures { self.new ≡ record self.old { pending = self.old.pending - 1 } }
    {
        self.pending -= 1;
    }

    /// Makes room, so that the next `count` pushes don't fail, whatever steps and completions come between them.
    ///
    /// # Errors
    ///
    /// If memory runs out. The queue is unchanged in any case.
    pub fn reserve(&mut self, count: usize) -> Result<(), AllocError>
        ensures unchanged { IsUnchanged self.old self.new }
        ensures room { OnOk result (count ≤ self.new.room) }
        ensures in_room { count ≤ self.old.room → IsOk result }
    {
        self.items.reserve(count)
    }

    /// Returns how many items were pushed and are not completed.
    pub fn pending(&self) -> usize
        ensures { result ≡ self.now.pending }
    {
        self.pending
    }

    /// Stops the queue: no item comes any more.
    pub fn stop(&mut self)
        ensures { self.new ≡ record self.old { stopped = true } }
    {
        self.is_stopped = true;
    }

    /// Returns the items, one step at a time.
    pub fn iter(&mut self) -> OrderedQueueIter<'_, T, A>
        ensures { IsOver result self.entry }
    {
        OrderedQueueIter::over(self)
    }

    // What `OrderedQueueIter::step` returns.
    fn step(&mut self) -> Result<Step<T, A>, AllocError>
        ensures answered { IfOk result (λ step. StepGives self.old step self.new) }
        ensures unchanged { OnErr result (IsUnchanged self.old self.new) }
        ensures refused { OnErr result (MayRefuse self.old) }
    {
        if self.is_stopped {
            return Ok(Step::Done);
        }
        match self.ordering {
            Ordering::Relaxed => Ok(self.relaxed_step()),
            Ordering::Strict => self.strict_step(),
        }
    }

    fn relaxed_step(&mut self) -> Step<T, A>
        requires running { self.old.stopped ≡ false }
        requires relaxed { self.old.ordering ≡ Ordering.Relaxed }
        ensures { StepGives self.old result self.new }
    {
        match self.items.pop() {
            Some(item) => Step::Item(item),
            None if self.pending == 0 => Step::Done,
            None => Step::Empty,
        }
    }

    // The matcher passes the item before it is taken, so that nothing changes if memory runs out.
    fn strict_step(&mut self) -> Result<Step<T, A>, AllocError>
        requires running { self.old.stopped ≡ false }
        requires strict { self.old.ordering ≡ Ordering.Strict }
        ensures answered { IfOk result (λ step. StepGives self.old step self.new) }
        ensures unchanged { OnErr result (IsUnchanged self.old self.new) }
        ensures refused { OnErr result (MayRefuse self.old) }
    {
        if self.matcher.is_none() {
            return Ok(Step::Done);
        }
        let Some(top) = self.items.peek() else {
            return Ok(Step::Empty);
        };
        if top.index_path != *self.matcher.looking_for() {
            return Ok(Step::Empty);
        }
        self.matcher.advance_past(top)?;
        match self.items.pop() {
            Some(item) => Ok(Step::Item(item)),
            None => unreachable!(),
        }
    }
}
