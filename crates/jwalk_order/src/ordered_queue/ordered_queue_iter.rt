//! The items of a queue as they come.
ghost use Rattle.std.specs.Prelude.{length, IfOk, OnErr};
ghost use Rattle.std.specs.Iterator.{at_most};
ghost use Rattle.jwalk_order.specs.OrderedQueue.{IsUnchanged};
ghost use Rattle.jwalk_order.specs.OrderedQueueIter.{queue_of, IsOver, IsOverTheSame};
ghost use Rattle.jwalk_order.specs.Step.{StepGives, NextGives, MayRefuse};

use crate::ordered::Ordered;
use crate::ordered_queue::OrderedQueue;
use std::alloc::{AllocError, Allocator, Global};

/// What a step returns.
#[derive(Debug, Drop)]
pub enum Step<T, A: Allocator + Copy = Global> {
    /// The next item.
    Item(Ordered<T, A>),
    /// Nothing can come now.
    Empty,
    /// Nothing will come any more.
    Done,
}

/// The items of a queue, one step at a time. It can be dropped at any time, and the queue goes on.
#[derive(Drop)]
pub struct OrderedQueueIter<'a, T, A: Allocator + Copy = Global> {
    queue: &'a mut OrderedQueue<T, A>,
}

impl<'a, T, A: Allocator + Copy> OrderedQueueIter<'a, T, A> {
    pub(super) fn over(queue: &'a mut OrderedQueue<T, A>) -> Self
        ensures { IsOver result queue.entry }
    {
        OrderedQueueIter { queue }
    }

    /// Returns the next item, if one can come now. In a relaxed queue that is one at the least address. In a strict one
    /// it comes only if its address is the one that comes next in the tree. If a strict queue gives an item, it looks
    /// for its children next.
    ///
    /// # Errors
    ///
    /// If memory runs out, which can happen only if a strict queue would give an item that has children. The queue is
    /// then unchanged.
    pub fn step(&mut self) -> Result<Step<T, A>, AllocError>
        ensures same_queue { IsOverTheSame self.old self.new }
        ensures answered { IfOk result (λ step. StepGives (queue_of self.old) step (queue_of self.new)) }
        ensures unchanged { OnErr result (IsUnchanged (queue_of self.old) (queue_of self.new)) }
        ensures refused { OnErr result (MayRefuse (queue_of self.old)) }
    {
        self.queue.step()
    }
}

/// Yields the items that can come now. `None` means that none can, or that memory ran out when its children were to be
/// looked for: [`OrderedQueueIter::step`] says which. Items may come again after it.
impl<'a, T, A: Allocator + Copy> Iterator for OrderedQueueIter<'a, T, A> {
    type Item = Ordered<T, A>;

    ghost next_gives = { λ old item new. NextGives (queue_of old) item (queue_of new) × IsOverTheSame old new };

    ghost remaining = { λ it. at_most (length (queue_of it).items) };

    fn next(&mut self) -> Option<Ordered<T, A>> {
        match self.step() {
            Ok(Step::Item(item)) => Some(item),
            Ok(Step::Empty | Step::Done) | Err(_) => None,
        }
    }
}
