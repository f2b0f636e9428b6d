//! Work and results of a tree, by address.
ghost use Rattle.std.specs.Prelude.{◌≡◌, ◌+◌, ◌<◌, ◌++◌, ◌↔◌, false, length, true, IfErr, IfOk, IsTrue, OnErr, OnOk};
ghost use Rattle.std.specs.List.Sorted.{IsPermutation};
ghost use Rattle.jwalk_order.specs.IndexPath.{address as indices_of};
ghost use Rattle.jwalk_order.specs.Addressed.{numbered};
ghost use Rattle.jwalk_board.specs.Board.{Finishes, HandsOut, HoldsOpen, IsNew, IsNextReady, IsWhole, Takes};
ghost use Rattle.jwalk_board.specs.Next.{IsNextQueued};
ghost use Rattle.jwalk_board.specs.Skip.{SkipsNext};
ghost use Rattle.jwalk_board.specs.Refusal.{RefusesFinish, RefusesHandOut, RefusesTake};

use jwalk_order::address_heap::AddressHeap;
use jwalk_order::address_set::AddressSet;
use jwalk_order::index_path::IndexPath;
use jwalk_order::ordered::Ordered;
use jwalk_order::ordered_queue::OrderedMatcher;
use jwalk_order::sibling_queue::SiblingQueue;
use std::alloc::{AllocError, Allocator, Global};
use std::marker::Model;

mod moves;
mod plan;
mod refusal;
mod rehearsal;
mod stage;

pub use moves::Move;
pub use plan::{Plan, Refused};
pub use refusal::{FinishFault, FinishRefusal, HandOutRefusal, TakeRefusal};
pub use rehearsal::{Rehearsal, rehearse};

/// Specifications to be read, by address, and the readings that were made of them.
///
/// A specification is queued until it is taken. Then its address is in hand until its reading comes with its children.
/// The reading is then ready until it is handed out. Readings are handed out a parent first, then its children in
/// order, each with all that is below it.
pub struct Board<T, R, A: Allocator + Copy = Global> {
    queued: SiblingQueue<T, A>,
    in_hand: AddressSet<A>,
    ready: AddressHeap<R, A>,
    matcher: OrderedMatcher<A>,
    stopped: bool,
}

impl<T: Drop, R: Drop, A: Allocator + Copy> Drop for Board<T, R, A> {
    fn drop(self) {
        let Board {
            queued: _,
            in_hand: _,
            ready: _,
            matcher: _,
            stopped: _,
        } = self;
    }
}

impl<T, R, A: Allocator + Copy> Model for Board<T, R, A> {
    ghost use Rattle.jwalk_board.specs.Board.{Board as State, IsWhole};

    ghost Value = { State T R };

    ghost view = { λ b. record {
      queued = b.queued;
      in_hand = b.in_hand;
      ready = b.ready.items;
      frontier = b.matcher;
      stopped = b.stopped;
    } };

    ghost invariant = { λ b. IsWhole {T = T} {R = R} (record {
      queued = b.queued;
      in_hand = b.in_hand;
      ready = b.ready.items;
      frontier = b.matcher;
      stopped = b.stopped;
    }) };
}

impl<T: Drop, R: Drop, A: Allocator + Copy> Board<T, R, A> {
    /// Returns a board on which these are queued as the roots, at `[0]`, `[1]` and so on, and nothing is in hand or
    /// ready.
    ///
    /// # Errors
    ///
    /// If memory runs out. The roots are then given back.
    pub fn new(roots: Vec<T, A>) -> Result<Self, Vec<T, A>>
        ensures made { IfOk result (IsNew roots.items) }
        ensures handed_back { IfErr result (λ refused. refused ≡ roots) }
    {
        let alloc = *roots.allocator();
        let Ok(matcher) = OrderedMatcher::with_roots(alloc, roots.len()) else {
            return Err(roots);
        };
        let mut queued = SiblingQueue::new(alloc);
        queued.push_children(&IndexPath::new(Vec::new(alloc)), roots)?;
        Ok(Board {
            queued,
            in_hand: AddressSet::new(alloc),
            ready: AddressHeap::new(alloc),
            matcher,
            stopped: false,
        })
    }

    /// Takes the specification at the least queued address, with child count 0. The address is then in hand.
    ///
    /// # Errors
    ///
    /// `Stopped` if the board is stopped. Otherwise `Empty` if nothing is queued and something is in hand, and `Done`
    /// if there is neither. Otherwise `Memory`, if memory runs out. After an error the board is unchanged.
    pub fn take(&mut self) -> Result<Ordered<T, A>, TakeRefusal>
        ensures taken { IfOk result (λ item. Takes item self.old self.new) }
        ensures refused { IfErr result (RefusesTake self.old) }
        ensures unchanged { OnErr result (self.new ≡ self.old) }
    {
        if self.stopped {
            return Err(TakeRefusal::Stopped);
        }
        let Some(least) = self.queued.least() else {
            return Err(if self.in_hand.len() == 0 {
                TakeRefusal::Done
            } else {
                TakeRefusal::Empty
            });
        };
        let Ok(path) = least.try_clone() else {
            return Err(TakeRefusal::Memory);
        };
        let Ok(()) = self.in_hand.insert(&path) else {
            return Err(TakeRefusal::Memory);
        };
        match self.queued.pop() {
            Some(value) => Ok(Ordered::new(value, path, 0)),
            None => unreachable!(),
        }
    }

    /// Puts the reading of an address that is in hand among the ready ones, and queues its children, child `i` at the
    /// address followed by `i`.
    ///
    /// # Errors
    ///
    /// `Stopped` if the board is stopped. Otherwise `NotInHand` if the address is not in hand. Otherwise `Memory`, if
    /// memory runs out. After an error the board is unchanged, and the arguments are given back.
    pub fn finish(
        &mut self,
        address: IndexPath<A>,
        reading: R,
        children: Vec<T, A>,
    ) -> Result<(), FinishFault<T, R, A>>
        ensures finished { OnOk result (Finishes (indices_of address) reading children.items self.old self.new) }
        ensures refused { IfErr result (λ fault. RefusesFinish self.old (indices_of address) fault.cause) }
        ensures address_back { IfErr result (λ fault. fault.address ≡ address) }
        ensures reading_back { IfErr result (λ fault. fault.reading ≡ reading) }
        ensures children_back { IfErr result (λ fault. fault.children ≡ children) }
        ensures unchanged { OnErr result (self.new ≡ self.old) }
    {
        if self.stopped {
            return Err(FinishFault {
                cause: FinishRefusal::Stopped,
                address,
                reading,
                children,
            });
        }
        if !self.in_hand.contains(&address) {
            return Err(FinishFault {
                cause: FinishRefusal::NotInHand,
                address,
                reading,
                children,
            });
        }
        let count = children.len();
        if let Err(refused) = queue_children(
            &mut self.queued,
            &mut self.ready,
            &address,
            children,
        ) {
            return Err(FinishFault {
                cause: FinishRefusal::Memory,
                address,
                reading,
                children: refused,
            });
        }
        self.in_hand.remove(&address);
        self.ready
            .push_reserved(Ordered::new(reading, address, count));
        Ok(())
    }

    /// Hands out the reading at the next address, with the count of its children. The address after it is then next.
    ///
    /// # Errors
    ///
    /// `Stopped` if the board is stopped. Otherwise `Done` if all was handed out, and `NotReady` if the next address is
    /// queued or in hand. Otherwise `Memory`, if memory runs out. After an error the board is unchanged.
    pub fn hand_out(&mut self) -> Result<Ordered<R, A>, HandOutRefusal>
        ensures handed_out { IfOk result (λ item. HandsOut item self.old self.new) }
        ensures refused { IfErr result (RefusesHandOut self.old) }
        ensures unchanged { OnErr result (self.new ≡ self.old) }
    {
        if self.stopped {
            return Err(HandOutRefusal::Stopped);
        }
        if self.matcher.is_none() {
            return Err(HandOutRefusal::Done);
        }
        let Some(least) = self.ready.peek() else {
            return Err(HandOutRefusal::NotReady);
        };
        if least.index_path != *self.matcher.looking_for() {
            return Err(HandOutRefusal::NotReady);
        }
        match self.hand_out_next() {
            Ok(item) => Ok(item),
            Err(_) => Err(HandOutRefusal::Memory),
        }
    }

    /// Hands out the reading at the next address, which is ready, with the count of its children. The address after it
    /// is then next.
    ///
    /// # Errors
    ///
    /// If memory runs out. Then the board is unchanged.
    pub fn hand_out_next(&mut self) -> Result<Ordered<R, A>, AllocError>
        requires running { self.old.stopped ≡ false }
        requires ready { IsNextReady self.old }
        ensures handed_out { IfOk result (λ item. HandsOut item self.old self.new) }
        ensures unchanged { OnErr result (self.new ≡ self.old) }
    {
        let Some(least) = self.ready.peek() else {
            unreachable!()
        };
        self.matcher.advance_past(least)?;
        match self.ready.pop() {
            Some(item) => Ok(item),
            None => unreachable!(),
        }
    }

    /// Passes the next address as one without children, if there is one. What is queued, in hand or ready at it or below it
    /// leaves the board: it is not taken and not handed out, and `finish` fails with `NotInHand` there. It takes no memory,
    /// and is the same on a board that is stopped.
    pub fn skip_next(&mut self)
        ensures { SkipsNext self.old self.new }
    {
        if !self.matcher.is_none() {
            let next = self.matcher.looking_for();
            self.queued.remove_within(next);
            self.in_hand.remove_within(next);
            self.ready.remove_within(next);
            self.matcher.go_on();
        }
    }

    /// Returns whether the reading at the next address is ready. It is handed out next, unless the board is stopped or
    /// memory runs out.
    pub fn is_next_ready(&self) -> bool
        ensures { IsTrue result ↔ IsNextReady self.now }
    {
        let Some(least) = self.ready.peek() else {
            return false;
        };
        !self.matcher.is_none() && least.index_path == *self.matcher.looking_for()
    }

    /// Returns whether the specification at the next address is queued. It is taken next, unless the board is stopped or
    /// memory runs out.
    pub fn is_next_queued(&self) -> bool
        ensures { IsTrue result ↔ IsNextQueued self.now }
    {
        let Some(first) = self.queued.least() else {
            return false;
        };
        !self.matcher.is_none() && *first == *self.matcher.looking_for()
    }

    /// Stops the board: every later step fails with `Stopped`.
    pub fn stop(&mut self)
        ensures { self.new ≡ record self.old { stopped = true } }
    {
        self.stopped = true;
    }

    /// Returns whether the board is stopped.
    pub fn is_stopped(&self) -> bool
        ensures { result ≡ self.now.stopped }
    {
        self.stopped
    }

    /// Returns how many specifications are queued.
    pub fn queued(&self) -> usize
        ensures { result ≡ length self.now.queued }
    {
        self.queued.len()
    }

    /// Returns how many addresses are in hand.
    pub fn in_hand(&self) -> usize
        ensures { result ≡ length self.now.in_hand }
    {
        self.in_hand.len()
    }

    /// Returns how many readings are ready.
    pub fn ready(&self) -> usize
        ensures { result ≡ length self.now.ready }
    {
        self.ready.len()
    }

    /// Returns how many addresses are queued or in hand.
    pub fn pending(&self) -> usize
        ensures sum { result ≡ length self.now.queued + length self.now.in_hand }
        ensures holds_open { HoldsOpen self.now }
        ensures whole { IsWhole self.now }
    {
        self.queued.len() + self.in_hand.len()
    }
}

// Queues the children of an address, and makes room for its reading.
fn queue_children<T: Drop, R, A: Allocator + Copy>(
    queued: &mut SiblingQueue<T, A>,
    ready: &mut AddressHeap<R, A>,
    address: &IndexPath<A>,
    children: Vec<T, A>,
) -> Result<(), Vec<T, A>>
    ensures queued { OnOk result (IsPermutation (numbered (indices_of address.now) 0 children.items ++ queued.old)
        queued.new) }
    ensures room { OnOk result (0 < ready.new.room) }
    ensures ready { ready.new.items ≡ ready.old.items }
    ensures handed_back { IfErr result (λ refused. refused ≡ children) }
    ensures unchanged { OnErr result (queued.new ≡ queued.old) }
{
    match ready.reserve_one() {
        Ok(()) => queued.push_children(address, children),
        Err(_) => Err(children),
    }
}
