//! The threads that read for a walk.
ghost use Rattle.std.specs.Prelude.{◌≤◌, IfSome};
ghost use Rattle.std.specs.Arc.{arc_value};
ghost use Rattle.std.specs.Sync.Mutex.{mutex_guard_value};
ghost use Rattle.keyed_slot.specs.Keyed.{WasEmpty};
ghost use Rattle.jwalk_order.specs.IndexPath.{address as indices_of};
ghost use Rattle.jwalk_order.specs.Ordered.{address_of};
ghost use Rattle.tree_crew.specs.BoardTag.{origin_at};
ghost use Rattle.tree_crew.specs.Handled.{IsHandedIn, IsMissed};
ghost use Rattle.tree_crew.specs.Origin.{IsAt, IsMadeAt};

use crate::hand_in::HandIn;
use crate::message::Message;
use crate::shared::Shared;
use crate::sleepers::Sleepers;
use crate::steps::{Called, Turn};
use crate::waiting::{lock_soon, wait_a_turn};
use crate::work::Handled;
use jwalk_board::board::Plan;
use jwalk_order::ordered::Ordered;
use std::alloc::Allocator;
use std::sync::{Arc, MutexGuard, Wait};
use std::thread;
use std::thread::Threads;
use std::time::Clock;

/// A thread of a walk: it takes specifications, reads them and hands in the outcome.
pub(crate) struct Worker<
    R: Wait + Clock + Drop,
    T: Drop,
    U: Drop,
    J: Plan<A, Spec = T, Reading = U> + Drop,
    A: Allocator + Copy,
> {
    shared: Arc<Shared<R, T, U, J, A>, A>,
}

impl<
    R: Wait + Clock + Drop,
    T: Drop,
    U: Drop,
    J: Plan<A, Spec = T, Reading = U> + Drop,
    A: Allocator + Copy,
> Drop for Worker<R, T, U, J, A> {
    fn drop(self) {
        let Worker { shared: _ } = self;
    }
}

impl<
    R: Wait + Clock + Drop,
    T: Drop,
    U: Drop,
    J: Plan<A, Spec = T, Reading = U> + Drop,
    A: Allocator + Copy,
> Worker<R, T, U, J, A> {
    fn hand_in(
        &self,
        held: &mut MutexGuard<'_, Sleepers>,
        read: Option<HandIn<T, U, J, A>>,
    ) -> Option<Handled<T, U, J, A>>
        requires { IfSome read (λ h. IsMadeAt J.Plan (origin_at (arc_value self.now.shared).work)
            (indices_of h.address) h.message h.children.items) }
        ensures { IsHandedIn (arc_value self.now.shared).work (IsMissed (arc_value self.now.shared).work
            (mutex_guard_value held.new)) read result }
    {
        match read {
            Some(read) => Some(self.shared.hand_in(held, read)),
            None => None,
        }
    }

    /// Wakes those who are called, without the lock.
    fn leave(&self, held: MutexGuard<'_, Sleepers>, calls: Called) {
        drop(held);
        self.shared.call(calls);
    }

    /// Blocks until it is called or for a turn, if nobody is called, and else wakes those who are. Returns the lock, taken
    /// again.
    fn wait<'b>(
        &'b self,
        held: MutexGuard<'b, Sleepers>,
        calls: Called,
    ) -> MutexGuard<'b, Sleepers> {
        let rt = &self.shared.crew.rt;
        if !calls.is_empty() {
            self.leave(held, calls);
            return lock_soon(rt, &self.shared.sleepers);
        }
        let mut held = held;
        held.add_worker();
        let (mut woken, timed_out) = wait_a_turn(rt, &self.shared.queued, held);
        woken.remove_worker(timed_out);
        woken
    }

    /// Takes a specification as soon as one may be taken: none once the board is done or stopped.
    fn take<'b>(&'b self, held: MutexGuard<'b, Sleepers>) -> Option<Ordered<T, A>>
        ensures { IfSome result (λ item. IsAt J.Plan (origin_at (arc_value self.now.shared).work)
            (address_of item) item.value) }
    {
        let mut held = held;
        for _ in self.shared.crew.rt.forever() {
            let (turn, wanted, _receipt) = self.shared.turn(&mut held);
            let calls = held.called_by(wanted);
            match turn {
                Turn::Empty | Turn::Full => held = self.wait(held, calls),
                Turn::Read(item) => {
                    self.leave(held, calls);
                    return Some(item);
                }
                Turn::End => {
                    self.leave(held, calls);
                    return None;
                }
            }
        }
        unreachable!()
    }

    /// Hands in what was read, if anything, and takes a specification as soon as one may be taken: none once the board
    /// is done or stopped.
    fn next(
        &self,
        read: Option<HandIn<T, U, J, A>>,
    ) -> (Option<Ordered<T, A>>, Option<Handled<T, U, J, A>>)
        requires { IfSome read (λ h. IsMadeAt J.Plan (origin_at (arc_value self.now.shared).work)
            (indices_of h.address) h.message h.children.items) }
        ensures taken { IfSome result.0 (λ item. IsAt J.Plan (origin_at (arc_value self.now.shared).work)
            (address_of item) item.value) }
        ensures handed_in { IsHandedIn (arc_value self.now.shared).work (λ empty. WasEmpty empty
            (arc_value self.now.shared).work) read result.1 }
    {
        let mut held = lock_soon(&self.shared.crew.rt, &self.shared.sleepers);
        let receipt = self.hand_in(&mut held, read);
        (self.take(held), receipt)
    }

    /// If memory runs out for the reading, its message reports it. Returns none if it runs out for the plan's clone,
    /// and the board is stopped then.
    fn read(&self, item: Ordered<T, A>) -> Option<HandIn<T, U, J, A>>
        requires lawful { J.IsLawful (arc_value (arc_value self.now.shared).plan) }
        requires at { IsAt J.Plan (origin_at (arc_value self.now.shared).work) (address_of item) item.value }
        ensures { IfSome result (λ h. IsMadeAt J.Plan (origin_at (arc_value self.now.shared).work)
            (indices_of h.address) h.message h.children.items) }
    {
        let Ordered {
            value: of,
            index_path: address,
            ..
        } = item;
        match self.shared.plan.clone() {
            Ok(plan) => {
                let (message, children) = Message::read(self.shared.alloc, plan, of);
                Some(HandIn::new(address, message, children))
            }
            Err(_) => {
                let _receipt = self.shared.stop();
                None
            }
        }
    }

    /// Works until the board is done or stopped.
    fn work(&self)
        requires { J.IsLawful (arc_value (arc_value self.now.shared).plan) }
    {
        let (mut taken, _none) = self.next(None);
        for _ in self.shared.crew.rt.forever() {
            match taken {
                Some(item) => {
                    let read = self.read(item);
                    let (item, _receipt) = self.next(read);
                    taken = item;
                }
                None => return,
            }
        }
    }
}

/// Starts a worker, if a thread can be started for it.
fn start_worker<
    R: Wait + Threads + Clock + Drop + Send + Sync + 'static,
    T: Drop + Send + 'static,
    U: Drop + Send + 'static,
    J: Plan<A, Spec = T, Reading = U> + Drop + Send + Sync + 'static,
    A: Allocator + Copy + Send + Sync + 'static,
>(shared: &Arc<Shared<R, T, U, J, A>, A>) -> bool
    requires { J.IsLawful (arc_value (arc_value shared.now).plan) }
{
    let Ok(mine) = shared.clone() else {
        return false;
    };
    let worker = Worker { shared: mine };
    thread::spawn(
        &shared.crew.rt,
        move ||
            requires { J.IsLawful (arc_value (arc_value worker.shared).plan) }
        { worker.work() },
    )
    .is_ok()
}

/// Starts that many workers, or fewer if no more threads can be started. Returns how many.
pub(crate) fn start_workers<
    R: Wait + Threads + Clock + Drop + Send + Sync + 'static,
    T: Drop + Send + 'static,
    U: Drop + Send + 'static,
    J: Plan<A, Spec = T, Reading = U> + Drop + Send + Sync + 'static,
    A: Allocator + Copy + Send + Sync + 'static,
>(shared: &Arc<Shared<R, T, U, J, A>, A>, count: usize) -> usize
    requires { J.IsLawful (arc_value (arc_value shared.now).plan) }
    ensures { result ≤ count }
{
    for started in 0..count {
        if !start_worker(shared) {
            return started;
        }
    }
    count
}
