//! A walk over a crew.
ghost use Rattle.std.specs.Prelude.{◌≡◌, ◌+◌, ◌≤◌, false, IfOk, IfErr, OnOk, length};
ghost use Rattle.std.specs.Arc.{arc_value};
ghost use Rattle.keyed_slot.specs.Keyed.{key_mark, is_out, handled, Opens};
ghost use Rattle.jwalk_order.specs.Frontier.{passed, roots as root_addresses};
ghost use Rattle.tree_crew.specs.Crew.{limit_of};
ghost use Rattle.tree_crew.specs.BoardTag.{origin_at};
ghost use Rattle.tree_crew.specs.Handled.{WasAsked};
ghost use Rattle.tree_crew.specs.Origin.{CountAlike};
ghost use Rattle.tree_crew.specs.Shared.{IsAnswerOf};

use crate::arrival::Arrival;
use crate::board_tag::BoardTag;
use crate::crew::{NotStarted, Place};
use crate::message::Message;
use crate::origin::Origin;
use crate::shared::Shared;
use crate::waiting::{lock_soon, wait_a_turn};
use crate::work::Work;
use crate::worker::start_workers;
use jwalk_board::board::Plan;
use jwalk_order::ordered::Ordered;
use keyed_slot::marked::Marked;
use keyed_slot::slot::Key;
use std::alloc::{AllocError, Allocator, Global};
use std::sync::{Arc, Wait};
use std::thread::Threads;
use std::time::Clock;

/// The readings of a tree, made by a crew's workers. It has a place of the crew.
///
/// Dropping it gives the place back and ends the workers, each after the specification that it is reading. The drop
/// doesn't block for the workers, but may block for a lock.
pub struct Session<
    R: Wait + Clock + Drop,
    T: Drop,
    U: Drop,
    J: Plan<A, Spec = T, Reading = U> + Drop,
    A: Allocator + Copy = Global,
> {
    place: Place<R, A>,
    shared: Arc<Shared<R, T, U, J, A>, A>,
    key: Key<Work<T, U, J, A>>,
    ghost own: { Opens key (arc_value shared).work × (is_out key ≡ false) },
}

impl<
    R: Wait + Clock + Drop,
    T: Drop,
    U: Drop,
    J: Plan<A, Spec = T, Reading = U> + Drop,
    A: Allocator + Copy,
> Drop for Session<R, T, U, J, A> {
    fn drop(self) {
        let Session {
            place,
            shared,
            key: _,
        } = self;
        let _receipt = shared.stop();
        drop(place);
    }
}

/// Blocks until the next reading is there, or none will come.
fn wait_for<
    R: Wait + Clock + Drop,
    T: Drop,
    U: Drop,
    J: Plan<A, Spec = T, Reading = U> + Drop,
    A: Allocator + Copy,
>(
    shared: &Shared<R, T, U, J, A>,
    key: &mut Key<Work<T, U, J, A>>,
) -> Result<Option<Ordered<Message<T, U, J, A>, A>>, AllocError>
    requires opens { Opens key.old shared.now.work }
    requires home { is_out key.old ≡ false }
    ensures opens { Opens key.new shared.now.work }
    ensures home { is_out key.new ≡ false }
    ensures answer { IsAnswerOf J.Plan (origin_at shared.now.work) (key_mark key.old) result (key_mark key.new) }
    ensures asked { IfErr result (λ _. WasAsked (handled key.new)) }
{
    let rt = &shared.crew.rt;
    let mut sleepers = lock_soon(rt, &shared.sleepers);
    for _ in rt.forever() {
        let (arrival, calls) = shared.arrival(&mut sleepers, key);
        match arrival {
            Arrival::Entered(item) => {
                drop(sleepers);
                shared.call(calls);
                return Ok(Some(item));
            }
            Arrival::Lost => return Ok(None),
            Arrival::Memory => return Err(AllocError),
            Arrival::Wait => {
                sleepers.add_walk();
                let (woken, timed_out) = wait_a_turn(rt, &shared.arrived, sleepers);
                sleepers = woken;
                sleepers.remove_walk(timed_out);
            }
        }
    }
    unreachable!()
}

impl<
    R: Wait + Clock + Drop,
    T: Drop,
    U: Drop,
    J: Plan<A, Spec = T, Reading = U> + Drop,
    A: Allocator + Copy,
> Session<R, T, U, J, A> {
    ghost use Rattle.tree_crew.specs.Session.{origin_of, awaited_by, read_ahead_of, HoldsWithin};

    /// Returns the next reading in preorder, once it is there, or none if all were handed out. It may block for the
    /// reading or for a lock. The addresses of the specifications below it are awaited from then on, in place of its
    /// own.
    ///
    /// # Errors
    ///
    /// If memory ran out, for the hand-out or for a worker. A reading may have been passed over then, so the session is
    /// not to be asked again.
    pub fn next(&mut self) -> Result<Option<Ordered<Message<T, U, J, A>, A>>, AllocError>
        ensures origin { origin_of self.new ≡ origin_of self.old }
        ensures read_ahead { read_ahead_of self.new ≡ read_ahead_of self.old }
        ensures answer { IsAnswerOf J.Plan (origin_of self.old) (awaited_by self.old) result (awaited_by self.new) }
        ensures asked { IfErr result (λ _. WasAsked (handled self.new.key)) }
    {
        wait_for(&*self.shared, &mut self.key)
    }

    /// Passes over the next reading and all that is below it, if any is left. What was read there is dropped, now or when
    /// its worker comes back with it. It doesn't block for a reading, but may block for a lock.
    ///
    /// # Errors
    ///
    /// If the board is out, which is taken for memory that ran out. The session is not to be asked again.
    pub fn skip(&mut self) -> Result<(), AllocError>
        ensures origin { origin_of self.new ≡ origin_of self.old }
        ensures read_ahead { read_ahead_of self.new ≡ read_ahead_of self.old }
        ensures passed { OnOk result (awaited_by self.new ≡ passed (awaited_by self.old) 0) }
    {
        let shared = &*self.shared;
        let mut sleepers = lock_soon(&shared.crew.rt, &shared.sleepers);
        let (skipped, calls) = shared.skip(&mut sleepers, &mut self.key);
        drop(sleepers);
        shared.call(calls);
        if skipped { Ok(()) } else { Err(AllocError) }
    }

    /// Returns how many readings were made and not handed out: at most as many as the workers read ahead, and one. It
    /// may block for a lock.
    pub fn ahead(&self) -> usize
        ensures most { result ≤ read_ahead_of self.now + 1 }
        ensures within { HoldsWithin ⟦<Work<T, U, J, A> as Marked>⟧.fits self.now }
    {
        let mut sleepers = self.shared.sleepers.lock(&self.shared.crew.rt);
        let (ready, _receipt) = self.shared.ready(&mut sleepers);
        drop(sleepers);
        ready
    }
}

impl<
    R: Wait + Threads + Clock + Drop + Send + Sync + 'static,
    T: Drop + Send + 'static,
    U: Drop + Send + 'static,
    J: Plan<A, Spec = T, Reading = U> + Drop + Send + Sync + 'static,
    A: Allocator + Copy + Send + Sync + 'static,
> Session<R, T, U, J, A> {
    ghost use Rattle.tree_crew.specs.Session.{origin_of, awaited_by, read_ahead_of};

    fn start_on(
        place: Place<R, A>,
        plan: Arc<J, A>,
        tag: &BoardTag<T, J, A>,
        roots: Vec<T, A>,
    ) -> Result<Self, NotStarted>
        requires lawful { J.IsLawful (arc_value plan) }
        requires plan { arc_value plan ≡ tag.now.origin.value.plan }
        requires limit { limit_of (arc_value place.crew) ≡ tag.now.limit.value }
        requires alike { CountAlike J.Plan tag.now.origin.value.plan roots.items tag.now.origin.value.roots }
        ensures origin { IfOk result (λ session. origin_of session ≡ tag.now.origin.value) }
        ensures read_ahead { IfOk result (λ session. read_ahead_of session ≡ tag.now.limit.value) }
        ensures awaits { IfOk result (λ session. awaited_by session ≡ root_addresses (length roots.items)) }
    {
        let alloc = *roots.allocator();
        let (shared, key) = Shared::new(place.crew(), plan, tag, roots)?;
        let Ok(shared) = Arc::new(alloc, shared) else {
            return Err(NotStarted::Memory);
        };
        let started = start_workers(&shared, place.crew().workers());
        let session = Session { place, shared, key };
        if started > 0 {
            Ok(session)
        } else {
            Err(NotStarted::Busy)
        }
    }

    /// Starts the workers of a walk that has a place. From then on they read these specifications, and those below
    /// them. The specifications are clones of those that the walk begins with.
    ///
    /// # Errors
    ///
    /// `Memory` if memory runs out. `Busy` if no worker could be started; if only some could be, these read. After an
    /// error the place is given back, for which the call may block for a lock.
    pub fn start(
        place: Place<R, A>,
        origin: &Origin<T, J, A>,
        roots: Vec<T, A>,
    ) -> Result<Self, NotStarted>
        requires lawful { J.IsLawful origin.now.plan }
        requires alike { CountAlike J.Plan origin.now.plan roots.items origin.now.roots }
        ensures origin { IfOk result (λ session. origin_of session ≡ origin.now) }
        ensures read_ahead { IfOk result (λ session. read_ahead_of session ≡ limit_of (arc_value place.crew)) }
        ensures awaits { IfOk result (λ session. awaited_by session ≡ root_addresses (length roots.items)) }
    {
        let plan = origin.plan().clone()?;
        let tag = BoardTag::of(origin, place.crew().read_ahead());
        Session::start_on(place, plan, &tag, roots)
    }

    /// Starts the workers of a walk that has a place, and gives them the specifications that it begins with.
    ///
    /// # Errors
    ///
    /// As [`start`](Session::start).
    pub fn start_from(place: Place<R, A>, origin: Origin<T, J, A>) -> Result<Self, NotStarted>
        requires { J.IsLawful origin.plan }
        ensures origin { IfOk result (λ session. origin_of session ≡ origin) }
        ensures read_ahead { IfOk result (λ session. read_ahead_of session ≡ limit_of (arc_value place.crew)) }
        ensures awaits { IfOk result (λ session. awaited_by session ≡ root_addresses (length origin.roots)) }
    {
        let plan = origin.plan().clone()?;
        let tag = BoardTag::of(&origin, place.crew().read_ahead());
        Session::start_on(place, plan, &tag, origin.into_roots())
    }
}
