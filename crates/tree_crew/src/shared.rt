//! What a walk and its workers share, and their steps on its board.
ghost use Rattle.std.specs.Prelude.{◌≡◌, ◌+◌, ◌≤◌, true, false, IfOk, IfErr, box_value, length};
ghost use Rattle.std.specs.Arc.{arc_value};
ghost use Rattle.std.specs.Sync.Mutex.{mutex_guard_value};
ghost use Rattle.keyed_slot.specs.Keyed.{
  key_mark,
  is_out,
  loan_mark,
  lent,
  receipt_of,
  handled,
  Opens,
  IsOwed,
  IsReceiptOf,
  WasEmpty,
};
ghost use Rattle.jwalk_order.specs.Frontier.{passed, roots as root_addresses};
ghost use Rattle.jwalk_board.specs.Skip.{SkipsNext};
ghost use Rattle.jwalk_order.specs.IndexPath.{address as indices_of};
ghost use Rattle.tree_crew.specs.Crew.{limit_of};
ghost use Rattle.tree_crew.specs.BoardTag.{limit_at, origin_at};
ghost use Rattle.tree_crew.specs.Handled.{
  board_in,
  ArrivesOrIsOut,
  ArrivesUnlessMissed,
  CallsOrIsOut,
  Counts,
  FinishesOrStops,
  IsHandled,
  IsMissed,
  IsReceiptFor,
  Stops,
  TurnsAndCalls,
};
ghost use Rattle.tree_crew.specs.Origin.{CountAlike, IsBoardOf, IsMadeAt};
ghost use Rattle.tree_crew.specs.ReadAhead.{IsWithin};
ghost use Rattle.tree_crew.specs.Shared.{IsArrivalOf, IsTurnOf};

use crate::arrival::{Arrival, arrive};
use crate::board_tag::BoardTag;
use crate::crew::Crew;
use crate::hand_in::HandIn;
use crate::message::Message;
use crate::read_ahead::ReadAhead;
use crate::sleepers::Sleepers;
use crate::steps::{Called, Turn, new_board, take_turn};
use crate::work::{Handled, SharedBoard, TakenOut, Work};
use jwalk_board::board::Plan;
use keyed_slot::slot::{Key, KeyedSlot, Loan, Receipt};
use std::alloc::{AllocError, Allocator};
use std::sync::{Arc, Condvar, Mutex, MutexGuard, Wait};
use std::time::Clock;

/// What a walk and its workers share.
///
/// While the walk waits somebody works. The reading that it waits for is in one of three places. It is ready: the walk
/// takes it. Or it is in hand: its worker comes back, and calls the walk. Or it is queued: then it is the least that is
/// queued, and at most the limit are ready or in hand, since one more is there only if the next reading is among them.
/// So a worker may take it, however full that is. It came next by the hand-out of a reading, which called a worker if
/// all slept; and a worker that doesn't sleep has a turn before it does.
pub(crate) struct Shared<
    R: Wait + Clock + Drop,
    T: Drop,
    U: Drop,
    J: Plan<A, Spec = T, Reading = U> + Drop,
    A: Allocator + Copy,
> {
    pub(crate) alloc: A,
    pub(crate) crew: Arc<Crew<R>, A>,
    pub(crate) plan: Arc<J, A>,
    /// The lock. Whoever works on the board holds it, and shows its guard, whose type doesn't say of which lock it is.
    pub(crate) sleepers: Mutex<Sleepers>,
    /// The board. It is taken out and put back while the lock is held, so that nobody finds it missing. Whoever takes
    /// it knows that all that is on it comes from where the walk began. The walk has the key: it alone hands readings
    /// out.
    pub(crate) work: KeyedSlot<Work<T, U, J, A>, A>,
    /// Notified when a worker may find something queued, or nothing more will be.
    pub(crate) queued: Condvar,
    /// Notified when the walk's next reading is ready, or none will be.
    pub(crate) arrived: Condvar,
    ghost own: { (arc_value plan ≡ (origin_at work).plan) × (limit_of (arc_value crew) ≡ limit_at work) },
}

impl<
    R: Wait + Clock + Drop,
    T: Drop,
    U: Drop,
    J: Plan<A, Spec = T, Reading = U> + Drop,
    A: Allocator + Copy,
> Drop for Shared<R, T, U, J, A> {
    fn drop(self) {
        let Shared {
            alloc: _,
            crew: _,
            plan: _,
            sleepers: _,
            work: _,
            queued: _,
            arrived: _,
        } = self;
    }
}

impl<
    R: Wait + Clock + Drop,
    T: Drop,
    U: Drop,
    J: Plan<A, Spec = T, Reading = U> + Drop,
    A: Allocator + Copy,
> Shared<R, T, U, J, A> {
    pub(crate) fn new(
        crew: &Arc<Crew<R>, A>,
        plan: Arc<J, A>,
        tag: &BoardTag<T, J, A>,
        roots: Vec<T, A>,
    ) -> Result<(Self, Key<Work<T, U, J, A>>), AllocError>
        requires plan { arc_value plan ≡ tag.now.origin.value.plan }
        requires limit { limit_of (arc_value crew.now) ≡ tag.now.limit.value }
        requires alike { CountAlike J.Plan tag.now.origin.value.plan roots.items tag.now.origin.value.roots }
        ensures origin { IfOk result (λ made. origin_at made.0.work ≡ tag.now.origin.value) }
        ensures limit { IfOk result (λ made. limit_at made.0.work ≡ tag.now.limit.value) }
        ensures opens { IfOk result (λ made. Opens made.1 made.0.work) }
        ensures home { IfOk result (λ made. is_out made.1 ≡ false) }
        ensures mark { IfOk result (λ made. key_mark made.1 ≡ root_addresses (length roots.items)) }
    {
        let crew = crew.clone()?;
        let alloc = *roots.allocator();
        let board = new_board(roots)?;
        let (work, key) = KeyedSlot::new(alloc, Work::new(board), tag)?;
        let shared = Shared {
            alloc,
            crew,
            plan,
            sleepers: Mutex::new(Sleepers::none()),
            work,
            queued: Condvar::new(),
            arrived: Condvar::new(),
        };
        Ok((shared, key))
    }

    /// Takes the board out: it is there, since the caller holds the lock, which the guard shows. No clause says so: a
    /// board that is missed is noted under the lock, and then the walk ends.
    fn take_out(&self, held: &mut MutexGuard<'_, Sleepers>) -> TakenOut<T, U, J, A>
        ensures board { IfOk result (λ taken. IsBoardOf J.Plan (origin_at self.now.work) (box_value taken.0)) }
        ensures within { IfOk result (λ taken. IsWithin (limit_at self.now.work) (box_value taken.0)) }
        ensures mark { IfOk result (λ taken. loan_mark taken.1 ≡ (box_value taken.0).frontier) }
        ensures owed { IfOk result (λ taken. IsOwed taken.1 self.now.work) }
        ensures lent { IfOk result (λ taken. board_in (lent taken.1) ≡ Some (box_value taken.0)) }
        ensures absent { IfErr result (IsMissed self.now.work (mutex_guard_value held.new)) }
    {
        match self.work.take() {
            Ok((work, loan)) => Ok((work.into_board(), loan)),
            Err(empty) => {
                held.set_board_missed();
                Err(empty)
            }
        }
    }

    /// Puts the board back, under the same hold of the lock. The guard witnesses that, and is not read. Nothing was
    /// handed out.
    fn put_back(
        &self,
        _held: &MutexGuard<'_, Sleepers>,
        board: SharedBoard<T, U, J, A>,
        loan: Loan<Work<T, U, J, A>>,
    ) -> Receipt<Work<T, U, J, A>>
        requires board { IsBoardOf J.Plan (origin_at self.now.work) (box_value board) }
        requires within { IsWithin (limit_at self.now.work) (box_value board) }
        requires mark { (box_value board).frontier ≡ loan_mark loan }
        requires owed { IsOwed loan self.now.work }
        ensures slot { IsReceiptOf result self.now.work }
        ensures taken { (receipt_of result).0 ≡ lent loan }
        ensures put { board_in (receipt_of result).1 ≡ Some (box_value board) }
    {
        self.work.put_back(Work::new(board), loan)
    }

    pub(crate) fn hand_in(
        &self,
        held: &mut MutexGuard<'_, Sleepers>,
        read: HandIn<T, U, J, A>,
    ) -> Handled<T, U, J, A>
        requires { IsMadeAt J.Plan (origin_at self.now.work) (indices_of read.address) read.message read.children.items }
        ensures handed_in { IfOk result (IsReceiptFor self.now.work (FinishesOrStops (indices_of read.address)
            read.message read.children.items)) }
        ensures absent { IfErr result (IsMissed self.now.work (mutex_guard_value held.new)) }
    {
        match self.take_out(held) {
            Ok((mut board, loan)) => {
                read.finish(&mut *board);
                Ok(self.put_back(held, board, loan))
            }
            Err(empty) => {
                read.give_up();
                Err(empty)
            }
        }
    }

    pub(crate) fn turn(
        &self,
        held: &mut MutexGuard<'_, Sleepers>,
    ) -> (Turn<T, A>, Called, Handled<T, U, J, A>)
        ensures turn { IsTurnOf J.Plan (origin_at self.now.work) result.0 }
        ensures handled { IfOk result.2 (IsReceiptFor self.now.work (TurnsAndCalls (limit_at self.now.work)
            (mutex_guard_value held.old).is_full result.0 result.1)) }
        ensures absent { IfErr result.2 (IsMissed self.now.work (mutex_guard_value held.new)) }
    {
        let ahead = ReadAhead::new(self.crew.read_ahead(), held.is_full());
        let (mut board, loan) = match self.take_out(held) {
            Ok(taken) => taken,
            Err(empty) => return (Turn::End, Called::all(), Err(empty)),
        };
        let turn = take_turn(&mut *board, ahead);
        held.note_turn(&turn);
        self.crew.count_late(held.take_overslept(turn.has_found()));
        let calls = Called::after_turn(&*board, &turn, ahead);
        (turn, calls, Ok(self.put_back(held, board, loan)))
    }

    /// Where the board is out, the walk ends.
    fn arrival_on_board(
        &self,
        held: &mut MutexGuard<'_, Sleepers>,
        key: &mut Key<Work<T, U, J, A>>,
    ) -> (Arrival<Message<T, U, J, A>, A>, Called)
        requires opens { Opens key.old self.now.work }
        requires home { is_out key.old ≡ false }
        ensures opens { Opens key.new self.now.work }
        ensures home { is_out key.new ≡ false }
        ensures arrival { IsArrivalOf J.Plan (origin_at self.now.work) (key_mark key.old) result.0
            (key_mark key.new) }
        ensures handled { ArrivesOrIsOut result.0 (handled key.new) }
        ensures calls { CallsOrIsOut (limit_at self.now.work) result.0 (mutex_guard_value held.old)
            (mutex_guard_value held.new) result.1 (handled key.new) }
        ensures missed { (mutex_guard_value held.new).board_missed ≡ (mutex_guard_value held.old).board_missed }
    {
        let Some(work) = self.work.take_with(key) else {
            return (Arrival::Memory, Called::none());
        };
        let mut board = work.into_board();
        let arrival = arrive(&mut *board);
        let came = matches!(arrival, Arrival::Entered(_));
        self.crew.count_late(held.take_overslept(came));
        let calls = held.after_arrival(came, &*board, self.crew.read_ahead());
        self.work.put_back_with(Work::new(board), key);
        (arrival, calls)
    }

    /// Once the board was missed the walk doesn't wait: it ends as where the board is stopped.
    pub(crate) fn arrival(
        &self,
        held: &mut MutexGuard<'_, Sleepers>,
        key: &mut Key<Work<T, U, J, A>>,
    ) -> (Arrival<Message<T, U, J, A>, A>, Called)
        requires opens { Opens key.old self.now.work }
        requires home { is_out key.old ≡ false }
        ensures opens { Opens key.new self.now.work }
        ensures home { is_out key.new ≡ false }
        ensures arrival { IsArrivalOf J.Plan (origin_at self.now.work) (key_mark key.old) result.0
            (key_mark key.new) }
        ensures handled { ArrivesUnlessMissed (mutex_guard_value held.old).board_missed result.0 (handled key.new) }
        ensures missed { (mutex_guard_value held.old).board_missed ≡ true → ¬ (result.0 ≡ Arrival.Wait) }
    {
        let (arrival, calls) = self.arrival_on_board(held, key);
        match arrival {
            Arrival::Wait if held.board_missed() => (Arrival::Memory, calls),
            arrival => (arrival, calls),
        }
    }

    /// Passes over the reading that comes next and all that is below it. Returns false where the board is out, and whom to
    /// call otherwise.
    pub(crate) fn skip(
        &self,
        held: &mut MutexGuard<'_, Sleepers>,
        key: &mut Key<Work<T, U, J, A>>,
    ) -> (bool, Called)
        requires opens { Opens key.old self.now.work }
        requires home { is_out key.old ≡ false }
        ensures opens { Opens key.new self.now.work }
        ensures home { is_out key.new ≡ false }
        ensures passed { result.0 ≡ true → key_mark key.new ≡ passed (key_mark key.old) 0 }
        ensures handled { result.0 ≡ true → IsHandled SkipsNext (handled key.new) }
        ensures missed { (mutex_guard_value held.new).board_missed ≡ (mutex_guard_value held.old).board_missed }
    {
        let Some(work) = self.work.take_with(key) else {
            return (false, Called::none());
        };
        let mut board = work.into_board();
        board.skip_next();
        let calls = held.after_arrival(true, &*board, self.crew.read_ahead());
        self.work.put_back_with(Work::new(board), key);
        (true, calls)
    }

    pub(crate) fn ready(&self, held: &mut MutexGuard<'_, Sleepers>) -> (usize, Handled<T, U, J, A>)
        ensures most { result.0 ≤ limit_at self.now.work + 1 }
        ensures handled { IfOk result.1 (IsReceiptFor self.now.work (Counts result.0)) }
        ensures absent { IfErr result.1 (IsMissed self.now.work (mutex_guard_value held.new)) }
    {
        let (board, loan) = match self.take_out(held) {
            Ok(taken) => taken,
            Err(empty) => return (0, Err(empty)),
        };
        let ready = board.ready();
        (ready, Ok(self.put_back(held, board, loan)))
    }

    fn stop_board(&self, held: &mut MutexGuard<'_, Sleepers>) -> Handled<T, U, J, A>
        ensures stopped { IfOk result (IsReceiptFor self.now.work Stops) }
        ensures absent { IfErr result (IsMissed self.now.work (mutex_guard_value held.new)) }
    {
        let (mut board, loan) = self.take_out(held)?;
        board.stop();
        Ok(self.put_back(held, board, loan))
    }

    /// Notifies those who sleep.
    pub(crate) fn call(&self, calls: Called) {
        if calls.walk {
            self.arrived.notify_one();
        }
        for _ in 0..calls.workers {
            self.queued.notify_one();
        }
    }

    /// Stops the board, and with it the workers and the walk.
    pub(crate) fn stop(&self) -> Handled<T, U, J, A>
        ensures stopped { IfOk result (IsReceiptFor self.now.work Stops) }
        ensures absent { IfErr result (λ empty. WasEmpty empty self.now.work) }
    {
        let mut sleepers = self.sleepers.lock(&self.crew.rt);
        let receipt = self.stop_board(&mut sleepers);
        let calls = sleepers.called_by(Called::all());
        drop(sleepers);
        self.call(calls);
        receipt
    }
}
