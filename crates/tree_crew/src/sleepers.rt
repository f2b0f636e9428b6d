//! Who sleeps until something comes.
ghost use Rattle.std.specs.Prelude.{◌≡◌, ◌↔◌, IsTrue, true, false};
ghost use Rattle.tree_crew.specs.Sleepers.{called_of, CallsNobody, CallsTakers, StaysFull};

use crate::read_ahead::ReadAhead;
use crate::steps::{Called, Turn};
use jwalk_board::board::Board;
use std::alloc::Allocator;

/// How many workers sleep, how many of these were called, whether what is read ahead is full, whether the walk sleeps uncalled,
/// and whether the board was missed. It is kept under the lock of the board.
///
/// No call is lost. Whoever sleeps looked at the board, found nothing to do and was counted here in one hold of the lock. So
/// whoever changes the board takes the lock later and sees the count. The call comes after that hold. It ends even a
/// sleep that is only about to begin, since the `Condvar` was read while the sleeper had the lock. A worker that wakes,
/// called or not, takes a call off the count. So the count is never more than those that are still to look at the
/// board, and at worst a worker is called twice.
#[derive(Drop)]
pub(crate) struct Sleepers {
    workers: usize,
    called: usize,
    /// A worker found the limit of what is read ahead reached, and the readings haven't been down to half of it since.
    /// Until then the workers make only the next reading, so that they work on many in a row rather than on one for
    /// each that is handed out.
    is_full: bool,
    walk: bool,
    /// Whoever woke last did so because its turn was over, and nobody had called it.
    overslept: bool,
    /// Somebody who held the lock didn't find the board. So a reading may have been lost, and the walk ends.
    board_missed: bool,
}

impl Sleepers {
    pub(crate) fn none() -> Self
        ensures { result.board_missed ≡ false }
    {
        Sleepers {
            workers: 0,
            called: 0,
            is_full: false,
            walk: false,
            overslept: false,
            board_missed: false,
        }
    }

    pub(crate) fn set_board_missed(&mut self)
        ensures { self.new.board_missed ≡ true }
    {
        self.board_missed = true;
    }

    pub(crate) fn board_missed(&self) -> bool
        ensures { result ≡ self.now.board_missed }
    {
        self.board_missed
    }

    pub(crate) fn add_worker(&mut self)
        ensures { self.new.board_missed ≡ self.old.board_missed }
    {
        self.workers = self.workers.saturating_add(1);
    }

    /// Notes that a worker woke, maybe because its turn was over.
    pub(crate) fn remove_worker(&mut self, timed_out: bool)
        ensures { self.new.board_missed ≡ self.old.board_missed }
    {
        self.overslept = timed_out && self.called == 0;
        self.workers = self.workers.saturating_sub(1);
        self.called = self.called.saturating_sub(1);
    }

    pub(crate) fn add_walk(&mut self)
        ensures { self.new.board_missed ≡ self.old.board_missed }
    {
        self.walk = true;
    }

    /// Notes that the walk woke, maybe because its turn was over.
    pub(crate) fn remove_walk(&mut self, timed_out: bool)
        ensures { self.new.board_missed ≡ self.old.board_missed }
    {
        self.overslept = timed_out && self.walk;
        self.walk = false;
    }

    /// Returns whether whoever woke last slept too long: its turn was over, nobody had called it, and it found
    /// something to do now. The note of it is cleared.
    pub(crate) fn take_overslept(&mut self, found: bool) -> bool
        ensures { self.new ≡ record self.old { overslept = false } }
    {
        let late = self.overslept && found;
        self.overslept = false;
        late
    }

    pub(crate) fn is_full(&self) -> bool
        ensures { result ≡ self.now.is_full }
    {
        self.is_full
    }

    /// Notes that what is read ahead is full, if this turn found it so.
    pub(crate) fn note_turn<T, A: Allocator + Copy>(&mut self, turn: &Turn<T, A>)
        ensures { self.new.board_missed ≡ self.old.board_missed }
    {
        if matches!(turn, Turn::Full) {
            self.is_full = true;
        }
    }

    fn stays_full<T: Drop, R: Drop, A: Allocator + Copy>(
        &self,
        board: &Board<T, R, A>,
        limit: usize,
    ) -> bool
        ensures { IsTrue result ↔ StaysFull limit self.now board.now }
    {
        self.is_full && !ReadAhead::new(limit, self.is_full).is_half_free(board)
    }

    pub(crate) fn after_arrival<T: Drop, R: Drop, A: Allocator + Copy>(
        &mut self,
        came: bool,
        board: &Board<T, R, A>,
        limit: usize,
    ) -> Called
        ensures missed { self.new.board_missed ≡ self.old.board_missed }
        ensures calls { IsTrue came → CallsTakers limit board.now self.old self.new result }
        ensures nobody { came ≡ false → CallsNobody result }
    {
        if !came {
            return Called::none();
        }
        self.is_full = self.stays_full(board, limit);
        let workers = ReadAhead::new(limit, self.is_full).takers(board);
        self.called_by(Called {
            workers,
            walk: false,
        })
    }

    /// Returns those of a call who sleep and weren't called yet. They count as called from now on.
    pub(crate) fn called_by(&mut self, calls: Called) -> Called
        ensures workers { result.workers ≡ called_of self.old calls.workers }
        ensures walk { IsTrue result.walk ↔ (IsTrue calls.walk × IsTrue self.old.walk) }
        ensures is_full { self.new.is_full ≡ self.old.is_full }
        ensures missed { self.new.board_missed ≡ self.old.board_missed }
    {
        let workers = calls.workers.min(self.workers).saturating_sub(self.called);
        let walk = calls.walk && self.walk;
        self.called = self.called.saturating_add(workers);
        self.walk = self.walk && !walk;
        Called { workers, walk }
    }
}
