//! How far ahead workers may read.
ghost use Rattle.std.specs.Prelude.{◌≡◌, ◌⊎◌, ◌+◌, ◌≤◌, ◌<◌, ◌↔◌, [], true, false, IfNone, IfSome, IsTrue};
ghost use Rattle.tree_crew.specs.ReadAhead.{ready_or_in_hand, CountsTakers, HoldsBack, MayTake};

use jwalk_board::board::Board;
use std::alloc::Allocator;

/// How far ahead a walk's workers may read now.
#[derive(Clone, Copy)]
pub(crate) struct ReadAhead {
    /// How many readings may be ready or in hand. The next one to be handed out may be one more.
    limit: usize,
    /// Whether a worker found the limit reached, and more than half of it is still ready or in hand. Until then they make
    /// only the next reading.
    is_full: bool,
}

impl ReadAhead {
    pub(crate) fn new(limit: usize, is_full: bool) -> Self
        ensures limit { result.limit ≡ limit }
        ensures is_full { result.is_full ≡ is_full }
    {
        ReadAhead { limit, is_full }
    }

    fn room<T: Drop, R: Drop, A: Allocator + Copy>(self, board: &Board<T, R, A>) -> Option<usize>
        ensures some { IfSome result (λ room. room + ready_or_in_hand board.now ≡ self.limit) }
        ensures none { IfNone result (self.limit < ready_or_in_hand board.now) }
    {
        self.limit
            .checked_sub(board.ready())?
            .checked_sub(board.in_hand())
    }

    pub(crate) fn is_half_free<T: Drop, R: Drop, A: Allocator + Copy>(
        self,
        board: &Board<T, R, A>,
    ) -> bool
        ensures { IsTrue result ↔ (ready_or_in_hand board.now + ready_or_in_hand board.now ≤ self.limit) }
    {
        match self.room(board) {
            Some(room) => self.limit - room <= room,
            None => false,
        }
    }

    pub(crate) fn takers<T: Drop, R: Drop, A: Allocator + Copy>(
        self,
        board: &Board<T, R, A>,
    ) -> usize
        ensures { CountsTakers self.limit self.is_full board.now result }
    {
        match self.room(board) {
            Some(room) if room > 0 && !self.is_full => room.min(board.queued()),
            Some(_) => usize::from(board.is_next_queued()),
            None => 0,
        }
    }

    pub(crate) fn holds_back<T: Drop, R: Drop, A: Allocator + Copy>(
        self,
        board: &Board<T, R, A>,
    ) -> bool
        ensures held { IsTrue result → HoldsBack self.limit self.is_full board.now }
        ensures free { result ≡ false → (board.now.stopped ≡ true) ⊎ ((board.now.queued ≡ [])
            ⊎ MayTake self.limit self.is_full board.now) }
    {
        !board.is_stopped() && board.queued() > 0 && self.takers(board) == 0
    }
}
