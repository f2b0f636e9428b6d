//! A new board, and what a worker does on it, one step each.
ghost use Rattle.std.specs.Prelude.{◌≡◌, ◌↔◌, box_value, true, IsTrue, IfOk};
ghost use Rattle.jwalk_order.specs.IndexPath.{address as indices_of};
ghost use Rattle.jwalk_board.specs.Board.{IsNew, IsNextReady};
ghost use Rattle.tree_crew.specs.Handled.{FinishesOrStops};
ghost use Rattle.tree_crew.specs.ReadAhead.{CountsTakers};
ghost use Rattle.tree_crew.specs.Sleepers.{CallsNobody};
ghost use Rattle.tree_crew.specs.Steps.{Turns};

use crate::read_ahead::ReadAhead;
use jwalk_board::board::{Board, FinishRefusal, TakeRefusal};
use jwalk_order::index_path::IndexPath;
use jwalk_order::ordered::Ordered;
use std::alloc::{AllocError, Allocator};

pub(crate) fn new_board<T: Drop, R: Drop, A: Allocator + Copy>(
    roots: Vec<T, A>,
) -> Result<Box<Board<T, R, A>, A>, AllocError>
    ensures { IfOk result (λ board. IsNew roots.items (box_value board)) }
{
    let alloc = *roots.allocator();
    let Ok(board) = Board::new(roots) else {
        return Err(AllocError);
    };
    match Box::new(alloc, board) {
        Ok(board) => Ok(board),
        Err(_) => Err(AllocError),
    }
}

/// What a worker does next.
#[derive(Drop)]
pub(crate) enum Turn<T, A: Allocator + Copy> {
    /// It reads what it took.
    Read(Ordered<T, A>),
    /// Nothing is queued: it blocks, since others may find more.
    Empty,
    /// What is read ahead is full: it blocks, since it may not take what is queued yet.
    Full,
    /// It ends.
    End,
}

impl<T, A: Allocator + Copy> Turn<T, A> {
    /// Returns whether the worker found something to do, or that nothing will come.
    pub(crate) fn has_found(&self) -> bool {
        match self {
            Turn::Read(_) | Turn::End => true,
            Turn::Empty | Turn::Full => false,
        }
    }
}

/// If memory runs out, the board is stopped.
pub(crate) fn take_turn<T: Drop, R: Drop, A: Allocator + Copy>(
    board: &mut Board<T, R, A>,
    ahead: ReadAhead,
) -> Turn<T, A>
    ensures { Turns ahead.limit ahead.is_full board.old result board.new }
{
    if ahead.holds_back(&*board) {
        return Turn::Full;
    }
    match board.take() {
        Ok(item) => Turn::Read(item),
        Err(TakeRefusal::Empty) => Turn::Empty,
        Err(TakeRefusal::Done | TakeRefusal::Stopped) => Turn::End,
        Err(TakeRefusal::Memory) => {
            board.stop();
            Turn::End
        }
    }
}

/// If memory runs out, the board is stopped. A reading whose address was passed over meanwhile is dropped.
pub(crate) fn finish_or_stop<T: Drop, R: Drop, A: Allocator + Copy>(
    board: &mut Board<T, R, A>,
    address: IndexPath<A>,
    reading: R,
    children: Vec<T, A>,
)
    ensures { FinishesOrStops (indices_of address) reading children.items board.old board.new }
{
    match board.finish(address, reading, children) {
        Ok(()) => {}
        Err(fault) => match fault.cause {
            FinishRefusal::NotInHand => {}
            FinishRefusal::Stopped | FinishRefusal::Memory => board.stop(),
        },
    }
}

/// Whom a step calls of those who sleep: how many workers, and whether the walk.
#[derive(Clone, Copy)]
pub(crate) struct Called {
    pub(crate) workers: usize,
    pub(crate) walk: bool,
}

impl Called {
    pub(crate) fn all() -> Self
        ensures { result.walk ≡ true }
    {
        Called {
            workers: usize::MAX,
            walk: true,
        }
    }

    pub(crate) fn none() -> Self
        ensures { CallsNobody result }
    {
        Called {
            workers: 0,
            walk: false,
        }
    }

    /// Returns whom to call after a step that left the board at work.
    fn after<T: Drop, R: Drop, A: Allocator + Copy>(
        board: &Board<T, R, A>,
        ahead: ReadAhead,
    ) -> Self
        ensures workers { CountsTakers ahead.limit ahead.is_full board.now result.workers }
        ensures walk { IsTrue result.walk ↔ IsNextReady board.now }
    {
        Called {
            workers: ahead.takers(board),
            walk: board.is_next_ready(),
        }
    }

    /// Returns whom to call after a worker's turn: everyone if the worker ends, since the others then end too.
    pub(crate) fn after_turn<T: Drop, R: Drop, A: Allocator + Copy>(
        board: &Board<T, R, A>,
        turn: &Turn<T, A>,
        ahead: ReadAhead,
    ) -> Self
        ensures workers { (turn.now ≡ Turn.End → ⊥) → CountsTakers ahead.limit ahead.is_full board.now result.workers }
        ensures ready { IsNextReady board.now → IsTrue result.walk }
        ensures end { turn.now ≡ Turn.End → IsTrue result.walk }
    {
        match turn {
            Turn::End => Called::all(),
            Turn::Read(_) | Turn::Empty | Turn::Full => Called::after(board, ahead),
        }
    }

    pub(crate) fn is_empty(self) -> bool {
        self.workers == 0 && !self.walk
    }
}
