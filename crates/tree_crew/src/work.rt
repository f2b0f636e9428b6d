//! The board that a walk and its workers share.
ghost use Rattle.std.specs.Prelude.{◌≡◌};

use crate::board_tag::BoardTag;
use crate::message::Message;
use jwalk_board::board::{Board, Plan};
use jwalk_order::ordered_queue::OrderedMatcher;
use keyed_slot::marked::Marked;
use keyed_slot::slot::{Empty, Loan, Receipt};
use std::alloc::Allocator;

/// A board that a walk and its workers share. It is boxed, so that taking it out and putting it back moves a pointer.
pub(crate) type SharedBoard<T, U, J, A> = Box<Board<T, Message<T, U, J, A>, A>, A>;

/// The board of a walk while nobody works on it: all that is queued on it, and all that is ready, comes from where the
/// walk began, and at most as many readings as the walk's limit, and one, are ready or in hand. Its mark is the
/// addresses that it has still to hand out.
pub(crate) struct Work<
    T: Drop,
    U: Drop,
    J: Plan<A, Spec = T, Reading = U> + Drop,
    A: Allocator + Copy,
> {
    board: SharedBoard<T, U, J, A>,
}

/// A board that was taken, and what is owed for it; or that there was none.
pub(crate) type TakenOut<T, U, J, A> = Result<
    (SharedBoard<T, U, J, A>, Loan<Work<T, U, J, A>>),
    Empty<Work<T, U, J, A>>,
>;

/// A receipt for a board that was taken and put back; or that there was none.
pub(crate) type Handled<T, U, J, A> = Result<Receipt<Work<T, U, J, A>>, Empty<Work<T, U, J, A>>>;

impl<T: Drop, U: Drop, J: Plan<A, Spec = T, Reading = U> + Drop, A: Allocator + Copy> Drop
    for Work<T, U, J, A> {
    fn drop(self) {
        let Work { board: _ } = self;
    }
}

impl<T: Drop, U: Drop, J: Plan<A, Spec = T, Reading = U> + Drop, A: Allocator + Copy> Marked
    for Work<T, U, J, A> {
    type Tag = BoardTag<T, J, A>;

    type Mark = OrderedMatcher<A>;

    ghost use Rattle.std.specs.Prelude.{box_value};
    ghost use Rattle.tree_crew.specs.Origin.{IsBoardOf};
    ghost use Rattle.tree_crew.specs.ReadAhead.{IsWithin};

    ghost fits = { λ tag work. IsBoardOf J.Plan tag.origin.value (box_value work.board)
        × IsWithin tag.limit.value (box_value work.board) };

    ghost mark = { λ work. (box_value work.board).frontier };
}

impl<T: Drop, U: Drop, J: Plan<A, Spec = T, Reading = U> + Drop, A: Allocator + Copy> Work<
    T,
    U,
    J,
    A,
> {
    pub(crate) fn new(board: SharedBoard<T, U, J, A>) -> Self
        ensures { result.board ≡ board }
    {
        Work { board }
    }

    pub(crate) fn into_board(self) -> SharedBoard<T, U, J, A>
        ensures { result ≡ self.board }
    {
        let Work { board } = self;
        board
    }
}
