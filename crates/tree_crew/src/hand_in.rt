//! What a worker hands in.
ghost use Rattle.std.specs.Prelude.{◌≡◌};
ghost use Rattle.jwalk_order.specs.IndexPath.{address as indices_of};
ghost use Rattle.tree_crew.specs.Handled.{FinishesOrStops};

use crate::message::Message;
use crate::steps::finish_or_stop;
use jwalk_board::board::{Board, Plan};
use jwalk_order::index_path::IndexPath;
use std::alloc::Allocator;

/// A reading that a worker made: the address of its specification in the walk, its message, and the
/// specifications below it.
///
/// It isn't `Drop`, and its fields are this module's, so nobody can let it go but by `finish` and `give_up`.
pub(crate) struct HandIn<
    T: Drop,
    U: Drop,
    J: Plan<A, Spec = T, Reading = U> + Drop,
    A: Allocator + Copy,
> {
    address: IndexPath<A>,
    message: Message<T, U, J, A>,
    children: Vec<T, A>,
}

impl<T: Drop, U: Drop, J: Plan<A, Spec = T, Reading = U> + Drop, A: Allocator + Copy> HandIn<
    T,
    U,
    J,
    A,
> {
    pub(crate) fn new(
        address: IndexPath<A>,
        message: Message<T, U, J, A>,
        children: Vec<T, A>,
    ) -> Self
        ensures address { result.address ≡ address }
        ensures message { result.message ≡ message }
        ensures children { result.children ≡ children }
    {
        HandIn {
            address,
            message,
            children,
        }
    }

    pub(crate) fn finish(self, board: &mut Board<T, Message<T, U, J, A>, A>)
        ensures { FinishesOrStops (indices_of self.address) self.message self.children.items board.old board.new }
    {
        let HandIn {
            address,
            message,
            children,
        } = self;
        finish_or_stop(board, address, message, children);
    }

    /// Lets it go, where there is no board to finish it on.
    pub(crate) fn give_up(self) {
        let HandIn {
            address: _,
            message: _,
            children: _,
        } = self;
    }
}
