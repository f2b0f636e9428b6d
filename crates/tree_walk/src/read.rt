//! A reading with its specification.
ghost use Rattle.std.specs.Prelude.{OnOk};
ghost use Rattle.jwalk_order.specs.IndexPath.{address as indices_of};
ghost use Rattle.jwalk_board.specs.Board.{Finishes};

use jwalk_board::board::Board;
use jwalk_order::index_path::IndexPath;
use std::alloc::{AllocError, Allocator};

/// A reading, with the specification that was read.
#[derive(Drop)]
pub struct Read<T, R> {
    pub of: T,
    pub reading: R,
}

/// Finishes a reading on a board. Only what is in hand on a board at work is finished, so each refusal is reported as
/// out of memory.
pub(crate) fn finish<T: Drop, R: Drop, A: Allocator + Copy>(
    board: &mut Board<T, R, A>,
    address: IndexPath<A>,
    reading: R,
    children: Vec<T, A>,
) -> Result<(), AllocError>
    ensures { OnOk result (Finishes (indices_of address) reading children.items board.old board.new) }
{
    match board.finish(address, reading, children) {
        Ok(()) => Ok(()),
        Err(_) => Err(AllocError),
    }
}
