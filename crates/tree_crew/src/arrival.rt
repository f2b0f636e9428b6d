//! How the reading that comes next arrives.
ghost use Rattle.std.specs.Prelude.{◌≡◌, Bool};
ghost use Rattle.tree_crew.specs.Arrival.{Arrives, IsChecked};

use jwalk_board::board::{Board, HandOutRefusal};
use jwalk_order::ordered::Ordered;
use std::alloc::{Allocator, Global};

/// What a worker hands in: a reading, or that memory ran out.
pub trait Reported {
    /// Whether memory ran out.
    ghost refused: { Self → Bool };

    /// Returns whether memory ran out.
    fn is_refused(&self) -> bool
        ensures { result ≡ Self.refused self.now };
}

/// The outcome of asking a board for its next reading.
#[derive(Drop)]
pub enum Arrival<M, A: Allocator + Copy = Global> {
    /// The reading.
    Entered(Ordered<M, A>),
    /// Memory ran out: the board is stopped, missing, or fails for it, or the reading's own message reports it.
    Memory,
    /// It won't come: all were handed out, or another came in its place.
    Lost,
    /// It isn't ready yet.
    Wait,
}

fn checked<M: Reported + Drop, A: Allocator + Copy>(item: Ordered<M, A>) -> Arrival<M, A>
    ensures { IsChecked M.refused item result }
{
    if item.value.is_refused() {
        return Arrival::Memory;
    }
    Arrival::Entered(item)
}

/// Asks a board for its next reading: one hand-out, and the check of what it gave. A message that reports that memory
/// ran out is dropped.
pub fn arrive<T: Drop, M: Reported + Drop, A: Allocator + Copy>(
    board: &mut Board<T, M, A>,
) -> Arrival<M, A>
    ensures { Arrives M.refused board.old result board.new }
{
    match board.hand_out() {
        Ok(item) => checked(item),
        Err(HandOutRefusal::Stopped) => Arrival::Memory,
        Err(HandOutRefusal::Memory) => Arrival::Memory,
        Err(HandOutRefusal::Done) => Arrival::Lost,
        Err(HandOutRefusal::NotReady) => Arrival::Wait,
    }
}
