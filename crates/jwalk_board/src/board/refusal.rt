//! Why a step of a board fails.
use jwalk_order::index_path::IndexPath;
use std::alloc::{Allocator, Global};

/// Why nothing was taken.
#[derive(Clone, Copy, Debug, PartialEq, Eq)]
pub enum TakeRefusal {
    /// The board is stopped.
    Stopped,
    /// Nothing is queued, and something is in hand.
    Empty,
    /// Nothing is queued or in hand.
    Done,
    /// Memory ran out.
    Memory,
}

/// Why an address was not finished.
#[derive(Clone, Copy, Debug, PartialEq, Eq)]
pub enum FinishRefusal {
    /// The board is stopped.
    Stopped,
    /// The address is not in hand.
    NotInHand,
    /// Memory ran out.
    Memory,
}

/// Why nothing was handed out.
#[derive(Clone, Copy, Debug, PartialEq, Eq)]
pub enum HandOutRefusal {
    /// The board is stopped.
    Stopped,
    /// All was handed out.
    Done,
    /// The next address is queued or in hand.
    NotReady,
    /// Memory ran out.
    Memory,
}

/// A failure to finish, with what was to be finished.
#[derive(Debug, Drop)]
pub struct FinishFault<T, R, A: Allocator + Copy = Global> {
    /// Why it failed.
    pub cause: FinishRefusal,
    /// The address that was to be finished.
    pub address: IndexPath<A>,
    /// The reading that was to be put there.
    pub reading: R,
    /// The children that were to be queued, in order.
    pub children: Vec<T, A>,
}
