//! What may be done with a board.

/// A move of a worker, by its number, or of the one who hands out.
#[derive(Clone, Copy, Debug, PartialEq, Eq)]
pub enum Move {
    /// The worker takes the least queued address.
    Take(usize),
    /// The worker finishes what it holds.
    Finish(usize),
    /// The next reading is handed out.
    HandOut,
}
