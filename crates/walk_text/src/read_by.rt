//! What directories are read by.

/// What reads a walk's directories, if that is asked for.
#[derive(Clone, Copy, PartialEq, Eq)]
pub enum ReadBy {
    /// Batches of that many directories, at most.
    Batch(usize),
    /// A crew of that many workers.
    Crew(usize),
}
