//! The entries of a directory beyond its largest ones.

/// The entries of a directory beyond its largest ones.
#[derive(Clone, Copy, Debug, PartialEq, Eq)]
pub struct Rest {
    /// The number of these entries.
    pub count: usize,
    /// The sum of their sizes, or the greatest `u128` if it is more.
    pub bytes: u128,
}
