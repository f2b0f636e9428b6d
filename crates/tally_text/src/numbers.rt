//! The totals of an entry and everything below it.

/// The totals of an entry and everything below it.
#[derive(Clone, Copy, Debug, PartialEq, Eq)]
pub struct Numbers {
    /// The sum of sizes.
    pub bytes: u128,
    /// The sum of the lengths of files.
    pub file_bytes: u128,
    /// The number of files.
    pub files: u128,
    /// The number of directories.
    pub dirs: u128,
    /// The number of links.
    pub links: u128,
    /// The number of entries of other types.
    pub others: u128,
    /// The number of errors.
    pub errors: u128,
}
