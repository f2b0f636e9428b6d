//! How results are written.

/// How results are written.
#[derive(Clone, Copy, Debug, PartialEq, Eq)]
pub enum Form {
    /// A table, largest first.
    Table,
    /// Lines of a size and a path, children before parents, each ended by a line feed.
    Lines,
    /// The same lines, each ended by a zero byte.
    ZeroLines,
    /// One JSON document.
    Json,
}
