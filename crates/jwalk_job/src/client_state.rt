//! The states that a walk's user keeps.
use std::fmt::Debug;

/// What a walk's user keeps beside directories and entries.
///
/// `ReadDirState` begins with the root's and is handed down the tree. A directory's reading starts with a clone of what
/// the reading of its parent left, or of the state that its entry's `read_children` names. `DirEntryState` is stored in
/// each entry and begins with its default.
///
/// A clone fails if memory runs out; then the step that made it fails too. A pair `(B, E)` of two states is a
/// `ClientState`.
pub trait ClientState: Default + Debug + Drop {
    /// The state of a directory, which is handed down the tree.
    type ReadDirState: Clone + Default + Debug + Drop;

    /// The state of an entry, which stays with it.
    type DirEntryState: Default + Debug + Drop;
}

impl<B: Clone + Default + Debug + Drop, E: Default + Debug + Drop> ClientState for (B, E) {
    type ReadDirState = B;

    type DirEntryState = E;
}
