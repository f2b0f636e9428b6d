//! Why there is no snapshot, or no text of one.
ghost use Rattle.std.specs.Prelude.{◌≡◌};
ghost use Rattle.jwalk_snapshot.specs.declared.error.SnapshotError.TheVariants.{Memory};

use std::alloc::{AllocError, AllocFailed};
use std::error::Error;
use std::fmt;

/// Why a snapshot could not be read or written.
#[derive(Clone, Copy, Debug, PartialEq, Eq)]
pub enum SnapshotError {
    /// Memory ran out.
    Memory,
    /// The bytes don't begin as a snapshot does.
    NoSnapshot,
    /// They begin as a snapshot of another version does.
    OtherVersion,
    /// They are no snapshot that was written whole: some were changed, or are missing, or were added.
    Damaged,
    /// A snapshot to be written has no text: a name is empty or holds a NUL or a slash, names don't ascend, or another
    /// text holds a NUL.
    NoText,
}

impl fmt::Display for SnapshotError {
    fn fmt<W: fmt::Write>(&self, f: &mut fmt::Formatter<W>) -> fmt::Result {
        f.write_str(match self {
            SnapshotError::Memory => "memory allocation failed",
            SnapshotError::NoSnapshot => "not a snapshot",
            SnapshotError::OtherVersion => "a snapshot of another version",
            SnapshotError::Damaged => "the snapshot is damaged",
            SnapshotError::NoText => "a snapshot of these names cannot be written",
        })
    }
}

impl Error for SnapshotError {}

impl From<AllocError> for SnapshotError {
    ghost from_gives = { λ _ e. e ≡ Memory };

    fn from(_refused: AllocError) -> SnapshotError {
        SnapshotError::Memory
    }
}

impl<T: Drop> From<AllocFailed<T>> for SnapshotError {
    ghost from_gives = { λ _ e. e ≡ Memory };

    fn from(_refused: AllocFailed<T>) -> SnapshotError {
        SnapshotError::Memory
    }
}
