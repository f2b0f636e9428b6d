//! Why a file has no records for a root.
ghost use Rattle.std.specs.Prelude.{◌≡◌};
ghost use Rattle.jwalk_snapshot_index.specs.declared.error.IndexError.TheVariants.{Snapshot};

use jwalk_snapshot::SnapshotError;
use std::alloc::AllocError;
use std::error::Error;
use std::fmt;

/// Why a file has no records for a root.
#[derive(Clone, Copy, Debug, PartialEq, Eq)]
pub enum IndexError {
    /// There is no snapshot, or memory ran out.
    Snapshot(SnapshotError),
    /// The snapshot is of another root.
    OtherRoot,
}

impl IndexError {
    ghost use Rattle.jwalk_snapshot_index.specs.Error.{is_memory};

    /// Returns whether memory ran out.
    pub fn is_memory(self) -> bool
        ensures { result ≡ is_memory self }
    {
        matches!(self, IndexError::Snapshot(SnapshotError::Memory))
    }
}

impl fmt::Display for IndexError {
    fn fmt<W: fmt::Write>(&self, f: &mut fmt::Formatter<W>) -> fmt::Result {
        match self {
            IndexError::Snapshot(error) => write!(f, "{error}"),
            IndexError::OtherRoot => f.write_str("a snapshot of another root"),
        }
    }
}

impl Error for IndexError {}

impl From<SnapshotError> for IndexError {
    ghost from_gives = { λ error e. e ≡ Snapshot error };

    fn from(error: SnapshotError) -> IndexError {
        IndexError::Snapshot(error)
    }
}

impl From<AllocError> for IndexError {
    ghost use Rattle.jwalk_snapshot.specs.declared.error.SnapshotError.TheVariants.{Memory};

    ghost from_gives = { λ _ e. e ≡ Snapshot Memory };

    fn from(_refused: AllocError) -> IndexError {
        IndexError::Snapshot(SnapshotError::Memory)
    }
}
