//! The records of a file, for a walk below a root.
ghost use Rattle.std.specs.Prelude.{◌≡◌, IfOk, IfErr};
ghost use Rattle.jwalk_snapshot.specs.declared.error.SnapshotError.TheVariants.{Memory};
ghost use Rattle.jwalk_snapshot_index.specs.Read.{HasRecords, IsOfRoot};
ghost use Rattle.jwalk_snapshot_index.specs.declared.error.IndexError.TheVariants.{Snapshot as OfSnapshot};

use crate::error::IndexError;
use crate::records::index_of;
use jwalk_indexed_fs::index::Index;
use jwalk_snapshot::Snapshot;
use std::alloc::Global;

/// Returns the records that a file with these bytes has for a walk below a root, whose absolute path is `absolute`.
///
/// # Errors
///
/// `OtherRoot` if the file is a snapshot of a root with another absolute path; that of [`Snapshot::read`] if it is none,
/// or if memory runs out.
pub fn read_index(
    alloc: Global,
    bytes: &[u8],
    root: &str,
    absolute: &str,
) -> Result<Index, IndexError>
    ensures records { IfOk result (HasRecords bytes.now root.now absolute.now) }
    // What is a snapshot of the root is read, unless memory runs out.
    ensures refused { IfErr result (λ error. IsOfRoot bytes.now absolute.now → error ≡ OfSnapshot Memory) }
{
    let snapshot = Snapshot::read(alloc, bytes)?;
    if snapshot.head.absolute != absolute {
        return Err(IndexError::OtherRoot);
    }
    Ok(index_of(alloc, root, &snapshot.blocks)?)
}
