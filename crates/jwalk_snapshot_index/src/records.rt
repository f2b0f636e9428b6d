//! The records that a snapshot has of directories.
ghost use Rattle.std.specs.Prelude.{◌≡◌, List, ℕ, map, string_bytes, IfOk, OnOk};
ghost use Rattle.jwalk_indexed_fs.specs.Index.{record_at};
ghost use Rattle.jwalk_snapshot.specs.Text.{entry_of, folder_of};
ghost use Rattle.jwalk_snapshot_index.specs.Records.{name_kept, place_of, record_kept, IsIndexOf};

use jwalk_fs::path_text::join;
use jwalk_indexed_fs::index::Index;
use jwalk_indexed_fs::names::Names;
use jwalk_indexed_fs::records::Record;
use jwalk_indexed_fs::stamp::Stamp;
use jwalk_snapshot::{Block, Listing, Name};
use std::alloc::{AllocError, Global};

/// Returns the path at which a walk below a root lists the directory with this path behind it.
fn place_of(alloc: Global, root: &str, path: &str) -> Result<String, AllocError>
    ensures { IfOk result (λ place. string_bytes place ≡ place_of root.now path.now) }
{
    if path.is_empty() {
        return String::from_str(alloc, root);
    }
    join(alloc, root, path)
}

fn names_of(alloc: Global, names: &[Name<'_>]) -> Result<Names, AllocError>
    ensures { IfOk result (λ kept. kept ≡ map name_kept (map entry_of names.now)) }
{
    let mut kept = Names::new(alloc);
    for name in names {
        kept.push(name.name, name.file_type)?;
    }
    Ok(kept)
}

/// Adds the record of a directory, if it has a stamp.
fn add(alloc: Global, root: &str, block: &Block<'_>, index: &mut Index) -> Result<(), AllocError>
    ensures { OnOk result ((at : List ℕ) → record_at index.new at ≡ record_kept root.now (folder_of block.now) (record_at index.old at) at) }
{
    let Listing::Stamped(stamp) = block.listing else {
        return Ok(());
    };
    let place = place_of(alloc, root, block.path)?;
    let kept = Record {
        stamp: Some(Stamp {
            identity: stamp.identity,
            changed: stamp.changed,
        }),
        names: names_of(alloc, &block.names)?,
    };
    index.insert(place, kept)
}

/// Returns the records of the directories that have a stamp, by their places below a root.
///
/// # Errors
///
/// If memory runs out.
pub fn index_of(alloc: Global, root: &str, blocks: &[Block<'_>]) -> Result<Index, AllocError>
    ensures { IfOk result (IsIndexOf root.now (map folder_of blocks.now)) }
{
    let mut index = Index::new(alloc);
    for block in blocks {
        add(alloc, root, block, &mut index)?;
    }
    Ok(index)
}
