//! Prints the path of everything below a folder. What each directory holds comes in the order in which it was written
//! last, the newest first.
use jwalk::file_system::{FileSystem, Moment};
use jwalk::read_dir::NoProcess;
use jwalk::{DirEntry, WalkDirGeneric};
use std::cmp::Reverse;
use std::io::Write;

/// Returns when an entry was written last, if its walk keeps that.
fn modified(entry: &DirEntry<((), ())>) -> Option<Moment> {
    let details = entry.metadata_seen()?.details()?;
    Some(details.modified)
}

/// Prints the paths of a walk.
pub fn run<S: FileSystem, W: Write>(
    walk: WalkDirGeneric<((), ()), S, NoProcess>,
    out: &mut W,
) -> anyhow::Result<()> {
    // begin walk
    let walk = walk
        .sort(true)
        .keep_metadata(true)
        .sort_by_key(|entry| Reverse(modified(entry)));
    for answer in walk.into_iter() {
        writeln!(out, "{}", answer?.path()?)?;
    }
    // end walk
    Ok(())
}
