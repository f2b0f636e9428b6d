//! Prints what differs between two folders, by names, types and the lengths of files: `+ PATH` if only the second has it,
//! `- PATH` if only the first has it, and else `~ PATH`.
use jwalk::file_system::FileSystem;
use jwalk::{DirEntry, WalkDirGeneric};
use jwalk_changes::{Change, Facts, Kept, changes_between};
use std::alloc::Global;
use std::io::Write;

/// Returns what is compared of an entry.
fn facts_of(entry: &DirEntry<((), ())>) -> Facts {
    let len = match entry.metadata_seen() {
        Some(seen) if entry.file_type().is_file() => Some(seen.len()),
        _ => None,
    };
    Facts {
        file_type: entry.file_type(),
        len,
        modified: None,
        inode: None,
    }
}

/// Returns everything below a root, by its path behind the root.
fn kept_below<S: FileSystem>(alloc: Global, disk: &S, root: String) -> anyhow::Result<Vec<Kept>> {
    let front = root.clone()?;
    let walk = WalkDirGeneric::<((), ()), _, _, _>::new(disk, root)
        .sort(true)
        .skip_hidden(false)
        .keep_metadata(true)
        .min_depth(1);
    let mut found = Vec::new(alloc);
    for answer in walk.into_iter() {
        let entry = answer?;
        let path = entry.path()?;
        let behind = path.strip_prefix(front.as_str()).unwrap_or(&path);
        let path = String::from_str(alloc, behind.trim_start_matches('/'))?;
        let facts = facts_of(&entry);
        found.push(Kept { path, facts })?;
    }
    Ok(found)
}

/// Prints the differences of two folders.
pub fn run<S: FileSystem, W: Write>(
    alloc: Global,
    disk: &S,
    old: String,
    new: String,
    out: &mut W,
) -> anyhow::Result<()> {
    // begin changes
    let old = kept_below(alloc, disk, old)?;
    let new = kept_below(alloc, disk, new)?;
    for change in changes_between(alloc, old, new, Vec::<Kept>::new(alloc))? {
        match change {
            Change::Added(entry) => writeln!(out, "+ {}", entry.path)?,
            Change::Removed(entry) => writeln!(out, "- {}", entry.path)?,
            Change::Changed(_old, entry, _which) => writeln!(out, "~ {}", entry.path)?,
        }
    }
    // end changes
    Ok(())
}
