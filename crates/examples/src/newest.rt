//! Prints the ten files below a folder that were written last, the newest first, each behind its seconds since 1970.
use jwalk::WalkDirGeneric;
use jwalk::file_system::{FileSystem, Moment};
use jwalk::read_dir::NoProcess;
use std::alloc::Global;
use std::io::Write;

/// Prints the newest files of a walk.
pub fn run<S: FileSystem, W: Write>(
    alloc: Global,
    walk: WalkDirGeneric<((), ()), S, NoProcess>,
    out: &mut W,
) -> anyhow::Result<()> {
    let mut files: Vec<(Moment, String)> = Vec::new(alloc);
    for answer in walk.skip_hidden(false).keep_metadata(true) {
        let entry = answer?;
        if entry.file_type().is_file()
            && let Some(metadata) = entry.metadata_seen()
            && let Some(details) = metadata.details()
        {
            files.push((details.modified, entry.path()?))?;
        }
    }
    files.sort_by(|a, b| b.cmp(a))?;
    for (modified, path) in files.iter().take(10) {
        writeln!(out, "{} {path}", modified.seconds)?;
    }
    Ok(())
}
