//! Prints the path of each file below a folder whose name has an ending, by name.
use jwalk::file_system::FileSystem;
use jwalk::{Host, WalkDirGeneric};
use std::io::Write;

// begin find
/// Returns the paths of the files below a folder whose name has an ending. Threads of the walk's own read ahead.
fn find<R: Host, S: FileSystem + Send + Sync + 'static>(
    rt: &R,
    fs: S,
    root: String,
    ending: &str,
) -> anyhow::Result<Vec<String>> {
    let mut found = Vec::new(*root.allocator());
    let walk = WalkDirGeneric::<((), ()), _, _, _>::new(fs, root);
    walk.sort(true)
        .workers(rt, 0)?
        .try_for_each(|answer| -> anyhow::Result<()> {
            let entry = answer?;
            if entry.file_type().is_file() && entry.file_name().ends_with(ending) {
                found.push(entry.path()?)?;
            }
            Ok(())
        })?;
    Ok(found)
}
// end find

/// Prints these paths.
pub fn run<R: Host, S: FileSystem + Send + Sync + 'static, W: Write>(
    rt: &R,
    disk: S,
    root: String,
    ending: &str,
    out: &mut W,
) -> anyhow::Result<()> {
    for path in find(rt, disk, root, ending)? {
        writeln!(out, "{path}")?;
    }
    Ok(())
}
