//! Removes a folder with everything in it, hidden names too, from the bottom up. Unless it is really to be done, it prints
//! the paths that it would remove, in this order.
use jwalk::WalkDirGeneric;
use jwalk::file_system::FileSystem;
use jwalk::read_dir::NoProcess;
use jwalk_contents_first::WalkExt;
use std::fs;
use std::io::Write;
use std::rt::Files;

/// Removes what a walk finds, or prints it. It ends at the first error: what is above that stays.
pub fn run<R: Files, S: FileSystem, W: Write>(
    rt: &R,
    walk: WalkDirGeneric<((), ()), S, NoProcess>,
    really: bool,
    out: &mut W,
) -> anyhow::Result<()> {
    // begin walk
    let walk = walk.skip_hidden(false).sort(true).into_iter();
    for answer in walk.contents_first() {
        let entry = answer?;
        let path = entry.path()?;
        if !really {
            writeln!(out, "{path}")?;
        } else if entry.file_type().is_dir() {
            fs::remove_dir(rt, path.as_str())?;
        } else {
            fs::remove_file(rt, path.as_str())?;
        }
    }
    // end walk
    Ok(())
}
