//! Totals: prints how many files, directories and bytes there are below a folder.
use jwalk::WalkDirGeneric;
use jwalk::file_system::FileSystem;
use jwalk::read_dir::NoProcess;
use jwalk_usage::usage_kept;
use std::io::Write;

/// Prints the totals of a walk.
pub fn run<S: FileSystem, W: Write>(
    walk: WalkDirGeneric<((), ()), S, NoProcess>,
    out: &mut W,
) -> anyhow::Result<()> {
    let totals = usage_kept(walk.keep_metadata(true).into_iter())?;
    writeln!(out, "{totals}")?;
    Ok(())
}
