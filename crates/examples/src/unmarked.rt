//! Prints the path of everything below a folder, but for what is in directories with a file `.nobackup`.
use jwalk::file_system::FileSystem;
use jwalk::read_dir::NoProcess;
use jwalk::{Host, WalkDirGeneric};
use std::io::Write;

/// Prints the paths of a walk, but for those.
pub fn run<R: Host, S: FileSystem + Send + Sync + 'static, W: Write>(
    rt: &R,
    walk: WalkDirGeneric<((), ()), S, NoProcess>,
    out: &mut W,
) -> anyhow::Result<()> {
    // begin walk
    walk.skip_hidden(false)
        .sort(true)
        .workers(rt, 4)?
        .process_read_dir_by(|_, _, _, list| {
            let is_marked = list.iter().any(|found| match found {
                Ok(entry) => entry.file_name() == ".nobackup",
                Err(_) => false,
            });
            if is_marked {
                list.clear();
            }
            Ok(())
        })
        .try_for_each(|answer| -> anyhow::Result<()> {
            writeln!(out, "{}", answer?.path()?)?;
            Ok(())
        })
    // end walk
}
