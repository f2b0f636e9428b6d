//! Prints the path of everything below a folder that is on the same file system, and in no directory of one name. Four
//! threads read ahead.
use jwalk::file_system::FileSystem;
use jwalk::read_dir::{NoProcess, SkipNames};
use jwalk::{Host, WalkDirGeneric};
use std::io::Write;

/// Prints the paths of a walk, but for those.
pub fn run<R: Host, S: FileSystem + Send + Sync + 'static, W: Write>(
    rt: &R,
    walk: WalkDirGeneric<((), ()), S, NoProcess>,
    unread: String,
    out: &mut W,
) -> anyhow::Result<()> {
    // begin walk
    let mut names = Vec::new(*unread.allocator());
    names.push(unread)?;
    walk.skip_hidden(false)
        .same_file_system(true)
        .workers(rt, 4)?
        .process_read_dir(SkipNames::new(names))
        .try_for_each(|answer| -> anyhow::Result<()> {
            writeln!(out, "{}", answer?.path()?)?;
            Ok(())
        })
    // end walk
}
