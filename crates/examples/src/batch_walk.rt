//! Prints the path of everything below a folder, in the order of names. Threads read its directories in batches of 256.
use jwalk::file_system::FileSystem;
use jwalk::read_dir::NoProcess;
use jwalk::{Parallelism, WalkDirGeneric};
use std::io::Write;
use std::thread::Threads;

/// Prints the paths of a walk.
pub fn run<R: Threads + Sync, S: FileSystem + Send + Sync, W: Write>(
    rt: &R,
    walk: WalkDirGeneric<((), ()), S, NoProcess>,
    out: &mut W,
) -> anyhow::Result<()> {
    // begin walk
    let mut walk = walk
        .sort(true)
        .parallelism(Parallelism::RayonNewPool(256))
        .into_iter();
    // end walk
    // begin loop
    while let Some(answer) = walk.next_on(rt) {
        writeln!(out, "{}", answer?.path()?)?;
    }
    // end loop
    Ok(())
}
