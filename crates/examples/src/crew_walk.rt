//! Prints the path of everything below a folder, in the order of names. Four threads read its directories ahead.
use jwalk::file_system::FileSystem;
use jwalk::{Crew, Host, Parallelism, WalkDirGeneric};
use std::io::Write;
use std::sync::Arc;

/// Prints the paths of what is below a root of a disk.
pub fn run<R: Host, S: FileSystem + Send + Sync + 'static, W: Write>(
    rt: &R,
    disk: S,
    root: String,
    out: &mut W,
) -> anyhow::Result<()> {
    // begin walk
    let crew = Arc::new(*root.allocator(), Crew::new(rt.clone()?, 1, 4))?;
    let walk = WalkDirGeneric::<((), ()), _, _, _, _>::with_crew(disk, root)
        .sort(true)
        .parallelism(Parallelism::RayonExistingPool {
            pool: crew.clone()?,
            busy_timeout: None,
        });
    walk.try_for_each(|answer| -> anyhow::Result<()> {
        writeln!(out, "{}", answer?.path()?)?;
        Ok(())
    })
    // end walk
}
