//! Writes a line of CSV for each file below a folder, by name: its length in bytes, and its path.
use csv::WriterBuilder;
use jwalk::file_system::FileSystem;
use jwalk::read_dir::NoProcess;
use jwalk::{DirEntry, Host, WalkDirGeneric};
use std::alloc::Global;
use std::io::Write;

fn fields_of<D: FileSystem>(
    alloc: Global,
    disk: &D,
    file: &DirEntry<((), ())>,
) -> anyhow::Result<[String; 2]> {
    let length = file.metadata(disk)?.len();
    Ok([format!(in alloc; "{length}")?, file.path()?])
}

/// Writes the lines of a walk. The disk is asked for the lengths.
pub fn run<R: Host + AllocGlobal, S: FileSystem + Send + Sync + 'static, D: FileSystem, W: Write>(
    rt: &R,
    walk: WalkDirGeneric<((), ()), S, NoProcess>,
    disk: &D,
    out: &mut W,
) -> anyhow::Result<()> {
    let mut lines = WriterBuilder::new().from_writer(out);
    lines.write_record(["bytes", "path"])?;
    // begin walk
    walk.sort(true)
        .workers(rt, 4)?
        .try_for_each(|answer| -> anyhow::Result<()> {
            let entry = answer?;
            if entry.file_type().is_file() {
                lines.write_record(fields_of(rt.alloc(), disk, &entry)?)?;
            }
            Ok(())
        })?;
    // end walk
    lines.flush()?;
    Ok(())
}
