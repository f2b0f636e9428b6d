//! Prints how many files are below a folder, how many bytes they have, and how many errors there were. Threads read the
//! directories and ask for the lengths.
use jwalk::file_system::FileSystem;
use jwalk::read_dir::NoProcess;
use jwalk::{Host, WalkDirGeneric};
use std::io::Write;

/// Prints the totals of a walk. The disk is asked for the lengths.
pub fn run<
    R: Host,
    S: FileSystem + Send + Sync + 'static,
    D: FileSystem + Send + Sync + 'static,
    W: Write,
>(
    rt: &R,
    walk: WalkDirGeneric<((), ()), S, NoProcess>,
    disk: D,
    out: &mut W,
) -> anyhow::Result<()> {
    let (mut files, mut bytes, mut errors) = (0_u64, 0_u64, 0_u64);
    // begin walk
    walk.skip_hidden(false)
        .states::<(), u64>()
        .workers(rt, 0)?
        .process_read_dir_by(move |_, _, _, list| {
            for found in list.iter_mut() {
                if let Ok(file) = found
                    && file.file_type().is_file()
                {
                    match file.metadata(&disk) {
                        Ok(metadata) => file.client_state = metadata.len(),
                        Err(error) => *found = Err(error),
                    }
                }
            }
            Ok(())
        })
        .for_each(|answer| match answer {
            Ok(entry) => {
                files = files.saturating_add(u64::from(entry.file_type().is_file()));
                bytes = bytes.saturating_add(entry.client_state);
                let unread = entry.read_children_error();
                errors = errors.saturating_add(u64::from(unread.is_some()));
            }
            Err(_) => errors = errors.saturating_add(1),
        });
    // end walk
    writeln!(out, "{files} files, {bytes} bytes, {errors} errors")?;
    Ok(())
}
