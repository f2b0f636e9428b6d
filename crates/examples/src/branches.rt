//! Prints the names of everything below a folder as a tree with branches, in the order of names.
use jwalk::WalkDirGeneric;
use jwalk::file_system::FileSystem;
use std::alloc::Global;
use std::io::Write;

/// Prints the tree below a root.
pub fn run<S: FileSystem, W: Write>(
    alloc: Global,
    disk: S,
    root: String,
    out: &mut W,
) -> anyhow::Result<()> {
    // begin walk
    // The state of an entry says whether it is the last of its directory.
    let walk = WalkDirGeneric::<((), bool), _, _, _>::new(disk, root)
        .sort(true)
        .process_read_dir_by(|_, _, _, list| {
            if let Some(Ok(last)) = list.last_mut() {
                last.client_state = true;
            }
            Ok(())
        });
    // The states of the entry and of the directories above it.
    let mut states: Vec<bool> = Vec::new(alloc);
    for answer in walk.into_iter() {
        let entry = answer?;
        let is_last = entry.client_state;
        states.truncate(entry.depth());
        for above in states.iter().skip(1) {
            write!(out, "{}", if *above { "    " } else { "│   " })?;
        }
        if entry.depth() > 0 {
            write!(out, "{}", if is_last { "└── " } else { "├── " })?;
        }
        writeln!(out, "{}", entry.file_name())?;
        states.push(is_last)?;
    }
    // end walk
    Ok(())
}
