//! Lists an archive, by name: `tar tf photos.tar | example archive FOLDER`. The lines of `tar` make a file system in
//! memory.
use jwalk::WalkDirGeneric;
use jwalk::file_system::MemoryFs;
use std::alloc::Global;
use std::io::{BufRead, Write};

/// Prints what is below a root of the archive whose lines are the input.
pub fn run<I: BufRead + Drop, W: Write>(
    alloc: Global,
    input: I,
    root: String,
    out: &mut W,
) -> anyhow::Result<()> {
    let mut tree = MemoryFs::new(alloc);
    for line in input.lines(alloc) {
        let line = line?;
        match line.strip_suffix("/") {
            Some(folder) => tree.add_dir(folder)?,
            None => tree.add_file(&line, 0)?,
        }
    }
    let walk = WalkDirGeneric::<((), ()), _, _, _>::new(tree, root);
    walk.sort(true).try_for_each(|answer| -> anyhow::Result<()> {
        writeln!(out, "{}", answer?.path()?)?;
        Ok(())
    })
}
