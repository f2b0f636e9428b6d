//! Says of each error of a walk what it is. The tree is one in memory that has most sorts of them.
use jwalk::file_system::{BuildError, FileSystem, MemoryFs};
use jwalk::{DirEntry, Error, WalkDirGeneric};
use std::alloc::Global;
use std::io::{ErrorKind, Write};

/// Returns a tree with a closed directory, a link back to a directory above it, and a link that leads nowhere.
fn small_tree(alloc: Global) -> Result<MemoryFs, BuildError> {
    let mut tree = MemoryFs::new(alloc);
    tree.add_dir("/photos")?;
    tree.add_dir("/photos/closed")?;
    tree.deny("/photos/closed", ErrorKind::PermissionDenied)?;
    tree.add_link("/photos/again", "/photos")?;
    tree.add_link("/photos/broken", "/drawings")?;
    tree.add_file("/photos/sea.jpg", 1200)?;
    Ok(tree)
}

fn sort_of(error: &Error) -> &'static str {
    match error.io_error() {
        Some(cause) if cause.kind() == ErrorKind::NotFound => "not there",
        Some(cause) if cause.kind() == ErrorKind::PermissionDenied => "closed",
        Some(_) => "another error of the file system",
        None if error.is_memory() => "memory ran out",
        None if error.is_busy() => "no thread could be started",
        None if error.is_lost() => "a thread's reading didn't come",
        None => "a link back to a directory above it",
    }
}

/// Returns the error of an answer, or the one in which reading the entry's directory ended.
fn error_of(answer: &jwalk::Result<DirEntry<((), ())>>) -> Option<&Error> {
    match answer {
        Ok(entry) => entry.read_children_error(),
        Err(error) => Some(error),
    }
}

fn print_errors<S: FileSystem, W: Write>(
    alloc: Global,
    fs: &S,
    root: &str,
    out: &mut W,
) -> anyhow::Result<()> {
    let root = String::from_str(alloc, root)?;
    let walk = WalkDirGeneric::<((), ()), _, _, _>::new(fs, root);
    // begin loop
    for answer in walk.follow_links(true) {
        if let Some(error) = error_of(&answer) {
            writeln!(out, "{}: {error}", sort_of(error))?;
        }
    }
    // end loop
    Ok(())
}

/// Prints the errors of a walk over that tree, and of one from a root that isn't there.
pub fn run<W: Write>(alloc: Global, out: &mut W) -> anyhow::Result<()> {
    let tree = small_tree(alloc)?;
    print_errors(alloc, &tree, "/photos", out)?;
    print_errors(alloc, &tree, "/drawings", out)
}
