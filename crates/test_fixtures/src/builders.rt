//! Walks that have not begun, and a `for` loop over one.
use crate::answers::Answer;
use crate::trees::{Step, tree};
use jwalk::file_system::{BuildError, FileSystem, MemoryFs};
use jwalk::read_dir::NoProcess;
use jwalk::{DirEntry, WalkDirGeneric};
use std::alloc::{AllocError, Global};

pub type Entry = DirEntry<((), ())>;

/// A walk that has not begun.
pub type Builder<S> = WalkDirGeneric<((), ()), S, NoProcess>;

/// Returns a walk that has not begun, with the default options.
pub fn builder<S: FileSystem>(alloc: Global, fs: S, root: &str) -> Result<Builder<S>, AllocError> {
    let root = String::from_str(alloc, root)?;
    Ok(WalkDirGeneric::new(fs, root))
}

/// Returns a walk that has not begun, over the tree that these steps build.
pub fn over_tree(
    alloc: Global,
    steps: &[Step],
    root: &str,
) -> Result<Builder<MemoryFs>, BuildError> {
    Ok(builder(alloc, tree(alloc, steps)?, root)?)
}

/// Returns the answers of a `for` loop over a walk that has not begun.
pub fn in_a_for_loop<S: FileSystem>(
    alloc: Global,
    walk: Builder<S>,
) -> Result<Vec<Answer>, AllocError> {
    let mut found = Vec::new(alloc);
    for answer in walk {
        found.push(answer)?;
    }
    Ok(found)
}
