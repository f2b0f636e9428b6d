//! The answers of walks that no test names the types of. A call at the type of a walk over one file system costs seconds
//! of its check, so walks are made where the file system is a parameter.
use jwalk::file_system::{BuildError, FileSystem};
use std::alloc::{AllocError, Global};
use test_fixtures::answers::Answer;
use test_fixtures::builders::{Builder, builder};
use test_fixtures::trees::{Step, tree};
use test_fixtures::ways::{Setting, all_of, with_all};

/// Returns all answers of a walk with these settings.
pub fn found<S: FileSystem>(
    alloc: Global,
    fs: S,
    root: &str,
    settings: &[Setting],
) -> Result<Vec<Answer>, AllocError> {
    let walk: Builder<S> = with_all(builder(alloc, fs, root)?, settings);
    all_of(alloc, walk.into_iter())
}

/// Returns all answers of such a walk over the tree that these steps build.
pub fn found_in(
    alloc: Global,
    steps: &[Step],
    root: &str,
    settings: &[Setting],
) -> Result<Vec<Answer>, BuildError> {
    Ok(found(alloc, tree(alloc, steps)?, root, settings)?)
}
