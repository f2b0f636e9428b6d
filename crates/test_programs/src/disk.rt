//! Walks over a disk that keeps metadata, or whose answers are in a table.
mod listings;
mod metadata;
mod told;

use jwalk::file_system::FileSystem;
use std::alloc::{AllocError, Global};
use test_fixtures::answers::Answer;
use test_fixtures::builders::{Builder, builder};
use test_fixtures::ways::{Setting, all_of, with_all};

/// Returns all answers of a walk, whose entries keep their metadata or not. The file system is a parameter, since walks
/// over the disk have long types.
fn found<S: FileSystem>(
    alloc: Global,
    fs: S,
    root: &str,
    settings: &[Setting],
    keep: bool,
) -> Result<Vec<Answer>, AllocError> {
    let walk: Builder<S> = with_all(builder(alloc, fs, root)?, settings);
    all_of(alloc, walk.keep_metadata(keep).into_iter())
}
