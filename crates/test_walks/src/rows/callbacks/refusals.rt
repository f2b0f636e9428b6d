//! Walks that don't begin, as their callback runs out of memory.
use crate::rows::callbacks::callback::{Callback, Change};
use crate::rows::callbacks::rows::Callbacks;
use jwalk::file_system::{BuildError, FileSystem};
use std::alloc::{AllocError, Global};
use test_fixtures::builders::{Builder, builder};
use test_fixtures::trees::{GROUPED, tree};

/// Memory runs out for the root's list. The error must be that.
fn is_not_begun<S: FileSystem>(alloc: Global, fs: S) -> Result<bool, AllocError> {
    let refused = Callbacks::One(Callback::Makes(Change::RefuseAt(None)));
    let walk: Builder<S> = builder(alloc, fs, "/t")?;
    Ok(match walk.process_read_dir(refused).try_into_iter() {
        Ok(_) => false,
        Err(error) => error.is_memory(),
    })
}

fn is_refused(alloc: Global) -> Result<bool, BuildError> {
    Ok(is_not_begun(alloc, &tree(alloc, GROUPED)?)?)
}

#[test]
fn a_walk_that_is_not_begun_without_memory(rt: HostRuntime) {
    assert!(rt; matches!(is_refused(rt.alloc()), Ok(true)));
}
