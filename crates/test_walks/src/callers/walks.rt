//! A walk over a caller's own file system.
use crate::callers::counted::Counted;
use crate::found::found;
use jwalk::file_system::BuildError;
use std::alloc::Global;
use test_fixtures::trees::{GROUPED, tree};

fn answers_and_listings(alloc: Global) -> Result<(usize, usize), BuildError> {
    let fs = Counted::new(tree(alloc, GROUPED)?);
    Ok((found(alloc, &fs, "/t", &[])?.len(), fs.listings()))
}

#[test]
fn a_file_system_of_ones_own_that_counts(rt: HostRuntime) {
    assert!(rt; matches!(answers_and_listings(rt.alloc()), Ok((8, 3))));
}
