//! The addresses of the directories below a reading. That a job is rehearsed in preorder is proved: the clauses
//! `in_order` and `matches_run` of `rehearse`.
use crate::given::{States, address, is_at, roots_of};
use jwalk_job::job::Job;
use jwalk_job::options::Options;
use jwalk_job::process_read_dir::NoProcess;
use jwalk_job::read_dir::ReadDir;
use jwalk_job::read_dir_spec::ReadDirSpec;
use jwalk_memory_fs::memory_fs::MemoryFs;
use jwalk_order::ordered::Ordered;
use std::alloc::Global;
use test_fixtures::trees::{FORKED, Step, tree};

/// A tree, its root, the address of the root's reading, and the addresses and paths of the directories below it.
type Row = (
    &'static [Step],
    &'static str,
    &'static [usize],
    &'static [(&'static [usize], &'static str)],
);

/// The items must have no children counted.
fn stand_at(items: &[Ordered<ReadDirSpec<States>>], wanted: &[(&[usize], &str)]) -> bool {
    for (item, (indices, path)) in items.iter().zip(wanted) {
        if !is_at(item, *indices, 0) || item.value.path.as_str() != *path {
            return false;
        }
    }
    items.len() == wanted.len()
}

/// The root must be the only directory of its list.
fn root_reading(alloc: Global, fs: &MemoryFs, root: &str) -> Option<ReadDir<States>> {
    let job = Job::new(alloc, fs, NoProcess, Options::new().with_sort(true));
    let roots = roots_of(&job, root)?;
    match roots.as_slice() {
        [only] => job.read_one(only).ok()?.ok(),
        _ => None,
    }
}

fn holds(alloc: Global, (steps, root, above, wanted): &Row) -> Option<bool> {
    let above = address(alloc, above)?;
    let read = root_reading(alloc, &tree(alloc, steps).ok()?, root)?;
    let below = read.ordered_read_children_specs(&above).ok()?;
    Some(stand_at(below.as_slice(), wanted))
}

#[test]
fn directories_below_a_reading_have_their_addresses(rt: HostRuntime) {
    const ROWS: &[Row] = &[
        (
            FORKED,
            "/r",
            &[0],
            &[(&[0, 0], "/r/a"), (&[0, 1], "/r/b"), (&[0, 2], "/r/c")],
        ),
        // A directory that has another, a directory, and files.
        (
            &[
                Step::Dir("/t"),
                Step::Dir("/t/b"),
                Step::Dir("/t/b/d"),
                Step::Dir("/t/c"),
                Step::File(1, "/t/a"),
                Step::File(1, "/t/b/e"),
                Step::File(1, "/t/b/d/f"),
                Step::File(1, "/t/c/g"),
            ],
            "/t",
            &[3, 1],
            &[(&[3, 1, 0], "/t/b"), (&[3, 1, 1], "/t/c")],
        ),
    ];
    for row in ROWS {
        assert_eq!(rt; holds(rt.alloc(), row), Some(true), "{}", row.1);
    }
}
