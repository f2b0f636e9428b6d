//! Subtotals where each request for memory is refused, or all from each on.
use crate::programs::counts::Counts;
use crate::programs::disk::{Disk, Failing};
use crate::tally::disk::{TOLD, TREE};
use jwalk::file_system::FileSystem;
use jwalk::read_dir::NoProcess;
use jwalk::{DirEntryIter, WalkDirGeneric};
use jwalk_subtotals::iter::Subtotals;
use jwalk_subtotals::{SubtotalError, SubtotalOptions, subtotals};
use std::alloc::{AllocError, Allocator, Global};
use std::sync::Arc;
use test_fixtures::refused::outcome::Outcome;
use test_fixtures::refused::turns::{MOST, Repeated, first_wrong};
use test_fixtures::refusing_alloc::Refusing;
use test_fixtures::width::Width;
use walk_text::failure::Failure;

/// The whole tree, in blocks.
const OPTIONS: SubtotalOptions = SubtotalOptions {
    apparent: false,
    each_name: false,
    all: true,
    max_depth: usize::MAX,
};

/// The entries by name, with the bytes at and below each.
const ROWS: &[(&str, u128)] = &[
    ("x", 8192),
    ("a", 12288),
    ("own", 4096),
    ("x", 0),
    ("b", 8192),
    ("y", 4096),
    ("c", 8192),
    ("hole", 0),
    ("r", 32768),
];

/// Subtotals of the tree that are taken again and again, with the number of directories that are read together.
#[derive(Drop)]
struct Play {
    disk: Disk,
    width: Width,
}

/// A walk without states or a callback.
type Walk<S, A> = DirEntryIter<((), ()), S, NoProcess, A>;

/// Returns the outcome of these subtotals: the first rows come, and then one error, or all rows, and nothing more.
/// Memory may run out for the walk or for the subtotals.
fn outcome_of<S: FileSystem, A: Allocator + Copy>(
    all: &mut Subtotals<((), ()), A, Walk<S, A>>,
) -> Outcome {
    let mut came = Outcome::Whole;
    for (number, (name, bytes)) in ROWS.iter().enumerate() {
        let is_refused = match &all.next() {
            Some(Ok(found)) if found.entry.file_name() == *name && found.subtotal.bytes == *bytes =>
                { false }
            Some(Err(SubtotalError::Memory)) => true,
            Some(Err(SubtotalError::Walk(error))) if error.is_memory() => true,
            _ => return Outcome::Wrong,
        };
        if is_refused {
            came = Outcome::Refused(number);
            break;
        }
    }
    let is_over = all.next().is_none();
    if is_over && all.next().is_none() {
        came
    } else {
        Outcome::Wrong
    }
}

/// Returns the outcome of the subtotals of a walk over a disk, with this memory.
fn comes_over<S: FileSystem, A: Allocator + Copy>(disk: S, memory: A, width: Width) -> Outcome {
    let Ok(root) = String::from_str(memory, "/r") else {
        return Outcome::Refused(0);
    };
    let walk = WalkDirGeneric::<((), ()), _, _, _>::new(disk, root)
        .sort(true)
        .keep_metadata(true)
        .parallelism(width.parallelism());
    let mut all = subtotals(memory, walk.into_iter(), OPTIONS);
    outcome_of(&mut all)
}

impl Repeated for Play {
    fn comes(&self, _alloc: Global, memory: &Refusing<Global>) -> Outcome {
        comes_over(&self.disk, memory, self.width)
    }

    fn may_be_whole(&self) -> bool {
        false
    }
}

fn disk(alloc: Global) -> Result<Disk, Failure> {
    let counts = Arc::new(alloc, Counts::new()).map_err(AllocError::from)?;
    Disk::new(alloc, TREE, &[], TOLD, Failing::Never, &counts)
}

#[test]
fn a_beginning_comes_and_one_error_where_memory_is_refused(rt: HostRuntime) {
    for width in &[Width::Serial, Width::Batches(8)] {
        for many in &[1, MOST] {
            let wrong = match disk(rt.alloc()) {
                Ok(disk) => {
                    let play = Play {
                        disk,
                        width: *width,
                    };
                    first_wrong(rt.alloc(), *many, &play)
                }
                Err(_) => Some(0),
            };
            assert_eq!(&rt; wrong, None);
        }
    }
}
