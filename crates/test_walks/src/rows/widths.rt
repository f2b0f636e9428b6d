//! The number of directories that are read together, and the moment of it.
ghost use Rattle.jwalk.specs.DirEntryIter.{reads_of};

use crate::rows::courses::{Course, Seen, all_take};
use jwalk::entries::Entries;
use jwalk::file_system::FileSystem;
use jwalk::readings::Readings;
use jwalk::{Options, Parallelism};
use std::alloc::{AllocError, Global};
use test_fixtures::answers::Answer;
use test_fixtures::builders::{Builder, builder};
use test_fixtures::trees::{FORKED, GROUPED, Step, tree};
use test_fixtures::watched::Failing;
use test_fixtures::ways::Setting;
use test_fixtures::width::Width;

#[test]
fn directories_of_directories(rt: HostRuntime) {
    const COURSES: &[Course] = &[
        Course {
            settings: &[],
            seen: Seen::Counts(&[(0, 1), (0, 2), (0, 3), (0, 4), (0, 5), (0, 6), (0, 7)]),
        },
        Course {
            settings: &[Setting::By(Width::Serial)],
            seen: Seen::Counts(&[(0, 1), (0, 2), (0, 3), (0, 4), (0, 5), (0, 6), (0, 7)]),
        },
        Course {
            settings: &[Setting::By(Width::Batches(1))],
            seen: Seen::Counts(&[(0, 1), (0, 2), (0, 3), (0, 4), (0, 5), (0, 6), (0, 7)]),
        },
        Course {
            settings: &[Setting::By(Width::Batches(2))],
            seen: Seen::Counts(&[(0, 1), (1, 3), (2, 5), (1, 5), (0, 5), (0, 6), (0, 7)]),
        },
        Course {
            settings: &[Setting::By(Width::Batches(8))],
            seen: Seen::Counts(&[(0, 1), (2, 4), (4, 7), (3, 7), (2, 7), (1, 7), (0, 7)]),
        },
        Course {
            settings: &[Setting::By(Width::Batches(0))],
            seen: Seen::Counts(&[(0, 1), (2, 4), (4, 7), (3, 7), (2, 7), (1, 7), (0, 7)]),
        },
        Course {
            settings: &[Setting::By(Width::Batches(2)), Setting::Min(2)],
            seen: Seen::Counts(&[(2, 5), (0, 5), (0, 7)]),
        },
    ];
    all_take(&rt, &(FORKED, Failing::Never, "/r"), COURSES);
}

/// A directory of twenty empty directories.
const TWENTY: &[Step] = &[
    Step::Dir("/d"),
    Step::Dir("/d/10"),
    Step::Dir("/d/11"),
    Step::Dir("/d/12"),
    Step::Dir("/d/13"),
    Step::Dir("/d/14"),
    Step::Dir("/d/15"),
    Step::Dir("/d/16"),
    Step::Dir("/d/17"),
    Step::Dir("/d/18"),
    Step::Dir("/d/19"),
    Step::Dir("/d/20"),
    Step::Dir("/d/21"),
    Step::Dir("/d/22"),
    Step::Dir("/d/23"),
    Step::Dir("/d/24"),
    Step::Dir("/d/25"),
    Step::Dir("/d/26"),
    Step::Dir("/d/27"),
    Step::Dir("/d/28"),
    Step::Dir("/d/29"),
];

// For its own answer the root is read alone, and for the next one eight of its directories are. Below a least depth,
// one call enters the root and its first directory.
#[test]
fn what_one_answer_reads_ahead(rt: HostRuntime) {
    const COURSES: &[Course] = &[
        Course {
            settings: &[Setting::By(Width::Batches(8))],
            seen: Seen::Counts(&[
                (0, 1),
                (7, 9),
                (6, 9),
                (5, 9),
                (4, 9),
                (3, 9),
                (2, 9),
                (1, 9),
                (0, 9),
                (7, 17),
                (6, 17),
                (5, 17),
                (4, 17),
                (3, 17),
                (2, 17),
                (1, 17),
                (0, 17),
                (3, 21),
                (2, 21),
                (1, 21),
                (0, 21),
            ]),
        },
        Course {
            settings: &[Setting::By(Width::Batches(8)), Setting::Min(1)],
            seen: Seen::Counts(&[
                (7, 9),
                (6, 9),
                (5, 9),
                (4, 9),
                (3, 9),
                (2, 9),
                (1, 9),
                (0, 9),
                (7, 17),
                (6, 17),
                (5, 17),
                (4, 17),
                (3, 17),
                (2, 17),
                (1, 17),
                (0, 17),
                (3, 21),
                (2, 21),
                (1, 21),
                (0, 21),
            ]),
        },
    ];
    all_take(&rt, &(TWENTY, Failing::Never, "/d"), COURSES);
}

const THREE: Width = Width::Batches(3);

#[test]
fn groups_of_files(rt: HostRuntime) {
    const COURSES: &[Course] = &[
        Course {
            settings: &[],
            seen: Seen::Counts(&[
                (0, 1),
                (0, 1),
                (0, 1),
                (0, 2),
                (0, 2),
                (0, 3),
                (0, 3),
                (0, 3),
            ]),
        },
        Course {
            settings: &[Setting::Sort, Setting::By(THREE)],
            seen: Seen::Counts(&[
                (0, 1),
                (0, 1),
                (0, 1),
                (0, 1),
                (1, 3),
                (1, 3),
                (0, 3),
                (0, 3),
            ]),
        },
        // A greatest depth below 2 makes the walk serial, unless it is set first.
        Course {
            settings: &[Setting::Sort, Setting::By(THREE), Setting::Max(1)],
            seen: Seen::Counts(&[(0, 1), (0, 1), (0, 1), (0, 1), (0, 1), (0, 1)]),
        },
        Course {
            settings: &[Setting::Sort, Setting::Max(1), Setting::By(THREE)],
            seen: Seen::Counts(&[(0, 1), (0, 1), (0, 1), (0, 1), (1, 1), (0, 1)]),
        },
    ];
    all_take(&rt, &(GROUPED, Failing::Never, "/t"), COURSES);
}

fn ahead_after_five<B: Readings<((), ()), Global>>(
    walk: &mut Entries<((), ()), Global, B>,
    found: &mut Vec<Answer>,
) -> Result<usize, AllocError>
    requires { B.can_read (B.base (reads_of walk.old)) }
{
    walk.fill(5, found)?;
    Ok(walk.ahead())
}

fn ahead_at_first_group<S: FileSystem>(
    alloc: Global,
    walk: Builder<S>,
) -> Result<usize, AllocError> {
    ahead_after_five(&mut walk.sort(true).into_iter(), &mut Vec::new(alloc))
}

/// The first walk has a clone of a width, set before its greatest depth of 1. The second has the width itself, set
/// after it.
fn ahead_by_clones<S: FileSystem>(alloc: Global, fs: &S) -> Result<(usize, usize), AllocError> {
    let three: Parallelism = Parallelism::RayonNewPool(3);
    let before: Builder<&S> = builder(alloc, fs, "/t")?.parallelism(three.clone()?);
    let ahead = ahead_at_first_group(alloc, before.max_depth(1))?;
    let after: Builder<&S> = builder(alloc, fs, "/t")?.max_depth(1);
    Ok((
        ahead,
        ahead_at_first_group(alloc, after.parallelism(three))?,
    ))
}

#[test]
fn clones_of_one_parallelism(rt: HostRuntime) {
    let tree = tree(rt.alloc(), GROUPED);
    assert!(rt; matches!(&tree, Ok(tree) if ahead_by_clones(rt.alloc(), tree) == Ok((0, 1))));
}

/// The width is set before the greatest depth of 1, which is among the options.
fn ahead_by_options<S: FileSystem>(alloc: Global, fs: &S) -> Result<usize, AllocError> {
    let walk: Builder<&S> = builder(alloc, fs, "/t")?.parallelism(Parallelism::RayonNewPool(3));
    let options = Options::new().with_max_depth(1);
    ahead_at_first_group(alloc, walk.with_options(options))
}

#[test]
fn options_leave_the_width_as_it_was(rt: HostRuntime) {
    let tree = tree(rt.alloc(), GROUPED);
    assert!(rt; matches!(&tree, Ok(tree) if ahead_by_options(rt.alloc(), tree) == Ok(1)));
}
