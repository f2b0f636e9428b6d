//! Walks over a crew and their answers.
use crate::acts::{Act, Scene, first_wrong};
use crate::crewed::{Asked, Reader};
use crate::serial::are_serial;
use jwalk::file_system::{BuildError, MemoryFs};
use std::alloc::Global;
use test_fixtures::trees::{
    DENIED, ELSEWHERE, FORKED, GROUPED, LOOPED, LOOPED_BACK, Step, TO_EACH_OTHER, WITHIN, tree,
};
use test_fixtures::watched::Failing;
use test_fixtures::ways::Setting;

/// The number of workers, a tree, the root and the options of a walk over it, and its answers.
type Row = (
    usize,
    &'static [Step],
    &'static str,
    &'static [Setting],
    &'static str,
);

/// Names in order with three workers. With two, directories beside one another and in one another, one that can't be read, loops, and links to each other.
const ROWS: &[Row] = &[
    (
        3,
        GROUPED,
        "/t",
        &[Setting::Sort],
        "0 d /t; 1 f /t/a.txt; 1 f /t/b.txt; 1 f /t/c.txt; 1 d /t/group 1; \
         2 f /t/group 1/d.txt; 1 d /t/group 2; 2 f /t/group 2/e.txt",
    ),
    (
        2,
        FORKED,
        "/r",
        &[],
        "0 d /r; 1 d /r/a; 2 d /r/a/x; 1 d /r/b; 2 d /r/b/x; 1 d /r/c; 2 d /r/c/x",
    ),
    (
        2,
        DENIED,
        "/t",
        &[Setting::Sort],
        "0 d /t; 1 f /t/a.txt; 1 f /t/b.txt; 1 f /t/c.txt; 1 d /t/group 1; \
         2 f /t/group 1/d.txt; 1 d /t/group 2 ! 1 /t/group 2 PermissionDenied",
    ),
    (
        2,
        DENIED,
        "/t",
        &[Setting::Sort, Setting::Max(1)],
        "0 d /t; 1 f /t/a.txt; 1 f /t/b.txt; 1 f /t/c.txt; 1 d /t/group 1; 1 d /t/group 2",
    ),
    (
        2,
        DENIED,
        "/t",
        &[Setting::Sort, Setting::Min(2)],
        "2 f /t/group 1/d.txt",
    ),
    (
        2,
        LOOPED,
        "/r",
        &[],
        "0 d /r; 1 d /r/a; 2 d /r/a/b; 3 d /r/a/b/c; 4 L /r/a/b/c/a-link",
    ),
    (
        2,
        LOOPED,
        "/r",
        &[Setting::Follow],
        "0 d /r; 1 d /r/a; 2 d /r/a/b; 3 d /r/a/b/c; ! 4 /r/a/b/c/a-link loop /r/a",
    ),
    (
        2,
        LOOPED_BACK,
        "/r",
        &[Setting::Follow],
        "0 d /r; 1 d /r/a; 2 d /r/a/b; 3 d /r/a/b/c; ! 4 /r/a/b/c/a-link loop /r/a",
    ),
    (
        2,
        WITHIN,
        "/r",
        &[Setting::Follow],
        "0 d /r; ! 1 /r/l loop /r",
    ),
    (
        2,
        ELSEWHERE,
        "/r",
        &[Setting::Follow],
        "0 d /r; 1 D /r/k; ! 2 /r/k/l loop /r",
    ),
    (
        2,
        TO_EACH_OTHER,
        "/r",
        &[Setting::Follow, Setting::Max(4)],
        "0 d /r; 1 d /r/a; 2 D /r/a/l; 3 D /r/a/l/m; 4 D /r/a/l/m/l; \
         1 d /r/b; 2 D /r/b/m; 3 D /r/b/m/l; 4 D /r/b/m/l/m",
    ),
];

#[test]
fn the_answers_of_serial_walks_with_two_or_three_workers(rt: HostRuntime) {
    for (workers, steps, root, settings, answers) in ROWS {
        let scene = Scene {
            steps: *steps,
            failing: Failing::Never,
            places: 1,
            workers: *workers,
            read_ahead: None,
        };
        let walk = Asked {
            root: *root,
            settings: *settings,
            reader: Reader::Crew,
            then: &[],
        };
        let acts = [Act::Answers(walk, *answers)];
        assert_eq!(rt; first_wrong(&rt, &scene, &acts), None, "{answers}");
    }
}

/// Every seventh directory has a directory, too.
fn add_sibling(alloc: Global, fs: &mut MemoryFs, number: usize) -> Result<(), BuildError> {
    let mut path = format!(in alloc; "/r/{number}")?;
    fs.add_dir(path.as_str())?;
    path.push_str("/a")?;
    fs.add_file(path.as_str(), 1)?;
    if number % 7 == 0 {
        path.push_str("-dir")?;
        fs.add_dir(path.as_str())?;
    }
    Ok(())
}

/// Two hundred directories beside one another, and forty nested ones.
fn wide_and_deep(alloc: Global) -> Result<MemoryFs, BuildError> {
    let mut fs = tree(alloc, &[Step::Dir("/r")])?;
    for number in 0..200 {
        add_sibling(alloc, &mut fs, number)?;
    }
    let mut path = String::from_str(alloc, "/r")?;
    for _ in 0..40 {
        path.push_str("/d")?;
        fs.add_dir(path.as_str())?;
    }
    Ok(fs)
}

#[test]
fn many_directories_and_a_long_chain_with_one_to_four_workers(rt: HostRuntime) {
    const WALK: Asked<'static> = Asked {
        root: "/r",
        settings: &[],
        reader: Reader::Crew,
        then: &[],
    };
    for workers in [1, 2, 4] {
        let is_alike = are_serial(&rt, wide_and_deep(rt.alloc()), &WALK, workers);
        assert!(rt; is_alike == Ok(true), "{workers} workers");
    }
}
