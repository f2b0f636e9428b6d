//! Walks over links.
use crate::rows::row::{Over, Row, all_hold};
use jwalk::file_system::FileSystem;
use jwalk::read_dir::NoProcess;
use std::thread::Threads;
use test_fixtures::answers::Answer;
use test_fixtures::trees::{ELSEWHERE, LOOPED, LOOPED_BACK, Step, TO_EACH_OTHER, WITHIN, tree};
use test_fixtures::ways::{Asked, Setting, WAYS, Way};

#[test]
fn a_link_to_an_ancestor_is_a_loop(rt: HostRuntime) {
    const ROWS: &[Row] = &[
        Row {
            over: Over::Tree(LOOPED),
            root: "/r",
            settings: &[Setting::Follow],
            answers: "0 d /r; 1 d /r/a; 2 d /r/a/b; 3 d /r/a/b/c; ! 4 /r/a/b/c/a-link loop /r/a",
        },
        Row {
            over: Over::Tree(LOOPED),
            root: "/r",
            settings: &[],
            answers: "0 d /r; 1 d /r/a; 2 d /r/a/b; 3 d /r/a/b/c; 4 L /r/a/b/c/a-link",
        },
    ];
    all_hold(&rt, ROWS);
}

#[test]
fn a_link_back_by_a_relative_text_is_a_loop(rt: HostRuntime) {
    const ROWS: &[Row] = &[
        Row {
            over: Over::Tree(LOOPED_BACK),
            root: "/r",
            settings: &[Setting::Follow],
            answers: "0 d /r; 1 d /r/a; 2 d /r/a/b; 3 d /r/a/b/c; ! 4 /r/a/b/c/a-link loop /r/a",
        },
        Row {
            over: Over::Tree(LOOPED_BACK),
            root: "/r/./a/",
            settings: &[Setting::Follow],
            answers: "0 d /r/a; 1 d /r/./a/b; 2 d /r/./a/b/c; ! 3 /r/./a/b/c/a-link loop /r/./a/",
        },
        Row {
            over: Over::Tree(WITHIN),
            root: "/r",
            settings: &[Setting::Follow, Setting::Max(3)],
            answers: "0 d /r; ! 1 /r/l loop /r",
        },
        Row {
            over: Over::Tree(WITHIN),
            root: "/r",
            settings: &[Setting::Follow],
            answers: "0 d /r; ! 1 /r/l loop /r",
        },
    ];
    all_hold(&rt, ROWS);
}

#[test]
fn text_alone_tells_a_loop(rt: HostRuntime) {
    const ROWS: &[Row] = &[
        Row {
            over: Over::Tree(ELSEWHERE),
            root: "/r",
            settings: &[Setting::Follow],
            answers: "0 d /r; 1 D /r/k; ! 2 /r/k/l loop /r",
        },
        Row {
            over: Over::Tree(TO_EACH_OTHER),
            root: "/r",
            settings: &[Setting::Follow, Setting::Max(4)],
            answers: "0 d /r; 1 d /r/a; 2 D /r/a/l; 3 D /r/a/l/m; 4 D /r/a/l/m/l; \
                      1 d /r/b; 2 D /r/b/m; 3 D /r/b/m/l; 4 D /r/b/m/l/m",
        },
    ];
    all_hold(&rt, ROWS);
}

/// Links to a file, to a directory, to nothing and to itself.
const LINKS: &[Step] = &[
    Step::Dir("/r"),
    Step::Dir("/r/s"),
    Step::File(1, "/r/s/x"),
    Step::Link("s/x", "/r/f"),
    Step::Link("s", "/r/d"),
    Step::Link("none", "/r/n"),
    Step::Link("o", "/r/o"),
];

#[test]
fn links_to_files_directories_and_nothing(rt: HostRuntime) {
    const ROWS: &[Row] = &[
        Row {
            over: Over::Tree(LINKS),
            root: "/r",
            settings: &[Setting::Follow],
            answers: "0 d /r; 1 d /r/s; 2 f /r/s/x; 1 F /r/f; 1 D /r/d; 2 f /r/d/x; \
                      ! 1 /r/n NotFound; ! 1 /r/o Other",
        },
        Row {
            over: Over::Tree(LINKS),
            root: "/r",
            settings: &[],
            answers: "0 d /r; 1 d /r/s; 2 f /r/s/x; 1 L /r/f; 1 L /r/d; 1 L /r/n; 1 L /r/o",
        },
        Row {
            over: Over::Tree(&[Step::Dir("/r"), Step::Link("a", "/r/a")]),
            root: "/r",
            settings: &[Setting::Follow],
            answers: "0 d /r; ! 1 /r/a Other",
        },
        Row {
            over: Over::Tree(&[Step::Dir("/r"), Step::Link("a", "/r/a")]),
            root: "/r",
            settings: &[],
            answers: "0 d /r; 1 L /r/a",
        },
    ];
    all_hold(&rt, ROWS);
}

/// A directory, and a link to it beside it.
const BESIDE: &[Step] = &[
    Step::Dir("/r"),
    Step::Dir("/r/a"),
    Step::File(0, "/r/a/zzz"),
    Step::Link("a", "/r/a-link"),
];

#[test]
fn roots_that_are_links_followed_or_not(rt: HostRuntime) {
    const ROWS: &[Row] = &[
        Row {
            over: Over::Tree(BESIDE),
            root: "/r/a-link",
            settings: &[],
            answers: "0 L /r/a-link; 1 f /r/a-link/zzz",
        },
        Row {
            over: Over::Tree(BESIDE),
            root: "/r/a-link",
            settings: &[Setting::Follow],
            answers: "0 D /r/a-link; 1 f /r/a-link/zzz",
        },
        Row {
            over: Over::Tree(BESIDE),
            root: "/r",
            settings: &[Setting::Follow],
            answers: "0 d /r; 1 d /r/a; 2 f /r/a/zzz; 1 D /r/a-link; 2 f /r/a-link/zzz",
        },
        Row {
            over: Over::Tree(&[Step::Link("/nowhere", "/x")]),
            root: "/x",
            settings: &[],
            answers: "! 0 /x NotFound",
        },
    ];
    all_hold(&rt, ROWS);
}

/// The last answer must be an error of this depth, whose path has this length.
fn ends(found: &[Answer], count: usize, depth: usize, length: usize) -> bool {
    let is_last = match found.last() {
        Some(Err(error)) => {
            error.depth() == depth && error.path().is_some_and(|path| path.len() == length)
        }
        _ => false,
    };
    is_last && found.len() == count
}

fn is_ended<R: Threads + AllocGlobal + Sync, S: FileSystem + Send + Sync>(
    rt: &R,
    fs: &S,
    way: Way,
) -> bool {
    let asked = Asked {
        fs,
        root: "/r",
        settings: &[Setting::Follow],
    };
    match asked.found::<_, ((), ()), _>(rt, NoProcess, way) {
        Ok(found) => ends(found.as_slice(), 85, 42, 86),
        Err(_) => false,
    }
}

#[test]
fn links_to_each_other_end_at_the_41st(rt: HostRuntime) {
    let fs = tree(rt.alloc(), TO_EACH_OTHER);
    for way in WAYS {
        assert!(rt; matches!(&fs, Ok(fs) if is_ended(&rt, fs, *way)));
    }
}
