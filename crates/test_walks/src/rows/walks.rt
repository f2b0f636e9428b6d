//! Walks with the default options, from roots of every kind.
use crate::rows::row::{Over, Row, all_hold};
use jwalk::file_system::FileType;
use test_fixtures::listed_directory::{FAULTY, Item, ListedDirectory};
use test_fixtures::trees::{GROUPED, SMALL, Step};

#[test]
fn a_directory_before_all_that_it_holds(rt: HostRuntime) {
    const ROWS: &[Row] = &[
        Row {
            over: Over::Tree(SMALL),
            root: "/r",
            settings: &[],
            answers: "0 d /r; 1 f /r/b; 1 d /r/s; 2 f /r/s/x; 1 f /r/a",
        },
        Row {
            over: Over::Tree(GROUPED),
            root: "/t",
            settings: &[],
            answers: "0 d /t; 1 f /t/c.txt; 1 f /t/a.txt; 1 d /t/group 2; 2 f /t/group 2/e.txt; \
                      1 d /t/group 1; 2 f /t/group 1/d.txt; 1 f /t/b.txt",
        },
        Row {
            over: Over::Tree(SMALL),
            root: "/r/s",
            settings: &[],
            answers: "0 d /r/s; 1 f /r/s/x",
        },
        Row {
            over: Over::Tree(GROUPED),
            root: "/t/a.txt",
            settings: &[],
            answers: "0 f /t/a.txt",
        },
        Row {
            over: Over::Tree(&[Step::Dir("/e")]),
            root: "/e",
            settings: &[],
            answers: "0 d /e",
        },
        Row {
            over: Over::Tree(GROUPED),
            root: "/none",
            settings: &[],
            answers: "! 0 /none NotFound",
        },
    ];
    all_hold(&rt, ROWS);
}

/// A directory of 33 directories, of which a batch of 32 is read by two threads.
const SIBLINGS: &[Step] = &[
    Step::Dir("/w"),
    Step::Dir("/w/a"),
    Step::File(1, "/w/a/x"),
    Step::Dir("/w/b"),
    Step::File(1, "/w/b/x"),
    Step::Dir("/w/c"),
    Step::File(1, "/w/c/x"),
    Step::Dir("/w/d"),
    Step::File(1, "/w/d/x"),
    Step::Dir("/w/e"),
    Step::File(1, "/w/e/x"),
    Step::Dir("/w/f"),
    Step::File(1, "/w/f/x"),
    Step::Dir("/w/g"),
    Step::File(1, "/w/g/x"),
    Step::Dir("/w/h"),
    Step::File(1, "/w/h/x"),
    Step::Dir("/w/i"),
    Step::File(1, "/w/i/x"),
    Step::Dir("/w/j"),
    Step::File(1, "/w/j/x"),
    Step::Dir("/w/k"),
    Step::File(1, "/w/k/x"),
    Step::Dir("/w/l"),
    Step::File(1, "/w/l/x"),
    Step::Dir("/w/m"),
    Step::File(1, "/w/m/x"),
    Step::Dir("/w/n"),
    Step::File(1, "/w/n/x"),
    Step::Dir("/w/o"),
    Step::File(1, "/w/o/x"),
    Step::Dir("/w/p"),
    Step::File(1, "/w/p/x"),
    Step::Dir("/w/q"),
    Step::File(1, "/w/q/x"),
    Step::Dir("/w/r"),
    Step::File(1, "/w/r/x"),
    Step::Dir("/w/s"),
    Step::File(1, "/w/s/x"),
    Step::Dir("/w/t"),
    Step::File(1, "/w/t/x"),
    Step::Dir("/w/u"),
    Step::File(1, "/w/u/x"),
    Step::Dir("/w/v"),
    Step::File(1, "/w/v/x"),
    Step::Dir("/w/w"),
    Step::File(1, "/w/w/x"),
    Step::Dir("/w/x"),
    Step::File(1, "/w/x/x"),
    Step::Dir("/w/y"),
    Step::File(1, "/w/y/x"),
    Step::Dir("/w/z"),
    Step::File(1, "/w/z/x"),
    Step::Dir("/w/0"),
    Step::File(1, "/w/0/x"),
    Step::Dir("/w/1"),
    Step::File(1, "/w/1/x"),
    Step::Dir("/w/2"),
    Step::File(1, "/w/2/x"),
    Step::Dir("/w/3"),
    Step::File(1, "/w/3/x"),
    Step::Dir("/w/4"),
    Step::File(1, "/w/4/x"),
    Step::Dir("/w/5"),
    Step::File(1, "/w/5/x"),
    Step::Dir("/w/6"),
    Step::File(1, "/w/6/x"),
];

#[test]
fn many_directories_beside_one_another(rt: HostRuntime) {
    const ROWS: &[Row] = &[Row {
        over: Over::Tree(SIBLINGS),
        root: "/w",
        settings: &[],
        answers: "0 d /w; 1 d /w/a; 2 f /w/a/x; 1 d /w/b; 2 f /w/b/x; 1 d /w/c; 2 f /w/c/x; 1 d /w/d; \
                      2 f /w/d/x; 1 d /w/e; 2 f /w/e/x; 1 d /w/f; 2 f /w/f/x; 1 d /w/g; 2 f /w/g/x; 1 d /w/h; \
                      2 f /w/h/x; 1 d /w/i; 2 f /w/i/x; 1 d /w/j; 2 f /w/j/x; 1 d /w/k; 2 f /w/k/x; 1 d /w/l; \
                      2 f /w/l/x; 1 d /w/m; 2 f /w/m/x; 1 d /w/n; 2 f /w/n/x; 1 d /w/o; 2 f /w/o/x; 1 d /w/p; \
                      2 f /w/p/x; 1 d /w/q; 2 f /w/q/x; 1 d /w/r; 2 f /w/r/x; 1 d /w/s; 2 f /w/s/x; 1 d /w/t; \
                      2 f /w/t/x; 1 d /w/u; 2 f /w/u/x; 1 d /w/v; 2 f /w/v/x; 1 d /w/w; 2 f /w/w/x; 1 d /w/x; \
                      2 f /w/x/x; 1 d /w/y; 2 f /w/y/x; 1 d /w/z; 2 f /w/z/x; 1 d /w/0; 2 f /w/0/x; 1 d /w/1; \
                      2 f /w/1/x; 1 d /w/2; 2 f /w/2/x; 1 d /w/3; 2 f /w/3/x; 1 d /w/4; 2 f /w/4/x; 1 d /w/5; \
                      2 f /w/5/x; 1 d /w/6; 2 f /w/6/x",
    }];
    all_hold(&rt, ROWS);
}

#[test]
fn roots_that_have_no_file_name(rt: HostRuntime) {
    const ROWS: &[Row] = &[
        Row {
            over: Over::Tree(&[Step::Dir("/r")]),
            root: ".",
            settings: &[],
            answers: "0 d .; 1 d ./r",
        },
        Row {
            over: Over::Tree(&[Step::Dir("/r")]),
            root: "..",
            settings: &[],
            answers: "0 d ..; 1 d ../r",
        },
        Row {
            over: Over::Tree(&[Step::Dir("/r")]),
            root: "../..",
            settings: &[],
            answers: "0 d ../..; 1 d ../../r",
        },
        Row {
            over: Over::Tree(&[Step::Dir("/r")]),
            root: "/",
            settings: &[],
            answers: "0 d /; 1 d /r",
        },
        Row {
            over: Over::Tree(&[Step::Dir("/a"), Step::File(1, "/a/x")]),
            root: "a/",
            settings: &[],
            answers: "0 d a; 1 f a/x",
        },
    ];
    all_hold(&rt, ROWS);
}

/// The root is a link to a directory.
const LINKED: ListedDirectory<'static> = ListedDirectory {
    path: "/r/a-link",
    file_type: FileType::Symlink,
    target: Some(FileType::Dir),
    items: &[Item::Typed("zzz", FileType::File)],
};

/// The root is a link that leads nowhere.
const BROKEN: ListedDirectory<'static> = ListedDirectory {
    path: "/x",
    file_type: FileType::Symlink,
    target: None,
    items: &[],
};

#[test]
fn roots_that_are_links(rt: HostRuntime) {
    const ROWS: &[Row] = &[
        Row {
            over: Over::Listed(LINKED),
            root: "/r/a-link",
            settings: &[],
            answers: "0 L /r/a-link; 1 f /r/a-link/zzz",
        },
        Row {
            over: Over::Listed(LINKED),
            root: "/r/a-link/",
            settings: &[],
            answers: "0 L /r/a-link; 1 f /r/a-link/zzz",
        },
        Row {
            over: Over::Listed(BROKEN),
            root: "/x/",
            settings: &[],
            answers: "! 0 /x NotFound",
        },
    ];
    all_hold(&rt, ROWS);
}

#[test]
fn errors_stand_where_their_items_were_listed(rt: HostRuntime) {
    const ROWS: &[Row] = &[Row {
        over: Over::Listed(FAULTY),
        root: "/d",
        settings: &[],
        answers: "0 d /d; ! 1 /d/.x PermissionDenied; ! 1 - InvalidData; 1 f /d/b; 1 f /d/a",
    }];
    all_hold(&rt, ROWS);
}
