//! Walks with options.
use crate::rows::row::{Over, Row, all_hold};
use jwalk::file_system::FileType;
use std::io::ErrorKind;
use test_fixtures::listed_directory::{FAULTY, Item, ListedDirectory};
use test_fixtures::trees::{DENIED, FORKED, GROUPED};
use test_fixtures::ways::Setting;

#[test]
fn names_in_order(rt: HostRuntime) {
    const ROWS: &[Row] = &[
        Row {
            over: Over::Tree(GROUPED),
            root: "/t",
            settings: &[Setting::Sort],
            answers: "0 d /t; 1 f /t/a.txt; 1 f /t/b.txt; 1 f /t/c.txt; 1 d /t/group 1; \
                      2 f /t/group 1/d.txt; 1 d /t/group 2; 2 f /t/group 2/e.txt",
        },
        Row {
            over: Over::Tree(GROUPED),
            root: "/t",
            settings: &[Setting::Sort, Setting::Hidden],
            answers: "0 d /t; 1 f /t/a.txt; 1 f /t/b.txt; 1 f /t/c.txt; 1 d /t/group 1; \
                      2 f /t/group 1/d.txt; 1 d /t/group 2; 2 f /t/group 2/.hidden_file.txt; \
                      2 f /t/group 2/e.txt",
        },
    ];
    all_hold(&rt, ROWS);
}

#[test]
fn depths(rt: HostRuntime) {
    const ROWS: &[Row] = &[
        Row {
            over: Over::Tree(GROUPED),
            root: "/t",
            settings: &[Setting::Max(0)],
            answers: "0 d /t",
        },
        Row {
            over: Over::Tree(GROUPED),
            root: "/t",
            settings: &[Setting::Max(1)],
            answers: "0 d /t; 1 f /t/c.txt; 1 f /t/a.txt; 1 d /t/group 2; 1 d /t/group 1; \
                      1 f /t/b.txt",
        },
        // The earlier depth wins over the later.
        Row {
            over: Over::Tree(GROUPED),
            root: "/t",
            settings: &[Setting::Sort, Setting::Min(5), Setting::Max(2)],
            answers: "",
        },
        Row {
            over: Over::Tree(GROUPED),
            root: "/t",
            settings: &[Setting::Sort, Setting::Max(2), Setting::Min(5)],
            answers: "2 f /t/group 1/d.txt; 2 f /t/group 2/e.txt",
        },
    ];
    all_hold(&rt, ROWS);
}

#[test]
fn directories_of_directories_from_the_root_and_from_below_it(rt: HostRuntime) {
    const ROWS: &[Row] = &[
        Row {
            over: Over::Tree(FORKED),
            root: "/r",
            settings: &[],
            answers: "0 d /r; 1 d /r/a; 2 d /r/a/x; 1 d /r/b; 2 d /r/b/x; 1 d /r/c; 2 d /r/c/x",
        },
        Row {
            over: Over::Tree(FORKED),
            root: "/r",
            settings: &[Setting::Min(2)],
            answers: "2 d /r/a/x; 2 d /r/b/x; 2 d /r/c/x",
        },
    ];
    all_hold(&rt, ROWS);
}

#[test]
fn a_denied_directory(rt: HostRuntime) {
    const ROWS: &[Row] = &[
        Row {
            over: Over::Tree(DENIED),
            root: "/t",
            settings: &[Setting::Sort],
            answers: "0 d /t; 1 f /t/a.txt; 1 f /t/b.txt; 1 f /t/c.txt; 1 d /t/group 1; \
                      2 f /t/group 1/d.txt; 1 d /t/group 2 ! 1 /t/group 2 PermissionDenied",
        },
        // The directory isn't read at the greatest depth.
        Row {
            over: Over::Tree(DENIED),
            root: "/t",
            settings: &[Setting::Sort, Setting::Max(1)],
            answers: "0 d /t; 1 f /t/a.txt; 1 f /t/b.txt; 1 f /t/c.txt; 1 d /t/group 1; \
                      1 d /t/group 2",
        },
        // Above the least depth, the error is left out with its directory.
        Row {
            over: Over::Tree(DENIED),
            root: "/t",
            settings: &[Setting::Sort, Setting::Min(2)],
            answers: "2 f /t/group 1/d.txt",
        },
    ];
    all_hold(&rt, ROWS);
}

#[test]
fn errors_after_entries_and_whatever_their_depth(rt: HostRuntime) {
    const ROWS: &[Row] = &[
        Row {
            over: Over::Listed(FAULTY),
            root: "/d",
            settings: &[Setting::Sort],
            answers: "0 d /d; 1 f /d/a; 1 f /d/b; ! 1 /d/.x PermissionDenied; ! 1 - InvalidData",
        },
        Row {
            over: Over::Listed(FAULTY),
            root: "/d",
            settings: &[Setting::Sort, Setting::Min(5), Setting::Max(5)],
            answers: "! 1 /d/.x PermissionDenied; ! 1 - InvalidData",
        },
    ];
    all_hold(&rt, ROWS);
}

/// A long listing of names that begin alike. Two have the same name, and two are errors.
const CHAPTERS: ListedDirectory<'static> = ListedDirectory {
    path: "/d",
    file_type: FileType::Dir,
    target: Some(FileType::Dir),
    items: &[
        Item::Typed("log-2026-11-chapter-9", FileType::File),
        Item::Typed("log-2026-11-b", FileType::Other),
        Item::Typed("log-2026-11-chapter-12", FileType::File),
        Item::Typed("log-2026-11-chapter-3", FileType::File),
        Item::Unread(ErrorKind::InvalidData),
        Item::Typed("log-2026-11-chapter-10", FileType::File),
        Item::Typed("log-2026-11-z", FileType::File),
        Item::Typed("log-2026-11-chapter-7", FileType::File),
        Item::Typed("log-2026-11-chapter-1", FileType::File),
        Item::Typed("log-2026-11-chapter-15", FileType::File),
        Item::Typed("log-2026-11-a", FileType::File),
        Item::Typed("log-2026-11-chapter-5", FileType::File),
        Item::Untyped("log-2026-11-0", ErrorKind::PermissionDenied),
        Item::Typed("log-2026-11-chapter-13", FileType::File),
        Item::Typed("log-2026-11-chapter-2", FileType::File),
        Item::Typed("log-2026-11-b", FileType::File),
        Item::Typed("log-2026-11-chapter-8", FileType::File),
        Item::Typed("log-2026-11-chapter-14", FileType::File),
        Item::Typed("log-2026-11-", FileType::File),
        Item::Typed("log-2026-11-chapter-6", FileType::File),
        Item::Typed("log-2026-11-chapter-11", FileType::File),
        Item::Typed("log-2026-11-chapter-4", FileType::File),
    ],
};

#[test]
fn a_long_listing_of_names_that_begin_alike(rt: HostRuntime) {
    const ROWS: &[Row] = &[Row {
        over: Over::Listed(CHAPTERS),
        root: "/d",
        settings: &[Setting::Sort],
        answers: "0 d /d; 1 f /d/log-2026-11-; 1 f /d/log-2026-11-a; 1 o /d/log-2026-11-b; \
                  1 f /d/log-2026-11-b; 1 f /d/log-2026-11-chapter-1; \
                  1 f /d/log-2026-11-chapter-10; 1 f /d/log-2026-11-chapter-11; \
                  1 f /d/log-2026-11-chapter-12; 1 f /d/log-2026-11-chapter-13; \
                  1 f /d/log-2026-11-chapter-14; 1 f /d/log-2026-11-chapter-15; \
                  1 f /d/log-2026-11-chapter-2; 1 f /d/log-2026-11-chapter-3; \
                  1 f /d/log-2026-11-chapter-4; 1 f /d/log-2026-11-chapter-5; \
                  1 f /d/log-2026-11-chapter-6; 1 f /d/log-2026-11-chapter-7; \
                  1 f /d/log-2026-11-chapter-8; 1 f /d/log-2026-11-chapter-9; \
                  1 f /d/log-2026-11-z; ! 1 - InvalidData; ! 1 /d/log-2026-11-0 PermissionDenied",
    }];
    all_hold(&rt, ROWS);
}
