//! What walks yield with these calls, by rows of `walkdir`'s tests and of what differs from it.
use crate::calls::{Calls, Compared, Kept, Row};
use crate::three_ways::READERS;
use test_fixtures::trees::{DENIED, GROUPED, Step};

/// A tree of `walkdir`'s tests of `sort_by` and of `filter_entry`.
const QUUX: &[Step] = &[
    Step::Dir("/r"),
    Step::Dir("/r/foo"),
    Step::Dir("/r/foo/bar"),
    Step::Dir("/r/foo/bar/baz"),
    Step::Dir("/r/foo/bar/baz/abc"),
    Step::Dir("/r/quux"),
];

/// The tree of the example of `contents_first` in `walkdir`'s documentation.
const FOO: &[Step] = &[
    Step::Dir("/foo"),
    Step::Dir("/foo/abc"),
    Step::File(1, "/foo/abc/qrs"),
    Step::File(1, "/foo/abc/tuv"),
    Step::Dir("/foo/def"),
];

/// A chain of directories, with a link back to the first.
const CHAIN: &[Step] = &[
    Step::Dir("/a"),
    Step::Dir("/a/b"),
    Step::Dir("/a/b/c"),
    Step::Link("/a", "/a/b/c/up"),
];

/// Names of several lengths, and a loop.
const NAMES: &[Step] = &[
    Step::Dir("/r"),
    Step::File(1, "/r/bb"),
    Step::File(3, "/r/a"),
    Step::Dir("/r/ccc"),
    Step::File(1, "/r/ccc/x"),
    Step::File(2, "/r/d"),
    Step::Link("/r", "/r/l"),
];

/// Nothing is dropped, sorted or left unread.
const NONE: Calls = Calls {
    follow_links: false,
    min_depth: 0,
    max_depth: usize::MAX,
    filter_entry: Kept::All,
    sort_by: Compared::Nothing,
    shortest_first: false,
    skipped: &[],
    contents_first: false,
};

/// Contents first, and nothing else.
const CONTENTS_FIRST: Calls = Calls {
    contents_first: true,
    ..NONE
};

const ROWS: &[Row] = &[
    Row {
        steps: NAMES,
        root: "/r",
        calls: NONE,
        answers: "0 d /r; 1 f /r/a; 1 f /r/bb; 1 d /r/ccc; 2 f /r/ccc/x; 1 f /r/d; 1 L /r/l",
    },
    // What isn't kept isn't entered.
    Row {
        steps: QUUX,
        root: "/r",
        calls: Calls {
            filter_entry: Kept::NotNamed("baz"),
            ..NONE
        },
        answers: "0 d /r; 1 d /r/foo; 2 d /r/foo/bar; 1 d /r/quux",
    },
    Row {
        steps: QUUX,
        root: "/r",
        calls: Calls {
            filter_entry: Kept::NotNamed("foo"),
            ..NONE
        },
        answers: "0 d /r; 1 d /r/quux",
    },
    // Unlike in `walkdir`, the root isn't asked about: there this walk yields nothing.
    Row {
        steps: QUUX,
        root: "/r",
        calls: Calls {
            filter_entry: Kept::NotNamed("r"),
            max_depth: 1,
            ..NONE
        },
        answers: "0 d /r; 1 d /r/foo; 1 d /r/quux",
    },
    // Unlike in `walkdir`, what lies above the least depth is asked about: there `e.txt` comes too.
    Row {
        steps: GROUPED,
        root: "/t",
        calls: Calls {
            filter_entry: Kept::NotNamed("group 2"),
            min_depth: 2,
            ..NONE
        },
        answers: "2 f /t/group 1/d.txt",
    },
    // An error is kept.
    Row {
        steps: NAMES,
        root: "/r",
        calls: Calls {
            filter_entry: Kept::Files,
            follow_links: true,
            ..NONE
        },
        answers: "0 d /r; 1 f /r/a; 1 f /r/bb; 1 f /r/d; ! 1 /r/l loop /r",
    },
    Row {
        steps: QUUX,
        root: "/r",
        calls: Calls {
            sort_by: Compared::NamesTurned,
            ..NONE
        },
        answers: "0 d /r; 1 d /r/quux; 1 d /r/foo; 2 d /r/foo/bar; 3 d /r/foo/bar/baz; 4 d /r/foo/bar/baz/abc",
    },
    Row {
        steps: NAMES,
        root: "/r",
        calls: Calls {
            filter_entry: Kept::Files,
            sort_by: Compared::Lengths,
            ..NONE
        },
        answers: "0 d /r; 1 f /r/a; 1 f /r/d; 1 f /r/bb",
    },
    // Names of one length keep their order. Unlike in `walkdir`, the error is last.
    Row {
        steps: NAMES,
        root: "/r",
        calls: Calls {
            follow_links: true,
            shortest_first: true,
            ..NONE
        },
        answers: "0 d /r; 1 f /r/a; 1 f /r/d; 1 f /r/bb; 1 d /r/ccc; 2 f /r/ccc/x; ! 1 /r/l loop /r",
    },
    // Each call is behind the one before it: of one length the last name is first, and what is skipped is yielded.
    Row {
        steps: NAMES,
        root: "/r",
        calls: Calls {
            filter_entry: Kept::NotNamed("d"),
            sort_by: Compared::NamesTurned,
            shortest_first: true,
            skipped: &["ccc"],
            ..NONE
        },
        answers: "0 d /r; 1 L /r/l; 1 f /r/a; 1 f /r/bb; 1 d /r/ccc",
    },
    Row {
        steps: FOO,
        root: "/foo",
        calls: CONTENTS_FIRST,
        answers: "2 f /foo/abc/qrs; 2 f /foo/abc/tuv; 1 d /foo/abc; 1 d /foo/def; 0 d /foo",
    },
    // A root that is a file comes alone, and so does the error of one that is missing.
    Row {
        steps: FOO,
        root: "/foo/abc/qrs",
        calls: CONTENTS_FIRST,
        answers: "0 f /foo/abc/qrs",
    },
    Row {
        steps: FOO,
        root: "/bar",
        calls: CONTENTS_FIRST,
        answers: "! 0 /bar NotFound",
    },
    // An error comes before the directories that it lies in.
    Row {
        steps: CHAIN,
        root: "/a",
        calls: Calls {
            follow_links: true,
            ..CONTENTS_FIRST
        },
        answers: "! 3 /a/b/c/up loop /a; 2 d /a/b/c; 1 d /a/b; 0 d /a",
    },
    // Unlike in `walkdir`, a directory that can't be read is one item, with its error in it.
    Row {
        steps: DENIED,
        root: "/t",
        calls: CONTENTS_FIRST,
        answers: "1 f /t/a.txt; 1 f /t/b.txt; 1 f /t/c.txt; 2 f /t/group 1/d.txt; 1 d /t/group 1; \
                  1 d /t/group 2 ! 1 /t/group 2 PermissionDenied; 0 d /t",
    },
    // Depths count as without the call.
    Row {
        steps: GROUPED,
        root: "/t",
        calls: Calls {
            min_depth: 2,
            ..CONTENTS_FIRST
        },
        answers: "2 f /t/group 1/d.txt; 2 f /t/group 2/.hidden_file.txt; 2 f /t/group 2/e.txt",
    },
    Row {
        steps: GROUPED,
        root: "/t",
        calls: Calls {
            max_depth: 1,
            ..CONTENTS_FIRST
        },
        answers: "1 f /t/a.txt; 1 f /t/b.txt; 1 f /t/c.txt; 1 d /t/group 1; 1 d /t/group 2; 0 d /t",
    },
    // A directory of which all is dropped still comes behind what is beside it.
    Row {
        steps: QUUX,
        root: "/r",
        calls: Calls {
            filter_entry: Kept::NotNamed("bar"),
            sort_by: Compared::NamesTurned,
            ..CONTENTS_FIRST
        },
        answers: "1 d /r/quux; 1 d /r/foo; 0 d /r",
    },
];

#[test]
fn what_walks_yield_in_each_way_of_reading(rt: HostRuntime) {
    for row in ROWS {
        for reader in READERS {
            assert!(rt;
                matches!(row.holds(&rt, *reader), Ok(true)),
                "{reader:?}: {}",
                row.answers
            );
        }
    }
}
