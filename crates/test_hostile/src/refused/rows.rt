//! Walks by name, and their answers.
use test_fixtures::refused::callbacks::Callback;
use test_fixtures::trees::{DENIED, GROUPED, LOOPED, Step};

/// A walk by name, and its answers.
#[derive(Clone, Copy)]
pub struct Row {
    pub steps: &'static [Step],
    pub root: &'static str,
    /// Whether links are followed.
    pub follow: bool,
    pub callback: Option<Callback>,
    pub lines: &'static [&'static str],
}

/// Groups of files.
pub const GROUPS: Row = Row {
    steps: GROUPED,
    root: "/t",
    follow: false,
    callback: None,
    lines: &[
        "0 d /t",
        "1 f /t/a.txt",
        "1 f /t/b.txt",
        "1 f /t/c.txt",
        "1 d /t/group 1",
        "2 f /t/group 1/d.txt",
        "1 d /t/group 2",
        "2 f /t/group 2/e.txt",
    ],
};

/// The groups, where the directory of one is moved to a file.
pub const MOVED: Row = Row {
    steps: GROUPED,
    root: "/t",
    follow: false,
    callback: Some(Callback::MovesGroup),
    lines: &[
        "0 d /t",
        "1 f /t/a.txt",
        "1 f /t/b.txt",
        "1 f /t/c.txt",
        "2 f /t/group 1/d.txt",
        "1 d /t/group 1",
        "1 d /t/group 2",
        "2 f /t/group 2/e.txt",
    ],
};

/// The directories alone, each with the name of the directory above it.
pub const HANDED_ON: Row = Row {
    steps: GROUPED,
    root: "/t",
    follow: false,
    callback: Some(Callback::HandsOnNames),
    lines: &["0 d /t", "1 d /t/group 1 with t", "1 d /t/group 2 with t"],
};

/// The groups, one that can't be listed, a loop, and walks with callbacks.
pub const ROWS: &[Row] = &[
    GROUPS,
    MOVED,
    HANDED_ON,
    Row {
        steps: DENIED,
        root: "/t",
        follow: false,
        callback: None,
        lines: &[
            "0 d /t",
            "1 f /t/a.txt",
            "1 f /t/b.txt",
            "1 f /t/c.txt",
            "1 d /t/group 1",
            "2 f /t/group 1/d.txt",
            "1 d /t/group 2 ! PermissionDenied",
        ],
    },
    Row {
        steps: LOOPED,
        root: "/r",
        follow: true,
        callback: None,
        lines: &[
            "0 d /r",
            "1 d /r/a",
            "2 d /r/a/b",
            "3 d /r/a/b/c",
            "! 4 /r/a/b/c/a-link loop /r/a",
        ],
    },
];
