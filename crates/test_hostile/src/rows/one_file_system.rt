//! Walks that stay on one file system, on disks that tell by numbers which device a directory is on, or that don't.
use crate::rows::disk::At;
use crate::rows::disk::Told::{Nothing, Numbers};
use crate::rows::row::{ROW, Row};
use test_fixtures::ways::Setting;

const ONE: Row = Row {
    settings: &[Setting::SameFileSystem, Setting::Max(6)],
    ..ROW
};

const STAY_AND_FOLLOW: &[Setting] = &[Setting::SameFileSystem, Setting::Follow, Setting::Max(6)];

/// A link to a directory on another device, which has a directory on the link's device.
const ROOT_LINK: &[At] = &[
    At::Dir("/", Numbers(1, 1)),
    At::Link("/l", "/s", Numbers(2, 1)),
    At::Dir("/l/a", Numbers(2, 2)),
    At::File("/l/a/x"),
    At::Dir("/l/b", Numbers(1, 2)),
    At::File("/l/b/x"),
];

/// Directories on one device or another, or on none that is known.
pub const ROWS: &[Row] = &[
    Row {
        name: "a directory on another device is yielded and not read",
        places: &[
            At::Dir("/r", Numbers(1, 1)),
            At::Dir("/r/a", Numbers(2, 1)),
            At::File("/r/a/x"),
            At::Dir("/r/b", Numbers(1, 2)),
            At::File("/r/b/x"),
        ],
        answers: "0 d /r; 1 d /r/a; 1 d /r/b; 2 f /r/b/x",
        // Once for each directory that is read.
        asked: 2,
        ..ONE
    },
    Row {
        name: "a directory on another device is read if the walk may leave",
        places: &[
            At::Dir("/r", Numbers(1, 1)),
            At::Dir("/r/a", Numbers(2, 1)),
            At::File("/r/a/x"),
        ],
        settings: &[],
        answers: "0 d /r; 1 d /r/a; 2 f /r/a/x",
        asked: 0,
        ..ONE
    },
    Row {
        name: "a directory on no known device is read and what is known decides below",
        places: &[
            At::Dir("/r", Numbers(1, 1)),
            At::Dir("/r/a", Numbers(1, 2)),
            At::Dir("/r/a/u", Nothing),
            At::Dir("/r/a/u/x", Numbers(2, 1)),
            At::Dir("/r/a/u/x/y", Numbers(3, 1)),
            At::File("/r/a/u/x/y/f"),
            At::Dir("/r/a/u/x/z", Numbers(2, 2)),
            At::File("/r/a/u/x/z/f"),
        ],
        answers: "0 d /r; 1 d /r/a; 2 d /r/a/u; 3 d /r/a/u/x; 4 d /r/a/u/x/y; 4 d /r/a/u/x/z; \
                  5 f /r/a/u/x/z/f",
        asked: 5,
        ..ONE
    },
    Row {
        name: "a root on no known device is read",
        places: &[
            At::Dir("/r", Nothing),
            At::Dir("/r/a", Numbers(2, 1)),
            At::File("/r/a/x"),
        ],
        answers: "0 d /r; 1 d /r/a; 2 f /r/a/x",
        asked: 2,
        ..ONE
    },
    Row {
        name: "a root that is a followed link to another device is read",
        places: ROOT_LINK,
        root: "/l",
        settings: STAY_AND_FOLLOW,
        answers: "0 D /l; 1 d /l/a; 2 f /l/a/x; 1 d /l/b",
        asked: 3,
        ..ONE
    },
    Row {
        name: "a root that is a link to another device is read",
        places: ROOT_LINK,
        root: "/l",
        answers: "0 L /l; 1 d /l/a; 2 f /l/a/x; 1 d /l/b",
        asked: 3,
        ..ONE
    },
    Row {
        name: "a followed link to another device is yielded and not read",
        places: &[
            At::Dir("/r", Numbers(1, 1)),
            At::Link("/r/l", "/s", Numbers(2, 1)),
            At::File("/r/l/x"),
            At::Link("/r/m", "/t", Numbers(1, 2)),
            At::File("/r/m/x"),
        ],
        settings: STAY_AND_FOLLOW,
        answers: "0 d /r; 1 D /r/l; 1 D /r/m; 2 f /r/m/x",
        asked: 5,
        ..ONE
    },
];
