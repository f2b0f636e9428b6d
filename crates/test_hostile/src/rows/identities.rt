//! Links that are followed on disks that tell directories apart by numbers, or that don't.
use crate::rows::disk::At;
use crate::rows::disk::Told::{Gone, Nothing, Numbers};
use crate::rows::row::{ROW, Row};
use test_fixtures::ways::Setting;

/// A loop that isn't found ends at the greatest depth.
const LINKS: Row = Row {
    settings: &[Setting::Follow, Setting::Max(6)],
    ..ROW
};

/// Links, on disks whose directories have numbers or none.
pub const ROWS: &[Row] = &[
    Row {
        name: "links in two directories to one another are loops",
        places: &[
            At::Dir("/r", Numbers(1, 1)),
            At::Dir("/r/a", Numbers(1, 2)),
            At::Link("/r/a/l", "../b", Numbers(1, 3)),
            At::Link("/r/a/l/m", "../a", Numbers(1, 2)),
            At::Dir("/r/b", Numbers(1, 3)),
            At::Link("/r/b/m", "../a", Numbers(1, 2)),
            At::Link("/r/b/m/l", "../b", Numbers(1, 3)),
        ],
        answers: "0 d /r; 1 d /r/a; 2 D /r/a/l; ! 3 /r/a/l/m loop /r/a; \
                  1 d /r/b; 2 D /r/b/m; ! 3 /r/b/m/l loop /r/b",
        // Four links, two with two directories above them and two with three.
        asked: 14,
        ..LINKS
    },
    Row {
        name: "a directory above that is gone is told by text",
        places: &[
            At::Dir("/r", Numbers(1, 1)),
            At::Dir("/r/a", Gone),
            At::Link("/r/a/k", ".", Numbers(1, 2)),
            At::Link("/r/a/l", "/s", Numbers(1, 2)),
            At::Link("/r/a/m", "/s", Numbers(1, 1)),
            At::Link("/r/a/n", "..", Numbers(1, 9)),
        ],
        answers: "0 d /r; 1 d /r/a; ! 2 /r/a/k loop /r/a; 2 D /r/a/l; ! 2 /r/a/m loop /r; 2 D /r/a/n",
        asked: 6,
        ..LINKS
    },
    Row {
        name: "two numbers of zero say nothing",
        places: &[
            At::Dir("/r", Numbers(0, 0)),
            At::Link("/r/l", "/s", Numbers(0, 0)),
            At::Link("/r/m", ".", Numbers(0, 1)),
        ],
        answers: "0 d /r; 1 D /r/l; ! 1 /r/m loop /r",
        // Each link, and the directory above for the one whose numbers say something.
        asked: 3,
        ..LINKS
    },
    Row {
        name: "an inode of zero tells a loop on its device alone",
        places: &[
            At::Dir("/r", Numbers(5, 0)),
            At::Link("/r/l", "/s", Numbers(5, 0)),
            At::Link("/r/m", ".", Numbers(6, 0)),
        ],
        answers: "0 d /r; ! 1 /r/l loop /r; 1 D /r/m",
        asked: 3,
        ..LINKS
    },
    Row {
        name: "a root without numbers is told by text",
        places: &[
            At::Dir("/r", Nothing),
            At::Link("/r/l", "/s", Numbers(1, 2)),
            At::Link("/r/m", ".", Numbers(1, 3)),
        ],
        answers: "0 d /r; 1 D /r/l; ! 1 /r/m loop /r",
        asked: 3,
        ..LINKS
    },
    Row {
        name: "links to directories without numbers ask for none above",
        places: &[
            At::Dir("/r", Numbers(1, 1)),
            At::Dir("/r/a", Numbers(1, 2)),
            At::Link("/r/a/k", "/s", Nothing),
            At::Link("/r/a/l", "..", Nothing),
            At::Link("/r/a/m", ".", Nothing),
        ],
        answers: "0 d /r; 1 d /r/a; 2 D /r/a/k; ! 2 /r/a/l loop /r; ! 2 /r/a/m loop /r/a",
        asked: 3,
        ..LINKS
    },
    Row {
        name: "a link to a file asks for none above",
        places: &[
            At::Dir("/r", Numbers(1, 1)),
            At::FileLink("/r/l", "/f", Numbers(1, 1)),
        ],
        answers: "0 d /r; 1 F /r/l",
        asked: 1,
        ..LINKS
    },
    Row {
        name: "directories above are asked for once for four links",
        places: &[
            At::Dir("/r", Numbers(1, 1)),
            At::Dir("/r/a", Numbers(1, 2)),
            At::Link("/r/a/k", "/s", Numbers(1, 7)),
            At::Link("/r/a/l", "/t", Numbers(1, 8)),
            At::Link("/r/a/m", "/u", Numbers(1, 9)),
            At::Link("/r/a/n", "/v", Numbers(1, 1)),
        ],
        answers: "0 d /r; 1 d /r/a; 2 D /r/a/k; 2 D /r/a/l; 2 D /r/a/m; ! 2 /r/a/n loop /r",
        asked: 6,
        ..LINKS
    },
    Row {
        name: "a link whose text alone leads above is followed",
        places: &[
            At::Dir("/r", Numbers(1, 1)),
            At::Link("/r/k", "/s/t", Numbers(1, 3)),
            At::Link("/r/k/l", "..", Numbers(1, 2)),
            At::Dir("/r/k/l/t", Numbers(1, 3)),
            At::Link("/r/k/l/t/l", "..", Numbers(1, 2)),
        ],
        answers: "0 d /r; 1 D /r/k; 2 D /r/k/l; 3 d /r/k/l/t; ! 4 /r/k/l/t/l loop /r/k/l",
        // Three links, with one, two and four directories above them.
        asked: 10,
        ..LINKS
    },
];
