//! Listings that lie: of names that aren't names, and of types that are wrong.
use crate::rows::disk::{At, Told};
use crate::rows::row::{ROW, Row};
use test_fixtures::ways::Setting;

/// Files whose names aren't names of files.
const MISNAMED: &[At] = &[
    At::Dir("/d", Told::Nothing),
    At::Named("/d", "/x"),
    At::Named("/d", ""),
    At::Named("/d", ".."),
    At::Named("/d", "a/b"),
];

/// Names that are none, and a type that is wrong.
pub const ROWS: &[Row] = &[
    Row {
        name: "odd names",
        places: MISNAMED,
        root: "/d",
        answers: "0 d /d; 1 f /x; 1 f /d/; 1 f /d/a/b",
        ..ROW
    },
    Row {
        name: "odd names, hidden or not",
        places: MISNAMED,
        root: "/d",
        settings: &[Setting::Hidden],
        answers: "0 d /d; 1 f /x; 1 f /d/; 1 f /d/..; 1 f /d/a/b",
        ..ROW
    },
    Row {
        name: "a file that is listed as a directory",
        places: &[At::Dir("/d", Told::Nothing), At::Lie("/d/f")],
        root: "/d",
        answers: "0 d /d; 1 d /d/f ! 1 /d/f InvalidInput",
        ..ROW
    },
];
