//! Walks over file systems that fail, or whose names are odd.
use crate::rows::courses::{Course, Seen, all_take};
use crate::rows::row::{Over, Row, all_hold};
use std::io::ErrorKind;
use test_fixtures::listed_directory::MISNAMED;
use test_fixtures::trees::{GROUPED, SMALL};
use test_fixtures::watched::Failing;
use test_fixtures::ways::Setting;
use test_fixtures::width::Width;

#[test]
fn odd_names_are_joined_as_texts(rt: HostRuntime) {
    const ROWS: &[Row] = &[Row {
        over: Over::Listed(MISNAMED),
        root: "/d",
        settings: &[],
        answers: "0 d /d; 1 f /x; 1 f /d/; 1 f /d/a/b",
    }];
    all_hold(&rt, ROWS);
}

#[test]
fn failures_told_where_they_are_met(rt: HostRuntime) {
    const ROWS: &[Row] = &[
        Row {
            over: Over::Failing(SMALL, Failing::List("/r/s", ErrorKind::PermissionDenied)),
            root: "/r",
            settings: &[],
            answers: "0 d /r; 1 f /r/b; 1 d /r/s ! 1 /r/s PermissionDenied; 1 f /r/a",
        },
        // Memory that runs out ends the walk.
        Row {
            over: Over::Failing(GROUPED, Failing::ListForMemory("/t/group 2")),
            root: "/t",
            settings: &[],
            answers: "0 d /t; 1 f /t/c.txt; 1 f /t/a.txt; ! 0 - memory",
        },
        Row {
            over: Over::Failing(GROUPED, Failing::ListForMemory("/t")),
            root: "/t",
            settings: &[],
            answers: "! 0 - memory",
        },
        Row {
            over: Over::Failing(GROUPED, Failing::MetadataForMemory("/t")),
            root: "/t",
            settings: &[],
            answers: "! 0 - memory",
        },
    ];
    all_hold(&rt, ROWS);
}

#[test]
fn memory_runs_out_in_any_reading_of_a_batch(rt: HostRuntime) {
    const COURSES: &[Course] = &[
        Course {
            settings: &[Setting::By(Width::Serial)],
            seen: Seen::Refused(5),
        },
        Course {
            settings: &[Setting::By(Width::Batches(1))],
            seen: Seen::Refused(5),
        },
        Course {
            settings: &[Setting::By(Width::Batches(2))],
            seen: Seen::Refused(3),
        },
        Course {
            settings: &[Setting::By(Width::Batches(8))],
            seen: Seen::Refused(3),
        },
    ];
    let failing = Failing::ListForMemory("/t/group 1");
    all_take(&rt, &(GROUPED, failing, "/t"), COURSES);
}
