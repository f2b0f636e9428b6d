//! Directories without end: each has one directory.
use crate::by_crew::{ByCrew, Takes, lend_alone};
use crate::rows::disk::{At, Disk};
use crate::rows::row::{ROW, Row};
use std::alloc::{AllocError, Global};
use std::sync::Arc;
use test_fixtures::answers::{Answer, are_lines};
use test_fixtures::builders::builder;
use test_fixtures::host::Host;
use test_fixtures::resting::rests;
use test_fixtures::ways::Setting;

/// A disk where each directory has one directory.
const ENDLESS: &[At] = &[At::Endless];

/// Walks that end at a greatest depth.
pub const ROWS: &[Row] = &[Row {
    name: "a greatest depth ends an endless walk",
    places: ENDLESS,
    root: "/",
    settings: &[Setting::Max(3)],
    answers: "0 d /; 1 d /d; 2 d /d/d; 3 d /d/d/d",
    lists: Some(3),
    ..ROW
}];

/// Each must be deeper than the one before.
fn are_a_hundred(found: &[Answer]) -> bool {
    for (depth, answer) in found.iter().enumerate() {
        if !matches!(answer, Ok(entry) if entry.depth() == depth) {
            return false;
        }
    }
    found.len() == 100
}

fn gives_a_hundred(alloc: Global) -> Result<bool, AllocError> {
    let fs = Disk::new(ENDLESS);
    let mut first = Takes {
        count: Some(100),
        found: Vec::new(alloc),
    };
    let are_taken = lend_alone(builder(alloc, &fs, "/")?, &mut first);
    Ok(are_taken && are_a_hundred(first.found.as_slice()))
}

#[test]
fn a_hundred_answers_of_an_endless_walk(rt: HostRuntime) {
    assert!(rt; gives_a_hundred(rt.alloc()) == Ok(true));
}

/// Drops the walk of a crew of two after them. No directory may be listed any more soon after.
fn first_of_crew<R: Host>(rt: &R, count: usize) -> Result<Vec<Answer>, AllocError> {
    let asked = ByCrew {
        fs: Arc::new(rt.alloc(), Disk::new(ENDLESS))?,
        root: "/",
        settings: &[],
    };
    let mut first = Takes {
        count: Some(count),
        found: Vec::new(rt.alloc()),
    };
    let are_taken = asked.lend_by(rt, 2, &mut first)?;
    if are_taken && rests(rt, &*asked.fs) {
        Ok(first.found)
    } else {
        Err(AllocError)
    }
}

fn rests_after_answers<R: Host>(rt: &R) -> Result<bool, AllocError> {
    let hundred = first_of_crew(rt, 100)?;
    let five = first_of_crew(rt, 5)?;
    let wanted = "0 d /; 1 d /d; 2 d /d/d; 3 d /d/d/d; 4 d /d/d/d/d";
    let are_five = are_lines(rt.alloc(), five.as_slice(), wanted);
    Ok(are_five && are_a_hundred(hundred.as_slice()))
}

#[test]
fn no_listing_after_an_endless_walk_of_a_crew_is_dropped(rt: HostRuntime) {
    assert!(rt; rests_after_answers(&rt) == Ok(true));
}
