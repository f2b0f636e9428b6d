//! Walks over a crew whose workers meet faults.
use crate::acts::{Act, Scene, first_wrong};
use crate::crewed::{Asked, Reader};
use std::io::ErrorKind;
use test_fixtures::trees::{GROUPED, SMALL, Step};
use test_fixtures::watched::Failing;

/// A tree, the root of a walk, where the tree fails, and the walk's answers.
type Row = (&'static [Step], &'static str, Failing, &'static str);

// After each walk, no place may be in use.
#[test]
fn failures_of_workers_told_where_they_are_met(rt: HostRuntime) {
    const ROWS: &[Row] = &[
        (
            SMALL,
            "/r",
            Failing::List("/r", ErrorKind::PermissionDenied),
            "0 d /r ! 0 /r PermissionDenied",
        ),
        (
            SMALL,
            "/r",
            Failing::List("/r/s", ErrorKind::PermissionDenied),
            "0 d /r; 1 f /r/b; 1 d /r/s ! 1 /r/s PermissionDenied; 1 f /r/a",
        ),
        // Memory that runs out ends the walk.
        (
            GROUPED,
            "/t",
            Failing::ListForMemory("/t/group 2"),
            "0 d /t; 1 f /t/c.txt; 1 f /t/a.txt; ! 0 - memory",
        ),
        (GROUPED, "/t", Failing::ListForMemory("/t"), "! 0 - memory"),
        (
            GROUPED,
            "/t",
            Failing::MetadataForMemory("/t"),
            "! 0 - memory",
        ),
    ];
    for (steps, root, failing, answers) in ROWS {
        let scene = Scene {
            steps: *steps,
            failing: *failing,
            places: 1,
            workers: 2,
            read_ahead: None,
        };
        let walk = Asked {
            root: *root,
            settings: &[],
            reader: Reader::Crew,
            then: &[],
        };
        let acts = [Act::Answers(walk, *answers), Act::InUse(0)];
        assert_eq!(rt; first_wrong(&rt, &scene, &acts), None, "{answers}");
    }
}
