//! What walks yield with each callback.
use crate::rows::callbacks::callback::{Callback, Change, Kept};
use crate::rows::callbacks::rows::{Callbacks, Row};
use test_fixtures::trees::{GROUPED, Step};
use test_fixtures::ways::WAYS;

/// A directory and a file of the name that is left out for a directory, each beside another.
const TARGETS: &[Step] = &[
    Step::Dir("/r"),
    Step::Dir("/r/target"),
    Step::File(1, "/r/target/x"),
    Step::Dir("/r/a"),
    Step::File(1, "/r/a/target"),
    Step::File(1, "/r/a/b"),
];

/// The names of a file and of two directories.
const THREE: &[&str] = &["a.txt", "group 1", "group 2"];

/// Drops a name from each list.
const NOT_A: Callback = Callback::Keeps(Kept::NotNamed("a.txt"));

/// Cuts each list after two items.
const CUT_AFTER_TWO: Callback = Callback::Makes(Change::Cut(2));

const ROWS: &[Row] = &[
    // Directories that aren't entered.
    Row {
        callbacks: Callbacks::One(Callback::Makes(Change::ClearGroups)),
        steps: GROUPED,
        root: "/t",
        answers: "0 d /t; 1 f /t/a.txt; 1 f /t/b.txt; 1 f /t/c.txt; 1 d /t/group 1; 1 d /t/group 2",
    },
    // Entries that are dropped.
    Row {
        callbacks: Callbacks::One(Callback::Makes(Change::DropGroups)),
        steps: GROUPED,
        root: "/t",
        answers: "0 d /t; 1 f /t/a.txt; 1 f /t/b.txt; 1 f /t/c.txt",
    },
    // A directory that was moved to a file.
    Row {
        callbacks: Callbacks::One(Callback::Makes(Change::MoveGroup)),
        steps: GROUPED,
        root: "/t",
        answers: "0 d /t; 1 f /t/a.txt; 1 f /t/b.txt; 1 f /t/c.txt; 2 f /t/group 1/d.txt; 1 d /t/group 1; \
                  1 d /t/group 2; 2 f /t/group 2/e.txt",
    },
    Row {
        callbacks: Callbacks::One(Callback::Makes(Change::KeepRoot)),
        steps: GROUPED,
        root: "/t",
        answers: "0 d /t",
    },
    // Lists that are turned round.
    Row {
        callbacks: Callbacks::One(Callback::Makes(Change::Turn)),
        steps: GROUPED,
        root: "/t",
        answers: "0 d /t; 1 d /t/group 2; 2 f /t/group 2/e.txt; 1 d /t/group 1; 2 f /t/group 1/d.txt; \
                  1 f /t/c.txt; 1 f /t/b.txt; 1 f /t/a.txt",
    },
    // The callback is called once for a broken root link, with the path of the link's parent.
    Row {
        callbacks: Callbacks::One(Callback::Makes(Change::NoteRoot)),
        steps: &[Step::Link("/nowhere", "/x")],
        root: "/x",
        answers: "! 0 /x NotFound; ! 0 - none",
    },
    // A callback that is refused memory.
    Row {
        callbacks: Callbacks::One(Callback::Makes(Change::RefuseAt(None))),
        steps: GROUPED,
        root: "/t",
        answers: "! 0 - memory",
    },
    Row {
        callbacks: Callbacks::One(Callback::Makes(Change::RefuseAt(Some(0)))),
        steps: GROUPED,
        root: "/t",
        answers: "! 0 - memory",
    },
    Row {
        callbacks: Callbacks::One(Callback::Makes(Change::RefuseAt(Some(1)))),
        steps: GROUPED,
        root: "/t",
        answers: "0 d /t; 1 f /t/a.txt; 1 f /t/b.txt; 1 f /t/c.txt; ! 0 - memory",
    },
    Row {
        callbacks: Callbacks::One(Callback::Skips(THREE)),
        steps: GROUPED,
        root: "/t",
        answers: "0 d /t; 1 f /t/a.txt; 1 f /t/b.txt; 1 f /t/c.txt; 1 d /t/group 1; 1 d /t/group 2",
    },
    // The root is entered, whatever its name is.
    Row {
        callbacks: Callbacks::One(Callback::Skips(THREE)),
        steps: GROUPED,
        root: "/t/group 2",
        answers: "0 d /t/group 2; 1 f /t/group 2/e.txt",
    },
    Row {
        callbacks: Callbacks::One(Callback::Keeps(Kept::FileAtOneNotNamed("b.txt"))),
        steps: GROUPED,
        root: "/t",
        answers: "0 d /t; 1 f /t/a.txt; 1 f /t/c.txt",
    },
    Row {
        callbacks: Callbacks::One(Callback::Keeps(Kept::NoDirNamed("target"))),
        steps: TARGETS,
        root: "/r",
        answers: "0 d /r; 1 d /r/a; 2 f /r/a/b; 2 f /r/a/target",
    },
    // The second callback is given what the first left.
    Row {
        callbacks: Callbacks::Two(NOT_A, CUT_AFTER_TWO),
        steps: GROUPED,
        root: "/t",
        answers: "0 d /t; 1 f /t/b.txt; 1 f /t/c.txt",
    },
    Row {
        callbacks: Callbacks::Two(CUT_AFTER_TWO, NOT_A),
        steps: GROUPED,
        root: "/t",
        answers: "0 d /t; 1 f /t/b.txt",
    },
];

#[test]
fn what_callbacks_leave_of_walks(rt: HostRuntime) {
    for row in ROWS {
        for way in WAYS {
            assert!(rt; row.holds(&rt, *way), "{}", row.answers);
        }
    }
}
