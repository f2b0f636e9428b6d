//! Options of walks that a crew may read.
use crate::acts::{Act, Going, Scene, first_wrong};
use crate::crewed::{Asked, Reader};
use test_fixtures::trees::FORKED;
use test_fixtures::watched::Failing;
use test_fixtures::ways::Setting;
use test_fixtures::width::Width;

/// A crew of two workers and one place, over the forked directories.
const TWO_WORKERS: Scene = Scene {
    steps: FORKED,
    failing: Failing::Never,
    places: 1,
    workers: 2,
    read_ahead: None,
};

/// The answers of a walk over the forked directories.
const ALL: &str = "0 d /r; 1 d /r/a; 2 d /r/a/x; 1 d /r/b; 2 d /r/b/x; 1 d /r/c; 2 d /r/c/x";

const BY_CREW: Asked<'static> = Asked {
    root: "/r",
    settings: &[],
    reader: Reader::Crew,
    then: &[],
};

/// A walk without a reader set.
const UNTOLD: Asked<'static> = Asked {
    reader: Reader::Untold,
    ..BY_CREW
};

const IN_BATCHES: Asked<'static> = Asked {
    settings: &[Setting::By(Width::Batches(2))],
    ..UNTOLD
};

/// A walk that is told to be serial after the crew was to read.
const SERIAL: Asked<'static> = Asked {
    then: &[Setting::By(Width::Serial)],
    ..BY_CREW
};

/// A walk that has a small depth after the crew was to read.
const SHALLOW_SERIAL: Asked<'static> = Asked {
    then: &[Setting::Max(1)],
    ..BY_CREW
};

/// A walk that has a small depth before the crew is to read.
const TOLD_AGAIN: Asked<'static> = Asked {
    settings: &[Setting::Max(1)],
    ..BY_CREW
};

/// The answers of a walk with a small depth.
const SHALLOW: &str = "0 d /r; 1 d /r/a; 1 d /r/b; 1 d /r/c";

// What a row shows, and the acts.
const ROWS: &[(&str, &[Act<'static>])] = &[
    (
        "a walk takes a place where the crew is to read",
        &[
            Act::Begins(UNTOLD),
            Act::InUse(0),
            Act::Last(Going::Ends(ALL)),
            Act::Begins(BY_CREW),
            Act::InUse(1),
            Act::Last(Going::Ends(ALL)),
            Act::Begins(IN_BATCHES),
            Act::InUse(0),
            Act::Last(Going::Ends(ALL)),
            Act::Begins(SERIAL),
            Act::InUse(0),
            Act::Last(Going::Ends(ALL)),
            Act::InUse(0),
        ],
    ),
    (
        "a small depth makes a walk serial until it is told again",
        &[
            Act::Begins(SHALLOW_SERIAL),
            Act::InUse(0),
            Act::Last(Going::Ends(SHALLOW)),
            Act::Begins(TOLD_AGAIN),
            Act::InUse(1),
            Act::Last(Going::Ends(SHALLOW)),
        ],
    ),
    (
        "a walk without the crew is not busy",
        &[
            Act::Begins(BY_CREW),
            Act::Begins(UNTOLD),
            Act::InUse(1),
            Act::Last(Going::Ends(ALL)),
            Act::Begins(IN_BATCHES),
            Act::InUse(1),
            Act::Last(Going::Ends(ALL)),
        ],
    ),
    (
        "all directories are read ahead",
        &[
            Act::Begins(BY_CREW),
            Act::Last(Going::Ahead(7)),
            Act::Last(Going::Comes(1)),
            Act::Last(Going::Ahead(6)),
            Act::Last(Going::Comes(1)),
            Act::Last(Going::Ahead(5)),
            Act::Last(Going::Comes(1)),
            Act::Last(Going::Ahead(4)),
            Act::Last(Going::Comes(1)),
            Act::Last(Going::Ahead(3)),
            Act::Last(Going::Comes(1)),
            Act::Last(Going::Ahead(2)),
            Act::Last(Going::Comes(1)),
            Act::Last(Going::Ahead(1)),
            Act::Last(Going::Comes(1)),
            Act::Last(Going::Ahead(0)),
            Act::Last(Going::Ends("")),
        ],
    ),
];

#[test]
fn a_walk_takes_a_place_where_the_crew_is_to_read(rt: HostRuntime) {
    for (shown, acts) in ROWS {
        assert_eq!(rt; first_wrong(&rt, &TWO_WORKERS, acts), None, "{shown}");
    }
}
