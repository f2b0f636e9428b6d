//! Walks whose crew is busy, and the number of walks that a crew serves.
use crate::acts::{Act, Going, Scene, first_wrong};
use crate::crewed::{Asked, Reader};
use test_fixtures::trees::{FORKED, GROUPED};
use test_fixtures::watched::Failing;
use test_fixtures::ways::Setting;

/// A crew of one place, with one worker for each walk.
const ONE_PLACE: Scene = Scene {
    steps: GROUPED,
    failing: Failing::Never,
    places: 1,
    workers: 1,
    read_ahead: None,
};

/// A walk that waits for a place without limit.
const PATIENT: Asked<'static> = Asked {
    root: "/t",
    settings: &[],
    reader: Reader::Crew,
    then: &[],
};

/// The same walk from a file.
const PATIENT_FROM_FILE: Asked<'static> = Asked {
    root: "/t/a.txt",
    ..PATIENT
};

/// A walk by name that waits ten milliseconds for a place.
const IMPATIENT: Asked<'static> = Asked {
    root: "/t",
    settings: &[Setting::Sort],
    reader: Reader::CrewWithin(10),
    then: &[],
};

/// The same walk from a file.
const IMPATIENT_FROM_FILE: Asked<'static> = Asked {
    root: "/t/a.txt",
    ..IMPATIENT
};

const TWO_PLACES: Scene = Scene {
    steps: FORKED,
    places: 2,
    ..ONE_PLACE
};

const NO_PLACES: Scene = Scene {
    places: 0,
    workers: 0,
    ..ONE_PLACE
};

/// A walk over the forked directories.
const FORKED_WALK: Asked<'static> = Asked {
    root: "/r",
    ..PATIENT
};

// What a row shows, the crew and its tree, and the acts.
const ROWS: &[(&str, Scene, &[Act<'static>])] = &[
    (
        "while a walk has the place, another one reads no directory, and the place counts as in use",
        ONE_PLACE,
        &[
            Act::Begins(PATIENT),
            Act::IsBusy(IMPATIENT),
            Act::IsRefused(IMPATIENT),
            Act::InUse(1),
            Act::Last(Going::Drops),
            Act::InUse(0),
        ],
    ),
    (
        "a busy crew is told of above the least depth, too",
        ONE_PLACE,
        &[
            Act::Begins(PATIENT),
            Act::IsBusy(Asked {
                settings: &[Setting::Min(1)],
                ..IMPATIENT
            }),
        ],
    ),
    (
        "a walk from a root without a directory takes no place of a busy crew",
        ONE_PLACE,
        &[
            Act::Begins(PATIENT),
            Act::Answers(IMPATIENT_FROM_FILE, "0 f /t/a.txt"),
            Act::IsRefused(IMPATIENT_FROM_FILE),
            Act::Answers(
                Asked {
                    root: "/none",
                    ..IMPATIENT
                },
                "! 0 /none NotFound",
            ),
            Act::Last(Going::Drops),
            Act::InUse(0),
        ],
    ),
    (
        "a root without a directory takes a place",
        ONE_PLACE,
        &[
            Act::Begins(PATIENT_FROM_FILE),
            Act::InUse(1),
            Act::IsRefused(IMPATIENT),
            Act::Last(Going::Drops),
            Act::InUse(0),
        ],
    ),
    (
        "as many walks at once as there are places",
        TWO_PLACES,
        &[
            Act::InUse(0),
            Act::Begins(FORKED_WALK),
            Act::Begins(FORKED_WALK),
            Act::InUse(2),
            Act::IsRefused(Asked {
                reader: Reader::CrewWithin(0),
                ..FORKED_WALK
            }),
            Act::Last(Going::Drops),
            Act::InUse(1),
            Act::Last(Going::Drops),
            Act::InUse(0),
        ],
    ),
    (
        "who waits gets the place that is given back",
        ONE_PLACE,
        &[
            Act::Holds,
            Act::Answers(PATIENT_FROM_FILE, "0 f /t/a.txt"),
            Act::InUse(0),
        ],
    ),
    (
        "no places and no workers count as one",
        NO_PLACES,
        &[
            Act::Begins(PATIENT),
            Act::IsRefused(IMPATIENT),
            Act::Last(Going::Drops),
            Act::Answers(
                Asked {
                    root: "/t/group 1",
                    ..IMPATIENT
                },
                "0 d /t/group 1; 1 f /t/group 1/d.txt",
            ),
        ],
    ),
];

#[test]
fn as_many_walks_at_once_as_there_are_places(rt: HostRuntime) {
    for (shown, scene, acts) in ROWS {
        assert_eq!(rt; first_wrong(&rt, scene, acts), None, "{shown}");
    }
}
