//! Walks that are dropped before their end.
use crate::acts::{Act, Going, Scene, first_wrong};
use crate::crewed::{Asked, Reader};
use test_fixtures::trees::{FORKED, Step};
use test_fixtures::watched::Failing;
use test_fixtures::ways::Setting;

const WALK: Asked<'static> = Asked {
    root: "/r",
    settings: &[],
    reader: Reader::Crew,
    then: &[],
};

/// A crew of two workers and one place, over the forked directories.
const TWO_WORKERS: Scene = Scene {
    steps: FORKED,
    failing: Failing::Never,
    places: 1,
    workers: 2,
    read_ahead: None,
};

/// A walk that waits ten milliseconds for a place.
const NEXT: Asked<'static> = Asked {
    reader: Reader::CrewWithin(10),
    ..WALK
};

#[test]
fn the_place_is_given_back_after_any_number_of_answers(rt: HostRuntime) {
    for count in 0..8 {
        let acts = [
            Act::Begins(WALK),
            Act::Last(Going::Comes(count)),
            Act::Last(Going::Drops),
            Act::InUse(0),
            Act::Begins(NEXT),
            Act::Last(Going::Comes(7)),
        ];
        assert_eq!(rt;
            first_wrong(&rt, &TWO_WORKERS, &acts),
            None,
            "after {count} answers"
        );
    }
}

// Once the long walk is dropped, its workers list nothing more.
#[test]
fn readers_outlive_the_walk(rt: HostRuntime) {
    // Each link leads to two others that lead back, more than 2^39 times in all.
    const SCENE: Scene = Scene {
        steps: &[
            Step::Dir("/r"),
            Step::Dir("/r/a"),
            Step::Link("../b", "/r/a/l"),
            Step::Link("../b", "/r/a/m"),
            Step::Dir("/r/b"),
            Step::Link("../a", "/r/b/l"),
            Step::Link("../a", "/r/b/m"),
        ],
        ..TWO_WORKERS
    };
    const FOLLOWED: Asked<'static> = Asked {
        settings: &[Setting::Follow],
        ..WALK
    };
    const ACTS: &[Act<'static>] = &[
        Act::Begins(FOLLOWED),
        Act::Last(Going::Comes(5)),
        Act::Last(Going::Drops),
        Act::Rests,
        Act::InUse(0),
    ];
    assert_eq!(rt; first_wrong(&rt, &SCENE, ACTS), None);
}
