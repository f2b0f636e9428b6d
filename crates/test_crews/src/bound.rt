//! The bound on how far a crew reads ahead of a walk.
use crate::acts::{Act, Bound, Going, Scene, first_wrong};
use crate::crewed::{Asked, Reader};
use test_fixtures::trees::Step;
use test_fixtures::watched::Failing;
use test_fixtures::ways::Setting;

/// A crew of two workers that read eight directories ahead, over a root of twenty empty directories.
const BOUNDED: Scene = Scene {
    steps: &[
        Step::Dir("/r"),
        Step::Dir("/r/a"),
        Step::Dir("/r/b"),
        Step::Dir("/r/c"),
        Step::Dir("/r/d"),
        Step::Dir("/r/e"),
        Step::Dir("/r/f"),
        Step::Dir("/r/g"),
        Step::Dir("/r/h"),
        Step::Dir("/r/i"),
        Step::Dir("/r/j"),
        Step::Dir("/r/k"),
        Step::Dir("/r/l"),
        Step::Dir("/r/m"),
        Step::Dir("/r/n"),
        Step::Dir("/r/o"),
        Step::Dir("/r/p"),
        Step::Dir("/r/q"),
        Step::Dir("/r/s"),
        Step::Dir("/r/t"),
        Step::Dir("/r/u"),
    ],
    failing: Failing::Never,
    places: 1,
    workers: 2,
    read_ahead: Some(8),
};

const WALK: Asked<'static> = Asked {
    root: "/r",
    settings: &[Setting::Sort],
    reader: Reader::Crew,
    then: &[],
};

// The workers must read as far ahead as the bound while nobody asks, and no further, also after each answer and a pause.
// If workers took whatever is queued (the wrong body `read_ahead_without_bound`), all 21 would be read at once. The last
// pause is longer than the turn of a sleep: nobody sleeps until a turn is over while there is something to do.
#[test]
fn a_crew_reads_as_far_ahead_as_its_bound(rt: HostRuntime) {
    for pause in [0, 1, 60] {
        let bound = Bound {
            readings: 8,
            answers: 21,
            pause,
        };
        let acts = [
            Act::Begins(WALK),
            Act::Last(Going::Ahead(8)),
            Act::Rests,
            Act::Lists(8),
            Act::Last(Going::Keeps(bound)),
            Act::IsWoken,
        ];
        assert_eq!(rt; first_wrong(&rt, &BOUNDED, &acts), None, "{pause} ms");
    }
}

#[test]
fn a_bound_below_the_number_of_workers_counts_as_that(rt: HostRuntime) {
    for (bound, ahead) in [(0, 2), (1, 2), (3, 3), (usize::MAX, 21)] {
        let scene = Scene {
            read_ahead: Some(bound),
            ..BOUNDED
        };
        let acts = [
            Act::Begins(WALK),
            Act::Rests,
            Act::Last(Going::Ahead(ahead)),
        ];
        assert_eq!(rt; first_wrong(&rt, &scene, &acts), None, "a bound of {bound}");
    }
}
