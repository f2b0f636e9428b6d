//! Answers taken several at a time.
use crate::rows::courses::{Course, Seen, all_take};
use test_fixtures::trees::GROUPED;
use test_fixtures::watched::Failing;
use test_fixtures::ways::Setting;
use test_fixtures::width::Width;

const SOME: &str = "0 d /t; 1 f /t/a.txt; 1 f /t/b.txt";

const ALL: &str = "0 d /t; 1 f /t/a.txt; 1 f /t/b.txt; 1 f /t/c.txt; 1 d /t/group 1; \
                   2 f /t/group 1/d.txt; 1 d /t/group 2; 2 f /t/group 2/e.txt";

/// The calls for answers.
const THREE: Seen = Seen::Parts(&[(3, 3, SOME), (100, 5, ALL), (100, 0, ALL)]);

// A `fill` that stops early, one directory after another (the wrong body `fill_stops_early`) or by threads, appends
// fewer answers than were asked for.
#[test]
fn answers_in_three_parts_in_turn_and_by_threads(rt: HostRuntime) {
    const COURSES: &[Course] = &[
        Course {
            settings: &[Setting::Sort, Setting::By(Width::Serial)],
            seen: THREE,
        },
        Course {
            settings: &[Setting::Sort, Setting::By(Width::Batches(1))],
            seen: THREE,
        },
        Course {
            settings: &[Setting::Sort, Setting::By(Width::Batches(2))],
            seen: THREE,
        },
        Course {
            settings: &[Setting::Sort, Setting::By(Width::Batches(8))],
            seen: THREE,
        },
    ];
    all_take(&rt, &(GROUPED, Failing::Never, "/t"), COURSES);
}
