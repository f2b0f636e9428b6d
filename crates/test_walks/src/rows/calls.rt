//! The number of calls to a file system.
use crate::rows::row::{Over, Row, all_hold};
use test_fixtures::trees::{GROUPED, Step};
use test_fixtures::watched::Calls;
use test_fixtures::ways::Setting;

/// Files, directories, and links to them.
const LINKED: &[Step] = &[
    Step::Dir("/r"),
    Step::File(1, "/r/f"),
    Step::Link("f", "/r/to_f"),
    Step::Dir("/r/s"),
    Step::File(2, "/r/s/x"),
    Step::Link("../f", "/r/s/to_f"),
    Step::Link("..", "/r/s/to_r"),
    Step::Link("s", "/r/to_s"),
    Step::Dir("/r/e"),
];

#[test]
fn no_call_for_what_is_not_followed_or_not_read(rt: HostRuntime) {
    const ROWS: &[Row] = &[
        Row {
            over: Over::Asking(
                LINKED,
                Calls {
                    lists: 3,
                    looks: 1,
                    follows: 0,
                },
            ),
            root: "/r",
            settings: &[],
            answers: "0 d /r; 1 f /r/f; 1 L /r/to_f; 1 d /r/s; 2 f /r/s/x; 2 L /r/s/to_f; \
                      2 L /r/s/to_r; 1 L /r/to_s; 1 d /r/e",
        },
        Row {
            over: Over::Asking(
                GROUPED,
                Calls {
                    lists: 1,
                    looks: 1,
                    follows: 0,
                },
            ),
            root: "/t",
            settings: &[Setting::Max(1)],
            answers: "0 d /t; 1 f /t/c.txt; 1 f /t/a.txt; 1 d /t/group 2; 1 d /t/group 1; \
                      1 f /t/b.txt",
        },
    ];
    all_hold(&rt, ROWS);
}
