//! Walks that read in turn, where each request for memory is refused, or all from each on.
use crate::refused::goes::Play;
use crate::refused::rows::ROWS;
use test_fixtures::refused::outcome::WAYS;
use test_fixtures::refused::turns::first_wrong;
use test_fixtures::trees::tree;

#[test]
fn each_request_in_turn_and_all_from_each_on(rt: HostRuntime) {
    for (number, row) in ROWS.iter().enumerate() {
        let fs = tree(rt.alloc(), row.steps);
        for (width, call) in WAYS {
            for many in [1, usize::MAX] {
                let wrong = match &fs {
                    Ok(fs) => {
                        let play = Play {
                            fs,
                            row,
                            width: *width,
                            call: *call,
                        };
                        first_wrong(rt.alloc(), many, &play)
                    }
                    Err(_) => Some(0),
                };
                assert_eq!(rt; wrong, None, "row {number}");
            }
        }
    }
}
