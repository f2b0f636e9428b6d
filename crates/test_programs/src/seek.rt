//! Calls of `seek` that no rows over a disk can tell: metadata that a disk doesn't keep, outputs that fail, clocks, and
//! disks that are counted or fail.
mod failing;
mod outputs;
mod questions;
mod seen;

use crate::programs::disk::Failed;
use crate::programs::rows::{Asks, Program};
use crate::programs::run::{Way, are_right_in_turn, is_right};
use crate::seek::failing::{ASKING, DENIED, FAILING, GONE, UNSAID};
use crate::seek::outputs::OUTPUTS;
use crate::seek::questions::QUESTIONS;
use crate::seek::seen::SEEN;

/// With one thread alone.
pub(crate) const ALONE: Way = Way {
    program: Program::Seek,
    front: &["seek", "-j1"],
};

/// With three threads.
const THREADED: Way = Way {
    front: &["seek", "-j3"],
    ..ALONE
};

/// A row that counts questions is called with one thread alone.
#[test]
fn calls(rt: HostRuntime) {
    for scenes in [SEEN, OUTPUTS, QUESTIONS, FAILING] {
        for scene in scenes {
            for row in scene.rows {
                let is_alone = is_right(&rt, ALONE, scene, row);
                assert!(rt; is_alone == Ok(true), "seek -j1 {}", row.call);
                if matches!(row.asks, Asks::Any) {
                    let is_threaded = is_right(&rt, THREADED, scene, row);
                    assert!(rt; is_threaded == Ok(true), "seek -j3 {}", row.call);
                }
            }
        }
    }
}

#[test]
fn questions_that_fail_in_turn(rt: HostRuntime) {
    for (scenes, failed) in [
        (ASKING, Failed::Memory),
        (ASKING, DENIED),
        (ASKING, GONE),
        (UNSAID, Failed::Memory),
    ] {
        for scene in scenes {
            for row in scene.rows {
                let are_right = are_right_in_turn(&rt, ALONE, scene, row, failed);
                assert!(rt; are_right == Ok(true), "seek {}", row.call);
            }
        }
    }
}
