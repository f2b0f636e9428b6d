//! Two directories that are read at the same time.
use crate::crewed::{Asked, Reader, Stand, all_by_own};
use jwalk::Crew;
use jwalk::read_dir::NoProcess;
use std::alloc::AllocError;
use test_fixtures::answers::{Answer, are_lines};
use test_fixtures::host::Host;
use test_fixtures::meeting::{Meeting, Place};

/// Who reads.
enum By {
    /// A crew of two workers.
    CrewOfTwo,
    /// This many workers of the walk's own.
    Own(usize),
}

/// The listing of each directory blocks until the other's has begun, too.
fn answers<R: Host>(rt: &R, by: &By, patience: u64) -> Result<Vec<Answer>, AllocError> {
    const WALK: Asked<'static> = Asked {
        root: "/r",
        settings: &[],
        reader: Reader::Crew,
        then: &[],
    };
    let both = Meeting::new(rt.clone()?, Place::Listings, patience);
    match by {
        By::CrewOfTwo => {
            let stand = Stand::over(rt, both, Crew::new(rt.clone()?, 1, 2))?;
            stand.found(&WALK, NoProcess)
        }
        By::Own(workers) => all_by_own(rt, both, "/r", &[], *workers),
    }
}

/// The answers if the two are read at the same time.
const MET: &str = "0 d /r; 1 d /r/a; 2 f /r/a/f; 1 d /r/b; 2 f /r/b/f";

/// The answers if one thread reads both.
const MISSED: &str = "0 d /r; 1 d /r/a ! 1 /r/a Other; 1 d /r/b; 2 f /r/b/f";

// A crew of one thread would yield an error inside the first of the two, and a walk with one worker (the wrong body
// `workers_of_one`) would miss the second.
#[test]
fn crew_of_one_thread(rt: HostRuntime) -> Result<(), AllocError> {
    const ROWS: &[(&str, By, u64, &str)] = &[
        (
            "two workers of a crew read at the same time",
            By::CrewOfTwo,
            5_000,
            MET,
        ),
        (
            "two workers of a walk's own read at the same time",
            By::Own(2),
            5_000,
            MET,
        ),
        (
            "one worker of a walk's own reads one directory at a time",
            By::Own(1),
            20,
            MISSED,
        ),
    ];
    for (shown, by, patience, wanted) in ROWS {
        let found = answers(&rt, by, *patience)?;
        assert!(rt; are_lines(rt.alloc(), found.as_slice(), *wanted), "{shown}");
    }
    Ok(())
}
