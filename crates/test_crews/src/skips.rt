//! What is read, and waited for, of what is skipped.
use crate::acts::{Act, Going, Scene, first_wrong};
use crate::blocking::Blocking;
use crate::crewed::{Asked, Reader, Stand};
use jwalk::Crew;
use std::alloc::AllocError;
use test_fixtures::host::Host;
use test_fixtures::trees::{FORKED, Step, tree};
use test_fixtures::watched::Failing;
use test_fixtures::ways::Setting;
use test_fixtures::width::Width;

/// A crew of two workers and one place, over the forked directories.
const TWO_WORKERS: Scene = Scene {
    steps: FORKED,
    failing: Failing::Never,
    places: 1,
    workers: 2,
    read_ahead: None,
};

const BY_CREW: Asked<'static> = Asked {
    root: "/r",
    settings: &[],
    reader: Reader::Crew,
    then: &[],
};

const SERIAL: Asked<'static> = Asked {
    reader: Reader::Untold,
    ..BY_CREW
};

const IN_BATCHES: Asked<'static> = Asked {
    settings: &[Setting::By(Width::Batches(2))],
    ..SERIAL
};

/// The answers behind `/r/a` where what is below it is skipped.
const LEFT: &str = "1 d /r/b; 2 d /r/b/x; 1 d /r/c; 2 d /r/c/x";

// What a row shows, and the acts.
const ROWS: &[(&str, &[Act<'static>])] = &[
    (
        "a serial walk reads nothing of what it skips",
        &[
            Act::Begins(SERIAL),
            Act::Last(Going::Comes(2)),
            Act::Last(Going::Skips),
            Act::Lists(2),
            Act::Last(Going::Ends(LEFT)),
            Act::Lists(6),
        ],
    ),
    (
        "the root alone was read where all below it is skipped",
        &[
            Act::Begins(SERIAL),
            Act::Last(Going::Comes(1)),
            Act::Last(Going::Skips),
            Act::Last(Going::Skips),
            Act::Last(Going::Ends("")),
            Act::Lists(1),
        ],
    ),
    (
        "a batch has nothing of what is skipped",
        &[
            Act::Begins(IN_BATCHES),
            Act::Last(Going::Comes(2)),
            Act::Lists(3),
            Act::Last(Going::Ahead(1)),
            Act::Last(Going::Skips),
            Act::Last(Going::Ends(LEFT)),
            Act::Lists(6),
        ],
    ),
    (
        "what was read ahead is dropped where it is skipped",
        &[
            Act::Begins(IN_BATCHES),
            Act::Last(Going::Comes(3)),
            Act::Last(Going::Ahead(2)),
            Act::Last(Going::Comes(1)),
            Act::Last(Going::Ahead(1)),
            Act::Last(Going::Skips),
            Act::Last(Going::Ahead(0)),
            Act::Last(Going::Ends("1 d /r/c; 2 d /r/c/x")),
        ],
    ),
    (
        "a crew hands on nothing of what is skipped",
        &[
            Act::Begins(BY_CREW),
            Act::Last(Going::Comes(2)),
            Act::Last(Going::Skips),
            Act::Last(Going::Ends(LEFT)),
            Act::Rests,
            Act::InUse(0),
        ],
    ),
    (
        "nothing is ahead where a crew read all that is skipped",
        &[
            Act::Begins(BY_CREW),
            Act::Last(Going::Comes(1)),
            Act::Last(Going::Ahead(6)),
            Act::Last(Going::Skips),
            Act::Last(Going::Ahead(0)),
            Act::Last(Going::Ends("")),
            Act::Lists(7),
        ],
    ),
];

#[test]
fn what_is_read_of_what_is_skipped(rt: HostRuntime) {
    for (shown, acts) in ROWS {
        assert_eq!(rt; first_wrong(&rt, &TWO_WORKERS, *acts), None, "{shown}");
    }
}

/// Two directories, one of them with one more.
const BESIDE: &[Step] = &[
    Step::Dir("/r"),
    Step::Dir("/r/p"),
    Step::Dir("/r/p/a"),
    Step::Dir("/r/q"),
];

/// Returns whether what is beside comes, and the walk ends, while what is skipped is still listed.
fn comes_while_listed<R: Host>(rt: &R) -> Result<bool, AllocError> {
    let Ok(fs) = tree(rt.alloc(), BESIDE) else {
        return Ok(false);
    };
    let fs = Blocking::new(rt.clone()?, fs, "/r/p/a");
    let stand = Stand::over(rt, fs, Crew::new(rt.clone()?, 1, 2))?;
    let mut walks = Vec::new(stand.alloc);
    if stand.begin(&BY_CREW, &mut walks).is_err() {
        return Ok(false);
    }
    let Some(walk) = walks.last_mut() else {
        return Ok(false);
    };
    let came = matches!((walk.next(), walk.next()), (Some(Ok(_)), Some(Ok(_))));
    let begins = stand.fs.begins();
    walk.skip_current_dir();
    let beside = matches!(walk.next(), Some(Ok(_)));
    let ended = walk.next().is_none();
    let blocks = !stand.fs.is_over();
    stand.fs.let_go();
    Ok(came && begins && beside && ended && blocks)
}

#[test]
fn nothing_waits_for_what_is_skipped(rt: HostRuntime) {
    assert_eq!(rt; comes_while_listed(&rt), Ok(true));
}
