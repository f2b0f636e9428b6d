//! Runs of the programs.
use crate::programs::clock::Hasty;
use crate::programs::counts::Counts;
use crate::programs::disk::{Disk, Failed, Failing};
use crate::programs::outcome::Outcome;
use crate::programs::output::Output;
use crate::programs::rows::{Program, Row, Scene};
use jwalk::Host as Runtime;
use jwalk::file_system::FileSystem;
use jwalk_ignore::texts::Texts;
use program_parts::errors::Errors;
use seek_search::run::Seek;
use seek_words::screen::Screen as SeekScreen;
use std::alloc::{AllocError, Global};
use std::io::Write;
use std::sync::Arc;
use std::time::Clock;
use tally_run::screen::Screen as TallyScreen;
use test_fixtures::host::Host;
use test_fixtures::texts::texts;
use user_excludes::home::Home;
use walk_text::failure::Failure;

/// A program, and the words in front of those of a row.
#[derive(Clone, Copy)]
pub(crate) struct Way {
    pub(crate) program: Program,
    pub(crate) front: &'static [&'static str],
}

/// What came of a call.
#[derive(Clone, Copy)]
struct Came {
    /// The outcome is that of its row.
    is_right: bool,
    /// The outcome is right if the question failed that was to fail.
    tells: bool,
    /// The number of questions.
    asked: usize,
}

/// Returns the status of a call of `seek` that searches a disk, with a clock.
fn seek<
    'a,
    R: Host,
    K: Clock,
    S: FileSystem + Send + Sync + 'static,
    X: Texts + Send + Sync + 'static,
    W: Write,
>(
    rt: &'a R,
    clock: &'a K,
    disk: S,
    texts: X,
    screen: SeekScreen<'a>,
    words: &[String],
    out: &mut W,
    err: &mut W,
) -> u8 {
    let seek = Seek {
        rt,
        clock,
        cores: 4,
        alloc: rt.alloc(),
        disk,
        texts,
        home: Home {
            home: "/home/u",
            config: "",
        },
        screen,
    };
    seek.run(words, out, &mut Errors::new(err))
}

/// Returns the status of a call over a disk, with a clock. Their types and those of the outputs are parameters, since a
/// call at the types of a test costs the prover many seconds.
fn ran<
    R: Host,
    K: Runtime,
    S: FileSystem + Send + Sync + 'static,
    X: Texts + Send + Sync + 'static,
    W: Write,
>(
    rt: &R,
    clock: &K,
    program: Program,
    (disk, texts): (S, X),
    row: &Row<'_>,
    words: &[String],
    out: &mut W,
    err: &mut W,
) -> u8 {
    let (alloc, screen) = (rt.alloc(), row.screen);
    match program {
        Program::Seek => {
            let screen = SeekScreen {
                is_terminal: screen.is_terminal,
                no_color: true,
                ls_colors: screen.colors,
                columns: None,
            };
            seek(rt, clock, disk, texts, screen, words, out, err)
        }
        Program::Tally => {
            let screen = TallyScreen {
                is_terminal: screen.is_terminal,
                shows_errors: screen.shows_errors,
                width: 80,
            };
            let mut err = Errors::new(err);
            tally_run::run::run(clock, alloc, 4, disk, texts, words, screen, out, &mut err)
        }
        Program::Walk => {
            let (mut input, mut err) = (row.input, Errors::new(err));
            walk_run::run::run(rt, alloc, disk, words, &mut input, out, &mut err)
        }
    }
}

fn words_of(alloc: Global, front: &[&str], call: &str) -> Result<Vec<String>, AllocError> {
    let mut words = texts(alloc, front, &[])?;
    for word in call.split(' ') {
        words.push(String::from_str(alloc, word)?)?;
    }
    Ok(words)
}

/// Returns whether a crew may read for the walk that these words ask for.
fn ask_for_crew(words: &[String]) -> bool {
    for word in words {
        if word.as_str() == "-j3" || word.as_str() == "--crew" {
            return true;
        }
    }
    false
}

fn disk_of(
    alloc: Global,
    scene: &Scene<'_>,
    failing: Failing,
    counts: &Arc<Counts>,
) -> Result<Arc<Disk>, Failure> {
    let disk = Disk::new(alloc, scene.tree, scene.rules, scene.told, failing, counts)?;
    Ok(Arc::new(alloc, disk).map_err(AllocError::from)?)
}

/// Returns whether a call with this outcome is right if a question failed that was to fail.
fn tells(outcome: &Outcome<'_>, row: &Row<'_>, failing: Failing) -> bool {
    match failing {
        Failing::Turn(_, failed) => outcome.tells(row, failed),
        Failing::Never | Failing::At(..) => false,
    }
}

/// Calls a program over a disk. Unless a crew reads, the disk isn't asked once the output has failed.
fn called_over<R: Host, S: FileSystem + Send + Sync + 'static, X: Texts + Send + Sync + 'static>(
    rt: &R,
    way: Way,
    disk: (S, X),
    row: &Row<'_>,
    failing: Failing,
    counts: &Counts,
) -> Result<Came, AllocError> {
    let alloc = rt.alloc();
    let clock = Hasty::new(rt, row.clock)?;
    let words = words_of(alloc, way.front, row.call)?;
    let mut out = Output::taking(alloc, row.takes.0, row.room, counts);
    let mut err = Output::taking(alloc, row.takes.1, usize::MAX, counts);
    let status = ran(
        rt,
        &clock,
        way.program,
        disk,
        row,
        words.as_slice(),
        &mut out,
        &mut err,
    );
    let outcome = Outcome {
        out: out.taken(),
        err: err.taken(),
        status,
        asked: counts.asked(),
    };
    let is_ended = out.is_ended() && (ask_for_crew(words.as_slice()) || !out.is_passed());
    Ok(Came {
        is_right: is_ended && outcome.is(row),
        tells: is_ended && tells(&outcome, row, failing),
        asked: counts.sum(),
    })
}

/// Calls a program over the disk of a scene.
fn called<R: Host>(
    rt: &R,
    way: Way,
    scene: &Scene<'_>,
    row: &Row<'_>,
    failing: Failing,
) -> Result<Came, Failure> {
    let counts = Arc::new(rt.alloc(), Counts::new()).map_err(AllocError::from)?;
    let disk = disk_of(rt.alloc(), scene, failing, &counts)?;
    let disk = (disk.clone()?, disk);
    Ok(called_over(rt, way, disk, row, failing, &counts)?)
}

/// Returns whether a call has the outcome of its row.
pub(crate) fn is_right<R: Host>(
    rt: &R,
    way: Way,
    scene: &Scene<'_>,
    row: &Row<'_>,
) -> Result<bool, Failure> {
    Ok(called(rt, way, scene, row, row.failing)?.is_right)
}

/// More questions than a row asks.
const MOST: usize = 200;

/// Fails the first question, then the second, and so on, up to a call that asks none that fails. Returns whether each
/// outcome is right.
pub(crate) fn are_right_in_turn<R: Host>(
    rt: &R,
    way: Way,
    scene: &Scene<'_>,
    row: &Row<'_>,
    failed: Failed,
) -> Result<bool, Failure> {
    for turn in 0..MOST {
        let came = called(rt, way, scene, row, Failing::Turn(turn, failed))?;
        if turn >= came.asked {
            return Ok(came.is_right);
        }
        if !came.tells {
            return Ok(false);
        }
    }
    Ok(false)
}
