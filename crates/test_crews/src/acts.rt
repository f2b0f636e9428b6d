//! Acts on walks over a crew, one after another.
ghost use Rattle.jwalk.specs.DirEntryIter.{reads_of};

use crate::crewed::{Asked, Stand, States, Walk};
use jwalk::entries::Entries;
use jwalk::file_system::FileSystem;
use jwalk::read_dir::NoProcess;
use jwalk::readings::Readings;
use jwalk::{Crew, DirEntryIter, Readers};
use std::alloc::{AllocError, Global};
use std::sync::Arc;
use std::thread;
use std::time::{Clock, Duration};
use test_fixtures::answers::{Answer, are_lines};
use test_fixtures::host::Host;
use test_fixtures::resting::{CountsLists, rests};
use test_fixtures::trees::{Step, tree};
use test_fixtures::watched::{Failing, Watched};
use test_fixtures::ways::add_in_turn;
use tree_crew::crew::Place;

/// A walk under way, whoever reads for it.
type WalkBy<B> = Entries<States, Global, B>;

/// An act, which may fail.
#[derive(Clone, Copy)]
pub enum Act<'a> {
    /// Begins a walk.
    Begins(Asked<'a>),
    /// Begins a walk, which is refused as the crew is busy.
    IsRefused(Asked<'a>),
    /// Takes all answers of a walk: only that the crew is busy.
    IsBusy(Asked<'a>),
    /// Takes all answers of a walk.
    Answers(Asked<'a>, &'a str),
    /// Goes on with the walk that began last.
    Last(Going<'a>),
    /// Takes a place, which another thread gives back a while later.
    Holds,
    /// Counts the places in use.
    InUse(usize),
    /// Waits some seconds until no directory is listed any more.
    Rests,
    /// Counts the listings that were asked for.
    Lists(usize),
    /// Checks that nobody slept until a turn was over while there was something to do.
    IsWoken,
}

/// How a walk under way goes on.
#[derive(Clone, Copy)]
pub enum Going<'a> {
    /// Waits some seconds until a number of readings are ahead.
    Ahead(usize),
    /// Yields a number of entries.
    Comes(usize),
    /// Skips what is left of a directory.
    Skips,
    /// Keeps this bound up to the walk's end.
    Keeps(Bound),
    /// Yields this and ends.
    Ends(&'a str),
    /// Is dropped.
    Drops,
}

/// A bound on how far a crew reads ahead of a walk.
#[derive(Clone, Copy)]
pub struct Bound {
    /// The number of readings. One more than that may be ahead.
    pub readings: usize,
    /// The number of answers.
    pub answers: usize,
    /// The milliseconds for which nobody asks after each answer.
    pub pause: u64,
}

/// A tree, where it fails, and the places of its crew and the workers of each walk.
#[derive(Clone, Copy)]
pub struct Scene {
    pub steps: &'static [Step],
    pub failing: Failing,
    pub places: usize,
    pub workers: usize,
    /// The readings that workers read ahead, if set.
    pub read_ahead: Option<usize>,
}

/// Without `wanted`, the only answer must be that the crew is busy.
fn are(alloc: Global, found: Result<Vec<Answer>, AllocError>, wanted: Option<&str>) -> bool {
    let Ok(found) = found else {
        return false;
    };
    match (found.as_slice(), wanted) {
        (answers, Some(wanted)) => are_lines(alloc, answers, wanted),
        ([Err(error)], None) => error.is_busy() && error.path().is_none() && error.depth() == 0,
        _ => false,
    }
}

fn comes<B: Readings<States, Global>>(walk: &mut WalkBy<B>, count: usize) -> bool
    requires { B.can_read (B.base (reads_of walk.old)) }
{
    'entries: for _ in 0..count {
        if !matches!(walk.next(), Some(Ok(_))) {
            return false;
        }
    }
    true
}

/// Waits up to some seconds.
fn come_ahead<B: Readings<States, Global>>(
    clock: &impl Clock,
    walk: &WalkBy<B>,
    count: usize,
) -> bool {
    for _ in 0..5_000 {
        if walk.ahead() == count {
            return true;
        }
        thread::sleep(clock, Duration::from_millis(1));
    }
    false
}

/// After each answer, at most one more reading than the bound may be ahead, and no other directory may have been listed
/// than those and the directories of the answers.
fn keeps<B: Readings<States, Global>>(
    clock: &impl Clock,
    fs: &impl CountsLists,
    walk: &mut WalkBy<B>,
    bound: &Bound,
) -> bool
    requires { B.can_read (B.base (reads_of walk.old)) }
{
    let most = bound.readings.saturating_add(1);
    'entries: for answers in 0..bound.answers {
        let is_there = matches!(walk.next(), Some(Ok(_)));
        let may_be_listed = answers.saturating_add(1).saturating_add(most);
        if !is_there || walk.ahead() > most || fs.lists_so_far() > may_be_listed {
            return false;
        }
        thread::sleep(clock, Duration::from_millis(bound.pause));
    }
    walk.next().is_none()
}

fn goes_on<R: Clock + AllocGlobal, B: Readings<States, Global>>(
    rt: &R,
    fs: &impl CountsLists,
    walk: &mut WalkBy<B>,
    going: &Going<'_>,
) -> bool
    requires { B.can_read (B.base (reads_of walk.old)) }
{
    match going {
        Going::Ahead(count) => come_ahead(rt, walk, *count),
        Going::Comes(count) => comes(walk, *count),
        Going::Skips => {
            walk.skip_current_dir();
            true
        }
        Going::Keeps(bound) => keeps(rt, fs, walk, bound),
        Going::Ends(wanted) => {
            let mut found = Vec::new(rt.alloc());
            add_in_turn(walk, &mut found) && are_lines(rt.alloc(), found.as_slice(), *wanted)
        }
        Going::Drops => true,
    }
}

/// A walk that ended, or that is to be dropped, is dropped.
fn last_goes_on<R: Clock + AllocGlobal, S: FileSystem, L: Readers<States, S, NoProcess, Global>>(
    rt: &R,
    fs: &impl CountsLists,
    walks: &mut Vec<DirEntryIter<States, S, NoProcess, Global, L>>,
    going: &Going<'_>,
) -> bool {
    let Some(walk) = walks.last_mut() else {
        return false;
    };
    let is_so = goes_on(rt, fs, walk, going);
    if matches!(going, Going::Ends(_) | Going::Drops) {
        walks.pop();
    }
    is_so
}

/// Another thread gives the place back a while later.
fn holds<R: Host>(rt: &R, crew: &Arc<Crew<R>>) -> Option<()> {
    let clock: R = rt.clone().ok()?;
    let place = Place::take(crew, None).ok()?;
    let holder = thread::spawn(rt, move || {
        thread::sleep(&clock, Duration::from_millis(20));
        drop(place);
    });
    holder.ok()?;
    Some(())
}

/// Returns the walk of an act that takes all answers of a walk, and what these must be, or `None` if only that the crew
/// is busy.
fn all_answers<'a>(act: &Act<'a>) -> Option<(Asked<'a>, Option<&'a str>)> {
    match act {
        Act::Answers(asked, wanted) => Some((*asked, Some(*wanted))),
        Act::IsBusy(asked) => Some((*asked, None)),
        _ => None,
    }
}

/// Takes the acts that need no walk.
fn is_so<R: Host, S: CountsLists>(rt: &R, stand: &Stand<R, S>, act: &Act<'_>) -> bool {
    match act {
        Act::Holds => holds(rt, &stand.crew).is_some(),
        Act::InUse(places) => stand.crew.in_use() == *places,
        Act::Rests => rests(rt, &*stand.fs),
        Act::Lists(count) => stand.fs.lists_so_far() == *count,
        Act::IsWoken => stand.crew.late_wakes() == 0,
        _ => false,
    }
}

fn comes_off<R: Host, S: CountsLists + Send + Sync + 'static>(
    rt: &R,
    stand: &Stand<R, S>,
    walks: &mut Vec<Walk<R, S>>,
    act: &Act<'_>,
) -> bool {
    match act {
        Act::Begins(asked) | Act::IsRefused(asked) => match stand.begin(asked, walks) {
            Ok(()) => matches!(act, Act::Begins(_)),
            Err(error) => matches!(act, Act::IsRefused(_)) && error.is_busy(),
        },
        Act::Last(going) => last_goes_on(rt, &*stand.fs, walks, going),
        _ => match all_answers(act) {
            Some((asked, wanted)) => are(stand.alloc, stand.found(&asked, NoProcess), wanted),
            None => is_so(rt, stand, act),
        },
    }
}

/// Returns the number of the first act that fails.
fn wrong<R: Host, S: CountsLists + Send + Sync + 'static>(
    rt: &R,
    stand: &Stand<R, S>,
    acts: &[Act<'_>],
) -> Option<usize> {
    let mut walks = Vec::new(stand.alloc);
    let mut wrong = None;
    for (number, act) in acts.iter().enumerate() {
        if wrong.is_none() && !comes_off(rt, stand, &mut walks, act) {
            wrong = Some(number);
        }
    }
    wrong
}

fn stand_of<R: Host>(rt: &R, scene: &Scene) -> Option<Stand<R, Watched>> {
    let fs = Watched::new(tree(rt.alloc(), scene.steps).ok()?, scene.failing);
    let crew = Crew::new(rt.clone().ok()?, scene.places, scene.workers);
    let crew = match scene.read_ahead {
        Some(readings) => crew.with_read_ahead(readings),
        None => crew,
    };
    Stand::over(rt, fs, crew).ok()
}

/// Returns the number of the first act that fails over the crew and the tree of a scene, or 0 if these can't be made.
pub fn first_wrong<R: Host>(rt: &R, scene: &Scene, acts: &[Act<'_>]) -> Option<usize> {
    match stand_of(rt, scene) {
        Some(stand) => wrong(rt, &stand, acts),
        None => Some(0),
    }
}
