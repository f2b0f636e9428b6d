//! A thousand walks on one crew, and two crews at once.
use crate::by_crew::{ByCrew, CrewWalk, Takes};
use jwalk::file_system::{FileSystem, MemoryFs, RealFs};
use jwalk::read_dir::NoProcess;
use jwalk::{Crew, DirEntryIter, Readers};
use std::alloc::{AllocError, Global};
use std::fs::Files;
use std::sync::Arc;
use std::thread;
use std::time::Duration;
use test_fixtures::answers::{Answer, are_lines};
use test_fixtures::host::Host;
use test_fixtures::trees::{FORKED, tree};

const LINES: &str = "0 d /r; 1 d /r/a; 2 d /r/a/x; 1 d /r/b; 2 d /r/b/x; 1 d /r/c; 2 d /r/c/x";

fn forked(alloc: Global) -> Option<ByCrew<'static, MemoryFs>> {
    Some(ByCrew {
        fs: Arc::new(alloc, tree(alloc, FORKED).ok()?).ok()?,
        root: "/r",
        settings: &[],
    })
}

/// Asks the system for the threads of the process.
fn threads<R: Files + Drop>(alloc: Global, disk: &RealFs<R>) -> Option<usize> {
    Some(disk.read_dir(alloc, "/proc/self/task").ok()?.len())
}

/// Drops a walk after its first answers, which must be entries.
fn is_dropped_after<R: Host>(
    rt: &R,
    asked: &ByCrew<'_, MemoryFs>,
    pool: &Arc<Crew<R>>,
    count: usize,
) -> Result<bool, AllocError> {
    let mut first = Takes {
        count: Some(count),
        found: Vec::new(rt.alloc()),
    };
    let mut are_entries = asked.lend(rt.alloc(), pool.clone()?, &mut first)?;
    for answer in &first.found {
        are_entries &= answer.is_ok();
    }
    Ok(are_entries && first.found.len() == count)
}

/// The walks follow one another on one crew. Each is dropped after 0 to 7 answers.
fn begin_and_drop<R: Host>(rt: &R, walks: usize) -> Option<bool> {
    let asked = forked(rt.alloc())?;
    let pool = Arc::new(rt.alloc(), Crew::new(rt.clone().ok()?, 1, 2)).ok()?;
    for number in 0..walks {
        if is_dropped_after(rt, &asked, &pool, number % 8) != Ok(true) {
            return Some(false);
        }
    }
    Some(pool.in_use() == 0)
}

/// Waits up to some seconds until there are as many threads as at first.
fn leave_no_thread<R: Host + Files>(rt: &R) -> Option<bool> {
    let disk = RealFs::new(rt.clone().ok()?);
    let first = threads(rt.alloc(), &disk)?;
    if !begin_and_drop(rt, 1_000)? {
        return Some(false);
    }
    for _ in 0..5_000 {
        if threads(rt.alloc(), &disk) == Some(first) {
            return Some(true);
        }
        thread::sleep(rt, Duration::from_millis(1));
    }
    Some(false)
}

#[test]
fn a_thousand_walks_on_one_crew_leave_no_thread(rt: HostRuntime) {
    assert!(rt; leave_no_thread(&rt) == Some(true));
}

/// A walk under way that some readers read for.
type WalkBy<S, L> = DirEntryIter<((), ()), Arc<S>, NoProcess, Global, L>;

/// Takes the answers of two walks in turn. Returns whether there was memory for them.
fn take_in_turn<
    S: FileSystem,
    L: Readers<((), ()), Arc<S>, NoProcess, Global>,
    M: Readers<((), ()), Arc<S>, NoProcess, Global>,
>(
    first: &mut WalkBy<S, L>,
    second: &mut WalkBy<S, M>,
    found: &mut (Vec<Answer>, Vec<Answer>),
) -> bool {
    for _ in 0..8 {
        let are_taken = first.fill(1, &mut found.0).is_ok();
        if !are_taken || second.fill(1, &mut found.1).is_err() {
            return false;
        }
    }
    true
}

/// Takes the answers of a walk under way and of a second one in turn.
fn beside<R: Host, L: Readers<((), ()), Arc<MemoryFs>, NoProcess, Global>>(
    first: &mut WalkBy<MemoryFs, L>,
    second: CrewWalk<R, MemoryFs>,
    found: &mut (Vec<Answer>, Vec<Answer>),
) -> bool {
    let mut second = second.into_iter();
    take_in_turn(first, &mut second, found)
}

/// Takes the answers of two walks in turn, each on a crew of its own.
fn of_two<R: Host>(
    first: CrewWalk<R, MemoryFs>,
    second: CrewWalk<R, MemoryFs>,
    found: &mut (Vec<Answer>, Vec<Answer>),
) -> bool {
    let mut first = first.into_iter();
    beside(&mut first, second, found)
}

fn both_show<R: Host>(rt: &R) -> Option<bool> {
    let alloc = rt.alloc();
    let asked = forked(alloc)?;
    let one = Arc::new(alloc, Crew::new(rt.clone().ok()?, 1, 2)).ok()?;
    let other = Arc::new(alloc, Crew::new(rt.clone().ok()?, 1, 3)).ok()?;
    let first = asked.builder(alloc, one).ok()?;
    let second = asked.builder(alloc, other).ok()?;
    let mut found = (Vec::new(alloc), Vec::new(alloc));
    let are_taken = of_two(first, second, &mut found);
    let (first, second) = found;
    let are_shown = are_lines(alloc, first.as_slice(), LINES);
    Some(are_taken && are_shown && are_lines(alloc, second.as_slice(), LINES))
}

#[test]
fn two_crews_at_once(rt: HostRuntime) {
    assert!(rt; both_show(&rt) == Some(true));
}
