//! Walks that a crew reads for, where each request for memory is refused, or all from each on.
use crate::by_crew::{Visit, lend};
use crate::refused::rows::{GROUPS, HANDED_ON, MOVED, Row};
use jwalk::entries::Entries;
use jwalk::file_system::{FileSystem, MemoryFs};
use jwalk::read_dir::{NoProcess, ProcessReadDir};
use jwalk::readings::Readings;
use jwalk::{ClientState, Crew, Parallelism, WalkDirGeneric};
use std::alloc::{Allocator, Global};
use std::sync::Arc;
use std::thread;
use std::time::Duration;
use test_fixtures::host::Host;
use test_fixtures::refused::callbacks::Texts;
use test_fixtures::refused::lines::Shown;
use test_fixtures::refused::outcome::{Outcome, goes};
use test_fixtures::refused::turns::MOST;
use test_fixtures::refusing_alloc::Refusing;
use test_fixtures::trees::tree;

/// Memory that lives as long as the process, as a crew's threads may.
type Memory = &'static Refusing<Global>;

/// A visit of a walk that must yield these lines.
#[derive(Drop)]
struct Yields<'a> {
    alloc: Global,
    lines: &'a [&'a str],
    came: Outcome,
}

impl<C: ClientState, A: Allocator + Copy> Visit<C, A> for Yields<'_>
where
    C::DirEntryState: Shown,
{
    fn visit<B: Readings<C, A>>(&mut self, walk: &mut Entries<C, A, B>) -> bool {
        self.came = goes(self.alloc, walk, self.lines);
        true
    }
}

/// Returns how the walk of the row comes out with this callback. It waits until the crew has a place.
fn comes_with<
    R: Host,
    C: ClientState + Send + 'static,
    S: FileSystem + Send + Sync + 'static,
    P: ProcessReadDir<C, A> + Send + Sync + 'static,
    A: Allocator + Copy + Send + Sync + 'static,
>(alloc: Global, memory: A, fs: S, pool: Arc<Crew<R>, A>, row: &Row, process: P) -> Outcome
where
    C::ReadDirState: Send + 'static,
    C::DirEntryState: Shown + Send + 'static,
    requires { P.IsLawful process }
{
    let Ok(root) = String::from_str(memory, row.root) else {
        return Outcome::Refused(0);
    };
    let by_crew = Parallelism::RayonExistingPool {
        pool,
        busy_timeout: None,
    };
    let walk = WalkDirGeneric::<C, S, NoProcess, A, Crew<R>>::with_crew(fs, root)
        .sort(true)
        .follow_links(row.follow)
        .parallelism(by_crew);
    let mut yields = Yields {
        alloc,
        lines: row.lines,
        came: Outcome::Wrong,
    };
    match lend(walk.process_read_dir(process), &mut yields) {
        Ok(_) => yields.came,
        // A crew of which no thread could be started is busy.
        Err(error) if error.is_memory() || error.is_busy() => Outcome::Refused(0),
        Err(_) => Outcome::Wrong,
    }
}

/// Returns how the walk of the row comes out with its callback.
fn comes<
    R: Host,
    S: FileSystem + Send + Sync + 'static,
    A: Allocator + Copy + Send + Sync + 'static,
>(alloc: Global, memory: A, fs: S, pool: Arc<Crew<R>, A>, row: &Row) -> Outcome {
    match row.callback {
        Some(callback) => comes_with::<R, Texts<A>, _, _, _>(
            alloc, memory, fs, pool, row, callback,
        ),
        None => comes_with::<R, ((), ()), _, _, _>(alloc, memory, fs, pool, row, NoProcess),
    }
}

/// Returns whether within two seconds at most that many pieces are out.
fn are_back<R: Host>(rt: &R, memory: Memory, before: usize) -> bool {
    for _ in 0..2_000 {
        if memory.pieces() == before {
            return true;
        }
        thread::sleep(rt, Duration::from_millis(1));
    }
    false
}

/// Returns how many requests were refused, of `many` from the request of number `first` on. Returns `None` if the walk
/// came out wrong, if it left a place in use, or if pieces stayed out.
fn refused<R: Host>(
    rt: &R,
    memory: Memory,
    fs: &Arc<MemoryFs>,
    pool: &Arc<Crew<R>, Memory>,
    row: &Row,
    (first, many): (usize, usize),
) -> Option<usize> {
    memory.refuse(0, 0);
    let before = memory.pieces();
    let walked = fs.clone().ok()?;
    let crew = pool.clone().ok()?;
    memory.refuse(first, many);
    let came = comes(rt.alloc(), memory, walked, crew, row);
    let is_free = pool.in_use() == 0;
    let is_right = came != Outcome::Wrong && is_free && are_back(rt, memory, before);
    let refused = memory.refused();
    if is_right && (refused > 0 || came == Outcome::Whole) {
        Some(refused)
    } else {
        None
    }
}

/// Returns how many requests were refused one after another until five walks of the row met no refusal, or `None` if
/// one came out wrong. The memory is for the crew of two, too.
fn plays<R: Host>(rt: &R, row: &Row, many: usize) -> Option<usize> {
    let alloc = rt.alloc();
    let memory: Memory = Box::leak(Box::new(alloc, Refusing::new(alloc)).ok()?);
    let fs = Arc::new(alloc, tree(alloc, row.steps).ok()?).ok()?;
    let pool = Arc::new(memory, Crew::new(rt.clone().ok()?, 1, 2)).ok()?;
    let mut quiet: usize = 0;
    for first in 1..MOST {
        if refused(rt, memory, &fs, &pool, row, (first, many))? > 0 {
            quiet = 0;
        } else {
            quiet = quiet.saturating_add(1);
        }
        if quiet >= 5 {
            return Some(first);
        }
    }
    None
}

/// Refuses each request alone, and all from each on. More than 20 must be met.
#[test]
fn requests_refused_with_a_crew(rt: HostRuntime) {
    for (number, row) in [GROUPS, MOVED, HANDED_ON].iter().enumerate() {
        for many in [1, usize::MAX] {
            let met = plays(&rt, row, many);
            assert!(rt; matches!(met, Some(met) if met > 20), "row {number}");
        }
    }
}
