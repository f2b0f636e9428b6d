//! A call of a worker that doesn't return while its walk is dropped.
use crate::by_crew::{ByCrew, Visit, Walk};
use crate::gated::{Gate, Gated};
use jwalk::Crew;
use jwalk::file_system::Fault;
use jwalk::readings::Readings;
use std::alloc::{AllocError, Global};
use std::sync::Arc;
use std::sync::atomic::{AtomicBool, Ordering};
use std::thread;
use std::time::{Clock, Duration};
use test_fixtures::host::Host;
use test_fixtures::trees::{FORKED, tree};

/// A gate at which the call for one directory blocks until it is let go.
#[derive(Drop)]
struct Stuck<R> {
    clock: R,
    is_stuck: AtomicBool,
    is_let_go: AtomicBool,
}

/// Waits up to some seconds.
fn is_set(clock: &impl Clock, flag: &AtomicBool) -> bool {
    for _ in 0..10_000 {
        if flag.load(Ordering::SeqCst) {
            return true;
        }
        thread::sleep(clock, Duration::from_millis(1));
    }
    false
}

impl<R: Clock> Gate for Stuck<R> {
    fn before(&self, listed: Option<&str>) -> Result<(), Fault> {
        if listed == Some("/r/c") {
            self.is_stuck.store(true, Ordering::SeqCst);
            is_set(&self.clock, &self.is_let_go);
        }
        Ok(())
    }
}

/// A visit that takes an answer, and then waits until the call that reads ahead blocks.
#[derive(Drop)]
struct Sticks<'a, R: Drop> {
    gate: &'a Stuck<R>,
}

impl<R: Clock + Drop> Visit<((), ()), Global> for Sticks<'_, R> {
    fn visit<B: Readings<((), ()), Global>>(&mut self, walk: &mut Walk<B>) -> bool {
        let is_begun = matches!(walk.next(), Some(Ok(_)));
        is_begun && is_set(&self.gate.clock, &self.gate.is_stuck)
    }
}

fn is_free_after<R: Host>(
    alloc: Global,
    asked: &ByCrew<'_, Gated<Stuck<R>>>,
    pool: &Arc<Crew<R>>,
) -> Result<bool, AllocError> {
    let gate = &asked.fs.gate;
    let mut sticks = Sticks { gate };
    let was_stuck = asked.lend(alloc, pool.clone()?, &mut sticks)?;
    let is_free = pool.in_use() == 0 && !gate.is_let_go.load(Ordering::SeqCst);
    gate.is_let_go.store(true, Ordering::SeqCst);
    Ok(was_stuck && is_free)
}

/// The walk is dropped while a call that reads ahead blocks. Its place must be free then.
fn is_dropped<R: Host>(rt: &R) -> Option<bool> {
    let alloc = rt.alloc();
    let fs = Gated {
        fs: tree(alloc, FORKED).ok()?,
        gate: Stuck {
            clock: rt.clone().ok()?,
            is_stuck: AtomicBool::new(false),
            is_let_go: AtomicBool::new(false),
        },
    };
    let asked = ByCrew {
        fs: Arc::new(alloc, fs).ok()?,
        root: "/r",
        settings: &[],
    };
    let pool = Arc::new(alloc, Crew::new(rt.clone().ok()?, 1, 3)).ok()?;
    is_free_after(alloc, &asked, &pool).ok()
}

#[test]
fn a_walk_is_dropped_while_a_call_of_its_worker_blocks(rt: HostRuntime) {
    assert!(rt; is_dropped(&rt) == Some(true));
}
