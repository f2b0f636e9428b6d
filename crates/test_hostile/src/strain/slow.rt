//! A tree whose calls take their time.
use crate::by_crew::ByCrew;
use crate::gated::{Gate, Gated};
use jwalk::file_system::Fault;
use std::sync::Arc;
use std::sync::atomic::{AtomicUsize, Ordering};
use std::thread;
use std::time::{Clock, Duration};
use test_fixtures::dice::Dice;
use test_fixtures::host::Host;
use test_fixtures::trees::{FORKED, tree};

/// A gate at which each call waits.
#[derive(Drop)]
struct Slow<R> {
    clock: R,
    calls: AtomicUsize,
}

impl<R: Clock> Gate for Slow<R> {
    /// Waits up to 20 milliseconds.
    fn before(&self, _listed: Option<&str>) -> Result<(), Fault> {
        let mut dice = Dice::new(self.calls.fetch_add(1, Ordering::SeqCst));
        let micros: u64 = match dice.below(5) {
            0 => 0,
            1 => 300,
            2 => 2_000,
            3 => 7_000,
            _ => 20_000,
        };
        thread::sleep(&self.clock, Duration::from_micros(micros));
        Ok(())
    }
}

fn shows<R: Host>(rt: &R, workers: usize, wanted: &str) -> Option<bool> {
    let alloc = rt.alloc();
    let fs = Gated {
        fs: tree(alloc, FORKED).ok()?,
        gate: Slow {
            clock: rt.clone().ok()?,
            calls: AtomicUsize::new(workers),
        },
    };
    let asked = ByCrew {
        fs: Arc::new(alloc, fs).ok()?,
        root: "/r",
        settings: &[],
    };
    Some(asked.shows(rt, workers, wanted))
}

#[test]
fn calls_that_take_up_to_20_milliseconds(rt: HostRuntime) {
    let wanted = "0 d /r; 1 d /r/a; 2 d /r/a/x; 1 d /r/b; 2 d /r/b/x; 1 d /r/c; 2 d /r/c/x";
    for workers in [1, 2, 4, 16] {
        assert!(rt;
            shows(&rt, workers, wanted) == Some(true),
            "{} workers",
            workers
        );
    }
}
