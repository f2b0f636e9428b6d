//! A tree for whose listings no descriptor is left for a while, or for good.
use crate::by_crew::{Takes, lend_alone};
use crate::gated::{Gate, Gated};
use jwalk::file_system::{Fault, FileSystem, Patient};
use std::alloc::{AllocError, Global};
use std::io;
use std::io::ErrorKind;
use std::sync::atomic::{AtomicU64, AtomicUsize, Ordering};
use std::time::{Clock, Duration};
use test_fixtures::answers::are_lines;
use test_fixtures::builders::builder;
use test_fixtures::trees::{SMALL, tree};

/// A clock that doesn't sleep, and adds up the microseconds that it should have slept.
#[derive(Drop)]
struct Slept {
    micros: AtomicU64,
}

impl Clock for Slept {
    fn monotonic(&self) -> io::Result<Duration> {
        Err(io::Error::from(ErrorKind::Unsupported))
    }

    fn since_1970(&self) -> io::Result<Duration> {
        Err(io::Error::from(ErrorKind::Unsupported))
    }

    fn sleep(&self, duration: Duration) {
        let micros = u64::try_from(duration.as_micros()).unwrap_or(u64::MAX);
        self.micros.fetch_add(micros, Ordering::SeqCst);
    }
}

/// A gate that no listing passes, with an error of the system's number, until a number of them were asked for.
#[derive(Drop)]
struct Shut {
    number: i32,
    until: AtomicUsize,
    lists: AtomicUsize,
}

impl Shut {
    /// From now on, the next `count` listings fail.
    fn fail(&self, count: usize) {
        let until = self.lists.load(Ordering::SeqCst).saturating_add(count);
        self.until.store(until, Ordering::SeqCst);
    }
}

impl Gate for Shut {
    fn before(&self, listed: Option<&str>) -> Result<(), Fault> {
        if listed.is_none() {
            return Ok(());
        }
        let before = self.lists.fetch_add(1, Ordering::SeqCst);
        if before < self.until.load(Ordering::SeqCst) {
            return Err(Fault::Io(io::Error::from_raw_os_error(self.number)));
        }
        Ok(())
    }
}

/// The tree behind such a gate.
type Failing = Gated<Shut>;

/// Returns a tree whose listings fail with an error of this number, once they are told to.
fn failing_with(alloc: Global, number: i32) -> Option<Failing> {
    Some(Gated {
        fs: tree(alloc, SMALL).ok()?,
        gate: Shut {
            number,
            until: AtomicUsize::new(0),
            lists: AtomicUsize::new(0),
        },
    })
}

/// The process has as many descriptors as it may have.
const EMFILE: i32 = 24;

/// All processes together have as many descriptors as they may have.
const ENFILE: i32 = 23;

/// The directory may not be read.
const EACCES: i32 = 13;

fn shows_all<S: FileSystem>(alloc: Global, fs: S) -> Result<bool, AllocError> {
    let mut all = Takes {
        count: None,
        found: Vec::new(alloc),
    };
    let are_taken = lend_alone(builder(alloc, fs, "/r")?, &mut all);
    let wanted = "0 d /r; 1 f /r/b; 1 d /r/s; 2 f /r/s/x; 1 f /r/a";
    Ok(are_taken && are_lines(alloc, all.found.as_slice(), wanted))
}

/// The first five listings fail with this number. The walk must sleep meanwhile.
fn is_whole(alloc: Global, number: i32) -> Option<bool> {
    let slept = Slept {
        micros: AtomicU64::new(0),
    };
    let failing = failing_with(alloc, number)?;
    failing.gate.fail(5);
    let is_shown = shows_all(alloc, Patient::new(&failing, &slept)) == Ok(true);
    Some(is_shown && slept.micros.load(Ordering::SeqCst) > 0)
}

/// Returns also how often the listing was tried.
fn tries(alloc: Global, fs: &impl FileSystem, failing: &Failing) -> (bool, usize) {
    let before = failing.gate.lists.load(Ordering::SeqCst);
    let is_listed = fs.read_dir(alloc, "/r").is_ok();
    (
        is_listed,
        failing
            .gate
            .lists
            .load(Ordering::SeqCst)
            .wrapping_sub(before),
    )
}

fn is_patient_once(alloc: Global, fs: &impl FileSystem, failing: &Failing, slept: &Slept) -> bool {
    failing.gate.fail(1_000_000);
    let (is_listed, often) = tries(alloc, fs, failing);
    let micros = slept.micros.load(Ordering::SeqCst);
    let is_over_soon = !is_listed && often > 1 && micros <= 100_000;
    let is_once = tries(alloc, fs, failing) == (false, 1)
        && slept.micros.load(Ordering::SeqCst) == micros;
    failing.gate.fail(0);
    let is_listed_again = tries(alloc, fs, failing) == (true, 1);
    failing.gate.fail(2);
    let is_tried_again = tries(alloc, fs, failing) == (true, 3);
    is_over_soon && is_once && is_listed_again && is_tried_again
}

/// Returns whether one directory is tried for at most 100 milliseconds, the next ones once each, and more often again
/// after one was listed.
fn is_tried_once(alloc: Global, number: i32) -> Option<bool> {
    let slept = Slept {
        micros: AtomicU64::new(0),
    };
    let failing = failing_with(alloc, number)?;
    let fs = Patient::new(&failing, &slept);
    Some(is_patient_once(alloc, &fs, &failing, &slept))
}

fn is_not_tried_again(alloc: Global, number: i32) -> Option<bool> {
    let slept = Slept {
        micros: AtomicU64::new(0),
    };
    let failing = failing_with(alloc, number)?;
    failing.gate.fail(1);
    let fs = Patient::new(&failing, &slept);
    Some(tries(alloc, &fs, &failing) == (false, 1) && slept.micros.load(Ordering::SeqCst) == 0)
}

#[test]
fn no_descriptor_for_a_while_or_for_good(rt: HostRuntime) {
    for number in [EMFILE, ENFILE] {
        assert!(rt; is_whole(rt.alloc(), number) == Some(true), "{number}");
        assert!(rt; is_tried_once(rt.alloc(), number) == Some(true), "{number}");
    }
    assert!(rt; is_not_tried_again(rt.alloc(), EACCES) == Some(true));
}
