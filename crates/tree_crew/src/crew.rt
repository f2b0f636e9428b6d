//! A crew, which serves several walks at once.
ghost use Rattle.std.specs.Prelude.{◌≡◌, min, max, IfOk};
ghost use Rattle.std.specs.Arc.{arc_value};
ghost use Rattle.tree_crew.specs.Crew.{limit_of, workers_of};

use crate::places::Places;
use crate::waiting::Patience;
use std::alloc::{AllocError, Allocator, Global};
use std::sync::atomic::{AtomicUsize, Ordering};
use std::sync::{Arc, Condvar, Mutex, Wait};
use std::time::{Clock, Duration};

/// The most workers that a walk is given.
const MOST_WORKERS: usize = 256;

/// How many readings the workers of a walk make ahead, if nothing else is said.
const READ_AHEAD: usize = 1024;

/// Workers that read ahead for several walks at once. Each walk has the same number of workers of its own.
///
/// How far they read ahead is bounded: they take nothing to read while 1,024 readings of a walk are made and not handed
/// out, or in hand, but for the one that the walk needs next. `with_read_ahead` sets another bound.
pub struct Crew<R> {
    pub(crate) rt: R,
    places: Mutex<Places>,
    freed: Condvar,
    workers: usize,
    read_ahead: usize,
    late: AtomicUsize,
}

impl<R: Drop> Drop for Crew<R> {
    fn drop(self) {
        let Crew {
            rt: _,
            places: _,
            freed: _,
            workers: _,
            read_ahead: _,
            late: _,
        } = self;
    }
}

impl<R: Wait + Clock> Crew<R> {
    /// Returns a crew that serves `places` walks at once, each with up to `workers` threads of its own. 0 counts as 1,
    /// and more than 256 workers count as 256.
    pub fn new(rt: R, places: usize, workers: usize) -> Self
        ensures workers { workers_of result ≡ max 1 (min workers 256) }
        ensures read_ahead { limit_of result ≡ 1024 }
    {
        Crew {
            rt,
            places: Mutex::new(Places::new(places)),
            freed: Condvar::new(),
            workers: workers.clamp(1, MOST_WORKERS),
            read_ahead: READ_AHEAD,
            late: AtomicUsize::new(0),
        }
    }

    /// Returns the same crew, whose workers take nothing to read while this many readings of a walk are ready or in
    /// hand, but for the one that the walk needs next. Once that many are, they go on when half of them are handed out.
    /// A number below that of a walk's workers counts as theirs.
    pub fn with_read_ahead(mut self, readings: usize) -> Self
        ensures workers { workers_of result ≡ workers_of self }
        ensures read_ahead { limit_of result ≡ max readings (workers_of self) }
    {
        self.read_ahead = readings.max(self.workers);
        self
    }

    /// Returns how many walks the crew serves now. It may block for a lock.
    pub fn in_use(&self) -> usize {
        let places = self.places.lock(&self.rt);
        places.in_use()
    }

    /// Returns how often a worker or a walk slept until its turn of 50 milliseconds was over though there was something
    /// to do, and nobody had called it. Any number but 0 is a bug of this crate, unless a session was asked again after
    /// an error.
    pub fn late_wakes(&self) -> usize {
        self.late.load(Ordering::SeqCst)
    }

    pub(crate) fn count_late(&self, late: bool) {
        if late {
            self.late.fetch_add(1, Ordering::SeqCst);
        }
    }

    pub(crate) fn workers(&self) -> usize
        ensures { result ≡ workers_of self.now }
    {
        self.workers
    }

    /// Returns how many readings of a walk may be ready or in hand. The next one may be one more.
    pub(crate) fn read_ahead(&self) -> usize
        ensures { result ≡ limit_of self.now }
    {
        self.read_ahead
    }

    /// Blocks until a place is free, and takes it. Returns false if none was free within the limit, or if there is a
    /// limit and the clock can't be read.
    fn take_place(&self, limit: Option<Duration>) -> bool {
        let patience = Patience::from_now(&self.rt, limit);
        let mut places = self.places.lock(&self.rt);
        for _ in self.rt.forever() {
            if places.take() {
                return true;
            }
            match patience.wait(&self.rt, &self.freed, places) {
                Some(woken) => places = woken,
                None => return false,
            }
        }
        unreachable!()
    }

    fn give_back(&self) {
        let mut places = self.places.lock(&self.rt);
        if places.in_use() > 0 {
            places.give_back();
        }
        drop(places);
        self.freed.notify_one();
    }
}

/// Why a walk over a crew doesn't start.
#[derive(Clone, Copy, Debug, PartialEq, Eq)]
pub enum NotStarted {
    /// No place was free in time, or no worker could be started.
    Busy,
    /// Memory ran out.
    Memory,
}

impl From<AllocError> for NotStarted {
    ghost use Rattle.tree_crew.specs.declared.crew.NotStarted.TheVariants.{Memory};

    ghost from_gives = { λ _ why. why ≡ Memory };

    fn from(_refused: AllocError) -> Self {
        NotStarted::Memory
    }
}

/// A place of a crew, in use until this is dropped. The drop may block for a lock.
pub struct Place<R: Wait + Clock + Drop, A: Allocator + Copy = Global> {
    crew: Arc<Crew<R>, A>,
}

impl<R: Wait + Clock + Drop, A: Allocator + Copy> Drop for Place<R, A> {
    fn drop(self) {
        let Place { crew } = self;
        crew.give_back();
    }
}

impl<R: Wait + Clock + Drop, A: Allocator + Copy> Place<R, A> {
    /// Blocks until a place of the crew is free, and takes it. With a limit it blocks no longer than that.
    ///
    /// # Errors
    ///
    /// `Busy` if no place was free in time, or if there is a limit and the clock can't be read. `Memory` if memory ran
    /// out for sharing the crew.
    pub fn take(crew: &Arc<Crew<R>, A>, busy_timeout: Option<Duration>) -> Result<Self, NotStarted>
        ensures { IfOk result (λ place. arc_value place.crew ≡ arc_value crew.now) }
    {
        let Ok(crew) = crew.clone() else {
            return Err(NotStarted::Memory);
        };
        if crew.take_place(busy_timeout) {
            Ok(Place { crew })
        } else {
            Err(NotStarted::Busy)
        }
    }

    pub(crate) fn crew(&self) -> &Arc<Crew<R>, A>
        ensures { result.now ≡ self.now.crew }
    {
        &self.crew
    }
}
