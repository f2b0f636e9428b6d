//! Walks that a crew reads for, over a tree.
use jwalk::crew::Session;
use jwalk::file_system::FileSystem;
use jwalk::read_dir::{NoProcess, ProcessReadDir};
use jwalk::{ClientState, Crew, DirEntryIter, Error, Parallelism, WalkDirGeneric};
use std::alloc::{AllocError, Global};
use std::sync::{Arc, Wait};
use std::time::{Clock, Duration};
use test_fixtures::answers::Answer;
use test_fixtures::builders::builder;
use test_fixtures::by_crew::all_by_crew;
use test_fixtures::host::Host;
use test_fixtures::ways::{Setting, with_all};

/// States without a content.
pub type States = ((), ());

/// A walk that has not begun, and that a crew may read for.
type Builder<R, S, C> = WalkDirGeneric<C, Arc<S>, NoProcess, Global, Crew<R>>;

/// A walk under way that a crew may read for.
pub type Walk<R, S> = DirEntryIter<
    States,
    Arc<S>,
    NoProcess,
    Global,
    Session<R, States, Arc<S>, NoProcess>,
>;

/// The reader of a walk.
#[derive(Clone, Copy)]
pub enum Reader {
    /// The default.
    Untold,
    /// The crew. The walk waits until it has a place.
    Crew,
    /// The crew, if it has a place within a number of milliseconds.
    CrewWithin(u64),
}

/// A walk to make: its root in a tree, and its options.
#[derive(Clone, Copy)]
pub struct Asked<'a> {
    /// The root.
    pub root: &'a str,
    /// The options that are set first, one after another.
    pub settings: &'a [Setting],
    /// The reader, set after them.
    pub reader: Reader,
    /// The options that are set after the reader.
    pub then: &'a [Setting],
}

/// A crew, and a file system for its walks.
pub struct Stand<R, S> {
    pub alloc: Global,
    pub crew: Arc<Crew<R>>,
    pub fs: Arc<S>,
}

impl<R: Drop, S: Drop> Drop for Stand<R, S> {
    fn drop(self) {
        let Stand {
            alloc: _,
            crew: _,
            fs: _,
        } = self;
    }
}

impl<R: Wait + Clock + AllocGlobal + Clone + Drop, S: FileSystem> Stand<R, S> {
    /// Returns this crew, over a file system.
    pub fn over(rt: &R, fs: S, crew: Crew<R>) -> Result<Self, AllocError> {
        let alloc = rt.alloc();
        Ok(Stand {
            alloc,
            fs: Arc::new(alloc, fs)?,
            crew: Arc::new(alloc, crew)?,
        })
    }
}

impl<R: Host, S: FileSystem + Send + Sync + 'static> Stand<R, S> {
    fn builder<C: ClientState>(&self, asked: &Asked<'_>) -> Result<Builder<R, S, C>, AllocError> {
        let root = String::from_str(self.alloc, asked.root)?;
        let fs = self.fs.clone()?;
        let pool = self.crew.clone()?;
        let walk = with_all(WalkDirGeneric::with_crew(fs, root), asked.settings);
        let busy_timeout = match asked.reader {
            Reader::Untold => return Ok(with_all(walk, asked.then)),
            Reader::Crew => None,
            Reader::CrewWithin(limit) => Some(Duration::from_millis(limit)),
        };
        let walk = walk.parallelism(Parallelism::RayonExistingPool { pool, busy_timeout });
        Ok(with_all(walk, asked.then))
    }

    /// Begins the walk and appends it to `walks`, or returns why it doesn't begin.
    pub fn begin(&self, asked: &Asked<'_>, walks: &mut Vec<Walk<R, S>>) -> Result<(), Error> {
        if walks.reserve(1).is_err() {
            return Err(Error::memory());
        }
        let Ok(walk) = self.builder(asked) else {
            return Err(Error::memory());
        };
        match walk.try_into_iter() {
            Ok(walk) => {
                walks.push_reserved(walk);
                Ok(())
            }
            Err(error) => Err(error),
        }
    }

    /// Returns all that the walk yields with a callback.
    pub fn found<
        C: ClientState + Send + 'static,
        P: ProcessReadDir<C, Global> + Send + Sync + 'static,
    >(&self, asked: &Asked<'_>, process: P) -> Result<Vec<Answer<C>>, AllocError>
    where
        C::ReadDirState: Send + 'static,
        C::DirEntryState: Send + 'static,
        requires { P.IsLawful process }
    {
        let walk = self.builder(asked)?.process_read_dir(process);
        all_by_crew(self.alloc, walk)
    }
}

/// Returns all that a walk yields, for which this number of workers of its own read.
pub fn all_by_own<R: Host, S: FileSystem + Send + Sync + 'static>(
    rt: &R,
    fs: S,
    root: &str,
    settings: &[Setting],
    workers: usize,
) -> Result<Vec<Answer>, AllocError> {
    // The type of the file system is that of the walks over a stand.
    let fs = Arc::new(rt.alloc(), fs)?;
    let walk = with_all(builder(rt.alloc(), fs, root)?, settings);
    all_by_crew(rt.alloc(), walk.workers(rt, workers)?)
}
