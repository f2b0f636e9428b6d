//! Walks that are lent, and walks that a crew reads for, over a file system that the tests look at too.
ghost use Rattle.jwalk.specs.DirEntryIter.{reads_of};
ghost use Rattle.jwalk.specs.WalkDir.{callback_of};

use jwalk::entries::Entries;
use jwalk::file_system::FileSystem;
use jwalk::read_dir::{NoProcess, ProcessReadDir};
use jwalk::readings::Readings;
use jwalk::{ClientState, Crew, Error, Parallelism, WalkDirGeneric};
use std::alloc::{AllocError, Allocator, Global};
use std::sync::Arc;
use test_fixtures::answers::{Answer, are_lines};
use test_fixtures::builders::Builder;
use test_fixtures::host::Host;
use test_fixtures::ways::{Setting, add_in_turn, with_all};

/// A walk that has not begun, for which a crew will read.
pub type CrewWalk<R, S> = WalkDirGeneric<((), ()), Arc<S>, NoProcess, Global, Crew<R>>;

/// A walk under way, whoever reads for it.
pub type Walk<B> = Entries<((), ()), Global, B>;

/// What a test does with a walk under way, whoever reads for it.
pub trait Visit<C: ClientState, A: Allocator + Copy> {
    /// Returns whether the walk went as it must.
    fn visit<B: Readings<C, A>>(&mut self, walk: &mut Entries<C, A, B>) -> bool
        requires { B.can_read (B.base (reads_of walk.old)) };
}

/// Begins a walk, lends it and drops it, or returns why it doesn't begin. A walk over a crew has a long type, so all
/// others are lent one.
pub fn lend<
    R: Host,
    C: ClientState + Send + 'static,
    S: FileSystem + Send + Sync + 'static,
    P: ProcessReadDir<C, A> + Send + Sync + 'static,
    A: Allocator + Copy + Send + Sync + 'static,
>(walk: WalkDirGeneric<C, S, P, A, Crew<R>>, visit: &mut impl Visit<C, A>) -> Result<bool, Error<A>>
where
    C::ReadDirState: Send + 'static,
    C::DirEntryState: Send + 'static,
    requires { P.IsLawful (callback_of walk) }
{
    match walk.try_into_iter() {
        Ok(mut walk) => Ok(visit.visit(&mut walk)),
        Err(error) => Err(error),
    }
}

/// Begins a walk that no crew reads for, lends it and drops it.
pub fn lend_alone<S: FileSystem>(
    walk: Builder<S>,
    visit: &mut impl Visit<((), ()), Global>,
) -> bool {
    let mut walk = walk.into_iter();
    visit.visit(&mut walk)
}

/// A visit that takes answers.
#[derive(Drop)]
pub struct Takes {
    /// The greatest number of answers, or `None` if all are taken, and nothing may come after them.
    pub count: Option<usize>,
    /// The answers.
    pub found: Vec<Answer>,
}

impl Visit<((), ()), Global> for Takes {
    fn visit<B: Readings<((), ()), Global>>(&mut self, walk: &mut Walk<B>) -> bool {
        match self.count {
            Some(count) => walk.fill(count, &mut self.found).is_ok(),
            None => add_in_turn(walk, &mut self.found),
        }
    }
}

/// A walk to make: its file system, its root and its options.
#[derive(Drop)]
pub struct ByCrew<'a, S> {
    /// The file system that the walk reads.
    pub fs: Arc<S>,
    /// The root.
    pub root: &'a str,
    /// The options, set one after another.
    pub settings: &'a [Setting],
}

impl<'a, S: FileSystem + Send + Sync + 'static> ByCrew<'a, S> {
    /// Returns the walk. Workers of this crew read for it.
    pub fn builder<R: Host>(
        &self,
        alloc: Global,
        pool: Arc<Crew<R>>,
    ) -> Result<CrewWalk<R, S>, AllocError> {
        let root = String::from_str(alloc, self.root)?;
        let by_crew = Parallelism::RayonExistingPool {
            pool,
            busy_timeout: None,
        };
        let walk = WalkDirGeneric::with_crew(self.fs.clone()?, root);
        Ok(with_all(walk, self.settings).parallelism(by_crew))
    }

    /// Begins the walk, lends it and drops it. Workers of this crew read for it. Returns `false` if it doesn't begin.
    pub fn lend<R: Host>(
        &self,
        alloc: Global,
        pool: Arc<Crew<R>>,
        visit: &mut impl Visit<((), ()), Global>,
    ) -> Result<bool, AllocError> {
        let visited = lend(self.builder(alloc, pool)?, visit);
        Ok(matches!(visited, Ok(true)))
    }

    /// Does the same with a crew of its own, which has the given number of workers.
    pub fn lend_by<R: Host>(
        &self,
        rt: &R,
        workers: usize,
        visit: &mut impl Visit<((), ()), Global>,
    ) -> Result<bool, AllocError> {
        let pool = Arc::new(rt.alloc(), Crew::new(rt.clone()?, 1, workers))?;
        self.lend(rt.alloc(), pool, visit)
    }

    /// Returns all that the walk yields. A crew of its own reads for it, with the given number of workers. If the walk
    /// doesn't begin, the error is the only answer.
    pub fn found<R: Host, P: ProcessReadDir<((), ()), Global> + Send + Sync + 'static>(
        &self,
        rt: &R,
        process: P,
        workers: usize,
    ) -> Result<Vec<Answer>, AllocError>
        requires { P.IsLawful process }
    {
        let pool = Arc::new(rt.alloc(), Crew::new(rt.clone()?, 1, workers))?;
        let walk = self.builder(rt.alloc(), pool)?.process_read_dir(process);
        let mut takes = Takes {
            count: None,
            found: Vec::new(rt.alloc()),
        };
        match lend(walk, &mut takes) {
            Ok(true) => {}
            Ok(false) => return Err(AllocError),
            Err(error) => takes.found.push(Err(error))?,
        }
        Ok(takes.found)
    }

    /// Returns whether the walk yields these lines when a crew of the given number of workers reads for it.
    pub fn shows<R: Host>(&self, rt: &R, workers: usize, wanted: &str) -> bool {
        match self.found(rt, NoProcess, workers) {
            Ok(found) => are_lines(rt.alloc(), found.as_slice(), wanted),
            Err(_) => false,
        }
    }
}
