//! The ways to read one and the same walk.
ghost use Rattle.std.specs.Iterator.{IsFinite};
ghost use Rattle.jwalk.specs.DirEntryIter.{job_of, reads_of};
ghost use Rattle.jwalk.specs.WalkDir.{callback_of};
ghost use Rattle.jwalk.specs.jwalk_job.Job.{callback};

use crate::answers::{Answer, are_lines};
use crate::plain_walk::plain_answers;
use crate::width::Width;
use jwalk::entries::Entries;
use jwalk::file_system::FileSystem;
use jwalk::read_dir::{Job, NoProcess, ProcessReadDir};
use jwalk::readings::Readings;
use jwalk::{ClientState, DirEntryIter, Readers, WalkDirGeneric};
use jwalk_job::options::Options;
use std::alloc::{AllocError, Global};
use std::thread::Threads;

/// An option that differs from the default.
#[derive(Clone, Copy)]
pub enum Setting {
    /// Entries sorted by their names.
    Sort,
    /// Hidden names, too.
    Hidden,
    /// Links are followed.
    Follow,
    /// The walk stays on one file system.
    SameFileSystem,
    /// The least depth.
    Min(usize),
    /// The greatest depth.
    Max(usize),
    /// The way to read directories. The plain walk ignores it.
    By(Width),
}

/// The way to read the directories of a walk.
#[derive(Clone, Copy)]
pub enum Way {
    /// By two stacks, without a board.
    Plain,
    /// By a walk, one after another.
    InTurn(Width),
    /// By a walk, on threads.
    OnThreads(Width),
    /// By a walk, in a `for` loop.
    Looped(Width),
}

impl Way {
    fn width(self) -> Width {
        match self {
            Way::Plain => Width::Serial,
            Way::InTurn(width) => width,
            Way::OnThreads(width) => width,
            Way::Looped(width) => width,
        }
    }
}

/// Each way, with several widths.
pub const WAYS: &[Way] = &[
    Way::Plain,
    Way::InTurn(Width::Serial),
    Way::InTurn(Width::Batches(1)),
    Way::InTurn(Width::Batches(2)),
    Way::InTurn(Width::Batches(8)),
    Way::InTurn(Width::Batches(32)),
    Way::OnThreads(Width::Serial),
    Way::OnThreads(Width::Batches(1)),
    Way::OnThreads(Width::Batches(2)),
    Way::OnThreads(Width::Batches(8)),
    Way::OnThreads(Width::Batches(32)),
    Way::Looped(Width::Batches(2)),
];

fn options_by(settings: &[Setting]) -> Options {
    let mut options = Options::new();
    for setting in settings {
        options = match *setting {
            Setting::Sort => options.with_sort(true),
            Setting::Hidden => options.with_skip_hidden(false),
            Setting::Follow => options.with_follow_links(true),
            Setting::SameFileSystem => options.with_same_file_system(true),
            Setting::Min(depth) => options.with_min_depth(depth),
            Setting::Max(depth) => options.with_max_depth(depth),
            Setting::By(_) => options,
        };
    }
    options
}

type Builder<C, S, W> = WalkDirGeneric<C, S, NoProcess, Global, W>;

fn with<C: ClientState, S: FileSystem, W: Drop>(
    walk: Builder<C, S, W>,
    setting: Setting,
) -> Builder<C, S, W> {
    match setting {
        Setting::Sort => walk.sort(true),
        Setting::Hidden => walk.skip_hidden(false),
        Setting::Follow => walk.follow_links(true),
        Setting::SameFileSystem => walk.same_file_system(true),
        Setting::Min(depth) => walk.min_depth(depth),
        Setting::Max(depth) => walk.max_depth(depth),
        Setting::By(width) => walk.parallelism(width.parallelism()),
    }
}

/// Returns the walk with these settings.
pub fn with_all<C: ClientState, S: FileSystem, W: Drop>(
    walk: Builder<C, S, W>,
    settings: &[Setting],
) -> Builder<C, S, W> {
    let mut walk = walk;
    for setting in settings {
        walk = with(walk, *setting);
    }
    walk
}

/// A walk to make: its root in a file system, and its options.
#[derive(Drop)]
pub struct Asked<'a, S: FileSystem> {
    /// The file system that the walk reads.
    pub fs: &'a S,
    /// The root.
    pub root: &'a str,
    /// The options, set one after another.
    pub settings: &'a [Setting],
}

impl<'a, S: FileSystem> Asked<'a, S> {
    /// Returns the walk, without a callback.
    pub fn builder<C: ClientState>(
        &self,
        alloc: Global,
    ) -> Result<WalkDirGeneric<C, &'a S, NoProcess>, AllocError> {
        let walk = WalkDirGeneric::new(self.fs, String::from_str(alloc, self.root)?);
        Ok(with_all(walk, self.settings))
    }
}

/// The answers of the walk, read in one of the ways.
impl<'a, S: FileSystem + Send + Sync> Asked<'a, S> {
    /// Returns all that the walk yields.
    pub fn found<
        R: Threads + AllocGlobal + Sync,
        C: ClientState + Send,
        P: ProcessReadDir<C, Global> + Send + Sync,
    >(&self, rt: &R, process: P, way: Way) -> Result<Vec<Answer<C>>, AllocError>
    where
        C::ReadDirState: Send,
        C::DirEntryState: Send,
        requires { P.IsLawful process }
    {
        match way {
            Way::Plain => self.found_plainly(rt.alloc(), process),
            _ => self.found_by_a_walk(rt, process, way),
        }
    }

    fn found_plainly<C: ClientState, P: ProcessReadDir<C, Global>>(
        &self,
        alloc: Global,
        process: P,
    ) -> Result<Vec<Answer<C>>, AllocError>
        requires { P.IsLawful process }
    {
        let job = Job::new(alloc, self.fs, process, options_by(self.settings));
        plain_answers(alloc, &job, self.root)
    }

    /// Takes no `Way::Plain`.
    fn found_by_a_walk<
        R: Threads + AllocGlobal + Sync,
        C: ClientState + Send,
        P: ProcessReadDir<C, Global> + Send + Sync,
    >(&self, rt: &R, process: P, way: Way) -> Result<Vec<Answer<C>>, AllocError>
    where
        C::ReadDirState: Send,
        C::DirEntryState: Send,
        requires { P.IsLawful process }
    {
        let walk = self.builder(rt.alloc())?;
        let walk = walk.parallelism(way.width().parallelism());
        way.all_of(rt, walk.process_read_dir(process))
    }

    /// Returns whether the walk yields these lines.
    pub fn shows<
        R: Threads + AllocGlobal + Sync,
        P: ProcessReadDir<((), ()), Global> + Send + Sync,
    >(&self, rt: &R, process: P, way: Way, wanted: &str) -> bool
        requires { P.IsLawful process }
    {
        match self.found(rt, process, way) {
            Ok(found) => are_lines(rt.alloc(), found.as_slice(), wanted),
            Err(_) => false,
        }
    }
}

impl Way {
    /// Returns all that a walk yields.
    fn all_of<
        R: Threads + AllocGlobal + Sync,
        C: ClientState + Send,
        S: FileSystem + Send + Sync,
        P: ProcessReadDir<C, Global> + Send + Sync,
    >(self, rt: &R, walk: WalkDirGeneric<C, S, P>) -> Result<Vec<Answer<C>>, AllocError>
    where
        C::ReadDirState: Send,
        C::DirEntryState: Send,
        requires { P.IsLawful (callback_of walk) }
    {
        let mut walk = walk.into_iter();
        let mut found = Vec::new(rt.alloc());
        if self.add_all(rt, &mut walk, &mut found) {
            Ok(found)
        } else {
            Err(AllocError)
        }
    }

    /// Returns whether there was memory for the answers.
    fn add_all<
        R: Threads + Sync,
        C: ClientState + Send,
        S: FileSystem + Send + Sync,
        P: ProcessReadDir<C, Global> + Send + Sync,
        L: Readers<C, S, P, Global>,
    >(self, rt: &R, walk: &mut DirEntryIter<C, S, P, Global, L>, found: &mut Vec<Answer<C>>) -> bool
    where
        C::ReadDirState: Send,
        C::DirEntryState: Send,
        requires { P.IsLawful (callback (job_of walk.old)) }
    {
        match self {
            Way::OnThreads(_) => add_on_threads(rt, walk, found),
            Way::Plain | Way::InTurn(_) | Way::Looped(_) => self.add_alone(walk, found),
        }
    }

    /// Uses no threads.
    fn add_alone<C: ClientState, B: Readings<C, Global>>(
        self,
        walk: &mut Entries<C, Global, B>,
        found: &mut Vec<Answer<C>>,
    ) -> bool
        requires { B.can_read (B.base (reads_of walk.old)) }
    {
        match self {
            Way::Looped(_) => add_rest(walk, found).is_ok(),
            _ => add_in_turn(walk, found),
        }
    }
}

/// Adds all answers of a walk under way, by calls that use no threads. Returns whether there was memory for them.
pub fn add_in_turn<C: ClientState, B: Readings<C, Global>>(
    walk: &mut Entries<C, Global, B>,
    found: &mut Vec<Answer<C>>,
) -> bool
    requires { B.can_read (B.base (reads_of walk.old)) }
{
    let is_filled = walk.fill(usize::MAX, found).is_ok();
    // Nothing comes after the end.
    is_filled && walk.fill(1, found).is_ok()
}

/// Adds all answers of a walk under way, by calls that use threads. Returns whether there was memory for them.
pub fn add_on_threads<
    R: Threads + Sync,
    C: ClientState + Send,
    S: FileSystem + Send + Sync,
    P: ProcessReadDir<C, Global> + Send + Sync,
    L: Readers<C, S, P, Global>,
>(rt: &R, walk: &mut DirEntryIter<C, S, P, Global, L>, found: &mut Vec<Answer<C>>) -> bool
where
    C::ReadDirState: Send,
    C::DirEntryState: Send,
    requires { P.IsLawful (callback (job_of walk.old)) }
{
    let is_filled = walk.fill_on(rt, usize::MAX, found).is_ok();
    // Nothing comes after the end.
    is_filled && walk.fill_on(rt, 1, found).is_ok()
}

/// Adds all that an iterator still yields, in a loop over it.
pub fn add_rest<C: ClientState, I: Iterator<Item = Answer<C>>>(
    answers: &mut I,
    found: &mut Vec<Answer<C>>,
) -> Result<(), AllocError>
    requires can { I.can_next answers.old }
    requires ends { IsFinite (I.remaining answers.old) }
{
    while let Some(answer) = answers.next() {
        found.push(answer)?;
    }
    Ok(())
}

/// Returns all answers of a walk under way, by calls that use no threads.
pub fn all_of<C: ClientState, B: Readings<C, Global>>(
    alloc: Global,
    mut walk: Entries<C, Global, B>,
) -> Result<Vec<Answer<C>>, AllocError>
    requires { B.can_read (B.base (reads_of walk)) }
{
    let mut found = Vec::new(alloc);
    if add_in_turn(&mut walk, &mut found) {
        Ok(found)
    } else {
        Err(AllocError)
    }
}

/// Returns all answers of a walk under way, by calls that use threads.
pub fn all_on_threads<
    R: Threads + Sync,
    C: ClientState + Send,
    S: FileSystem + Send + Sync,
    P: ProcessReadDir<C, Global> + Send + Sync,
    L: Readers<C, S, P, Global>,
>(
    rt: &R,
    alloc: Global,
    mut walk: DirEntryIter<C, S, P, Global, L>,
) -> Result<Vec<Answer<C>>, AllocError>
where
    C::ReadDirState: Send,
    C::DirEntryState: Send,
    requires { P.IsLawful (callback (job_of walk)) }
{
    let mut found = Vec::new(alloc);
    if add_on_threads(rt, &mut walk, &mut found) {
        Ok(found)
    } else {
        Err(AllocError)
    }
}
