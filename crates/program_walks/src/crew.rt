//! The crew that reads directories.
ghost use Rattle.std.specs.Prelude.{◌≡◌, is_some, string_bytes, IfOk};
ghost use Rattle.jwalk.specs.jwalk_job.Options.{options_value};
ghost use Rattle.jwalk.specs.WalkDir.{file_system_of, root_of, state_of, options_of, described};
ghost use Rattle.program_walks.specs.Crew.{threads_in, with_crew, IsCrewOf, ReadsBy};

use jwalk::crew::Session;
use jwalk::file_system::FileSystem;
use jwalk::read_dir::NoProcess;
use jwalk::{ClientState, Crew, DirEntryIter, Options, Parallelism, WalkDirGeneric};
use jwalk_ignore::states::OnlyRules;
use std::alloc::{AllocError, Allocator, Global};
use std::sync::{Arc, Wait};
use std::time::Clock;

/// How many directories are read ahead at most: enough for all threads but one, while that one lists a large directory.
const READ_AHEAD: usize = 8192;

/// A walk that has not begun, with the states of walks with ignore files.
pub type Plain<T, S> = WalkDirGeneric<OnlyRules, Arc<S>, NoProcess, Global, Crew<T>>;

/// A walk under way that a crew may read for.
pub type CrewWalk<T, C, S, P> = DirEntryIter<C, S, P, Global, Session<T, C, S, P, Global>>;

/// Returns how many threads read: as many as are asked for. 0 and no number mean all that can run at a time, which are
/// `cores`.
pub fn threads_in(cores: usize, asked: Option<usize>) -> usize
    ensures { result ≡ threads_in cores asked }
{
    match asked {
        None | Some(0) => cores,
        Some(threads) => threads,
    }
}

/// Returns a crew of this many threads, but at most 256. One thread needs no crew. The threads read at most 8,192
/// directories ahead.
///
/// # Errors
///
/// If memory runs out.
pub fn crew_with<T: Wait + Clock + Clone + Drop>(
    rt: &T,
    alloc: Global,
    threads: usize,
) -> Result<Option<Arc<Crew<T>>>, AllocError>
    ensures { IfOk result (IsCrewOf threads) }
{
    if threads < 2 {
        return Ok(None);
    }
    let crew = Crew::new(rt.clone()?, 1, threads).with_read_ahead(READ_AHEAD);
    Ok(Some(Arc::new(alloc, crew)?))
}

/// Returns the walk below a root with these options, without a callback. If there is a crew, it reads the directories,
/// and the start of the walk blocks until one of its places is free.
///
/// # Errors
///
/// If memory runs out.
pub fn walk_below<
    C: ClientState,
    T: Wait + Clock + Clone + Drop,
    S: FileSystem,
    A: Allocator + Copy,
>(
    fs: S,
    root: String<A>,
    options: Options,
    crew: &Option<Arc<Crew<T>, A>>,
) -> Result<WalkDirGeneric<C, S, NoProcess, A, Crew<T>>, AllocError>
    ensures file_system { IfOk result (λ walk. file_system_of walk ≡ fs) }
    ensures root { IfOk result (λ walk. root_of walk ≡ string_bytes root) }
    ensures state { IfOk result (λ walk. C.ReadDirState.is_default (state_of walk)) }
    ensures options { IfOk result (λ walk. options_of walk ≡ with_crew (is_some crew.now) (options_value options)) }
    ensures crew { IfOk result (λ walk. ReadsBy crew.now (described walk).crew) }
{
    let parallelism = match crew {
        Some(crew) => Parallelism::RayonExistingPool {
            pool: crew.clone()?,
            busy_timeout: None,
        },
        None => Parallelism::Serial,
    };
    Ok(
        WalkDirGeneric::with_crew(fs, root)
            .with_options(options)
            .parallelism(parallelism),
    )
}
