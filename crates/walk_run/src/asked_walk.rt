//! The walk that is asked for, over any file system, with its answers printed or their totals.
ghost use Rattle.std.specs.Prelude.{◌≡◌, ◌≤◌, ◌⊎◌, true, false, codes, string_bytes, IfOk, IfErr, OnErr};
ghost use Rattle.jwalk_model.specs.Options.{with_parallelism};
ghost use Rattle.jwalk_job.specs.Job.{callback};
ghost use Rattle.jwalk_job.specs.Options.{options_value};
ghost use Rattle.jwalk.specs.DirEntryIter.{job_of};
ghost use Rattle.jwalk.specs.Parallelism.{parallelism_value};
ghost use Rattle.jwalk.specs.jwalk_readings.Parallelism.{crew_of};
ghost use Rattle.jwalk.specs.WalkDir.{described, file_system_of, root_of, options_of};
ghost use Rattle.program_parts.specs.Errors.{IsTold};
ghost use Rattle.walk_text.specs.Asked.{options_asked, parallelism_named};
ghost use Rattle.walk_text.specs.Failure.{status_of};
ghost use Rattle.walk_run.specs.Answers.{PrintsAll};
ghost use Rattle.walk_run.specs.AskedWalk.{written, IsReadBy, PrintsBegun, PrintsOver};

use crate::answers::status_once;
use crate::totals::print_totals;
use crate::walk_printed::print_walked;
use jwalk::crew::Session;
use jwalk::file_system::FileSystem;
use jwalk::read_dir::{NoProcess, ProcessReadDir};
use jwalk::{ClientState, Crew, DirEntryIter, Host, Options, Parallelism, Readers, WalkDirGeneric};
use program_parts::errors::Errors;
use std::alloc::{AllocError, Allocator};
use std::io::Write;
use std::sync::{Arc, Wait};
use std::thread::Threads;
use std::time::Clock;
use walk_text::asked::Asked;
use walk_text::failure::Failure;
use walk_text::read_by::ReadBy;
use walk_text::words::Request;

/// The walk that is asked for, under way.
pub type AskedWalk<T, S, A> = DirEntryIter<
    ((), ()),
    S,
    NoProcess,
    A,
    Session<T, ((), ()), S, NoProcess, A>,
>;

/// A crew is there for one walk alone.
fn parallelism_of<T: Wait + Clock + Clone + Drop, A: Allocator + Copy>(
    rt: &T,
    alloc: A,
    by: Option<ReadBy>,
) -> Result<Parallelism<Crew<T>, A>, AllocError>
    ensures value { IfOk result (λ it. parallelism_value it ≡ parallelism_named by) }
    ensures crew { IfOk result (λ it. IsReadBy by (crew_of it)) }
{
    match by {
        None => Ok(Parallelism::Serial),
        Some(ReadBy::Batch(width)) => Ok(Parallelism::RayonNewPool(width)),
        Some(ReadBy::Crew(workers)) => {
            let crew = Crew::new(rt.clone()?, 1, workers);
            Ok(Parallelism::RayonExistingPool {
                pool: Arc::new(alloc, crew)?,
                busy_timeout: None,
            })
        }
    }
}

/// How directories are read isn't set. Metadata is kept for totals.
fn options_of(asked: Asked) -> Options
    ensures { with_parallelism (parallelism_named asked.read_by) (options_value result) ≡ options_asked asked }
{
    Options::new()
        .with_sort(asked.sort)
        .with_skip_hidden(!asked.hidden)
        .with_follow_links(asked.follow)
        .with_keep_metadata(asked.usage)
        .with_min_depth(asked.min.unwrap_or(0))
        .with_max_depth(asked.max.unwrap_or(usize::MAX))
}

/// Returns the walk that is asked for, without a callback. How directories are read is set last.
pub fn walk_of<
    C: ClientState,
    T: Wait + Threads + Clock + Clone + Drop,
    S: FileSystem,
    A: Allocator + Copy,
>(
    rt: &T,
    fs: S,
    root: String<A>,
    asked: Asked,
) -> Result<WalkDirGeneric<C, S, NoProcess, A, Crew<T>>, AllocError>
    ensures file_system { IfOk result (λ walk. file_system_of walk ≡ fs) }
    ensures root { IfOk result (λ walk. root_of walk ≡ string_bytes root) }
    ensures options { IfOk result (λ walk. options_of walk ≡ options_asked asked) }
    ensures crew { IfOk result (λ walk. IsReadBy asked.read_by (described walk).crew) }
{
    let parallelism = parallelism_of(rt, *root.allocator(), asked.read_by)?;
    Ok(
        WalkDirGeneric::with_crew(fs, root)
            .with_options(options_of(asked))
            .parallelism(parallelism),
    )
}

/// Returns whether no answer was an error.
fn print_answers<
    T: Threads + Sync,
    W: Write,
    C: ClientState + Send,
    S: FileSystem + Send + Sync,
    P: ProcessReadDir<C, A> + Send + Sync,
    A: Allocator + Copy + Send + Sync,
    L: Readers<C, S, P, A>,
>(
    rt: &T,
    alloc: A,
    asked: Asked,
    walk: DirEntryIter<C, S, P, A, L>,
    out: &mut W,
) -> Result<bool, Failure>
where
    C::ReadDirState: Send,
    C::DirEntryState: Send,
    requires { P.IsLawful (callback (job_of walk)) }
    ensures printed { IfOk result (PrintsAll (written asked) ⟦<DirEntryIter<C, S, P, A, L> as Iterator>⟧.next_gives
        walk (W.contents out.old) (W.contents out.new)) }
    ensures status { IfErr result (λ failure. status_of failure ≡ 1) }
{
    if asked.usage {
        return print_totals(walk, out);
    }
    let mut walk = walk;
    print_walked(rt, alloc, &mut walk, out)
}

/// Walks over a file system as is asked for, and prints one line for each answer, or the line of their totals. Returns
/// the status: 0 if the walk ended and no answer was an error, and 1 otherwise.
///
/// For totals directories are read in turn, or by a crew: no batch is read by threads then.
///
/// # Errors
///
/// If memory runs out before anything is printed, and for no other cause.
pub fn print_asked<
    T: Host,
    S: FileSystem + Send + Sync + 'static,
    A: Allocator + Copy + Send + Sync + 'static,
    W: Write,
    E: Write,
>(
    rt: &T,
    alloc: A,
    fs: S,
    request: &Request<'_>,
    out: &mut W,
    err: &mut Errors<E>,
) -> Result<u8, Failure>
    ensures status { IfOk result (λ status. status ≤ 1) }
    ensures memory { IfErr result (λ failure. failure ≡ Failure.Memory) }
    ensures untouched { OnErr result (W.contents out.new ≡ W.contents out.old) }
    ensures walked { IfOk result (λ status. status ≡ 0 → PrintsBegun ⟦<AskedWalk<T, S, A> as Iterator>⟧.next_gives
        fs request.now.asked request.now.root.now (W.contents out.old) (W.contents out.new) true) }
    ensures failed { IfOk result (λ status. status ≡ 1 → PrintsBegun ⟦<AskedWalk<T, S, A> as Iterator>⟧.next_gives
        fs request.now.asked request.now.root.now (W.contents out.old) (W.contents out.new) false
        ⊎ IsTold E.contents (codes "walk") err.new) }
    ensures printed { IfOk result (λ status. status ≡ 0 → S.IsFixed fs
        → PrintsOver (S.functions fs) request.now.asked request.now.root.now
        (W.contents out.old) (W.contents out.new)) }
{
    let root = String::from_str(alloc, request.root)?;
    let walk = walk_of::<((), ()), _, _, _>(rt, fs, root, request.asked)?;
    let answers = walk.into_iter();
    Ok(status_once(print_answers(rt, alloc, request.asked, answers, out), err))
}
