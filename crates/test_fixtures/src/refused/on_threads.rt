//! The outcomes of walks that threads read.
ghost use Rattle.jwalk.specs.DirEntryIter.{job_of};
ghost use Rattle.jwalk.specs.WalkDir.{callback_of};
ghost use Rattle.jwalk.specs.jwalk_job.Job.{callback};

use crate::refused::lines::{Given, Met, Shown, what_came};
use crate::refused::outcome::{Call, Outcome, begin, goes_after, if_over, not_begun};
use jwalk::file_system::FileSystem;
use jwalk::read_dir::ProcessReadDir;
use jwalk::{ClientState, DirEntryIter, Readers, WalkDirGeneric};
use std::alloc::{Allocator, Global};
use std::thread::Threads;

/// The walk must yield these lines, taken one after another.
fn goes<
    R: Threads + Sync,
    C: ClientState + Send,
    S: FileSystem + Send + Sync,
    P: ProcessReadDir<C, A> + Send + Sync,
    A: Allocator + Copy + Send + Sync,
    L: Readers<C, S, P, A>,
>(rt: &R, alloc: Global, walk: &mut DirEntryIter<C, S, P, A, L>, lines: &[&str]) -> Outcome
where
    C::ReadDirState: Send,
    C::DirEntryState: Shown + Send,
    requires { P.IsLawful (callback (job_of walk.old)) }
{
    let mut came: usize = 0;
    'lines: for line in lines {
        let met = what_came(alloc, &walk.next_on(rt), line);
        match met {
            Met::Line => came = came.saturating_add(1),
            Met::Refusal => return if_over(walk, Outcome::Refused(came)),
            Met::Other => return Outcome::Wrong,
        }
    }
    if_over(walk, Outcome::Whole)
}

/// Asks for all answers at once, and then for those that didn't come, one after another.
fn is_filled<
    R: Threads + Sync,
    C: ClientState + Send,
    S: FileSystem + Send + Sync,
    P: ProcessReadDir<C, A> + Send + Sync,
    A: Allocator + Copy + Send + Sync,
    L: Readers<C, S, P, A>,
>(
    rt: &R,
    alloc: Global,
    memory: A,
    walk: &mut DirEntryIter<C, S, P, A, L>,
    lines: &[&str],
) -> Outcome
where
    C::ReadDirState: Send,
    C::DirEntryState: Shown + Send,
    requires { P.IsLawful (callback (job_of walk.old)) }
{
    let mut found: Vec<Given<C, A>, A> = Vec::new(memory);
    // If memory runs out for the vector, it doesn't have all answers.
    let _ = walk.fill_on(rt, 100, &mut found);
    goes_after(alloc, walk, &mut found, lines)
}

/// Returns the outcome of a walk that has not begun and must yield these lines, with this memory.
pub fn comes<
    R: Threads + Sync,
    C: ClientState + Send,
    S: FileSystem + Send + Sync,
    P: ProcessReadDir<C, A> + Send + Sync,
    A: Allocator + Copy + Send + Sync,
>(
    rt: &R,
    alloc: Global,
    memory: A,
    walk: WalkDirGeneric<C, S, P, A>,
    call: Call,
    lines: &[&str],
) -> Outcome
where
    C::ReadDirState: Send,
    C::DirEntryState: Shown + Send,
    requires { P.IsLawful (callback_of walk) }
{
    match begin(walk, call) {
        Ok(mut walk) => match call {
            Call::Fill => is_filled(rt, alloc, memory, &mut walk, lines),
            Call::TryIntoIter | Call::IntoIter => goes(rt, alloc, &mut walk, lines),
        },
        Err(error) => not_begun(&error),
    }
}
