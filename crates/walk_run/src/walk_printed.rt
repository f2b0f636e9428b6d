//! A walk's answers, printed, while threads read its directories.
ghost use Rattle.std.specs.Prelude.{◌≡◌, IfOk, IfErr};
ghost use Rattle.jwalk_job.specs.Job.{callback};
ghost use Rattle.jwalk.specs.DirEntryIter.{job_of};
ghost use Rattle.walk_text.specs.Failure.{status_of};
ghost use Rattle.jwalk_model.specs.Lines.{lines_of};
ghost use Rattle.walk_run.specs.Answers.{PrintsAll};

use crate::answers::{print_one, write_rest};
use jwalk::file_system::FileSystem;
use jwalk::read_dir::ProcessReadDir;
use jwalk::{ClientState, DirEntryIter, Readers};
use program_parts::gathered::Gathered;
use std::alloc::Allocator;
use std::io::Write;
use std::thread::Threads;
use walk_text::failure::Failure;

/// Prints a line for each answer of a walk, and returns whether none was an error. It calls `next_on`, which has threads
/// read a batch; `next`, which a `for` calls, can start none.
pub fn print_walked<
    T: Threads + Sync,
    W: Write,
    C: ClientState + Send,
    S: FileSystem + Send + Sync,
    P: ProcessReadDir<C, A> + Send + Sync,
    A: Allocator + Copy + Send + Sync,
    L: Readers<C, S, P, A>,
>(rt: &T, alloc: A, walk: &mut DirEntryIter<C, S, P, A, L>, out: &mut W) -> Result<bool, Failure>
where
    C::ReadDirState: Send,
    C::DirEntryState: Send,
    requires { P.IsLawful (callback (job_of walk.old)) }
    ensures printed { IfOk result (PrintsAll lines_of ⟦<DirEntryIter<C, S, P, A, L> as Iterator>⟧.next_gives
        walk.old (W.contents out.old) (W.contents out.new)) }
    ensures status { IfErr result (λ failure. status_of failure ≡ 1) }
{
    let mut gathered = Gathered::new(alloc)?;
    let mut clean = true;
    while let Some(answer) = walk.next_on(rt) {
        clean &= print_one(answer, &mut gathered, out)?;
    }
    write_rest(&mut gathered, out)?;
    Ok(clean)
}
