//! The outcomes of walks.
ghost use Rattle.std.specs.Prelude.{IfOk};
ghost use Rattle.jwalk.specs.DirEntryIter.{job_of, reads_of};
ghost use Rattle.jwalk.specs.WalkDir.{callback_of};
ghost use Rattle.jwalk.specs.jwalk_job.Job.{callback};

use crate::refused::lines::{Given, Met, Shown, are_first, is_refusal, what_came};
use crate::width::Width;
use jwalk::entries::Entries;
use jwalk::file_system::FileSystem;
use jwalk::read_dir::ProcessReadDir;
use jwalk::readings::Readings;
use jwalk::{ClientState, DirEntryIter, Error, WalkDirGeneric};
use std::alloc::{Allocator, Global};

/// The outcome of a walk.
#[derive(Clone, Copy, PartialEq, Eq)]
pub enum Outcome {
    /// All answers came.
    Whole,
    /// This number of its answers came, from the first on, and then the error that memory ran out.
    Refused(usize),
    /// Anything else.
    Wrong,
}

/// The calls that take a walk's answers.
#[derive(Clone, Copy, PartialEq, Eq)]
pub enum Call {
    /// `try_into_iter`, and `next` for each.
    TryIntoIter,
    /// `into_iter`, and `next` for each.
    IntoIter,
    /// `into_iter`, and `fill` for many at once.
    Fill,
}

/// All ways to take the answers.
pub const CALLS: &[Call] = &[Call::TryIntoIter, Call::IntoIter, Call::Fill];

/// All numbers of directories that are read together, with all ways to take the answers.
pub const WAYS: &[(Width, Call)] = &[
    (Width::Serial, Call::TryIntoIter),
    (Width::Serial, Call::IntoIter),
    (Width::Serial, Call::Fill),
    (Width::Batches(1), Call::TryIntoIter),
    (Width::Batches(1), Call::IntoIter),
    (Width::Batches(1), Call::Fill),
    (Width::Batches(2), Call::TryIntoIter),
    (Width::Batches(2), Call::IntoIter),
    (Width::Batches(2), Call::Fill),
    (Width::Batches(8), Call::TryIntoIter),
    (Width::Batches(8), Call::IntoIter),
    (Width::Batches(8), Call::Fill),
];

/// Returns `came` if nothing follows, and else that it is wrong.
pub(crate) fn if_over<C: ClientState, A: Allocator + Copy, B: Readings<C, A>>(
    walk: &mut Entries<C, A, B>,
    came: Outcome,
) -> Outcome
    requires { B.can_read (B.base (reads_of walk.old)) }
{
    let is_over = walk.next().is_none();
    if is_over && walk.next().is_none() {
        came
    } else {
        Outcome::Wrong
    }
}

/// The walk must yield these lines, after `before` of them.
pub(crate) fn goes_on<C: ClientState, A: Allocator + Copy, B: Readings<C, A>>(
    alloc: Global,
    walk: &mut Entries<C, A, B>,
    lines: &[&str],
    before: usize,
) -> Outcome
where
    C::DirEntryState: Shown,
    requires { B.can_read (B.base (reads_of walk.old)) }
{
    let mut came = before;
    'lines: for line in lines {
        let met = what_came(alloc, &walk.next(), line);
        match met {
            Met::Line => came = came.saturating_add(1),
            Met::Refusal => return if_over(walk, Outcome::Refused(came)),
            Met::Other => return Outcome::Wrong,
        }
    }
    if_over(walk, Outcome::Whole)
}

/// Returns the outcome of a walk under way that must yield these lines, taken one after another.
pub fn goes<C: ClientState, A: Allocator + Copy, B: Readings<C, A>>(
    alloc: Global,
    walk: &mut Entries<C, A, B>,
    lines: &[&str],
) -> Outcome
where
    C::DirEntryState: Shown,
    requires { B.can_read (B.base (reads_of walk.old)) }
{
    goes_on(alloc, walk, lines, 0)
}

/// Removes the last answer if it reports that memory ran out, and returns whether it does.
fn take_refusal<C: ClientState, A: Allocator + Copy>(found: &mut Vec<Given<C, A>, A>) -> bool {
    let is_refused = is_refusal(found.last());
    if is_refused {
        found.pop();
    }
    is_refused
}

/// The walk must yield these lines. `found` are the first answers, which came at once.
pub(crate) fn goes_after<C: ClientState, A: Allocator + Copy, B: Readings<C, A>>(
    alloc: Global,
    walk: &mut Entries<C, A, B>,
    found: &mut Vec<Given<C, A>, A>,
    lines: &[&str],
) -> Outcome
where
    C::DirEntryState: Shown,
    requires { B.can_read (B.base (reads_of walk.old)) }
{
    let is_refused = take_refusal(found);
    let came = found.len();
    match lines.get(came..) {
        Some(_) if !are_first(alloc, found.as_slice(), lines) => Outcome::Wrong,
        Some(_) if is_refused => if_over(walk, Outcome::Refused(came)),
        Some(rest) => goes_on(alloc, walk, rest, came),
        None => Outcome::Wrong,
    }
}

/// Asks for all answers at once, and then for those that didn't come, one after another.
fn is_filled<C: ClientState, A: Allocator + Copy, B: Readings<C, A>>(
    alloc: Global,
    memory: A,
    walk: &mut Entries<C, A, B>,
    lines: &[&str],
) -> Outcome
where
    C::DirEntryState: Shown,
    requires { B.can_read (B.base (reads_of walk.old)) }
{
    let mut found: Vec<Given<C, A>, A> = Vec::new(memory);
    // If memory runs out for the vector, it doesn't have all answers.
    let _ = walk.fill(100, &mut found);
    goes_after(alloc, walk, &mut found, lines)
}

/// Begins a walk in the way that its answers are taken.
pub(crate) fn begin<C: ClientState, S: FileSystem, P: ProcessReadDir<C, A>, A: Allocator + Copy>(
    walk: WalkDirGeneric<C, S, P, A>,
    call: Call,
) -> Result<DirEntryIter<C, S, P, A>, Error<A>>
    requires { P.IsLawful (callback_of walk) }
    ensures { IfOk result (λ begun. P.IsLawful (callback (job_of begun))) }
{
    match call {
        Call::TryIntoIter => walk.try_into_iter(),
        Call::IntoIter | Call::Fill => Ok(walk.into_iter()),
    }
}

pub(crate) fn not_begun<A: Allocator + Copy>(error: &Error<A>) -> Outcome {
    if error.is_memory() {
        Outcome::Refused(0)
    } else {
        Outcome::Wrong
    }
}

/// Returns the outcome of a walk under way that must yield these lines, with this memory.
fn goes_as<C: ClientState, A: Allocator + Copy, B: Readings<C, A>>(
    alloc: Global,
    memory: A,
    walk: &mut Entries<C, A, B>,
    call: Call,
    lines: &[&str],
) -> Outcome
where
    C::DirEntryState: Shown,
    requires { B.can_read (B.base (reads_of walk.old)) }
{
    match call {
        Call::Fill => is_filled(alloc, memory, walk, lines),
        Call::TryIntoIter | Call::IntoIter => goes_on(alloc, walk, lines, 0),
    }
}

/// Returns the outcome of the start of a walk that must yield these lines, with this memory.
fn goes_if_begun<C: ClientState, A: Allocator + Copy, B: Readings<C, A>>(
    alloc: Global,
    memory: A,
    begun: Result<Entries<C, A, B>, Error<A>>,
    call: Call,
    lines: &[&str],
) -> Outcome
where
    C::DirEntryState: Shown,
    requires { IfOk begun (λ walk. B.can_read (B.base (reads_of walk))) }
{
    match begun {
        Ok(mut walk) => goes_as(alloc, memory, &mut walk, call, lines),
        Err(error) => not_begun(&error),
    }
}

/// Returns the outcome of a walk that has not begun and must yield these lines, with this memory.
pub fn comes<C: ClientState, S: FileSystem, P: ProcessReadDir<C, A>, A: Allocator + Copy>(
    alloc: Global,
    memory: A,
    walk: WalkDirGeneric<C, S, P, A>,
    call: Call,
    lines: &[&str],
) -> Outcome
where
    C::DirEntryState: Shown,
    requires { P.IsLawful (callback_of walk) }
{
    goes_if_begun(alloc, memory, begin(walk, call), call, lines)
}
