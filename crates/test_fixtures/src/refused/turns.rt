//! Walks that are made again and again, each time with other requests for memory refused.
use crate::refused::outcome::Outcome;
use crate::refusing_alloc::Refusing;
use std::alloc::Global;

/// More requests than any walk makes.
pub const MOST: usize = 10_000;

/// Fewer requests than any walk makes.
const FEW: usize = 20;

/// The outcome of a run of a walk.
#[derive(Clone, Copy, PartialEq, Eq)]
pub enum Run {
    /// Right, with a refusal.
    Refused,
    /// Right, without a refusal.
    Quiet,
    /// Wrongly.
    Wrong,
}

fn may_come(came: Outcome, refused: usize, may_be_whole: bool) -> bool {
    match came {
        Outcome::Whole => refused == 0 || may_be_whole,
        Outcome::Refused(_) => refused > 0,
        Outcome::Wrong => false,
    }
}

/// Returns the outcome of a run. The requests of this memory were refused from `number` on, and the walk came out as
/// `came`. All pieces must be back. A walk that met a refusal may come whole if `may_be_whole`. A run without a refusal
/// is wrong if one of the first requests was to be refused.
pub fn run_of(memory: &Refusing<Global>, number: usize, came: Outcome, may_be_whole: bool) -> Run {
    let refused = memory.refused();
    if memory.pieces() != 0 || !may_come(came, refused, may_be_whole) {
        Run::Wrong
    } else if refused > 0 {
        Run::Refused
    } else if number > FEW {
        Run::Quiet
    } else {
        Run::Wrong
    }
}

/// A walk that can be made again and again.
pub trait Repeated {
    /// Returns the outcome of the walk with this memory.
    fn comes(&self, alloc: Global, memory: &Refusing<Global>) -> Outcome;

    /// Returns whether the walk may come whole after a refusal.
    fn may_be_whole(&self) -> bool;
}

/// Returns the number from which on the walk comes out wrong if `many` requests are refused: from the first request on,
/// then from the second on, and so on, up to a run without a refusal. Returns `None` if no number is wrong.
pub fn first_wrong<W: Repeated>(alloc: Global, many: usize, walk: &W) -> Option<usize> {
    let memory = Refusing::new(alloc);
    for number in 1..MOST {
        memory.refuse(number, many);
        let came = walk.comes(alloc, &memory);
        match run_of(&memory, number, came, walk.may_be_whole()) {
            Run::Refused => {}
            Run::Quiet => return None,
            Run::Wrong => return Some(number),
        }
    }
    Some(MOST)
}
