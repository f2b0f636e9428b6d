//! Why subtotals end, and what comes between them.
ghost use Rattle.std.specs.Prelude.{◌≡◌};
ghost use Rattle.jwalk.specs.jwalk_job.Error.{failure};
ghost use Rattle.jwalk_subtotals.specs.Error.{ends_walk, is_last};

use jwalk::Error;
use jwalk_usage::UsageFault;
use std::alloc::{AllocError, Allocator, Global};
use std::{error, fmt};

/// What is yielded beside subtotals: an error of the walk, or why no more subtotals come.
#[derive(Drop)]
#[derive_where(Debug)]
pub enum SubtotalError<A: Allocator + Copy = Global> {
    /// An answer of the walk that is an error.
    Walk(Error<A>),
    /// A number passes the greatest `u128`.
    TooMany,
    /// Memory ran out for the subtotals.
    Memory,
}

/// Returns whether an error of a walk is one with which the walk ends: memory ran out, or it reports on a crew.
pub(crate) fn ends_walk<A: Allocator + Copy>(error: &Error<A>) -> bool
    ensures { result ≡ ends_walk (failure error.now) }
{
    error.is_memory() || error.is_lost() || error.is_busy()
}

impl<A: Allocator + Copy> SubtotalError<A> {
    /// Returns whether nothing is yielded behind it: always, but for an error of the walk that the walk goes on after.
    pub fn is_last(&self) -> bool
        ensures { result ≡ is_last self.now }
    {
        match self {
            SubtotalError::Walk(error) => ends_walk(error),
            SubtotalError::TooMany | SubtotalError::Memory => true,
        }
    }
}

impl<A: Allocator + Copy> From<AllocError> for SubtotalError<A> {
    ghost use Rattle.jwalk_subtotals.specs.declared.error.SubtotalError.TheVariants.{Memory};

    ghost from_gives = { λ _ error. error ≡ Memory };

    fn from(_refused: AllocError) -> SubtotalError<A> {
        SubtotalError::Memory
    }
}

impl<A: Allocator + Copy> From<UsageFault> for SubtotalError<A> {
    ghost use Rattle.jwalk_subtotals.specs.Error.{of_fault};

    ghost from_gives = { λ fault error. error ≡ of_fault fault };

    fn from(fault: UsageFault) -> SubtotalError<A> {
        match fault {
            UsageFault::TooMany => SubtotalError::TooMany,
            UsageFault::Memory => SubtotalError::Memory,
        }
    }
}

impl<A: Allocator + Copy> fmt::Display for SubtotalError<A> {
    fn fmt<W: fmt::Write>(&self, f: &mut fmt::Formatter<W>) -> fmt::Result {
        match self {
            SubtotalError::Walk(error) => write!(f, "{error}"),
            SubtotalError::TooMany => f.write_str("a subtotal passes the greatest number"),
            SubtotalError::Memory => f.write_str("memory refused for the subtotals"),
        }
    }
}

impl<A: Allocator + Copy> error::Error for SubtotalError<A> {}
