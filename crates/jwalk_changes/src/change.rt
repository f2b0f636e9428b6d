//! What differs at a path.
ghost use Rattle.std.specs.Prelude.{◌≡◌};

use crate::facts::Which;
use std::alloc::{AllocError, AllocFailed};
use std::error::Error;
use std::fmt::{self, Display, Formatter};

/// What differs at a path.
#[derive(Debug, Drop)]
pub enum Change<O, N> {
    /// Only the new list has this path.
    Added(N),
    /// Only the old list has this path.
    Removed(O),
    /// Both have this path, with other facts: the old entry, the new one, and which facts differ.
    Changed(O, N, Which),
}

/// An input didn't come in ascending order of paths, or had a path twice.
#[derive(Clone, Copy, Debug, PartialEq, Eq)]
pub enum NotAscending {
    /// The old entries.
    Old,
    /// The new entries.
    New,
    /// The places whose contents aren't known.
    Unknown,
}

impl NotAscending {
    fn message(self) -> &'static str {
        match self {
            NotAscending::Old => "the old entries aren't in ascending order of paths",
            NotAscending::New => "the new entries aren't in ascending order of paths",
            NotAscending::Unknown => "the places aren't in ascending order of paths",
        }
    }
}

impl Display for NotAscending {
    fn fmt<W: fmt::Write>(&self, f: &mut Formatter<W>) -> fmt::Result {
        f.write_str(self.message())
    }
}

impl Error for NotAscending {}

/// Why not all changes were found.
#[derive(Clone, Copy, Debug, PartialEq, Eq)]
pub enum ChangesError {
    /// An input didn't ascend.
    NotAscending(NotAscending),
    /// Memory ran out.
    Memory,
}

impl From<NotAscending> for ChangesError {
    ghost use Rattle.jwalk_changes.specs.declared.change.ChangesError.TheVariants.{NotAscending};

    ghost from_gives = { λ input error. error ≡ NotAscending input };

    fn from(input: NotAscending) -> ChangesError {
        ChangesError::NotAscending(input)
    }
}

impl From<AllocError> for ChangesError {
    ghost use Rattle.jwalk_changes.specs.declared.change.ChangesError.TheVariants.{Memory};

    ghost from_gives = { λ _ error. error ≡ Memory };

    fn from(_refused: AllocError) -> ChangesError {
        ChangesError::Memory
    }
}

impl<T: Drop> From<AllocFailed<T>> for ChangesError {
    ghost use Rattle.jwalk_changes.specs.declared.change.ChangesError.TheVariants.{Memory};

    ghost from_gives = { λ _ error. error ≡ Memory };

    fn from(_failed: AllocFailed<T>) -> ChangesError {
        ChangesError::Memory
    }
}

impl Display for ChangesError {
    fn fmt<W: fmt::Write>(&self, f: &mut Formatter<W>) -> fmt::Result {
        match self {
            ChangesError::NotAscending(input) => f.write_str(input.message()),
            ChangesError::Memory => f.write_str("out of memory"),
        }
    }
}

impl Error for ChangesError {}
