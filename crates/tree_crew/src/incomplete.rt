//! Why not all readings came.
ghost use Rattle.std.specs.Prelude.{◌≡◌};

use crate::crew::NotStarted;
use std::alloc::{AllocError, AllocFailed};
use std::error::Error;
use std::fmt;

/// Why not all readings of a tree came.
#[derive(Clone, Copy, Debug, PartialEq, Eq)]
pub enum Incomplete {
    /// No place was free in time, or no worker could be started.
    Busy,
    /// Memory ran out.
    Memory,
}

impl fmt::Display for Incomplete {
    ghost use Rattle.std.specs.Prelude.{Some};
    ghost use Rattle.tree_crew.specs.Incomplete.{text_of};

    ghost output = { λ why. Some (text_of why) };

    fn fmt<W: fmt::Write>(&self, f: &mut fmt::Formatter<W>) -> fmt::Result {
        f.write_str(match self {
            Incomplete::Busy => "no place was free in time, or no worker could be started",
            Incomplete::Memory => "memory ran out for the readings",
        })
    }
}

impl Error for Incomplete {}

impl From<NotStarted> for Incomplete {
    ghost use Rattle.tree_crew.specs.Incomplete.{not_started};

    ghost from_gives = { λ why_not why. why ≡ not_started why_not };

    fn from(why_not: NotStarted) -> Self {
        match why_not {
            NotStarted::Busy => Incomplete::Busy,
            NotStarted::Memory => Incomplete::Memory,
        }
    }
}

impl From<AllocError> for Incomplete {
    ghost use Rattle.tree_crew.specs.declared.incomplete.Incomplete.TheVariants.{Memory};

    ghost from_gives = { λ _ why. why ≡ Memory };

    fn from(_refused: AllocError) -> Self {
        Incomplete::Memory
    }
}

/// Memory ran out for a value that the failure hands back, as that of `Vec::push`. The value is dropped.
impl<T: Drop> From<AllocFailed<T>> for Incomplete {
    ghost use Rattle.tree_crew.specs.declared.incomplete.Incomplete.TheVariants.{Memory};

    ghost from_gives = { λ _ why. why ≡ Memory };

    fn from(_failed: AllocFailed<T>) -> Self {
        Incomplete::Memory
    }
}
