//! What ends a call before its end.
ghost use Rattle.std.specs.Prelude.{◌≡◌, codes};
ghost use Rattle.program_parts.specs.Errors.{IsTold};

use program_parts::errors::Errors;
use program_parts::halt::Halt;
use std::alloc::{AllocError, AllocFailed, Global};
use std::fmt::Display;
use std::io::Write;

/// What ends a call before its end.
#[derive(Debug, Drop)]
pub enum Failure {
    /// An error behind which nothing comes, by what is said of it.
    Error(String),
    /// Memory ran out, or standard output can't be written.
    Halt(Halt),
}

impl Failure {
    /// Returns the error of a file: its path, and what is said of it.
    pub fn at<D: Display>(alloc: Global, path: &str, what: &D) -> Failure {
        match format!(in alloc; "{path}: {what}") {
            Ok(text) => Failure::Error(text),
            Err(refused) => Failure::from(refused),
        }
    }

    /// Tells it.
    pub fn tell<E: Write>(self, alloc: Global, err: &mut Errors<E>)
        ensures told { IsTold E.contents (codes "since") err.new }
    {
        match self {
            Failure::Error(what) => err.tell("since", what.as_str()),
            Failure::Halt(halt) => err.tell_halt(alloc, "since", halt),
        }
    }
}

impl From<Halt> for Failure {
    ghost use Rattle.since_parts.specs.declared.failure.Failure.TheVariants.{Halt};

    ghost from_gives = { λ halt failure. failure ≡ Halt halt };

    fn from(halt: Halt) -> Failure {
        Failure::Halt(halt)
    }
}

impl From<AllocError> for Failure {
    ghost use Rattle.program_parts.specs.declared.halt.Halt.TheVariants.{Memory};
    ghost use Rattle.since_parts.specs.declared.failure.Failure.TheVariants.{Halt};

    ghost from_gives = { λ _ failure. failure ≡ Halt Memory };

    fn from(_refused: AllocError) -> Failure {
        Failure::Halt(Halt::Memory)
    }
}

impl<T: Drop> From<AllocFailed<T>> for Failure {
    ghost use Rattle.program_parts.specs.declared.halt.Halt.TheVariants.{Memory};
    ghost use Rattle.since_parts.specs.declared.failure.Failure.TheVariants.{Halt};

    ghost from_gives = { λ _ failure. failure ≡ Halt Memory };

    fn from(_refused: AllocFailed<T>) -> Failure {
        Failure::Halt(Halt::Memory)
    }
}
