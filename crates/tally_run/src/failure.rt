//! What ends a call before its end.
ghost use Rattle.std.specs.Prelude.{◌≡◌, codes};
ghost use Rattle.program_parts.specs.Errors.{IsTold};

use program_parts::errors::Errors;
use program_parts::halt::Halt;
use std::alloc::{AllocError, Global};
use std::io::Write;

/// What ends a call before its end.
#[derive(Debug, Drop)]
pub(crate) enum Failure {
    /// A number passes the greatest `u128`.
    TooMany,
    /// An error behind which nothing comes, by what is said of it.
    Error(String),
    /// Memory ran out, or standard output can't be written.
    Halt(Halt),
}

impl Failure {
    /// Tells it.
    pub(crate) fn tell<E: Write>(self, alloc: Global, err: &mut Errors<E>)
        ensures told { IsTold E.contents (codes "tally") err.new }
    {
        match self {
            Failure::TooMany => err.tell("tally", "a total passes the greatest number"),
            Failure::Error(what) => err.tell("tally", what.as_str()),
            Failure::Halt(halt) => err.tell_halt(alloc, "tally", halt),
        }
    }
}

impl From<Halt> for Failure {
    ghost use Rattle.tally_run.specs.declared.failure.Failure.TheVariants.{Halt};

    ghost from_gives = { λ halt failure. failure ≡ Halt halt };

    fn from(halt: Halt) -> Failure {
        Failure::Halt(halt)
    }
}

impl From<AllocError> for Failure {
    ghost use Rattle.program_parts.specs.declared.halt.Halt.TheVariants.{Memory};
    ghost use Rattle.tally_run.specs.declared.failure.Failure.TheVariants.{Halt};

    ghost from_gives = { λ _ failure. failure ≡ Halt Memory };

    fn from(_refused: AllocError) -> Failure {
        Failure::Halt(Halt::Memory)
    }
}
