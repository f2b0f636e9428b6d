//! What prevents a walk.
ghost use Rattle.std.specs.Prelude.{◌≡◌};

use program_parts::errors::Errors;
use std::alloc::AllocError;
use std::fmt;
use std::io::Write;

/// Why there is no walk, or why it was ended.
#[derive(Clone, Copy, Debug, PartialEq, Eq)]
pub enum Failure {
    /// The words ask for no walk.
    BadWords,
    /// The line of this number, counted from 1, can't be added to the tree. It is 0 if the lines can't be read.
    BadTree(usize),
    /// A total of the walk passes the greatest number.
    TooMany,
    /// Memory ran out, outside the walk or for its totals.
    Memory,
    /// Standard output can't be written.
    Output,
}

impl Failure {
    ghost use Rattle.std.specs.Prelude.{codes};
    ghost use Rattle.program_parts.specs.Errors.{IsTold};
    ghost use Rattle.walk_text.specs.Failure.{status_of};

    fn status(self) -> u8
        ensures { result ≡ status_of self }
    {
        match self {
            Failure::BadWords | Failure::BadTree(_) => 2,
            Failure::TooMany | Failure::Memory | Failure::Output => 1,
        }
    }

    /// Tells it, and returns the status. No line says so if standard output can't be written.
    pub fn report<E: Write>(self, err: &mut Errors<E>) -> u8
        ensures status { result ≡ status_of self }
        ensures told { IsTold E.contents (codes "walk") err.new }
    {
        match self {
            Failure::Output => err.pass_over_output(),
            told => err.tell("walk", told),
        }
        self.status()
    }
}

impl fmt::Display for Failure {
    ghost use Rattle.std.specs.Prelude.{Some};
    ghost use Rattle.walk_text.specs.Failure.{text_of};

    ghost output = { λ failure. Some (text_of failure) };

    fn fmt<W: fmt::Write>(&self, f: &mut fmt::Formatter<W>) -> fmt::Result {
        match self {
            Failure::BadWords => f.write_str("bad words"),
            Failure::BadTree(line) => write!(f, "bad tree, line {line}"),
            Failure::TooMany => f.write_str("too many"),
            Failure::Memory => f.write_str("memory refused"),
            Failure::Output => f.write_str("output can't be written"),
        }
    }
}

impl From<AllocError> for Failure {
    ghost use Rattle.walk_text.specs.declared.failure.Failure.TheVariants.{Memory};

    ghost from_gives = { λ _ e. e ≡ Memory };

    fn from(_refused: AllocError) -> Failure {
        Failure::Memory
    }
}
