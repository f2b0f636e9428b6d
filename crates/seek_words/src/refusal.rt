//! The refusals of words.
ghost use Rattle.std.specs.Prelude.{◌≡◌};

use clap::Error;
use program_parts::refusal::{CommonRefusal, RefusalBy};
use std::alloc::AllocError;
use std::fmt;

/// The reason why words are refused.
#[derive(Debug, Drop)]
pub enum Refusal<'w> {
    /// A reason that all programs have.
    Common(CommonRefusal),
    /// This isn't a size.
    NoSize(&'w str),
    /// This isn't a time.
    NoTime(&'w str),
    /// This doesn't say when to print colors.
    NoColor(&'w str),
    /// This pattern has a slash, and isn't compared with paths.
    Slash(&'w str),
}

impl<'w> Refusal<'w> {
    ghost use Rattle.seek_words.specs.Refusal.{status_of};

    /// Returns the status of the program: 0 if the words ask for help or for the version, 1 if memory ran out, and 2
    /// for bad words.
    pub fn status(&self) -> u8
        ensures { result ≡ status_of self.now }
    {
        match self {
            Refusal::Common(refusal) => refusal.status(),
            _ => 2,
        }
    }
}

impl<'w> From<AllocError> for Refusal<'w> {
    ghost use Rattle.program_parts.specs.declared.refusal.CommonRefusal.TheVariants.{Memory};
    ghost use Rattle.seek_words.specs.declared.refusal.Refusal.TheVariants.{Common};

    ghost from_gives = { λ _ refusal. refusal ≡ Common Memory };

    fn from(_refused: AllocError) -> Refusal<'w> {
        Refusal::Common(CommonRefusal::Memory)
    }
}

impl<'w> From<Error> for Refusal<'w> {
    ghost use Rattle.program_parts.specs.declared.refusal.CommonRefusal.TheVariants.{Words};
    ghost use Rattle.seek_words.specs.declared.refusal.Refusal.TheVariants.{Common};

    ghost from_gives = { λ error refusal. refusal ≡ Common (Words error) };

    fn from(error: Error) -> Refusal<'w> {
        Refusal::Common(CommonRefusal::Words(error))
    }
}

/// Writes lines, each ended by a line feed.
impl<'w> fmt::Display for Refusal<'w> {
    fn fmt<W: fmt::Write>(&self, f: &mut fmt::Formatter<W>) -> fmt::Result {
        match self {
            Refusal::Common(refusal) => {
                let program = "seek";
                write!(f, "{}", RefusalBy { program, refusal })
            }
            Refusal::NoSize(text) => writeln!(
                f,
                "seek: '{text}' is no size: write a number and a unit, as in +10k, with + for at least and - for at most that"
            ),
            Refusal::NoTime(text) => writeln!(
                f,
                "seek: '{text}' is no time: write how long ago it is, as in 2h or 3days, or a date, as in 2024-05-01 or '2024-05-01 10:00:00'"
            ),
            Refusal::NoColor(text) => writeln!(
                f,
                "seek: '{text}' doesn't say when to print colors: write auto, always or never"
            ),
            Refusal::Slash(pattern) => writeln!(
                f,
                "seek: no name has a slash, and the pattern '{pattern}' has one: write `seek . {pattern}` to list that folder, or add --full-path"
            ),
        }
    }
}
