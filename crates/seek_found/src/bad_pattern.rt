//! The reasons why a pattern is rejected.
ghost use Rattle.std.specs.Prelude.{◌≡◌, codes};
ghost use Rattle.program_parts.specs.Errors.{IsTold};

use crate::report::tell_text;
use program_parts::errors::Errors;
use regex::Error;
use seek_braces::MOST;
use std::alloc::{AllocError, Global};
use std::io::Write;

/// The reason why a pattern is rejected.
#[derive(Debug, Drop)]
pub enum BadPattern<'w> {
    /// This isn't a regular expression, or is too large.
    Expression(&'w str, Error),
    /// This isn't a glob.
    Glob(&'w str),
    /// The braces of this list too many alternatives.
    Braces(&'w str),
    /// Memory ran out.
    Memory,
}

impl<'w> BadPattern<'w> {
    ghost use Rattle.seek_found.specs.BadPattern.{status_of};

    /// Tells the reason, and returns the status of the program.
    pub fn tell<E: Write>(&self, alloc: Global, err: &mut Errors<E>) -> u8
        ensures status { result ≡ status_of self.now }
        ensures told { IsTold E.contents (codes "seek") err.new }
    {
        let text = match self {
            BadPattern::Expression(pattern, error) if pattern.starts_with('*') => {
                format!(in alloc;
                    "bad pattern '{pattern}': {error}\nseek: to read it as a glob, try -g"
                )
            }
            BadPattern::Expression(pattern, error) => {
                format!(in alloc; "bad pattern '{pattern}': {error}")
            }
            BadPattern::Glob(pattern) => format!(in alloc; "bad pattern '{pattern}': no glob"),
            BadPattern::Braces(pattern) => {
                format!(in alloc; "bad pattern '{pattern}': short for more than {MOST} others")
            }
            BadPattern::Memory => Err(AllocError),
        };
        tell_text(alloc, text, err);
        self.status()
    }

    fn status(&self) -> u8
        ensures { result ≡ status_of self.now }
    {
        match self {
            BadPattern::Expression(_, _) | BadPattern::Glob(_) | BadPattern::Braces(_) => 2,
            BadPattern::Memory => 1,
        }
    }
}

impl<'w> From<AllocError> for BadPattern<'w> {
    ghost use Rattle.seek_found.specs.declared.bad_pattern.BadPattern.TheVariants.{Memory};

    ghost from_gives = { λ _ bad. bad ≡ Memory };

    fn from(_refused: AllocError) -> BadPattern<'w> {
        BadPattern::Memory
    }
}
