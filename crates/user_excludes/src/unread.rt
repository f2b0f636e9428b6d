//! Why a user's excludes aren't known.
ghost use Rattle.std.specs.Prelude.{◌≡◌};
ghost use Rattle.user_excludes.specs.Named.{BadLine, TooDeep};
ghost use Rattle.user_excludes.specs.NamedViews.{Means};

use std::alloc::{AllocError, Global};
use std::{fmt, io};

/// The reason why a user's excludes aren't known.
#[derive(Drop)]
pub enum Unread {
    /// The file at this path can't be read.
    File(String, io::Error),
    /// This line of the configuration at this path is bad.
    Line(String, usize),
    /// This line of it gives `core.excludesFile` no value.
    NoValue(String, usize),
    /// The configuration at this path is included in too many others, one in another.
    TooDeep(String),
    /// Memory ran out.
    Memory,
}

impl From<AllocError> for Unread {
    ghost use Rattle.user_excludes.specs.declared.unread.Unread.TheVariants.{Memory};

    ghost from_gives = { λ _ unread. unread ≡ Memory };

    fn from(_refused: AllocError) -> Unread {
        Unread::Memory
    }
}

/// Returns that a line of a configuration is bad.
pub(crate) fn bad_line(alloc: Global, file: &str, line: usize) -> Unread
    ensures { Means (BadLine file.now line) result }
{
    match String::from_str(alloc, file) {
        Ok(file) => Unread::Line(file, line),
        Err(refused) => Unread::from(refused),
    }
}

/// Returns that a configuration is included in too many others.
pub(crate) fn too_deep(alloc: Global, file: &str) -> Unread
    ensures { Means (TooDeep file.now) result }
{
    match String::from_str(alloc, file) {
        Ok(file) => Unread::TooDeep(file),
        Err(refused) => Unread::from(refused),
    }
}

/// The path, and what is wrong there.
impl fmt::Display for Unread {
    fn fmt<W: fmt::Write>(&self, f: &mut fmt::Formatter<W>) -> fmt::Result {
        match self {
            Unread::File(path, error) => write!(f, "{path}: {error}"),
            Unread::Line(path, line) => write!(f, "{path}: bad config line {line}"),
            Unread::NoValue(path, line) => write!(f, "{path}: missing value on line {line}"),
            Unread::TooDeep(path) => write!(f, "{path}: included too deep"),
            Unread::Memory => f.write_str("memory refused"),
        }
    }
}
