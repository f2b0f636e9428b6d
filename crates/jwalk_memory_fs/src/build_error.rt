//! Why a tree can't be built on.
ghost use Rattle.std.specs.Prelude.{◌≡◌};

use std::alloc::{AllocError, AllocFailed};
use std::error::Error;
use std::fmt;

/// Why a step of building failed. The tree is then unchanged.
#[derive(Clone, Copy, Debug, PartialEq, Eq)]
pub enum BuildError {
    /// The path's last component is no plain name, or the ones before it lead to no directory. Or nothing is there that
    /// could be removed, or no directory that could be denied.
    NotFound,
    /// The name for a new child is taken.
    AlreadyExists,
    /// Memory ran out.
    Memory,
}

impl fmt::Display for BuildError {
    ghost use Rattle.std.specs.Prelude.{Some};
    ghost use Rattle.jwalk_memory_fs.specs.BuildError.{text_of};

    ghost output = { λ error. Some (text_of error) };

    fn fmt<W: fmt::Write>(&self, f: &mut fmt::Formatter<W>) -> fmt::Result {
        f.write_str(match self {
            BuildError::NotFound => "no such file or directory",
            BuildError::AlreadyExists => "the name is taken",
            BuildError::Memory => "memory refused",
        })
    }
}

impl Error for BuildError {}

impl From<AllocError> for BuildError {
    ghost use Rattle.jwalk_memory_fs.specs.declared.build_error.BuildError.TheVariants.{Memory};

    ghost from_gives = { λ _ e. e ≡ Memory };

    fn from(_error: AllocError) -> Self {
        BuildError::Memory
    }
}

/// Memory ran out for a value that the failure hands back, as that of `Vec::push`. The value is dropped.
impl<T: Drop> From<AllocFailed<T>> for BuildError {
    ghost use Rattle.jwalk_memory_fs.specs.declared.build_error.BuildError.TheVariants.{Memory};

    ghost from_gives = { λ _ error. error ≡ Memory };

    fn from(_failed: AllocFailed<T>) -> Self {
        BuildError::Memory
    }
}
