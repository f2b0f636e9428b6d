//! Why a file system's call fails.
ghost use Rattle.std.specs.Prelude.{◌≡◌};
ghost use Rattle.jwalk_fs.specs.declared.fault.Fault.TheVariants.{Io, Memory};

use std::alloc::{AllocError, AllocFailed};
use std::io;

/// An error of the file system, or that memory ran out.
#[derive(Drop)]
pub enum Fault {
    /// The call failed, and this says why. A walk yields it in its place and goes on.
    Io(io::Error),
    /// Memory ran out. A walk yields that once and ends.
    Memory,
}

impl From<AllocError> for Fault {
    ghost from_gives = { λ _ fault. fault ≡ Memory };

    fn from(_error: AllocError) -> Self {
        Fault::Memory
    }
}

/// Memory ran out for a value that the failure hands back, as that of `Vec::push`. The value is dropped.
impl<T: Drop> From<AllocFailed<T>> for Fault {
    ghost from_gives = { λ _ fault. fault ≡ Memory };

    fn from(_failed: AllocFailed<T>) -> Self {
        Fault::Memory
    }
}

/// Whatever its kind is, the error stays one of the file system.
impl From<io::Error> for Fault {
    ghost from_gives = { λ error fault. fault ≡ Io error };

    fn from(error: io::Error) -> Self {
        Fault::Io(error)
    }
}
