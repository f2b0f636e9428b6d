//! The reasons why a program ends early.
ghost use Rattle.std.specs.Prelude.{◌≡◌};

use std::alloc::AllocError;
use std::io;
use std::io::{ErrorKind, Write};

/// The reason why a program ends early.
#[derive(Debug, Drop)]
pub enum Halt {
    /// Memory ran out.
    Memory,
    /// Standard output can't be written, for this reason.
    Output(io::Error),
}

impl Halt {
    /// Reports the reason on standard error, in the name of the program. A pipe that its reader closed isn't reported.
    pub fn report<E: Write>(self, program: &str, err: &mut E) {
        let _ = match self {
            Halt::Memory => writeln!(err, "{program}: memory refused"),
            Halt::Output(error) if error.kind() == ErrorKind::BrokenPipe => Ok(()),
            Halt::Output(error) => writeln!(err, "{program}: cannot write: {error}"),
        };
    }
}

impl From<AllocError> for Halt {
    ghost use Rattle.program_parts.specs.declared.halt.Halt.TheVariants.{Memory};

    ghost from_gives = { λ _ halt. halt ≡ Memory };

    fn from(_refused: AllocError) -> Halt {
        Halt::Memory
    }
}
