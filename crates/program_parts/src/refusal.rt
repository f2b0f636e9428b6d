//! Words that are refused, or ask for a text.
ghost use Rattle.std.specs.Prelude.{◌≡◌, ◌<◌, ◌≤◌};
ghost use Rattle.program_parts.specs.Status.{status_of_kind};

use crate::errors::Errors;
use crate::gathered::Gathered;
use crate::halt::Halt;
use crate::help::help_text;
use clap::Error;
use clap::error::ErrorKind;
use std::alloc::{AllocError, Global};
use std::fmt;
use std::fmt::Display;
use std::io::Write;

/// The reason why words are refused, of those that all programs have.
#[derive(Debug, Drop)]
pub enum CommonRefusal {
    /// The words are bad, or ask for help or the version. The error has the text.
    Words(Error),
    /// These two options exclude each other.
    Conflict(&'static str, &'static str),
    /// Memory ran out.
    Memory,
}

/// Returns the status of an error of the parser: 0 for help and the version, 1 if memory ran out, and 2 for bad words.
pub fn status_of_kind(kind: ErrorKind) -> u8
    ensures { result ≡ status_of_kind kind }
{
    match kind {
        ErrorKind::DisplayHelp | ErrorKind::DisplayVersion => 0,
        ErrorKind::OutOfMemory => 1,
        _ => 2,
    }
}

impl CommonRefusal {
    ghost use Rattle.program_parts.specs.Refusal.{status_of};

    /// Returns the status of the program: 0 if the words ask for help or for the version, 1 if memory ran out, and 2
    /// for bad words.
    pub fn status(&self) -> u8
        ensures { result ≡ status_of self.now }
    {
        match self {
            CommonRefusal::Words(error) => status_of_kind(error.kind()),
            CommonRefusal::Conflict(_, _) => 2,
            CommonRefusal::Memory => 1,
        }
    }
}

impl From<AllocError> for CommonRefusal {
    ghost use Rattle.program_parts.specs.declared.refusal.CommonRefusal.TheVariants.{Memory};

    ghost from_gives = { λ _ refusal. refusal ≡ Memory };

    fn from(_refused: AllocError) -> CommonRefusal {
        CommonRefusal::Memory
    }
}

impl From<Error> for CommonRefusal {
    ghost use Rattle.program_parts.specs.declared.refusal.CommonRefusal.TheVariants.{Words};

    ghost from_gives = { λ error refusal. refusal ≡ Words error };

    fn from(error: Error) -> CommonRefusal {
        CommonRefusal::Words(error)
    }
}

/// A refusal in the name of a program.
#[derive(Clone, Copy)]
pub struct RefusalBy<'a> {
    /// The name of the program.
    pub program: &'a str,
    /// The refusal.
    pub refusal: &'a CommonRefusal,
}

/// Writes lines, each ended by a line feed.
impl<'a> Display for RefusalBy<'a> {
    fn fmt<W: fmt::Write>(&self, f: &mut fmt::Formatter<W>) -> fmt::Result {
        let program = self.program;
        match self.refusal {
            CommonRefusal::Words(error) => write!(f, "{error}"),
            CommonRefusal::Conflict(one, other) => writeln!(
                f,
                "{program}: the options --{one} and --{other} exclude each other"
            ),
            CommonRefusal::Memory => writeln!(f, "{program}: memory refused"),
        }
    }
}

/// Prints help or the version. If a width is known, lines of help have at most this width.
fn print_text<R: Display, W: Write>(
    alloc: Global,
    columns: Option<usize>,
    text: &R,
    out: &mut W,
) -> Result<(), Halt> {
    let text = format!(in alloc; "{text}")?;
    let text = help_text(alloc, columns, text.as_str())?;
    Gathered { bytes: text }.finish(out)
}

/// Returns what the parser says of bad words, without its hints, if the text is the parser's.
fn complaint(text: &str) -> Option<&str> {
    let (line, _) = text.strip_prefix("error: ")?.split_once('\n')?;
    Some(line)
}

/// Returns the option in quotes, if the parser says that it doesn't know one.
fn unknown_option(complaint: &str) -> Option<&str> {
    complaint
        .strip_prefix("unexpected argument ")?
        .strip_suffix(" found")
}

/// Returns what a text says, if it is a line in the name of a program.
fn said_by<'t>(program: &str, text: &'t str) -> Option<&'t str> {
    let said = text.strip_prefix(program)?.strip_prefix(": ")?;
    said.strip_suffix('\n')
}

/// Returns why words are refused: in one line, if the parser refuses them.
fn reason_of<R: Display>(alloc: Global, program: &str, refusal: &R) -> Result<String, AllocError> {
    let text = format!(in alloc; "{refusal}")?;
    let text = text.as_str();
    let Some(line) = complaint(text) else {
        return String::from_str(alloc, said_by(program, text).unwrap_or(text));
    };
    match unknown_option(line) {
        Some(option) => format!(in alloc; "unknown option {option} (see {program} --help)"),
        None => format!(in alloc; "{line} (see {program} --help)"),
    }
}

impl<E: Write> Errors<E> {
    ghost use Rattle.std.specs.Prelude.{◌≡◌, ◌<◌, ◌≤◌};
    ghost use Rattle.program_parts.specs.Errors.{IsTold};

    /// Tells why words are refused.
    fn tell_refusal<R: Display>(&mut self, alloc: Global, program: &str, refusal: &R)
        ensures told { IsTold E.contents program.now self.new }
    {
        match reason_of(alloc, program, refusal) {
            Ok(reason) => self.tell(program, reason.as_str()),
            Err(refused) => self.tell_halt(alloc, program, Halt::from(refused)),
        }
    }

    /// Prints the text that is asked for, which has the status 0, or tells why words are refused. Returns the status, or 1
    /// if memory runs out or the text can't be printed. If `columns` is known, it is the greatest width of lines of help.
    pub fn refuse<R: Display, W: Write>(
        &mut self,
        alloc: Global,
        columns: Option<usize>,
        program: &str,
        refusal: &R,
        status: u8,
        out: &mut W,
    ) -> u8
        ensures refused { 0 < status → result ≡ status }
        ensures text { status ≡ 0 → result ≤ 1 }
        ensures untouched { result ≡ 2 → W.contents out.new ≡ W.contents out.old }
        ensures told { 0 < result → IsTold E.contents program.now self.new }
    {
        if status > 0 {
            self.tell_refusal(alloc, program, refusal);
            return status;
        }
        let Err(halt) = print_text(alloc, columns, refusal, out) else {
            return 0;
        };
        self.tell_halt(alloc, program, halt);
        1
    }
}

/// The same, where errors are lines of `err`.
pub fn refuse<R: Display, W: Write, E: Write>(
    alloc: Global,
    columns: Option<usize>,
    program: &str,
    refusal: &R,
    status: u8,
    out: &mut W,
    err: &mut E,
) -> u8
    ensures refused { 0 < status → result ≡ status }
    ensures text { status ≡ 0 → result ≤ 1 }
    ensures untouched { result ≡ 2 → W.contents out.new ≡ W.contents out.old }
{
    Errors::new(err).refuse(alloc, columns, program, refusal, status, out)
}
