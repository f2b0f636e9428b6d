//! Errors of a program, as it tells them.
ghost use Rattle.std.specs.Prelude.{Some, IfSome};
ghost use Rattle.program_parts.specs.Told.{IsToldBy};

use crate::halt::Halt;
use std::alloc::Global;
use std::fmt::Display;
use std::io;
use std::io::{ErrorKind, Write};

/// How an error was told.
#[derive(Clone, Copy, Debug, PartialEq, Eq)]
pub enum Told {
    /// By a line.
    Line,
    /// By a line that couldn't be written.
    Lost,
    /// By none, since it is the output that can't be written.
    Output,
}

/// Errors of programs, each told by a line that begins with a program's name.
#[derive(Drop)]
pub struct Errors<E> {
    /// What the lines are written to.
    err: E,
    /// How the last error was told, if there was one.
    told: Option<Told>,
}

/// Writes a line: the name of a program, a colon, a space, and what is said of an error.
fn write_line<D: Display + Drop, E: Write>(program: &str, what: D, err: &mut E) -> Told
    ensures { IfSome (D.output what) (λ _. IsToldBy E.contents program.now (Some result) err.new) }
{
    match writeln!(err, "{program}: {what}") {
        Ok(()) => Told::Line,
        Err(_) => Told::Lost,
    }
}

impl<E: Write> Errors<E> {
    ghost use Rattle.std.specs.Prelude.{◌≡◌, Some, None};
    ghost use Rattle.program_parts.specs.Errors.{told_of, writer_of, IsTold};

    /// Returns errors of which none was told yet.
    pub fn new(err: E) -> Self
        ensures writer { writer_of result ≡ err }
        ensures none { told_of result ≡ None }
    {
        Errors { err, told: None }
    }

    /// Returns how the last error was told, if there was one.
    pub fn told(&self) -> Option<Told>
        ensures { result ≡ told_of self.now }
    {
        self.told
    }

    /// Tells an error by a line: the name of a program, a colon, a space, and what is said of the error.
    pub fn tell<D: Display + Drop>(&mut self, program: &str, what: D)
        ensures told { IfSome (D.output what) (λ _. IsTold E.contents program.now self.new) }
    {
        self.told = Some(write_line(program, what, &mut self.err));
    }

    /// Takes note that the output can't be written, and writes no line.
    pub fn pass_over_output(&mut self)
        ensures told { told_of self.new ≡ Some Told.Output }
    {
        self.told = Some(Told::Output);
    }

    /// Tells why a program ends early. A pipe that its reader closed has no line.
    pub fn tell_halt(&mut self, alloc: Global, program: &str, halt: Halt)
        ensures told { IsTold E.contents program.now self.new }
    {
        match halt {
            Halt::Memory => self.tell(program, "memory refused"),
            Halt::Output(error) if error.kind() == ErrorKind::BrokenPipe => self.pass_over_output(),
            Halt::Output(error) => match format!(in alloc; "cannot write: {error}") {
                Ok(what) => self.tell(program, what.as_str()),
                Err(_) => self.tell(program, "cannot write"),
            },
        }
    }
}

impl<E: Write> Write for Errors<E> {
    fn write(&mut self, buf: &[u8]) -> io::Result<usize> {
        self.err.write(buf)
    }

    fn flush(&mut self) -> io::Result<()> {
        self.err.flush()
    }
}
