//! The answers of a walk, printed.
ghost use Rattle.std.specs.Prelude.{◌≡◌, ◌≤◌, ◌⊎◌, [], true, false, codes, Ok, is_ok, IfOk, IfErr, OnOk};
ghost use Rattle.std.specs.Io.KnownBytes.{Appends, append_known};
ghost use Rattle.jwalk_job.specs.Entry.{item};
ghost use Rattle.jwalk_model.specs.Lines.{line_of};
ghost use Rattle.program_parts.specs.Errors.{IsTold};
ghost use Rattle.walk_text.specs.Failure.{status_of};

use jwalk::error::Result as Answer;
use jwalk::{ClientState, DirEntry};
use program_parts::errors::Errors;
use program_parts::gathered::Gathered;
use program_parts::halt::Halt;
use std::alloc::Allocator;
use std::io::Write;
use walk_text::failure::Failure;
use walk_text::print::print_answer;

fn failure_of(halt: Halt) -> Failure
    ensures { status_of result ≡ 1 }
{
    match halt {
        Halt::Memory => Failure::Memory,
        Halt::Output(_) => Failure::Output,
    }
}

/// Writes the lines that are gathered.
fn write_gathered<W: Write, A: Allocator>(
    gathered: &mut Gathered<A>,
    out: &mut W,
) -> Result<(), Failure>
    ensures written { OnOk result (Appends (W.contents out.old) (W.contents out.new) gathered.old.bytes.items) }
    ensures empty { OnOk result (gathered.new.bytes.items ≡ []) }
    ensures status { IfErr result (λ failure. status_of failure ≡ 1) }
{
    match gathered.write(out) {
        Ok(()) => Ok(()),
        Err(halt) => Err(failure_of(halt)),
    }
}

/// Prints the line of an answer: it is gathered, and written once there are enough.
fn gather<W: Write, C: ClientState, A: Allocator + Copy>(
    answer: &Answer<DirEntry<C, A>, A>,
    gathered: &mut Gathered<A>,
    out: &mut W,
) -> Result<(), Failure>
    ensures printed { OnOk result (Appends (append_known (W.contents out.old) gathered.old.bytes.items)
        (append_known (W.contents out.new) gathered.new.bytes.items) (line_of (item answer.now))) }
    ensures status { IfErr result (λ failure. status_of failure ≡ 1) }
{
    if print_answer(&mut gathered.bytes, answer).is_err() {
        return Err(Failure::Memory);
    }
    if !gathered.are_due(false) {
        return Ok(());
    }
    write_gathered(gathered, out)
}

/// Prints the line of an answer, and returns whether it is an entry.
pub fn print_one<W: Write, C: ClientState, A: Allocator + Copy>(
    answer: Answer<DirEntry<C, A>, A>,
    gathered: &mut Gathered<A>,
    out: &mut W,
) -> Result<bool, Failure>
    ensures entry { IfOk result (λ is_entry. is_entry ≡ is_ok answer) }
    ensures printed { OnOk result (Appends (append_known (W.contents out.old) gathered.old.bytes.items)
        (append_known (W.contents out.new) gathered.new.bytes.items) (line_of (item answer))) }
    ensures status { IfErr result (λ failure. status_of failure ≡ 1) }
{
    gather(&answer, gathered, out)?;
    Ok(answer.is_ok())
}

/// Writes the lines that are left, and flushes the output.
pub fn write_rest<W: Write, A: Allocator>(
    gathered: &mut Gathered<A>,
    out: &mut W,
) -> Result<(), Failure>
    ensures written { OnOk result (Appends (W.contents out.old) (W.contents out.new) gathered.old.bytes.items) }
    ensures status { IfErr result (λ failure. status_of failure ≡ 1) }
{
    match gathered.finish(out) {
        Ok(()) => Ok(()),
        Err(halt) => Err(failure_of(halt)),
    }
}

/// Returns the status after answers were printed, or could not be, which is then told.
pub fn status_once<E: Write>(printed: Result<bool, Failure>, err: &mut Errors<E>) -> u8
    requires { IfErr printed (λ failure. status_of failure ≡ 1) }
    ensures status { result ≤ 1 }
    ensures clean { result ≡ 0 → printed ≡ Ok true }
    ensures none_told { printed ≡ Ok true → result ≡ 0 }
    ensures told { result ≡ 1 → (printed ≡ Ok false) ⊎ IsTold E.contents (codes "walk") err.new }
{
    match printed {
        Ok(true) => 0,
        Ok(false) => 1,
        Err(failure) => failure.report(err),
    }
}
