//! What a walk's answers come to, printed.
ghost use Rattle.std.specs.Prelude.{◌≡◌, ◌++◌, codes, IfOk, IfErr, OnOk};
ghost use Rattle.std.specs.Io.KnownBytes.{Appends};
ghost use Rattle.std.specs.Iterator.{IsFinite};
ghost use Rattle.jwalk_usage.specs.Totals.{usage_text};
ghost use Rattle.walk_text.specs.Failure.{status_of};
ghost use Rattle.walk_run.specs.Answers.{PrintsAll};
ghost use Rattle.walk_run.specs.Totals.{totals_line};

use crate::noting::Noting;
use jwalk::error::Result as Answer;
use jwalk::{ClientState, DirEntry};
use jwalk_usage::{Usage, UsageFault, usage_kept_of_rest};
use std::alloc::Allocator;
use std::io::Write;
use walk_text::failure::Failure;

fn failure_of(fault: UsageFault) -> Failure
    ensures { status_of result ≡ 1 }
{
    match fault {
        UsageFault::TooMany => Failure::TooMany,
        UsageFault::Memory => Failure::Memory,
    }
}

/// Also flushes the output.
fn write_line<W: Write>(usage: &Usage, out: &mut W) -> Result<(), Failure>
    ensures written { OnOk result (Appends (W.contents out.old) (W.contents out.new)
        (usage_text usage.now ++ codes "\n")) }
    ensures status { IfErr result (λ failure. status_of failure ≡ 1) }
{
    if writeln!(out, "{usage}").is_err() || out.flush().is_err() {
        return Err(Failure::Output);
    }
    Ok(())
}

/// Prints what the answers of an iterator come to by the metadata that they keep, and returns whether none was an error.
pub fn print_totals<
    C: ClientState,
    A: Allocator + Copy,
    I: Iterator<Item = Answer<DirEntry<C, A>, A>> + Drop,
    W: Write,
>(answers: I, out: &mut W) -> Result<bool, Failure>
    requires can { I.can_next answers }
    requires ends { IsFinite (I.remaining answers) }
    ensures printed { IfOk result (PrintsAll totals_line I.next_gives answers (W.contents out.old) (W.contents out.new)) }
    ensures status { IfErr result (λ failure. status_of failure ≡ 1) }
{
    let mut noting = Noting::new(answers);
    match usage_kept_of_rest(&mut noting) {
        Ok(usage) => write_line(&usage, out)?,
        Err(fault) => return Err(failure_of(fault)),
    }
    Ok(noting.is_clean())
}
