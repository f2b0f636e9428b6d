//! All answers of a walk, filtered and printed.
ghost use Rattle.std.specs.Prelude.{◌≡◌, IfOk};
ghost use Rattle.std.specs.Iterator.{IsFinite};
ghost use Rattle.std.specs.Io.KnownBytes.{append_known};
ghost use Rattle.seek_words.specs.Filter.{sought_of};
ghost use Rattle.seek_words.specs.Lines.{form_of, gathered_of};
ghost use Rattle.seek_found.specs.Found.{IfAsked, PrintsFound};

use crate::printer::Printer;
use jwalk_fs::file_system::FileSystem;
use jwalk_job::client_state::ClientState;
use jwalk_job::dir_entry::DirEntry;
use jwalk_job::error::Result as Answer;
use program_parts::halt::Halt;
use seek_words::name_test::NameTest;
use std::alloc::Allocator;
use std::io::Write;
use std::time::Clock;

/// Prints those of a walk's answers that pass, up to the limit, and reports the errors. Returns whether there was none.
/// What lies below an entry that passes is left out, if the filter prunes. The disk is asked about directories if only
/// empty entries are looked for, and where links lead if their colors tell. Gathered lines are written at the first
/// answer that comes 100 milliseconds after the oldest of them.
///
/// # Errors
///
/// If memory runs out, or if the output can't be written.
pub fn print_found<
    S: FileSystem,
    K: Clock,
    T: NameTest,
    W: Write,
    E: Write,
    C: ClientState,
    A: Allocator + Copy,
    I: Iterator<Item = Answer<DirEntry<C, A>, A>>,
>(
    answers: &mut I,
    printer: &mut Printer<'_, T>,
    disk: &S,
    clock: &K,
    out: &mut W,
    err: &mut E,
) -> Result<bool, Halt>
    requires can { I.can_next answers.old }
    requires ends { IsFinite (I.remaining answers.old) }
    ensures printed { IfOk result (λ clean. IfAsked (S.IsFixed disk.now) (sought_of T.takes (S.functions disk.now) printer.old.filter) (form_of (S.functions disk.now) printer.old.lines)
        → PrintsFound I.next_gives answers.old (sought_of T.takes (S.functions disk.now) printer.old.filter)
        (form_of (S.functions disk.now) printer.old.lines) printer.old.left printer.new.left
        (append_known (W.contents out.old) (gathered_of printer.old.lines))
        (append_known (W.contents out.new) (gathered_of printer.new.lines)) clean) }
    ensures sought { sought_of T.takes (S.functions disk.now) printer.new.filter ≡ sought_of T.takes (S.functions disk.now) printer.old.filter }
    ensures form { form_of (S.functions disk.now) printer.new.lines ≡ form_of (S.functions disk.now) printer.old.lines }
{
    let mut clean = true;
    let mut below = None;
    while !printer.is_full() {
        let Some(answer) = answers.next() else {
            return Ok(clean);
        };
        clean &= printer.print(answer, &mut below, disk, out, err)?;
        printer.lines.write_old(clock, out)?;
    }
    Ok(clean)
}
