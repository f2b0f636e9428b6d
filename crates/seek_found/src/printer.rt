//! Answers of a walk, filtered and printed.
ghost use Rattle.std.specs.Prelude.{◌≡◌, ◌≢◌, ◌&&◌, ◌∷◌, [], Ok, Some, None, true, false, if◌then◌else◌, IfOk, OnOk};
ghost use Rattle.std.specs.List.{list_all};
ghost use Rattle.std.specs.Io.KnownBytes.{Appends, append_known};
ghost use Rattle.jwalk_job.specs.Entry.{entry, item};
ghost use Rattle.seek_words.specs.Filter.{sought_of};
ghost use Rattle.seek_words.specs.Lines.{form_of, gathered_of};
ghost use Rattle.seek_words.specs.Sought.{IfEmpties};
ghost use Rattle.seek_found.specs.Found.{entry_line, found_line, found_lines, is_clean, IfAsked};
ghost use Rattle.seek_found.specs.Limit.{is_hit, left_after, one_less};
ghost use Rattle.seek_found.specs.Prune.{below_after, is_below, unpruned_behind};

use crate::report::{report_entry, report_error};
use jwalk_fs::file_system::FileSystem;
use jwalk_job::client_state::ClientState;
use jwalk_job::dir_entry::DirEntry;
use jwalk_job::error::Result as Answer;
use program_parts::halt::Halt;
use seek_words::filter::Filter;
use seek_words::lines::Lines;
use seek_words::name_test::NameTest;
use seek_words::shown::Shown;
use std::alloc::Allocator;
use std::io::Write;

/// A printer of the answers that pass a filter.
#[derive(Drop)]
pub struct Printer<'w, T: NameTest> {
    /// The filter.
    pub filter: Filter<'w, T>,
    /// The lines of the answers that passed.
    pub lines: Lines,
    /// How many more entries may pass, if there is a limit.
    pub left: Option<usize>,
}

fn left_after(left: Option<usize>, passes: bool) -> Option<usize>
    ensures { result ≡ (if passes then one_less left else left) }
{
    match left {
        Some(left) if passes => Some(left.saturating_sub(1)),
        left => left,
    }
}

/// Returns the depth of an entry, if nothing below it is looked for.
fn pruned_at(prunes: bool, passes: bool, depth: usize) -> Option<usize>
    ensures { result ≡ (if prunes && passes then Some depth else None) }
{
    if prunes && passes { Some(depth) } else { None }
}

fn is_below<C: ClientState, A: Allocator + Copy>(
    below: Option<usize>,
    answer: &Answer<DirEntry<C, A>, A>,
) -> bool
    ensures { result ≡ is_below below (item answer.now) }
{
    match (below, answer) {
        (None, _) => false,
        (Some(depth), Ok(found)) => depth < found.depth(),
        (Some(depth), Err(error)) => depth < error.depth(),
    }
}

/// Returns whether the entry passes the filter.
fn print_entry<T: NameTest, S: FileSystem, C: ClientState, A: Allocator + Copy, W: Write>(
    filter: &mut Filter<'_, T>,
    lines: &mut Lines,
    disk: &S,
    found: &DirEntry<C, A>,
    out: &mut W,
) -> Result<bool, Halt>
    ensures hit { IfOk result (λ passes. IfEmpties (S.IsFixed disk.now) (sought_of T.takes (S.functions disk.now) filter.old)
        → passes ≡ is_hit (sought_of T.takes (S.functions disk.now) filter.old) (Ok (entry found.now))) }
    ensures printed { OnOk result (IfAsked (S.IsFixed disk.now) (sought_of T.takes (S.functions disk.now) filter.old) (form_of (S.functions disk.now) lines.old)
        → Appends (append_known (W.contents out.old) (gathered_of lines.old))
        (append_known (W.contents out.new) (gathered_of lines.new))
        (entry_line (sought_of T.takes (S.functions disk.now) filter.old) (form_of (S.functions disk.now) lines.old) (entry found.now))) }
    ensures sought { sought_of T.takes (S.functions disk.now) filter.new ≡ sought_of T.takes (S.functions disk.now) filter.old }
    ensures form { form_of (S.functions disk.now) lines.new ≡ form_of (S.functions disk.now) lines.old }
{
    let shown = Shown {
        file_type: found.file_type(),
        seen: found.metadata_seen(),
        folder: found.parent_path(),
        name: found.file_name(),
    };
    if !filter.passes(disk, found.depth(), shown)? {
        return Ok(false);
    }
    lines.print(disk, shown, out)?;
    Ok(true)
}

impl<'w, T: NameTest> Printer<'w, T> {
    /// Returns whether no further entry may pass.
    pub fn is_full(&self) -> bool
        ensures full { result ≡ true → self.now.left ≡ Some 0 }
        ensures room { result ≡ false → self.now.left ≢ Some 0 }
    {
        matches!(self.left, Some(0))
    }

    fn print_kept<S: FileSystem, C: ClientState, A: Allocator + Copy, W: Write, E: Write>(
        &mut self,
        answer: &Answer<DirEntry<C, A>, A>,
        below: &mut Option<usize>,
        disk: &S,
        out: &mut W,
        err: &mut E,
    ) -> Result<bool, Halt>
        ensures clean { IfOk result (λ clean. clean ≡ is_clean (item answer.now)) }
        ensures printed { OnOk result (IfAsked (S.IsFixed disk.now) (sought_of T.takes (S.functions disk.now) self.old.filter) (form_of (S.functions disk.now) self.old.lines)
            → Appends (append_known (W.contents out.old) (gathered_of self.old.lines))
            (append_known (W.contents out.new) (gathered_of self.new.lines))
            (found_line (sought_of T.takes (S.functions disk.now) self.old.filter) (form_of (S.functions disk.now) self.old.lines) (item answer.now))) }
        ensures left { OnOk result (IfEmpties (S.IsFixed disk.now) (sought_of T.takes (S.functions disk.now) self.old.filter) → self.new.left
            ≡ left_after (sought_of T.takes (S.functions disk.now) self.old.filter) self.old.left (item answer.now ∷ [])) }
        ensures below { OnOk result (IfEmpties (S.IsFixed disk.now) (sought_of T.takes (S.functions disk.now) self.old.filter) → below.new ≡ below_after (sought_of T.takes (S.functions disk.now) self.old.filter) below.old (item answer.now)) }
        ensures sought { sought_of T.takes (S.functions disk.now) self.new.filter ≡ sought_of T.takes (S.functions disk.now) self.old.filter }
        ensures form { form_of (S.functions disk.now) self.new.lines ≡ form_of (S.functions disk.now) self.old.lines }
    {
        match answer {
            Ok(found) => {
                let passes = print_entry(&mut self.filter, &mut self.lines, disk, found, out)?;
                self.left = left_after(self.left, passes);
                *below = pruned_at(self.filter.prunes, passes, found.depth());
                Ok(report_entry(found, err))
            }
            Err(error) => {
                report_error(error, err);
                Ok(false)
            }
        }
    }

    /// Prints the line of an answer, if it is an entry that passes. Reports the error, if there is one. Returns whether
    /// there is none. An answer that is deeper than `below` is left out. `below` is the depth of the last entry that
    /// passed, if nothing below it is looked for. The disk is asked about directories if only empty entries are looked
    /// for, and where links lead if their colors tell.
    ///
    /// # Errors
    ///
    /// If memory runs out, or if the output can't be written.
    pub fn print<S: FileSystem, C: ClientState, A: Allocator + Copy, W: Write, E: Write>(
        &mut self,
        answer: Answer<DirEntry<C, A>, A>,
        below: &mut Option<usize>,
        disk: &S,
        out: &mut W,
        err: &mut E,
    ) -> Result<bool, Halt>
        ensures clean { IfOk result (λ clean. clean ≡ list_all is_clean
            (unpruned_behind (sought_of T.takes (S.functions disk.now) self.old.filter) below.old (item answer ∷ []))) }
        ensures printed { OnOk result (IfAsked (S.IsFixed disk.now) (sought_of T.takes (S.functions disk.now) self.old.filter) (form_of (S.functions disk.now) self.old.lines)
            → Appends (append_known (W.contents out.old) (gathered_of self.old.lines))
            (append_known (W.contents out.new) (gathered_of self.new.lines))
            (found_lines (sought_of T.takes (S.functions disk.now) self.old.filter) (form_of (S.functions disk.now) self.old.lines)
            (unpruned_behind (sought_of T.takes (S.functions disk.now) self.old.filter) below.old (item answer ∷ [])))) }
        ensures left { OnOk result (IfEmpties (S.IsFixed disk.now) (sought_of T.takes (S.functions disk.now) self.old.filter) → self.new.left ≡ left_after (sought_of T.takes (S.functions disk.now) self.old.filter) self.old.left
            (unpruned_behind (sought_of T.takes (S.functions disk.now) self.old.filter) below.old (item answer ∷ []))) }
        ensures below { OnOk result (IfEmpties (S.IsFixed disk.now) (sought_of T.takes (S.functions disk.now) self.old.filter) → below.new ≡ (if is_below below.old (item answer) then below.old
            else below_after (sought_of T.takes (S.functions disk.now) self.old.filter) below.old (item answer))) }
        ensures sought { sought_of T.takes (S.functions disk.now) self.new.filter ≡ sought_of T.takes (S.functions disk.now) self.old.filter }
        ensures form { form_of (S.functions disk.now) self.new.lines ≡ form_of (S.functions disk.now) self.old.lines }
    {
        if is_below(*below, &answer) {
            return Ok(true);
        }
        self.print_kept(&answer, below, disk, out, err)
    }
}
