//! The subtotals of a walk, taken one after another.
ghost use Rattle.std.specs.Prelude.{◌≡◌, Ok, false, IfOk, OnOk};
ghost use Rattle.std.specs.Iterator.{IsFinite};
ghost use Rattle.std.specs.List.{list_all};
ghost use Rattle.jwalk.specs.WalkDir.{callback_of};
ghost use Rattle.jwalk_subtotals.specs.Coming.{ends_with, value, CanGoOn, Gives};
ghost use Rattle.jwalk_subtotals.specs.Error.{is_last};
ghost use Rattle.jwalk_subtotals.specs.Files.{files_of};
ghost use Rattle.tally_run.specs.Results.{rows_of, Takes};
ghost use Rattle.tally_run.specs.Counting.{is_clean, TakesAll};
ghost use Rattle.tally_run.specs.Walks.{subtotals_taken, CountsAnswers, CountsWalk};

use crate::failure::Failure;
use crate::one_device::{OneDevice, root_before};
use crate::progress::Report;
use crate::report::{error_text, report_entry};
use crate::results::Results;
use crate::screen::Screen;
use crate::shown::Shown;
use jwalk::error::Result as Answer;
use jwalk::file_system::FileSystem;
use jwalk::read_dir::ProcessReadDir;
use jwalk::{ClientState, Crew, DirEntry, Host, WalkDirGeneric};
use jwalk_subtotals::iter::Subtotals;
use jwalk_subtotals::{Files, SubtotalError, SubtotalOptions, WithSubtotal, subtotals_beside};
use program_parts::halt::Halt;
use program_walks::crew::CrewWalk;
use std::alloc::{Allocator, Global};
use std::io::Write;
use tally_words::asked::Asked;

/// What was counted below a root.
#[derive(Drop)]
pub(crate) struct Counted {
    /// The files that are counted now.
    pub(crate) files: Files<Global>,
    /// There was no error.
    pub(crate) clean: bool,
}

/// Reports an error of the walk that came between subtotals.
///
/// # Errors
///
/// If nothing comes behind it, and then it isn't reported yet, or if memory runs out.
fn take_error<A: Allocator + Copy, E: Report>(
    alloc: Global,
    screen: Screen,
    error: SubtotalError<A>,
    err: &mut E,
) -> Result<(), Failure>
    ensures { OnOk result (is_last error ≡ false) }
{
    let is_last = error.is_last();
    match error {
        SubtotalError::Walk(error) => {
            let what = error_text(alloc, screen.shows_errors, &error)?;
            if is_last {
                return Err(Failure::Error(what));
            }
            err.error(what.as_str());
            Ok(())
        }
        SubtotalError::TooMany => Err(Failure::TooMany),
        SubtotalError::Memory => Err(Failure::Halt(Halt::Memory)),
    }
}

/// Takes the subtotal of an entry. Returns whether its directory could be read, if it is one.
fn take_found<C: ClientState, A: Allocator + Copy, W: Write, E: Report>(
    alloc: Global,
    screen: Screen,
    root: &str,
    found: &WithSubtotal<C, A>,
    shown: Shown,
    results: &mut Results,
    out: &mut W,
    err: &mut E,
) -> Result<bool, Failure>
    ensures taken { OnOk result (Takes (rows_of root.now shown (value (Ok found.now))) results.old (W.contents out.old)
        results.new (W.contents out.new)) }
    ensures clean { IfOk result (λ clean. clean ≡ list_all is_clean (value (Ok found.now))) }
{
    if found.entry.depth() == 0 {
        err.finish(&found.subtotal);
    }
    if shown.has(&found.entry) {
        results.take(alloc, root, found, out)?;
    }
    Ok(report_entry(alloc, screen.shows_errors, &found.entry, err)?)
}

/// Returns whether it is no error.
fn take_one<C: ClientState, A: Allocator + Copy, W: Write, E: Report>(
    alloc: Global,
    screen: Screen,
    root: &str,
    yielded: Result<WithSubtotal<C, A>, SubtotalError<A>>,
    shown: Shown,
    results: &mut Results,
    out: &mut W,
    err: &mut E,
) -> Result<bool, Failure>
    ensures taken { OnOk result (Takes (rows_of root.now shown (value yielded)) results.old (W.contents out.old)
        results.new (W.contents out.new)) }
    ensures goes_on { OnOk result (ends_with yielded ≡ false) }
    ensures clean { IfOk result (λ clean. clean ≡ list_all is_clean (value yielded)) }
{
    match yielded {
        Ok(found) => take_found(alloc, screen, root, &found, shown, results, out, err),
        Err(error) => {
            take_error(alloc, screen, error, err)?;
            Ok(false)
        }
    }
}

/// Tells how many entries were read, if that is due.
fn tell<
    C: ClientState,
    A: Allocator + Copy,
    I: Iterator<Item = Answer<DirEntry<C, A>, A>>,
    E: Report,
>(subtotals: &Subtotals<C, A, I>, err: &mut E) {
    if err.is_due() {
        if let Ok(so_far) = subtotals.so_far() {
            err.tell(&so_far);
        }
    }
}

/// Returns whether none of it is an error.
fn take_all<
    C: ClientState,
    A: Allocator + Copy,
    I: Iterator<Item = Answer<DirEntry<C, A>, A>>,
    W: Write,
    E: Report,
>(
    alloc: Global,
    screen: Screen,
    root: &str,
    subtotals: &mut Subtotals<C, A, I>,
    shown: Shown,
    results: &mut Results,
    out: &mut W,
    err: &mut E,
) -> Result<bool, Failure>
    requires { CanGoOn I.can_next I.remaining subtotals.old }
    ensures { IfOk result (TakesAll (Gives I.next_gives) root.now shown subtotals.old subtotals.new results.old (W.contents out.old)
        results.new (W.contents out.new)) }
{
    let mut clean = true;
    while let Some(yielded) = subtotals.next() {
        clean &= take_one(alloc, screen, root, yielded, shown, results, out, err)?;
        tell(subtotals, err);
    }
    Ok(clean)
}

/// Directories of all depths are yielded, since errors come with them.
fn options_of(asked: &Asked<'_>) -> SubtotalOptions
    ensures { result ≡ subtotals_taken asked.now }
{
    SubtotalOptions {
        apparent: asked.apparent,
        each_name: asked.each_name,
        all: asked.all,
        max_depth: usize::MAX,
    }
}

/// Counts a walk's answers beside the files that were counted before.
fn count_answers<
    C: ClientState,
    I: Iterator<Item = Answer<DirEntry<C, Global>, Global>> + Drop,
    W: Write,
    E: Report,
>(
    alloc: Global,
    screen: Screen,
    root: &str,
    answers: I,
    files: Files<Global>,
    asked: &Asked<'_>,
    results: &mut Results,
    out: &mut W,
    err: &mut E,
) -> Result<Counted, Failure>
    requires can { I.can_next answers }
    requires ends { IsFinite (I.remaining answers) }
    ensures { IfOk result (CountsAnswers I.next_gives answers asked.now root.now (files_of files) results.old (W.contents out.old)
        results.new (W.contents out.new)) }
{
    let mut subtotals = subtotals_beside(alloc, files, answers, options_of(asked));
    let clean = take_all(
        alloc,
        screen,
        root,
        &mut subtotals,
        Shown::of(asked),
        results,
        out,
        err,
    )?;
    Ok(Counted {
        files: subtotals.take_files(),
        clean,
    })
}

/// Begins a walk that a crew may read for, and counts it beside the files that were counted before. If one file system is
/// asked for, what is on other devices than the root doesn't count.
pub(crate) fn count_walk<
    T: Host,
    C: ClientState + Send + 'static,
    S: FileSystem + Send + Sync + 'static,
    P: ProcessReadDir<C, Global> + Send + Sync + 'static,
    W: Write,
    E: Report,
>(
    alloc: Global,
    screen: Screen,
    root: &str,
    walk: WalkDirGeneric<C, S, P, Global, Crew<T>>,
    files: Files<Global>,
    asked: &Asked<'_>,
    results: &mut Results,
    out: &mut W,
    err: &mut E,
) -> Result<Counted, Failure>
where
    C::ReadDirState: Send + 'static,
    C::DirEntryState: Send + 'static,
    requires { P.IsLawful (callback_of walk) }
    ensures { IfOk result (CountsWalk S.FileSystem P.ProcessReadDir C.ReadDirState.Clone C.DirEntryState.Default
        ⟦<CrewWalk<T, C, S, P> as Iterator>⟧.next_gives walk asked.now root.now (files_of files)
        results.old (W.contents out.old) results.new (W.contents out.new)) }
{
    let answers = OneDevice {
        answers: walk.into_iter(),
        root: root_before(asked.one_file_system),
    };
    count_answers(
        alloc, screen, root, answers, files, asked, results, out, err,
    )
}
