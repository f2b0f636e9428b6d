//! A search below roots.
ghost use Rattle.std.specs.Prelude.{◌≡◌, ◌≢◌, ◌&&◌, [], Some, false, flat_map, is_some, true, IfOk};
ghost use Rattle.std.specs.Arc.{arc_value};
ghost use Rattle.program_parts.specs.Values.{texts_of as texts_now};
ghost use Rattle.jwalk.specs.jwalk_model.Options.{with_skip_hidden};
ghost use Rattle.jwalk.specs.jwalk_job.Options.{options_value};
ghost use Rattle.jwalk.specs.WalkDir.{callback_of, described, file_system_of, options_of, root_of, state_of, with_callback, Sets};
ghost use Rattle.jwalk_ignore.specs.Callback.States.{rules_held};
ghost use Rattle.jwalk_ignore.specs.Rules.Chain.{no_rules};
ghost use Rattle.jwalk_ignore.specs.Callback.IgnoreViews.{next_of, settings_of, texts_of};
ghost use Rattle.jwalk_ignore.specs.Callback.Excluding.{excluded_of};
ghost use Rattle.jwalk_ignore.specs.Callback.Kept.{ignoring_walk};
ghost use Rattle.program_walks.specs.Folders.{found_in, has_folders};
ghost use Rattle.seek_search.specs.Below.{PrintsBelow, PrintsRoots, WritesRoots};
ghost use Rattle.seek_search.specs.Goes.{IsHonouring, IsPlain, Yielded};
ghost use Rattle.seek_search.specs.Printed.{PrintsAll, PrintsThose, PrintsWalk, StaysAs, WritesAll};
ghost use Rattle.seek_search.specs.Search.{all_below, excluded_asked, kept_below, options_asked, roots_asked, settings_asked, unpruned_below, yielded_by};
ghost use Rattle.seek_found.specs.Prune.{unpruned};

use crate::excluded::{excluding_of, naming_of};
use jwalk::file_system::FileSystem;
use jwalk::read_dir::{Both, ProcessReadDir};
use jwalk::{ClientState, Crew, Options, WalkDirGeneric};
use jwalk_ignore::builder::with_ignore_files;
use jwalk_ignore::excluding::Excluding;
use jwalk_ignore::ignore_files::IgnoreFiles;
use jwalk_ignore::rules::Rules;
use jwalk_ignore::states::OnlyRules;
use jwalk_ignore::texts::Texts;
use program_parts::halt::Halt;
use program_walks::crew::{CrewWalk, Plain, walk_below};
use program_walks::folders::{has_folders, look_at};
use seek_found::call::Ended;
use seek_found::found::print_found;
use seek_found::printer::Printer;
use seek_found::report::report_none;
use seek_found::sought_test::SoughtTest;
use seek_words::asked::Asked;
use std::alloc::{AllocError, Global};
use std::io::Write;
use std::sync::{Arc, Wait};
use std::thread::Threads;
use std::time::Clock;

/// A callback without ignore files: it drops what lines of named files leave out, and then what `-E` does.
type LeavesOut = Both<Excluding, Excluding>;

/// A callback that honours ignore files, and then drops what `-E` leaves out.
type Honours<X> = IgnoreFiles<Arc<X>, Excluding>;

/// A walk without ignore files.
pub(crate) type PlainWalk<T, S> = CrewWalk<T, ((), ()), Arc<S>, LeavesOut>;

/// A walk with ignore files.
pub(crate) type HonouringWalk<T, S, X> = CrewWalk<T, OnlyRules, Arc<S>, Honours<X>>;

/// A crew may read for the walk. The disk is asked about directories if only empty entries are looked for, and where links
/// lead if their colors tell.
fn print_begun<
    T: Wait + Threads + Clock + Drop + Send + Sync + 'static,
    K: Clock,
    C: ClientState + Send + 'static,
    S: FileSystem + Send + Sync + 'static,
    P: ProcessReadDir<C, Global> + Send + Sync + 'static,
    W: Write,
    E: Write,
>(
    walk: WalkDirGeneric<C, S, P, Global, Crew<T>>,
    disk: &S,
    printer: &mut Printer<'_, SoughtTest<'_>>,
    clock: &K,
    out: &mut W,
    err: &mut E,
) -> Result<bool, Halt>
where
    C::ReadDirState: Send + 'static,
    C::DirEntryState: Send + 'static,
    requires lawful { P.IsLawful (callback_of walk) }
    requires keeps { P.KeepsRoot (callback_of walk) }
    ensures whole { IfOk result (PrintsWalk S.FileSystem P.ProcessReadDir C.ReadDirState.Clone C.DirEntryState.Default disk.now walk
        printer.old printer.new (W.contents out.old) (W.contents out.new)) }
    ensures yielded { IfOk result (PrintsThose (S.IsFixed disk.now) (S.functions disk.now) (Yielded ⟦<CrewWalk<T, C, S, P> as Iterator>⟧.next_gives (λ it. it ≡ walk))
        printer.old printer.new (W.contents out.old) (W.contents out.new)) }
    ensures stays { StaysAs (S.functions disk.now) printer.old printer.new }
{
    let mut answers = walk.into_iter();
    print_found(&mut answers, printer, disk, clock, out, err)
}

/// Returns the rules that are asked for, from these texts alone.
fn rules_in<X: Texts>(asked: &Asked<'_>, texts: X) -> IgnoreFiles<X>
    ensures texts { texts_of result ≡ texts }
    ensures settings { settings_of result ≡ settings_asked [] asked.now }
{
    IgnoreFiles::new(texts)
        .keep_hidden(asked.hidden)
        .version_control(!asked.no_vcs)
        .above_the_root(!asked.no_parents)
        .fdignore(true)
        .drop_errors(true)
}

/// Returns the rules that are asked for, from these texts and of these lines.
fn rules_of<X: Texts>(
    alloc: Global,
    asked: &Asked<'_>,
    lines: &[u8],
    texts: X,
) -> Result<IgnoreFiles<X>, AllocError>
    ensures texts { IfOk result (λ it. texts_of it ≡ texts) }
    ensures settings { IfOk result (λ it. settings_of it ≡ settings_asked lines.now asked.now) }
{
    let rules = rules_in(asked, texts);
    if lines.is_empty() {
        return Ok(rules);
    }
    Ok(rules.given(Rules::parse(alloc, lines)?))
}

/// The walk honours these rules.
fn search_walk<
    T: Wait + Threads + Clock + Clone + Drop + Send + Sync + 'static,
    K: Clock,
    S: FileSystem + Send + Sync + 'static,
    X: Texts + Send + Sync + 'static,
    W: Write,
    E: Write,
>(
    walk: Plain<T, S>,
    disk: &Arc<S>,
    rules: Honours<X>,
    printer: &mut Printer<'_, SoughtTest<'_>>,
    clock: &K,
    out: &mut W,
    err: &mut E,
) -> Result<bool, Halt>
    ensures whole { IfOk result (λ clean. S.IsFixed (arc_value disk.now) → S.IsFixed (arc_value (file_system_of walk)) → X.IsFixed (arc_value (texts_of rules))
        → rules_held (state_of walk) ≡ no_rules → PrintsAll (S.functions (arc_value disk.now)) (λ sought. unpruned sought
        (ignoring_walk (S.functions (arc_value (file_system_of walk))) (X.functions (arc_value (texts_of rules)))
        (settings_of rules) (excluded_of (next_of rules)) (options_of walk) (root_of walk)))
        printer.old printer.new (W.contents out.old) (W.contents out.new) clean) }
    ensures yielded { IfOk result (PrintsThose (S.IsFixed (arc_value disk.now)) (S.functions (arc_value disk.now)) (Yielded ⟦<HonouringWalk<T, S, X> as Iterator>⟧.next_gives
        (Sets (record (with_callback rules (described walk)) { options = with_skip_hidden false (options_of walk) })))
        printer.old printer.new (W.contents out.old) (W.contents out.new)) }
    ensures stays { StaysAs (S.functions (arc_value disk.now)) printer.old printer.new }
{
    print_begun(
        with_ignore_files(walk, rules),
        disk,
        printer,
        clock,
        out,
        err,
    )
}

#[derive(Drop)]
pub(crate) struct Search<'a, 'w, T, K, S, X> {
    pub(crate) clock: &'a K,
    pub(crate) asked: &'a Asked<'w>,
    /// The lines of the ignore files that decide last.
    pub(crate) lines: &'a [u8],
    pub(crate) disk: Arc<S>,
    pub(crate) texts: Arc<X>,
    pub(crate) crew: Option<Arc<Crew<T>>>,
}

impl<
    'a,
    'w,
    T: Wait + Threads + Clock + Clone + Drop + Send + Sync + 'static,
    K: Clock,
    S: FileSystem + Send + Sync + 'static,
    X: Texts + Send + Sync + 'static,
> Search<'a, 'w, T, K, S, X> {
    fn options(&self) -> Options
        ensures { options_value result ≡ options_asked self.now.asked.now }
    {
        Options::new()
            .with_sort(self.asked.sort)
            .with_skip_hidden(!self.asked.hidden)
            .with_follow_links(self.asked.follow)
            .with_same_file_system(self.asked.one_file_system)
            .with_keep_metadata(self.asked.needs_metadata())
            .with_max_depth(self.asked.depths.greatest.unwrap_or(usize::MAX))
    }

    /// Ignores ignore files.
    fn search_all<W: Write, E: Write>(
        &self,
        alloc: Global,
        crew: &Option<Arc<Crew<T>>>,
        root: &str,
        printer: &mut Printer<'_, SoughtTest<'_>>,
        out: &mut W,
        err: &mut E,
    ) -> Result<bool, Halt>
        ensures whole { IfOk result (λ clean. S.IsFixed (arc_value self.now.disk) → PrintsAll (S.functions (arc_value self.now.disk)) (λ sought. unpruned sought
            (all_below (S.functions (arc_value self.now.disk)) self.now.lines.now self.now.asked.now
            (excluded_asked self.now.asked.now root.now) root.now))
            printer.old printer.new (W.contents out.old) (W.contents out.new) clean) }
        ensures yielded { IfOk result (PrintsThose (S.IsFixed (arc_value self.now.disk)) (S.functions (arc_value self.now.disk)) (Yielded ⟦<PlainWalk<T, S> as Iterator>⟧.next_gives
            (IsPlain (arc_value self.now.disk) crew.now self.now.lines.now self.now.asked.now root.now))
            printer.old printer.new (W.contents out.old) (W.contents out.new)) }
        ensures stays { StaysAs (S.functions (arc_value self.now.disk)) printer.old printer.new }
    {
        let naming = naming_of(alloc, self.lines, root)?;
        let excluding = excluding_of(alloc, self.asked, root)?;
        let root = String::from_str(alloc, root)?;
        let disk = self.disk.clone()?;
        let walk = walk_below::<((), ()), _, _, _>(disk, root, self.options(), crew)?;
        print_begun(
            walk.process_read_dir(Both::new(naming, excluding)),
            &self.disk,
            printer,
            self.clock,
            out,
            err,
        )
    }

    /// Honours ignore files.
    fn search_kept<W: Write, E: Write>(
        &self,
        alloc: Global,
        crew: &Option<Arc<Crew<T>>>,
        root: &str,
        printer: &mut Printer<'_, SoughtTest<'_>>,
        out: &mut W,
        err: &mut E,
    ) -> Result<bool, Halt>
        ensures whole { IfOk result (λ clean. S.IsFixed (arc_value self.now.disk) → X.IsFixed (arc_value self.now.texts)
            → PrintsAll (S.functions (arc_value self.now.disk)) (λ sought. unpruned sought
            (kept_below (S.functions (arc_value self.now.disk)) (X.functions (arc_value self.now.texts)) self.now.lines.now self.now.asked.now
            (excluded_asked self.now.asked.now root.now) root.now))
            printer.old printer.new (W.contents out.old) (W.contents out.new) clean) }
        ensures yielded { IfOk result (PrintsThose (S.IsFixed (arc_value self.now.disk)) (S.functions (arc_value self.now.disk)) (Yielded ⟦<HonouringWalk<T, S, X> as Iterator>⟧.next_gives
            (IsHonouring (arc_value self.now.disk) (arc_value self.now.texts) crew.now self.now.lines.now self.now.asked.now root.now))
            printer.old printer.new (W.contents out.old) (W.contents out.new)) }
        ensures stays { StaysAs (S.functions (arc_value self.now.disk)) printer.old printer.new }
    {
        let excluding = excluding_of(alloc, self.asked, root)?;
        let texts = self.texts.clone()?;
        let rules = rules_of(alloc, self.asked, self.lines, texts)?.then(excluding);
        let root = String::from_str(alloc, root)?;
        let disk = self.disk.clone()?;
        let walk = walk_below::<OnlyRules, _, _, _>(disk, root, self.options(), crew)?;
        search_walk(walk, &self.disk, rules, printer, self.clock, out, err)
    }

    /// Returns whether there is a crew, and directories may be in a root.
    fn needs_crew(&self, root: &str) -> Result<bool, AllocError>
        ensures { S.IsFixed (arc_value self.now.disk) → IfOk result (λ needed. needed ≡ is_some self.now.crew
            && has_folders self.now.asked.now.follow (found_in ((S.functions (arc_value self.now.disk)).meta_of root.now))) }
    {
        Ok(self.crew.is_some() && has_folders(look_at(&self.disk, root)?, self.asked.follow))
    }

    /// Prints what is found, and reports errors. Returns whether there was none. A root that no directory is in needs no
    /// crew.
    fn below<W: Write, E: Write>(
        &self,
        alloc: Global,
        root: &str,
        printer: &mut Printer<'_, SoughtTest<'_>>,
        out: &mut W,
        err: &mut E,
    ) -> Result<bool, Halt>
        ensures whole { IfOk result (λ clean. S.IsFixed (arc_value self.now.disk) → X.IsFixed (arc_value self.now.texts)
            → PrintsAll (S.functions (arc_value self.now.disk)) (λ sought. unpruned_below (S.functions (arc_value self.now.disk)) (X.functions (arc_value self.now.texts))
            self.now.lines.now self.now.asked.now sought root.now)
            printer.old printer.new (W.contents out.old) (W.contents out.new) clean) }
        ensures yielded { IfOk result (PrintsBelow S.FileSystem ⟦<PlainWalk<T, S> as Iterator>⟧.next_gives ⟦<HonouringWalk<T, S, X> as Iterator>⟧.next_gives
            self.now root.now printer.old printer.new (W.contents out.old) (W.contents out.new)) }
        ensures stays { StaysAs (S.functions (arc_value self.now.disk)) printer.old printer.new }
    {
        let none = None;
        let crew = if self.needs_crew(root)? {
            &self.crew
        } else {
            &none
        };
        if self.asked.no_ignore {
            return self.search_all(alloc, crew, root, printer, out, err);
        }
        self.search_kept(alloc, crew, root, printer, out, err)
    }

    /// Searches the two halves of the roots in turn. Returns whether there was no error.
    fn below_each<W: Write, E: Write>(
        &self,
        alloc: Global,
        roots: &[&str],
        printer: &mut Printer<'_, SoughtTest<'_>>,
        out: &mut W,
        err: &mut E,
    ) -> Result<bool, Halt>
        ensures yielded { IfOk result (PrintsRoots S.FileSystem ⟦<PlainWalk<T, S> as Iterator>⟧.next_gives ⟦<HonouringWalk<T, S, X> as Iterator>⟧.next_gives
            self.now (texts_now roots.now) printer.old printer.new (W.contents out.old) (W.contents out.new)) }
        ensures whole { IfOk result (λ clean. S.IsFixed (arc_value self.now.disk) → X.IsFixed (arc_value self.now.texts)
            → PrintsAll (S.functions (arc_value self.now.disk)) (λ sought. flat_map (unpruned_below (S.functions (arc_value self.now.disk))
            (X.functions (arc_value self.now.texts)) self.now.lines.now self.now.asked.now sought) (texts_now roots.now)) printer.old printer.new (W.contents out.old) (W.contents out.new) clean) }
        ensures stays { StaysAs (S.functions (arc_value self.now.disk)) printer.old printer.new }
    {
        match roots {
            [] => Ok(true),
            [root] => self.below(alloc, root, printer, out, err),
            _ => {
                let (first, rest) = roots.split_at(roots.len() / 2);
                let clean = self.below_each(alloc, first, printer, out, err)?;
                if printer.is_full() {
                    return Ok(clean);
                }
                Ok(clean & self.below_each(alloc, rest, printer, out, err)?)
            }
        }
    }

    /// Searches the roots that are asked for, or the folder that the program runs in, if none is named. Returns whether
    /// there was no error.
    fn below_roots<W: Write, E: Write>(
        &self,
        alloc: Global,
        printer: &mut Printer<'_, SoughtTest<'_>>,
        out: &mut W,
        err: &mut E,
    ) -> Result<bool, Halt>
        ensures yielded { IfOk result (PrintsRoots S.FileSystem ⟦<PlainWalk<T, S> as Iterator>⟧.next_gives ⟦<HonouringWalk<T, S, X> as Iterator>⟧.next_gives
            self.now (roots_asked self.now.asked.now) printer.old printer.new (W.contents out.old) (W.contents out.new)) }
        ensures whole { IfOk result (λ clean. S.IsFixed (arc_value self.now.disk) → X.IsFixed (arc_value self.now.texts)
            → PrintsAll (S.functions (arc_value self.now.disk))
            (yielded_by (S.functions (arc_value self.now.disk)) (X.functions (arc_value self.now.texts)) self.now.lines.now self.now.asked.now)
            printer.old printer.new (W.contents out.old) (W.contents out.new) clean) }
    {
        let roots = self.asked.roots.as_slice();
        if roots.is_empty() {
            return self.below(alloc, ".", printer, out, err);
        }
        self.below_each(alloc, roots, printer, out, err)
    }

    /// The same, and writes the lines that are gathered at last. If nothing is found, and all that is asked for is hidden,
    /// reports that.
    pub(crate) fn print<W: Write, E: Write>(
        &self,
        alloc: Global,
        printer: &mut Printer<'_, SoughtTest<'_>>,
        out: &mut W,
        err: &mut E,
    ) -> Result<Ended, Halt>
        ensures yielded { IfOk result (λ ended. WritesRoots S.FileSystem ⟦<PlainWalk<T, S> as Iterator>⟧.next_gives ⟦<HonouringWalk<T, S, X> as Iterator>⟧.next_gives
            self.now (roots_asked self.now.asked.now) printer.old printer.new (W.contents out.old) (W.contents out.new) ended.clean) }
        ensures whole { IfOk result (λ ended. S.IsFixed (arc_value self.now.disk) → X.IsFixed (arc_value self.now.texts)
            → WritesAll (S.functions (arc_value self.now.disk))
            (yielded_by (S.functions (arc_value self.now.disk)) (X.functions (arc_value self.now.texts)) self.now.lines.now self.now.asked.now)
            printer.old printer.new (W.contents out.old) (W.contents out.new) ended.clean) }
        ensures full { IfOk result (λ ended. ended.full ≡ true → printer.new.left ≡ Some 0) }
        ensures room { IfOk result (λ ended. ended.full ≡ false → printer.new.left ≢ Some 0) }
    {
        let clean = self.below_roots(alloc, printer, out, err)?;
        printer.lines.finish(out)?;
        if clean && !printer.lines.has_printed() {
            report_none(self.asked, err);
        }
        Ok(Ended {
            clean,
            full: printer.is_full(),
        })
    }
}
