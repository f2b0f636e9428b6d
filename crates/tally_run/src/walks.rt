//! The walks below roots.
ghost use Rattle.std.specs.Prelude.{◌≡◌, length, IfOk};
ghost use Rattle.std.specs.Arc.{arc_value};
ghost use Rattle.jwalk.specs.jwalk_job.Options.{options_value};
ghost use Rattle.jwalk_ignore.specs.Callback.Excluding.{excluded_of};
ghost use Rattle.jwalk_subtotals.specs.Files.{files_of};
ghost use Rattle.program_parts.specs.Values.{texts_of as words_of};
ghost use Rattle.program_walks.specs.Crew.{threads_in, IsCrewOf};
ghost use Rattle.tally_run.specs.Counts.{CountsAll, CountsBy, CountsEach, CountsKept, CountsOne, CountsOwn, CountsPlain, CountsRuled};
ghost use Rattle.tally_run.specs.FollowedRoot.{disk_in, root_in};
ghost use Rattle.tally_run.specs.Run.{roots_asked};
ghost use Rattle.tally_run.specs.Walks.{excluded_asked, options_asked};

use crate::counting::{Counted, count_walk};
use crate::failure::Failure;
use crate::followed_root::FollowedRoot;
use crate::progress::Report;
use crate::report::report_root;
use crate::results::Results;
use crate::roots::{RootKind, Roots};
use crate::screen::Screen;
use jwalk::file_system::FileSystem;
use jwalk::{Crew, Host, Options};
use jwalk_ignore::builder::with_ignore_files;
use jwalk_ignore::excluding::Excluding;
use jwalk_ignore::ignore_files::IgnoreFiles;
use jwalk_ignore::states::OnlyRules;
use jwalk_ignore::texts::Texts;
use jwalk_subtotals::Files;
use program_walks::crew::{CrewWalk, Plain, crew_with, threads_in, walk_below};
use std::alloc::{AllocError, Global};
use std::io::Write;
use std::sync::Arc;
use tally_words::asked::Asked;

/// A callback that honours ignore files, and then drops what is excluded.
type Honours<X> = IgnoreFiles<Arc<X>, Excluding>;

/// A walk with ignore files.
type RuledWalk<T, S, X> = CrewWalk<T, OnlyRules, Arc<S>, Honours<X>>;

/// A walk below a root without ignore files.
pub(crate) type PlainWalk<T, S> = CrewWalk<T, ((), ()), Arc<FollowedRoot<S>>, Excluding>;

/// A walk below a root with ignore files.
pub(crate) type HonouringWalk<T, S, X> = RuledWalk<T, FollowedRoot<S>, X>;

/// Returns the callback that leaves out what is asked for below a root, with its errors. Where a walk without ignore
/// files skips hidden names, it leaves out theirs too.
fn excluding_of(alloc: Global, asked: &Asked<'_>, root: &str) -> Result<Excluding, AllocError>
    ensures { IfOk result (λ it. excluded_of it ≡ excluded_asked asked.now root.now) }
{
    let excluding = Excluding::new(alloc, asked.excludes.as_slice(), root)?;
    let skips_hidden = asked.exclude_hidden && !asked.ignore;
    Ok(excluding.drop_errors(true).drop_hidden_errors(skips_hidden))
}

fn count_ruled<
    T: Host,
    S: FileSystem + Send + Sync + 'static,
    X: Texts + Send + Sync + 'static,
    W: Write,
    E: Report,
>(
    alloc: Global,
    screen: Screen,
    root: &str,
    walk: Plain<T, S>,
    rules: Honours<X>,
    files: Files<Global>,
    asked: &Asked<'_>,
    results: &mut Results,
    out: &mut W,
    err: &mut E,
) -> Result<Counted, Failure>
    ensures { IfOk result (CountsRuled S.FileSystem X.Texts ⟦<RuledWalk<T, S, X> as Iterator>⟧.next_gives walk rules
        asked.now root.now (files_of files) results.old (W.contents out.old) results.new (W.contents out.new)) }
{
    count_walk(
        alloc,
        screen,
        root,
        with_ignore_files(walk, rules),
        files,
        asked,
        results,
        out,
        err,
    )
}

/// What is asked for, what errors are written to, what walks go over, and how they are read.
#[derive(Drop)]
pub(crate) struct Walks<'a, 'w, T, S, X> {
    asked: &'a Asked<'w>,
    screen: Screen,
    disk: Arc<S>,
    texts: Arc<X>,
    crew: Option<Arc<Crew<T>>>,
}

impl<
    'a,
    'w,
    T: Host,
    S: FileSystem + Send + Sync + 'static,
    X: Texts + Send + Sync + 'static,
> Walks<'a, 'w, T, S, X> {
    /// Returns the walks over a disk and files of rules that are asked for. If no number of threads is asked for, as many
    /// read as can run at a time, which are `cores`.
    ///
    /// # Errors
    ///
    /// If memory runs out.
    pub(crate) fn new(
        rt: &T,
        alloc: Global,
        cores: usize,
        asked: &'a Asked<'w>,
        screen: Screen,
        disk: S,
        texts: X,
    ) -> Result<Self, AllocError>
        ensures asked { IfOk result (λ walks. walks.asked.now ≡ asked.now) }
        ensures disk { IfOk result (λ walks. arc_value walks.disk ≡ disk) }
        ensures texts { IfOk result (λ walks. arc_value walks.texts ≡ texts) }
        ensures crew { IfOk result (λ walks. IsCrewOf (threads_in cores asked.now.threads) walks.crew) }
    {
        Ok(Walks {
            asked,
            screen,
            disk: Arc::new(alloc, disk)?,
            texts: Arc::new(alloc, texts)?,
            crew: crew_with(rt, alloc, threads_in(cores, asked.threads))?,
        })
    }

    /// Entries keep their metadata.
    fn options(&self) -> Options
        ensures { options_value result ≡ options_asked self.now.asked.now }
    {
        Options::new()
            .with_sort(self.asked.sort)
            .with_skip_hidden(self.asked.exclude_hidden)
            .with_follow_links(self.asked.follow)
            .with_same_file_system(self.asked.one_file_system)
            .with_keep_metadata(true)
    }

    /// Returns the disk of the walk below a root.
    fn disk_from(&self, alloc: Global, root: &str) -> Result<Arc<FollowedRoot<S>>, AllocError>
        ensures disk { IfOk result (λ it. disk_in it ≡ arc_value self.now.disk) }
        ensures root { IfOk result (λ it. root_in it ≡ root.now) }
    {
        let from = FollowedRoot {
            disk: self.disk.clone()?,
            root: String::from_str(alloc, root)?,
        };
        Ok(Arc::new(alloc, from)?)
    }

    fn count_all<W: Write, E: Report>(
        &self,
        alloc: Global,
        crew: &Option<Arc<Crew<T>>>,
        files: Files<Global>,
        root: &str,
        results: &mut Results,
        out: &mut W,
        err: &mut E,
    ) -> Result<Counted, Failure>
        ensures { IfOk result (CountsPlain S.FileSystem X.Texts ⟦<PlainWalk<T, S> as Iterator>⟧.next_gives ⟦<HonouringWalk<T, S, X> as Iterator>⟧.next_gives
            self.now crew.now root.now (files_of files) results.old (W.contents out.old) results.new (W.contents out.new)) }
    {
        let excluding = excluding_of(alloc, self.asked, root)?;
        let below = String::from_str(alloc, root)?;
        let disk = self.disk_from(alloc, root)?;
        let walk = walk_below::<((), ()), _, _, _>(disk, below, self.options(), crew)?;
        let walk = walk.process_read_dir(excluding);
        count_walk(
            alloc,
            self.screen,
            root,
            walk,
            files,
            self.asked,
            results,
            out,
            err,
        )
    }

    fn count_kept<W: Write, E: Report>(
        &self,
        alloc: Global,
        crew: &Option<Arc<Crew<T>>>,
        files: Files<Global>,
        root: &str,
        results: &mut Results,
        out: &mut W,
        err: &mut E,
    ) -> Result<Counted, Failure>
        ensures { IfOk result (CountsKept S.FileSystem X.Texts ⟦<PlainWalk<T, S> as Iterator>⟧.next_gives ⟦<HonouringWalk<T, S, X> as Iterator>⟧.next_gives
            self.now crew.now root.now (files_of files) results.old (W.contents out.old) results.new (W.contents out.new)) }
    {
        let excluding = excluding_of(alloc, self.asked, root)?;
        let rules = IgnoreFiles::new(self.texts.clone()?)
            .keep_hidden(!self.asked.exclude_hidden)
            .drop_errors(true)
            .then(excluding);
        let below = String::from_str(alloc, root)?;
        let disk = self.disk_from(alloc, root)?;
        let walk = walk_below::<OnlyRules, _, _, _>(disk, below, self.options(), crew)?;
        count_ruled(
            alloc,
            self.screen,
            root,
            walk,
            rules,
            files,
            self.asked,
            results,
            out,
            err,
        )
    }

    fn count_below<W: Write, E: Report>(
        &self,
        alloc: Global,
        crew: &Option<Arc<Crew<T>>>,
        files: Files<Global>,
        root: &str,
        results: &mut Results,
        out: &mut W,
        err: &mut E,
    ) -> Result<Counted, Failure>
        ensures { IfOk result (CountsBy S.FileSystem X.Texts ⟦<PlainWalk<T, S> as Iterator>⟧.next_gives ⟦<HonouringWalk<T, S, X> as Iterator>⟧.next_gives
            self.now crew.now root.now (files_of files) results.old (W.contents out.old) results.new (W.contents out.new)) }
    {
        if self.asked.ignore {
            return self.count_kept(alloc, crew, files, root, results, out, err);
        }
        self.count_all(alloc, crew, files, root, results, out, err)
    }

    /// A root that lies below one of those that are known is left out, and that is reported. A root that no directory is in
    /// needs no crew.
    fn count_root<W: Write, E: Report>(
        &self,
        alloc: Global,
        known: &mut Roots,
        files: Files<Global>,
        root: &str,
        results: &mut Results,
        out: &mut W,
        err: &mut E,
    ) -> Result<Counted, Failure>
        ensures counts { IfOk result (CountsOne S.FileSystem X.Texts ⟦<PlainWalk<T, S> as Iterator>⟧.next_gives ⟦<HonouringWalk<T, S, X> as Iterator>⟧.next_gives
            self.now root.now (files_of files) results.old (W.contents out.old) results.new (W.contents out.new)) }
        ensures first { length known.old.counted.items ≡ 0 → IfOk result (CountsOwn S.FileSystem X.Texts ⟦<PlainWalk<T, S> as Iterator>⟧.next_gives ⟦<HonouringWalk<T, S, X> as Iterator>⟧.next_gives
            self.now root.now (files_of files) results.old (W.contents out.old) results.new (W.contents out.new)) }
    {
        match known.add(alloc, &self.disk, root, self.asked.follow)? {
            RootKind::LeftOut => {
                report_root(alloc, self.screen.shows_errors, root, err)?;
                Ok(Counted { files, clean: true })
            }
            RootKind::Directory => {
                self.count_below(alloc, &self.crew, files, root, results, out, err)
            }
            RootKind::Other => self.count_below(alloc, &None, files, root, results, out, err),
        }
    }

    /// Counts the two halves of the roots in turn. Those that lie below one that is known are left out.
    fn count_each<W: Write, E: Report>(
        &self,
        alloc: Global,
        roots: &[&str],
        known: &mut Roots,
        files: Files<Global>,
        results: &mut Results,
        out: &mut W,
        err: &mut E,
    ) -> Result<Counted, Failure>
        ensures { IfOk result (CountsEach S.FileSystem X.Texts ⟦<PlainWalk<T, S> as Iterator>⟧.next_gives ⟦<HonouringWalk<T, S, X> as Iterator>⟧.next_gives
            self.now known.old (words_of roots.now) (files_of files) results.old (W.contents out.old) results.new (W.contents out.new)) }
    {
        match roots {
            [] => Ok(Counted { files, clean: true }),
            [root] => self.count_root(alloc, known, files, root, results, out, err),
            _ => {
                let (first, rest) = roots.split_at(roots.len() / 2);
                let counted = self.count_each(alloc, first, known, files, results, out, err)?;
                let more = self.count_each(alloc, rest, known, counted.files, results, out, err)?;
                Ok(Counted {
                    files: more.files,
                    clean: counted.clean & more.clean,
                })
            }
        }
    }

    /// Returns whether there was no error.
    fn count_roots<W: Write, E: Report>(
        &self,
        alloc: Global,
        roots: &[&str],
        results: &mut Results,
        out: &mut W,
        err: &mut E,
    ) -> Result<bool, Failure>
        ensures { IfOk result (CountsAll S.FileSystem X.Texts ⟦<PlainWalk<T, S> as Iterator>⟧.next_gives ⟦<HonouringWalk<T, S, X> as Iterator>⟧.next_gives
            self.now (words_of roots.now) results.old (W.contents out.old) results.new (W.contents out.new)) }
    {
        let mut known = Roots::new(alloc, self.asked.one_file_system);
        let files = Files::new(alloc);
        let counted = self.count_each(alloc, roots, &mut known, files, results, out, err)?;
        Ok(counted.clean)
    }

    /// Returns whether there was no error.
    pub(crate) fn count_asked<W: Write, E: Report>(
        &self,
        alloc: Global,
        results: &mut Results,
        out: &mut W,
        err: &mut E,
    ) -> Result<bool, Failure>
        ensures { IfOk result (CountsAll S.FileSystem X.Texts ⟦<PlainWalk<T, S> as Iterator>⟧.next_gives ⟦<HonouringWalk<T, S, X> as Iterator>⟧.next_gives
            self.now (roots_asked self.now.asked.now) results.old (W.contents out.old) results.new (W.contents out.new)) }
    {
        let roots = self.asked.roots.as_slice();
        if roots.is_empty() {
            return self.count_roots(alloc, &["."], results, out, err);
        }
        self.count_roots(alloc, roots, results, out, err)
    }
}
