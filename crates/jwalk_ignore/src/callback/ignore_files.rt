//! A callback that honours ignore files.
ghost use Rattle.std.specs.Prelude.{◌≡◌};

use crate::callback::rules_reader::RulesReader;
use crate::callback::settings::Settings;
use crate::callback::states::RulesState;
use crate::rules::Rules;
use crate::rules::chain::Chain;
use crate::rules::texts::Texts;
use jwalk::read_dir::{NoProcess, ProcessReadDir};
use jwalk::{DirEntry, Error};
use std::alloc::{AllocError, Allocator, Global};
use std::fmt::Debug;

/// A callback that drops what ignore files say, so that nothing below an ignored directory is read, and hands the rest of
/// each list to another callback.
///
/// ```text
/// let rules = IgnoreFiles::new(RealTexts::new(&rt)).then(SkipNames::new(names));
/// let walk = WalkDirGeneric::<(RulesState, ()), _, _, _>::new(fs, root);
/// for answer in with_ignore_files(walk, rules).into_iter() { .. }
/// ```
///
/// The state of a directory is a [`RulesState`]: the rules in force. Where the other callback has a state `B` of
/// directories too, or where the walk has another allocator, it is `(Chain, B)`: the rules beside that state. The walk
/// has to show hidden names, as [`with_ignore_files`](crate::builder::with_ignore_files) sets it, since files of rules are
/// hidden. The callback drops hidden names itself, once the rules are read.
///
/// - All `.ignore` files decide before all `.gitignore` files, and these before `.git/info/exclude`. Of one kind the
///   nearer decides first, and in one file the last pattern that matches.
/// - `.gitignore` counts in a repository: a directory whose `.git` leads to a directory or a file, and all below it. In
///   another repository the rules of the outer one end; those of `.ignore` go on.
/// - `.fdignore` counts where [`fdignore`](IgnoreFiles::fdignore) asks for it. All such files decide before all others.
/// - `.git` is dropped, as directory, as file and as link. Where it is a file, `info/exclude` is read only if the texts have one all the same.
/// - A file of rules is read where the list has a regular file of its name that is no link. If it can't be read, an error
///   with its path comes right behind its entry, and it has no rules.
/// - The rules of folders above the root are read once, for the root's list: those that would be in force if the walk had
///   begun at `/`. The root itself is never dropped.
///
/// If memory runs out, the callback fails with that.
pub struct IgnoreFiles<T, P = NoProcess> {
    reader: RulesReader<T>,
    next: P,
}

impl<T: Drop, P: Drop> Drop for IgnoreFiles<T, P> {
    fn drop(self) {
        let IgnoreFiles { reader: _, next: _ } = self;
    }
}

impl<T: Texts> IgnoreFiles<T, NoProcess> {
    ghost use Rattle.jwalk_ignore.specs.Callback.Given.{first_settings};
    ghost use Rattle.jwalk_ignore.specs.Callback.IgnoreViews.{settings_of, texts_of};

    /// Returns the callback that reads rules from these texts. It drops hidden names, and `.gitignore` counts in
    /// repositories alone.
    pub fn new(texts: T) -> Self
        ensures texts { texts_of result ≡ texts }
        ensures settings { settings_of result ≡ first_settings }
    {
        IgnoreFiles {
            reader: RulesReader {
                texts,
                settings: Settings {
                    keeps_hidden: false,
                    anywhere: false,
                    version_control: true,
                    above_the_root: true,
                    fdignore: false,
                    drops_errors: false,
                    given: None,
                },
            },
            next: NoProcess,
        }
    }
}

impl<T: Texts, P: Drop> IgnoreFiles<T, P> {
    ghost use Rattle.jwalk_ignore.specs.Callback.IgnoreViews.{next_of, settings_of, texts_of};
    ghost use Rattle.jwalk_ignore.specs.Rules.{rules_value};

    /// Sets whether hidden names stay. Off by default.
    pub fn keep_hidden(mut self, keep: bool) -> Self
        ensures settings { settings_of result ≡ record (settings_of self) { keeps_hidden = keep } }
        ensures texts { texts_of result ≡ texts_of self }
        ensures next { next_of result ≡ next_of self }
    {
        self.reader.settings.keeps_hidden = keep;
        self
    }

    /// Sets whether `.gitignore` counts outside repositories too. Off by default.
    pub fn outside_repositories(mut self, anywhere: bool) -> Self
        ensures settings { settings_of result ≡ record (settings_of self) { anywhere = anywhere } }
        ensures texts { texts_of result ≡ texts_of self }
        ensures next { next_of result ≡ next_of self }
    {
        self.reader.settings.anywhere = anywhere;
        self
    }

    /// Sets whether the version control's rules count: those of `.gitignore` and `.git/info/exclude`. On by default. If
    /// not, `.git` is dropped all the same.
    pub fn version_control(mut self, counts: bool) -> Self
        ensures settings { settings_of result ≡ record (settings_of self) { version_control = counts } }
        ensures texts { texts_of result ≡ texts_of self }
        ensures next { next_of result ≡ next_of self }
    {
        self.reader.settings.version_control = counts;
        self
    }

    /// Sets whether files of rules in folders above the root count. On by default. If not, none of them is read. The
    /// root is in a repository all the same if one of these folders is.
    pub fn above_the_root(mut self, counts: bool) -> Self
        ensures settings { settings_of result ≡ record (settings_of self) { above_the_root = counts } }
        ensures texts { texts_of result ≡ texts_of self }
        ensures next { next_of result ≡ next_of self }
    {
        self.reader.settings.above_the_root = counts;
        self
    }

    /// Sets whether `.fdignore` files count, which decide before all `.ignore` files. Off by default.
    pub fn fdignore(mut self, counts: bool) -> Self
        ensures settings { settings_of result ≡ record (settings_of self) { fdignore = counts } }
        ensures texts { texts_of result ≡ texts_of self }
        ensures next { next_of result ≡ next_of self }
    {
        self.reader.settings.fdignore = counts;
        self
    }

    /// Sets whether errors of names that are dropped are dropped too, as of hidden ones. Off by default. Such an error says
    /// that the type of what has the name isn't known, so rules have to ignore both a directory and another file of that
    /// name. An error with no path stays, and so does one at a file of rules, which then aren't known.
    pub fn drop_errors(mut self, drops: bool) -> Self
        ensures settings { settings_of result ≡ record (settings_of self) { drops_errors = drops } }
        ensures texts { texts_of result ≡ texts_of self }
        ensures next { next_of result ≡ next_of self }
    {
        self.reader.settings.drops_errors = drops;
        self
    }

    /// Sets rules that are given, in place of a file's. They decide on all below the root where no file of rules says
    /// anything, and match the paths of entries as the walk makes them, without a `./` in front: if the root's path is
    /// relative, a slash in front of a pattern is the folder that the program runs in, and else it is `/`.
    pub fn given(mut self, rules: Rules) -> Self
        ensures settings { settings_of result ≡ record (settings_of self) { given = rules_value rules } }
        ensures texts { texts_of result ≡ texts_of self }
        ensures next { next_of result ≡ next_of self }
    {
        self.reader.settings.given = Some(rules);
        self
    }

    /// Returns the same callback, which hands what is left of each list to this one.
    pub fn then<Q: Drop>(self, next: Q) -> IgnoreFiles<T, Q>
        ensures settings { settings_of result ≡ settings_of self }
        ensures texts { texts_of result ≡ texts_of self }
        ensures next { next_of result ≡ next }
    {
        let IgnoreFiles { reader, next: _ } = self;
        IgnoreFiles { reader, next }
    }
}

impl<
    B: Clone + Default + Debug + Drop,
    E: Default + Debug + Drop,
    A: Allocator + Copy,
    T: Texts,
    P: ProcessReadDir<((Chain<A>, B), E), A>,
> ProcessReadDir<((Chain<A>, B), E), A> for IgnoreFiles<T, P> {
    ghost use Rattle.jwalk_ignore.specs.Callback.IgnoreViews.{next_of, settings_of, texts_of, Ignores};
    ghost use Rattle.jwalk_ignore.specs.Callback.States.{first_rules, same_beside};

    ghost IsLawful = { λ s. P.IsLawful (next_of s) };

    ghost Makes = { λ s g. Ignores first_rules same_beside (T.IsFixed (texts_of s)) (T.functions (texts_of s))
        (settings_of s) (P.Makes (next_of s)) g };

    ghost KeepsRoot = { λ s. P.KeepsRoot (next_of s) };

    fn process(
        &self,
        depth: Option<usize>,
        path: &str,
        state: &mut (Chain<A>, B),
        list: &mut Vec<Result<DirEntry<((Chain<A>, B), E), A>, Error<A>>, A>,
    ) -> Result<(), AllocError> {
        self.reader.drop_ignored(depth, path, &mut state.0, list)?;
        self.next.process(depth, path, state, list)
    }
}

impl<
    E: Default + Debug + Drop,
    T: Texts,
    P: ProcessReadDir<(RulesState, E), Global>,
> ProcessReadDir<(RulesState, E), Global> for IgnoreFiles<T, P> {
    ghost use Rattle.jwalk_ignore.specs.Callback.IgnoreViews.{next_of, settings_of, texts_of, Ignores};
    ghost use Rattle.jwalk_ignore.specs.Callback.States.{nothing_beside, rules_held};

    ghost IsLawful = { λ s. P.IsLawful (next_of s) };

    ghost Makes = { λ s g. Ignores rules_held nothing_beside (T.IsFixed (texts_of s)) (T.functions (texts_of s))
        (settings_of s) (P.Makes (next_of s)) g };

    ghost KeepsRoot = { λ s. P.KeepsRoot (next_of s) };

    fn process(
        &self,
        depth: Option<usize>,
        path: &str,
        state: &mut RulesState,
        list: &mut Vec<Result<DirEntry<(RulesState, E)>, Error>>,
    ) -> Result<(), AllocError> {
        self.reader
            .drop_ignored(depth, path, &mut state.chain, list)?;
        self.next.process(depth, path, state, list)
    }
}
