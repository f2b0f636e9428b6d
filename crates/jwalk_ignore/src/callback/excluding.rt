//! A callback that leaves out what lines of an ignore file name.
ghost use Rattle.std.specs.Prelude.{◌≡◌, ◌++◌, map, IfOk, OnOk};
ghost use Rattle.std.specs.List.{filter};
ghost use Rattle.jwalk.specs.jwalk_job.Entry.{item};
ghost use Rattle.jwalk_ignore.specs.Rules.{rules_value};
ghost use Rattle.jwalk_ignore.specs.Callback.Excluding.{excluded_of, is_included, leaves_out, lines_text, place_of};
ghost use Rattle.jwalk_ignore.specs.Callback.Settings.{patterns_in};

use crate::callback::failed::{behind, failed_path, is_hidden_path};
use crate::callback::kept::{Keeps, kept};
use crate::rules::Rules;
use jwalk::read_dir::ProcessReadDir;
use jwalk::{ClientState, DirEntry, Error};
use std::alloc::{AllocError, Allocator, Global};
use std::mem;

/// A callback that drops what lines of an ignore file name, so that nothing below it is read. The lines are those of the
/// caller, and no file is asked for.
///
/// ```text
/// let excluding = Excluding::new(rt.alloc(), &["*.o", "!main.o", "/target/"], root)?;
/// for answer in WalkDir::at(&rt, root)?.process_read_dir(excluding).into_iter() { .. }
/// ```
///
/// A line means what it does in a file of rules that lies in the root: it matches what is behind the root in a path, and
/// of several lines that match the last decides. The root itself stays, and so does each error, unless
/// [`drop_errors`](Excluding::drop_errors) says otherwise. The states of the walk may be any.
///
/// [`IgnoreFiles::then`](crate::ignore_files::IgnoreFiles::then) hands what ignore files leave to such a callback. Then a
/// line with a `!` brings nothing back that they drop.
///
/// If memory runs out, the callback fails with that.
pub struct Excluding {
    /// None if there are no lines.
    rules: Option<Rules>,
    /// How long the root's path is.
    root_len: usize,
    /// Errors of names that are left out, whatever has the name, are dropped too.
    drops_errors: bool,
    /// Errors of hidden names are dropped.
    drops_hidden: bool,
}

impl Drop for Excluding {
    fn drop(self) {
        let Excluding {
            rules: _,
            root_len: _,
            drops_errors: _,
            drops_hidden: _,
        } = self;
    }
}

/// Returns lines as the text of a file.
fn text_of(alloc: Global, lines: &[&str]) -> Result<Vec<u8>, AllocError>
    ensures { IfOk result (λ text. text.items ≡ lines_text (map (λ it. it.now) lines.now)) }
{
    let mut text = Vec::new(alloc);
    for line in lines {
        text.extend_from_slice(line.as_bytes())?;
        text.push(b'\n')?;
    }
    Ok(text)
}

/// Returns where the names of a folder begin: its path behind the root, ended by a slash.
fn place_of<A: Allocator + Copy>(
    alloc: A,
    root_len: usize,
    folder: &str,
) -> Result<Vec<u8, A>, AllocError>
    ensures { IfOk result (λ place. place.items ≡ place_of root_len folder.now) }
{
    let below = behind(folder.as_bytes(), root_len);
    let mut place = Vec::new(alloc);
    if below.is_empty() {
        return Ok(place);
    }
    place.extend_from_slice(below)?;
    place.push(b'/')?;
    Ok(place)
}

/// Returns whether rules leave out a path, of a directory or of another file.
#[tactic(auto, using(jwalk_ignore_rules::proofs::MatchingFacts::says_computed))]
fn leaves_out(rules: &Rules, path: &[u8], is_dir: bool) -> bool
    ensures { result ≡ leaves_out (rules_value rules.now) path.now is_dir }
{
    rules.decision(path, is_dir).is_ignored()
}

/// Returns whether rules, if there are some, leave out a name in a folder. The place of the folder is left as it was.
fn leaves_out_name<A: Allocator + Copy>(
    rules: &Option<Rules>,
    place: &mut Vec<u8, A>,
    name: &str,
    is_dir: bool,
) -> Result<bool, AllocError>
    ensures answer { IfOk result (λ yes. yes ≡ leaves_out (patterns_in rules.now) (place.old.items ++ name.now) is_dir) }
    ensures place { OnOk result (place.new.items ≡ place.old.items) }
{
    let Some(rules) = rules else {
        return Ok(false);
    };
    let len = place.len();
    place.extend_from_slice(name.as_bytes())?;
    let is_left_out = leaves_out(rules, place.as_slice(), is_dir);
    place.truncate(len);
    Ok(is_left_out)
}

/// What is left out of a folder's items, by the place of the folder.
#[derive(Drop)]
struct Placed<'r, A: Allocator + Copy> {
    excluding: &'r Excluding,
    place: Vec<u8, A>,
}

impl<C: ClientState, A: Allocator + Copy> Keeps<C, A> for Placed<'_, A> {
    ghost decides_by = { λ it test. test ≡ is_included (excluded_of it.excluding.now) it.place.items };

    fn keeps(&mut self, found: &Result<DirEntry<C, A>, Error<A>>) -> Result<bool, AllocError> {
        match found {
            Ok(entry) => {
                let (name, is_dir) = (entry.file_name(), entry.file_type().is_dir());
                let rules = &self.excluding.rules;
                Ok(!leaves_out_name(rules, &mut self.place, name, is_dir)?)
            }
            Err(error) => match failed_path(error) {
                Some(path) => Ok(!self.excluding.drops_at(path)),
                None => Ok(true),
            },
        }
    }
}

/// Returns what stays of a list of a folder with this place.
fn included<C: ClientState, A: Allocator + Copy>(
    excluding: &Excluding,
    place: Vec<u8, A>,
    list: Vec<Result<DirEntry<C, A>, Error<A>>, A>,
) -> Result<Vec<Result<DirEntry<C, A>, Error<A>>, A>, AllocError>
    ensures { IfOk result (λ kept. map item kept.items
        ≡ filter (is_included (excluded_of excluding.now) place.items) (map item list.items)) }
{
    kept(&mut Placed { excluding, place }, list)
}

impl Excluding {
    ghost use Rattle.jwalk_ignore.specs.Callback.Excluding.{drops_at, excluded_by, excluded_in, excluded_of, leaves_out_any};

    /// Returns the callback of a file of rules with these bytes, as if it lay in the folder with this path. The walks
    /// are below that folder. Its path is empty for rules that match what is walked by its whole path.
    ///
    /// # Errors
    ///
    /// If memory runs out.
    pub fn of_text(alloc: Global, text: &[u8], folder: &str) -> Result<Self, AllocError>
        ensures { IfOk result (λ it. excluded_of it ≡ excluded_in text.now folder.now) }
    {
        let root_len = folder.len();
        if text.is_empty() {
            return Ok(Excluding {
                rules: None,
                root_len,
                drops_errors: false,
                drops_hidden: false,
            });
        }
        Ok(Excluding {
            rules: Some(Rules::parse(alloc, text)?),
            root_len,
            drops_errors: false,
            drops_hidden: false,
        })
    }

    /// Returns the callback of these lines, for walks below a root with this path.
    ///
    /// # Errors
    ///
    /// If memory runs out.
    pub fn new(alloc: Global, lines: &[&str], root: &str) -> Result<Self, AllocError>
        ensures { IfOk result (λ it. excluded_of it ≡ excluded_by (map (λ it. it.now) lines.now) root.now) }
    {
        let text = text_of(alloc, lines)?;
        Excluding::of_text(alloc, text.as_slice(), root)
    }

    /// Sets whether errors of names that are left out are dropped too. Off by default. Such an error says that the type of
    /// what has the name isn't known, so the lines have to leave out both a directory and another file of that name. An
    /// error with no path stays.
    pub fn drop_errors(mut self, drops: bool) -> Self
        ensures { excluded_of result ≡ record (excluded_of self) { drops_errors = drops } }
    {
        self.drops_errors = drops;
        self
    }

    /// Sets whether errors of hidden names are dropped, for a walk that skips such names. Off by default.
    pub fn drop_hidden_errors(mut self, drops: bool) -> Self
        ensures { excluded_of result ≡ record (excluded_of self) { drops_hidden = drops } }
    {
        self.drops_hidden = drops;
        self
    }

    /// Returns whether the lines leave out a path, whatever is there.
    fn leaves_out_any(&self, path: &[u8]) -> bool
        ensures { result ≡ leaves_out_any (excluded_of self.now).patterns path.now }
    {
        let Some(rules) = &self.rules else {
            return false;
        };
        leaves_out(rules, path, true) && leaves_out(rules, path, false)
    }

    /// Returns whether an error at a path is dropped.
    fn drops_at(&self, path: &str) -> bool
        ensures { result ≡ drops_at (excluded_of self.now) path.now }
    {
        (self.drops_hidden && is_hidden_path(path))
            || (self.drops_errors && self.leaves_out_any(behind(path.as_bytes(), self.root_len)))
    }
}

impl<C: ClientState, A: Allocator + Copy> ProcessReadDir<C, A> for Excluding {
    ghost use Rattle.jwalk_ignore.specs.Callback.Excluding.{excluded_of, Excludes};

    ghost IsLawful = { λ _. Unit {0} };

    ghost Makes = { λ s g. Excludes (excluded_of s) g };

    ghost KeepsRoot = { λ _. Unit {0} };

    fn process(
        &self,
        depth: Option<usize>,
        path: &str,
        _state: &mut C::ReadDirState,
        list: &mut Vec<Result<DirEntry<C, A>, Error<A>>, A>,
    ) -> Result<(), AllocError> {
        if depth.is_none() {
            return Ok(());
        }
        if self.rules.is_none() && !self.drops_hidden {
            return Ok(());
        }
        let alloc = *list.allocator();
        let place = place_of(alloc, self.root_len, path)?;
        let items = mem::replace(list, Vec::new(alloc));
        *list = included(self, place, items)?;
        Ok(())
    }
}
