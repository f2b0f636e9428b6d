//! Files of rules that are read.
ghost use Rattle.std.specs.Prelude.{◌≡◌, ◌++◌, ◌∷◌, [], Some, Err, OnOk, map, option_map, string_bytes};
ghost use Rattle.std.specs.IoError.{error_kind};
ghost use Rattle.jwalk.specs.jwalk_model.Error.{io};
ghost use Rattle.jwalk.specs.jwalk_model.Entry.{AtDepth};
ghost use Rattle.jwalk.specs.jwalk_fs.Views.{AnswersValue};
ghost use Rattle.jwalk.specs.jwalk_job.Entry.{item};
ghost use Rattle.jwalk.specs.jwalk_job.Given.{AddsErrors};
ghost use Rattle.jwalk_ignore.specs.Callback.IgnoreFiles.{file_of, is_missing, path_of, rules_found, rules_read, rules_typed, source_above, type_of, with_found, with_item, with_rules};
ghost use Rattle.jwalk_ignore.specs.Rules.Chain.{entered, with_link};
ghost use Rattle.jwalk_ignore.specs.Rules.ChainViews.{chain_value};
ghost use Rattle.jwalk_ignore.specs.Callback.Sources.{made_value, source_value};
ghost use Rattle.jwalk_ignore.specs.Rules.Folder.{folder_value};
ghost use Rattle.jwalk_ignore.specs.Rules.{rules_value};

use crate::rules::Rules;
use crate::rules::chain::Chain;
use crate::rules::folder::Folder;
use crate::rules::link::Link;
use crate::rules::rules_kind::RulesKind;
use crate::rules::texts::Texts;
use jwalk::file_system::{Fault, FileType};
use jwalk::{ClientState, DirEntry, Error, path_text};
use std::alloc::{AllocError, Allocator};
use std::io::ErrorKind;
use std::sync::Arc;
use std::{io, mem};

/// A file of rules that is to be read.
#[derive(Clone, Copy)]
pub(crate) struct Source<'p> {
    /// The kind of its rules.
    pub(crate) kind: RulesKind,
    /// The folder whose rules they are.
    pub(crate) folder: &'p str,
    /// How much of a path is before the part that they match.
    pub(crate) before: usize,
    /// The depth of the entry that they are read for.
    pub(crate) depth: usize,
    /// Whether the file may be missing, so that it is looked for first.
    pub(crate) may_miss: bool,
}

impl<'p> Source<'p> {
    pub(crate) fn above(folder: Folder<'p>, kind: RulesKind) -> Self
        ensures { source_value result ≡ source_above (folder_value folder.entry) kind }
    {
        Source {
            kind,
            folder: folder.path,
            before: folder.path.len(),
            depth: 0,
            may_miss: true,
        }
    }
}

fn file_of(kind: RulesKind) -> &'static str
    ensures { result.now ≡ file_of kind }
{
    match kind {
        RulesKind::Fdignore => ".fdignore",
        RulesKind::Ignore => ".ignore",
        RulesKind::Gitignore => ".gitignore",
        RulesKind::Exclude => ".git/info/exclude",
    }
}

fn is_missing(kind: ErrorKind) -> bool
    ensures { result ≡ is_missing kind }
{
    matches!(kind, ErrorKind::NotFound | ErrorKind::NotADirectory)
}

/// A link is followed only for `info/exclude`.
fn type_of<T: Texts>(texts: &T, kind: RulesKind, path: &str) -> Result<FileType, Fault>
    ensures { T.IsFixed texts.now
        → AnswersValue (λ file_type. file_type) result (type_of (T.functions texts.now) kind path.now) }
{
    match kind {
        RulesKind::Fdignore | RulesKind::Ignore | RulesKind::Gitignore => texts.file_type(path),
        RulesKind::Exclude => texts.target_type(path),
    }
}

fn rules_read<T: Texts, A: Allocator + Copy>(
    texts: &T,
    alloc: A,
    path: &str,
) -> Result<Option<Rules<A>>, Fault>
    ensures { T.IsFixed texts.now → AnswersValue (option_map rules_value) result
        (rules_read ((T.functions texts.now).bytes_of path.now)) }
{
    let bytes = texts.read(alloc, path)?;
    Ok(Some(Rules::parse(alloc, &bytes)?))
}

fn rules_looked_for<T: Texts, A: Allocator + Copy>(
    texts: &T,
    alloc: A,
    kind: RulesKind,
    path: &str,
) -> Result<Option<Rules<A>>, Fault>
    ensures { T.IsFixed texts.now → AnswersValue (option_map rules_value) result
        (rules_typed (type_of (T.functions texts.now) kind path.now) ((T.functions texts.now).bytes_of path.now)) }
{
    match type_of(texts, kind, path) {
        Ok(file_type) if file_type.is_file() => rules_read(texts, alloc, path),
        Ok(_) => Ok(None),
        Err(Fault::Io(error)) if is_missing(error.kind()) => Ok(None),
        Err(fault) => Err(fault),
    }
}

/// A file that may be missing is looked for first.
fn rules_at<T: Texts, A: Allocator + Copy>(
    texts: &T,
    alloc: A,
    kind: RulesKind,
    may_miss: bool,
    path: &str,
) -> Result<Option<Rules<A>>, Fault>
    ensures { T.IsFixed texts.now → AnswersValue (option_map rules_value) result
        (rules_found (T.functions texts.now) kind may_miss path.now) }
{
    if may_miss {
        rules_looked_for(texts, alloc, kind, path)
    } else {
        rules_read(texts, alloc, path)
    }
}

/// The rules in force and a list, as far as they are made.
#[derive(Drop)]
pub(crate) struct Made<C: ClientState, A: Allocator + Copy> {
    pub(crate) chain: Chain<A>,
    pub(crate) list: Vec<Result<DirEntry<C, A>, Error<A>>, A>,
}

impl<C: ClientState, A: Allocator + Copy> Made<C, A> {
    fn add_read(&mut self, source: Source<'_>, rules: Rules<A>) -> Result<(), AllocError>
        ensures chain { OnOk result (chain_value self.new.chain
            ≡ with_link source.entry.kind (record { before = source.entry.before; patterns = rules_value rules })
            (chain_value self.old.chain)) }
        ensures list { OnOk result (self.new.list ≡ self.old.list) }
    {
        let alloc = *self.list.allocator();
        let link = Link::new(source.before, rules);
        self.chain = self.chain.with_link(alloc, source.kind, link)?;
        Ok(())
    }

    fn add_error(
        &mut self,
        depth: usize,
        path: String<A>,
        error: io::Error,
    ) -> Result<(), AllocError>
        ensures list { OnOk result (map item self.new.list.items
            ≡ map item self.old.list.items ++ Err (io depth (Some (string_bytes path)) (error_kind error)) ∷ []) }
        ensures chain { OnOk result (self.new.chain ≡ self.old.chain) }
    {
        let alloc = *self.list.allocator();
        let path = Arc::new(alloc, path)?;
        self.list.push(Err(Error::from_path(depth, path, error)))?;
        Ok(())
    }

    fn add_found(
        &mut self,
        source: Source<'_>,
        path: String<A>,
        found: Result<Option<Rules<A>>, Fault>,
    ) -> Result<(), AllocError>
        requires { string_bytes path ≡ path_of (source_value source) }
        ensures value { (by : _) → AnswersValue (option_map rules_value) found by
            → OnOk result (made_value self.new ≡ with_found (source_value source.entry) by (made_value self.old)) }
        ensures depth { (depth : _) → AtDepth depth (map item self.old.list.items)
            → OnOk result (AtDepth depth (map item self.new.list.items)) }
        ensures errors { OnOk result (AddsErrors (map item self.old.list.items) (map item self.new.list.items)) }
    {
        match found {
            Ok(Some(rules)) => self.add_read(source, rules),
            Ok(None) => Ok(()),
            Err(Fault::Io(error)) => self.add_error(source.depth, path, error),
            Err(Fault::Memory) => Err(AllocError),
        }
    }

    pub(crate) fn add_rules<T: Texts>(
        &mut self,
        texts: &T,
        source: Source<'_>,
    ) -> Result<(), AllocError>
        ensures value { T.IsFixed texts.now
            → OnOk result (made_value self.new ≡ with_rules (T.functions texts.now) (source_value source.entry) (made_value self.old)) }
        ensures depth { (depth : _) → AtDepth depth (map item self.old.list.items)
            → OnOk result (AtDepth depth (map item self.new.list.items)) }
        ensures errors { OnOk result (AddsErrors (map item self.old.list.items) (map item self.new.list.items)) }
    {
        let alloc = *self.list.allocator();
        let path = path_text::join(alloc, source.folder, file_of(source.kind))?;
        let found = rules_at(texts, alloc, source.kind, source.may_miss, path.as_str());
        self.add_found(source, path, found)
    }

    pub(crate) fn enter(&mut self, holds_git: bool) -> Result<(), AllocError>
        ensures chain { OnOk result (chain_value self.new.chain ≡ entered holds_git (chain_value self.old.chain)) }
        ensures list { self.new.list ≡ self.old.list }
    {
        let alloc = *self.list.allocator();
        let chain = mem::take(&mut self.chain);
        self.chain = chain.entered(alloc, holds_git)?;
        Ok(())
    }

    pub(crate) fn add_item(
        &mut self,
        found: Result<DirEntry<C, A>, Error<A>>,
    ) -> Result<(), AllocError>
        ensures value { OnOk result (made_value self.new ≡ with_item (item found) (made_value self.old)) }
        ensures depth { (depth : _) → AtDepth depth (item found ∷ []) → AtDepth depth (map item self.old.list.items)
            → OnOk result (AtDepth depth (map item self.new.list.items)) }
    {
        self.list.push(found)?;
        Ok(())
    }
}
