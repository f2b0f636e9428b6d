//! What rules make of lists.
ghost use Rattle.std.specs.Prelude.{◌≡◌, ◌∷◌, ◌++◌, [], None, IfOk, OnOk, map, filter, fold};
ghost use Rattle.jwalk.specs.jwalk_model.Entry.{AtDepth};
ghost use Rattle.jwalk.specs.jwalk_job.Entry.{item};
ghost use Rattle.jwalk.specs.jwalk_job.Given.{AddsErrors};
ghost use Rattle.jwalk_ignore.specs.Rules.Chain.{place_in};
ghost use Rattle.jwalk_ignore.specs.Rules.ChainViews.{chain_value};
ghost use Rattle.jwalk_ignore.specs.Rules.Folder.{folder_value};
ghost use Rattle.jwalk_ignore.specs.Callback.IgnoreFiles.{at_root, by_rules, if_read, in_directory, is_kept, is_read, is_read_above, kind_of, own_rules, with_above, with_absolute, with_folder, with_folders, with_listed, with_root_item};
ghost use Rattle.jwalk_ignore.specs.Callback.Settings.{settings_value};
ghost use Rattle.jwalk_ignore.specs.Callback.Sources.{made_from, made_value};

use crate::callback::entry_rules::EntryRules;
use crate::callback::kept::kept;
use crate::callback::listed::{depth_of, drop_hidden, git_in, kind_of, root_of};
use crate::callback::settings::Settings;
use crate::callback::source::{Made, Source};
use crate::rules::chain::Chain;
use crate::rules::folder::{Folder, folders_above};
use crate::rules::git::is_repository;
use crate::rules::rules_kind::RulesKind;
use crate::rules::texts::Texts;
use jwalk::file_system::{Fault, FileType};
use jwalk::{ClientState, DirEntry, Error};
use std::alloc::{AllocError, Allocator};
use std::mem;
use std::sync::Arc;

/// Texts, and how the rules in them are used.
#[derive(Drop)]
pub(crate) struct RulesReader<T> {
    pub(crate) texts: T,
    pub(crate) settings: Settings,
}

/// A directory whose list is made.
#[derive(Clone, Copy)]
struct Directory<'p> {
    path: &'p str,
    /// How much of a path is before the part that its rules match.
    before: usize,
    in_repository: bool,
    /// What its `.git` leads to.
    git: Option<FileType>,
}

/// Returns what the rules in force, and those that are given, leave of a directory's list.
fn kept_by<C: ClientState, A: Allocator + Copy>(
    chain: &Chain<A>,
    settings: &Settings,
    directory: &str,
    list: Vec<Result<DirEntry<C, A>, Error<A>>, A>,
) -> Result<Vec<Result<DirEntry<C, A>, Error<A>>, A>, AllocError>
    ensures { IfOk result (λ kept. map item kept.items
        ≡ filter (is_kept (settings_value settings.now) directory.now (chain_value chain.now) (place_in (chain_value chain.now) directory.now)) (map item list.items)) }
{
    if settings.given.is_none() && !chain.has_rules() {
        return Ok(list);
    }
    let mut rules = EntryRules::new(*list.allocator(), chain, settings, directory)?;
    kept(&mut rules, list)
}

impl<T: Texts> RulesReader<T> {
    /// Returns the kind of rules that are read for an item.
    fn kind_read<C: ClientState, A: Allocator + Copy>(
        &self,
        of: Directory<'_>,
        found: &Result<DirEntry<C, A>, Error<A>>,
    ) -> Option<RulesKind>
        ensures { result ≡ if_read (is_read (settings_value self.now.settings) of.entry.in_repository of.entry.git) (kind_of (item found.now)) }
    {
        match kind_of(found) {
            Some(kind) if self.settings.is_read(of.in_repository, of.git, kind) => Some(kind),
            _ => None,
        }
    }

    fn add_listed<C: ClientState, A: Allocator + Copy>(
        &self,
        of: Directory<'_>,
        found: Result<DirEntry<C, A>, Error<A>>,
        made: &mut Made<C, A>,
    ) -> Result<(), AllocError>
        ensures value { T.IsFixed self.now.texts → OnOk result (made_value made.new
            ≡ with_listed (T.functions self.now.texts) (is_read (settings_value self.now.settings) of.entry.in_repository of.entry.git)
            of.entry.path.now of.entry.before (made_value made.old) (item found)) }
        ensures depth { (depth : _) → AtDepth depth (item found ∷ []) → AtDepth depth (map item made.old.list.items)
            → OnOk result (AtDepth depth (map item made.new.list.items)) }
    {
        let depth = depth_of(&found);
        let kind = self.kind_read(of, &found);
        made.add_item(found)?;
        let Some(kind) = kind else {
            return Ok(());
        };
        let source = Source {
            kind,
            folder: of.path,
            before: of.before,
            depth,
            may_miss: kind.may_miss(),
        };
        made.add_rules(&self.texts, source)
    }

    fn add_all<C: ClientState, A: Allocator + Copy>(
        &self,
        of: Directory<'_>,
        list: Vec<Result<DirEntry<C, A>, Error<A>>, A>,
        made: &mut Made<C, A>,
    ) -> Result<(), AllocError>
        ensures value { T.IsFixed self.now.texts → OnOk result (made_value made.new
            ≡ fold (with_listed (T.functions self.now.texts) (is_read (settings_value self.now.settings) of.entry.in_repository of.entry.git)
            of.entry.path.now of.entry.before)
            (made_value made.old) (map item list.items)) }
        ensures depth { (depth : _) → AtDepth depth (map item list.items) → AtDepth depth (map item made.old.list.items)
            → OnOk result (AtDepth depth (map item made.new.list.items)) }
    {
        for found in list {
            self.add_listed(of, found, made)?;
        }
        Ok(())
    }

    fn own_rules<C: ClientState, A: Allocator + Copy>(
        &self,
        directory: &str,
        chain: Chain<A>,
        list: Vec<Result<DirEntry<C, A>, Error<A>>, A>,
    ) -> Result<Made<C, A>, AllocError>
        ensures value { T.IsFixed self.now.texts → IfOk result (λ made. made_value made
            ≡ own_rules (settings_value self.now.settings) (T.functions self.now.texts) directory.now (chain_value chain) (map item list.items)) }
        ensures depth { (depth : _) → AtDepth depth (map item list.items)
            → IfOk result (λ made. AtDepth depth (map item made.list.items)) }
    {
        let alloc = *list.allocator();
        let git = git_in(&self.texts, alloc, directory, &list)?;
        let chain = chain.entered(alloc, is_repository(git))?;
        let of = Directory {
            path: directory,
            before: chain.place_len(directory),
            in_repository: chain.in_repository(),
            git,
        };
        let mut made = Made {
            chain,
            list: Vec::with_capacity(alloc, list.len())?,
        };
        self.add_all(of, list, &mut made)?;
        Ok(made)
    }

    /// Reads the rules of a directory's list, and drops what is hidden or ignored.
    fn in_directory<C: ClientState, A: Allocator + Copy>(
        &self,
        directory: &str,
        chain: Chain<A>,
        list: Vec<Result<DirEntry<C, A>, Error<A>>, A>,
    ) -> Result<Made<C, A>, AllocError>
        ensures value { T.IsFixed self.now.texts → IfOk result (λ made. made_value made
            ≡ in_directory (settings_value self.now.settings) (T.functions self.now.texts) directory.now (chain_value chain) (map item list.items)) }
        ensures depth { (depth : _) → AtDepth depth (map item list.items)
            → IfOk result (λ made. AtDepth depth (map item made.list.items)) }
    {
        let Made { chain, mut list } = self.own_rules(directory, chain, list)?;
        drop_hidden(&self.settings, directory, &mut list);
        let list = kept_by(&chain, &self.settings, directory, list)?;
        Ok(Made { chain, list })
    }

    fn add_above<C: ClientState, A: Allocator + Copy>(
        &self,
        folder: Folder<'_>,
        in_repository: bool,
        kind: RulesKind,
        made: &mut Made<C, A>,
    ) -> Result<(), AllocError>
        ensures value { T.IsFixed self.now.texts → OnOk result (made_value made.new
            ≡ with_above (settings_value self.now.settings) (T.functions self.now.texts) (folder_value folder.entry)
            (is_read_above (settings_value self.now.settings) (folder_value folder.entry) in_repository kind) kind (made_value made.old)) }
        ensures depth { (depth : _) → AtDepth depth (map item made.old.list.items)
            → OnOk result (AtDepth depth (map item made.new.list.items)) }
        ensures errors { OnOk result (AddsErrors (map item made.old.list.items) (map item made.new.list.items)) }
    {
        if !self.settings.is_read_above(folder, in_repository, kind) {
            return Ok(());
        }
        made.add_rules(&self.texts, Source::above(folder, kind))
    }

    fn add_folder<C: ClientState, A: Allocator + Copy>(
        &self,
        folder: Folder<'_>,
        made: &mut Made<C, A>,
    ) -> Result<(), AllocError>
        ensures value { T.IsFixed self.now.texts → OnOk result (made_value made.new
            ≡ with_folder (settings_value self.now.settings) (T.functions self.now.texts) (made_value made.old) (folder_value folder.entry)) }
        ensures depth { (depth : _) → AtDepth depth (map item made.old.list.items)
            → OnOk result (AtDepth depth (map item made.new.list.items)) }
        ensures errors { OnOk result (AddsErrors (map item made.old.list.items) (map item made.new.list.items)) }
    {
        made.enter(is_repository(folder.git))?;
        let in_repository = made.chain.in_repository();
        self.add_above(folder, in_repository, RulesKind::Exclude, made)?;
        self.add_above(folder, in_repository, RulesKind::Gitignore, made)?;
        self.add_above(folder, in_repository, RulesKind::Ignore, made)?;
        self.add_above(folder, in_repository, RulesKind::Fdignore, made)
    }

    fn add_each<C: ClientState, A: Allocator + Copy>(
        &self,
        folders: Vec<Folder<'_>, A>,
        made: &mut Made<C, A>,
    ) -> Result<(), AllocError>
        ensures value { T.IsFixed self.now.texts → OnOk result (made_value made.new
            ≡ fold (with_folder (settings_value self.now.settings) (T.functions self.now.texts)) (made_value made.old)
            (map folder_value folders.entry.items)) }
        ensures depth { (depth : _) → AtDepth depth (map item made.old.list.items)
            → OnOk result (AtDepth depth (map item made.new.list.items)) }
        ensures errors { OnOk result (AddsErrors (map item made.old.list.items) (map item made.new.list.items)) }
    {
        for folder in folders {
            self.add_folder(folder, made)?;
        }
        Ok(())
    }

    /// Adds the rules of the folders above a root with this absolute path, the farthest first.
    fn add_folders<C: ClientState, A: Allocator + Copy>(
        &self,
        absolute: &str,
        made: &mut Made<C, A>,
    ) -> Result<(), AllocError>
        ensures value { T.IsFixed self.now.texts → OnOk result (made_value made.new
            ≡ with_folders (settings_value self.now.settings) (T.functions self.now.texts) absolute.now (made_value made.old)) }
        ensures depth { (depth : _) → AtDepth depth (map item made.old.list.items)
            → OnOk result (AtDepth depth (map item made.new.list.items)) }
        ensures errors { OnOk result (AddsErrors (map item made.old.list.items) (map item made.new.list.items)) }
    {
        let alloc = *made.list.allocator();
        let mut folders = folders_above(&self.texts, alloc, absolute)?;
        folders.reverse();
        self.add_each(folders, made)
    }

    /// Adds the rules above a root.
    fn add_root<C: ClientState, A: Allocator + Copy>(
        &self,
        root: &str,
        made: &mut Made<C, A>,
    ) -> Result<(), AllocError>
        ensures value { T.IsFixed self.now.texts → OnOk result (made_value made.new
            ≡ with_absolute (settings_value self.now.settings) (T.functions self.now.texts) root.now (made_value made.old)
            ((T.functions self.now.texts).absolute_of root.now)) }
        ensures depth { (depth : _) → AtDepth depth (map item made.old.list.items)
            → OnOk result (AtDepth depth (map item made.new.list.items)) }
        ensures errors { OnOk result (AddsErrors (map item made.old.list.items) (map item made.new.list.items)) }
    {
        let alloc = *made.list.allocator();
        match self.texts.absolute(alloc, root) {
            Ok(absolute) => {
                made.chain = Chain::below(alloc, root, absolute.as_str())?;
                self.add_folders(absolute.as_str(), made)
            }
            Err(Fault::Io(error)) => {
                made.chain = Chain::below(alloc, root, root)?;
                let path = Arc::new(alloc, String::from_str(alloc, root)?)?;
                made.list.push(Err(Error::from_path(0, path, error)))?;
                Ok(())
            }
            Err(Fault::Memory) => Err(AllocError),
        }
    }

    fn add_root_item<C: ClientState, A: Allocator + Copy>(
        &self,
        found: Result<DirEntry<C, A>, Error<A>>,
        made: &mut Made<C, A>,
    ) -> Result<(), AllocError>
        ensures value { T.IsFixed self.now.texts → OnOk result (made_value made.new
            ≡ with_root_item (settings_value self.now.settings) (T.functions self.now.texts) (made_value made.old) (item found)) }
        ensures depth { (depth : _) → AtDepth depth (item found ∷ []) → AtDepth depth (map item made.old.list.items)
            → OnOk result (AtDepth depth (map item made.new.list.items)) }
        ensures errors { OnOk result (AddsErrors (map item made.old.list.items ++ item found ∷ []) (map item made.new.list.items)) }
    {
        let root = root_of(*made.list.allocator(), &found)?;
        made.add_item(found)?;
        match root {
            Some(root) => self.add_root(root.as_str(), made),
            None => Ok(()),
        }
    }

    fn add_roots<C: ClientState, A: Allocator + Copy>(
        &self,
        list: Vec<Result<DirEntry<C, A>, Error<A>>, A>,
        made: &mut Made<C, A>,
    ) -> Result<(), AllocError>
        ensures value { T.IsFixed self.now.texts → OnOk result (made_value made.new
            ≡ fold (with_root_item (settings_value self.now.settings) (T.functions self.now.texts)) (made_value made.old) (map item list.items)) }
        ensures depth { (depth : _) → AtDepth depth (map item list.items) → AtDepth depth (map item made.old.list.items)
            → OnOk result (AtDepth depth (map item made.new.list.items)) }
        ensures errors { OnOk result (AddsErrors (map item made.old.list.items ++ map item list.items) (map item made.new.list.items)) }
    {
        for found in list {
            self.add_root_item(found, made)?;
        }
        Ok(())
    }

    /// Reads the rules above the root, of whose list nothing is dropped.
    fn at_root<C: ClientState, A: Allocator + Copy>(
        &self,
        chain: Chain<A>,
        list: Vec<Result<DirEntry<C, A>, Error<A>>, A>,
    ) -> Result<Made<C, A>, AllocError>
        ensures value { T.IsFixed self.now.texts → IfOk result (λ made. made_value made
            ≡ at_root (settings_value self.now.settings) (T.functions self.now.texts) (chain_value chain) (map item list.items)) }
        ensures depth { (depth : _) → AtDepth depth (map item list.items)
            → IfOk result (λ made. AtDepth depth (map item made.list.items)) }
        ensures errors { IfOk result (λ made. AddsErrors (map item list.items) (map item made.list.items)) }
    {
        let mut made = Made {
            chain,
            list: Vec::new(*list.allocator()),
        };
        self.add_roots(list, &mut made)?;
        Ok(made)
    }

    fn by_rules<C: ClientState, A: Allocator + Copy>(
        &self,
        depth: Option<usize>,
        path: &str,
        chain: Chain<A>,
        list: Vec<Result<DirEntry<C, A>, Error<A>>, A>,
    ) -> Result<Made<C, A>, AllocError>
        ensures value { T.IsFixed self.now.texts → IfOk result (λ made. made_value made
            ≡ by_rules (settings_value self.now.settings) (T.functions self.now.texts) depth path.now (chain_value chain) (map item list.items)) }
        ensures depth { (depth : _) → AtDepth depth (map item list.items)
            → IfOk result (λ made. AtDepth depth (map item made.list.items)) }
        ensures root { depth ≡ None → IfOk result (λ made. AddsErrors (map item list.items) (map item made.list.items)) }
    {
        match depth {
            None => self.at_root(chain, list),
            Some(_) => self.in_directory(path, chain, list),
        }
    }

    /// Reads the rules of a directory, and drops what is ignored from its list. A root has those of the folders above it.
    pub(crate) fn drop_ignored<C: ClientState, A: Allocator + Copy>(
        &self,
        depth: Option<usize>,
        path: &str,
        chain: &mut Chain<A>,
        list: &mut Vec<Result<DirEntry<C, A>, Error<A>>, A>,
    ) -> Result<(), AllocError>
        ensures value { T.IsFixed self.now.texts → OnOk result (made_from chain.new list.new.items
            ≡ by_rules (settings_value self.now.settings) (T.functions self.now.texts) depth path.now (chain_value chain.old) (map item list.old.items)) }
        ensures depth { (depth : _) → AtDepth depth (map item list.old.items) → OnOk result (AtDepth depth (map item list.new.items)) }
        ensures root { depth ≡ None → OnOk result (AddsErrors (map item list.old.items) (map item list.new.items)) }
    {
        let items = mem::replace(list, Vec::new(*list.allocator()));
        let made = self.by_rules(depth, path, mem::take(chain), items)?;
        *chain = made.chain;
        *list = made.list;
        Ok(())
    }
}
