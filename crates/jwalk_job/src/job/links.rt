//! Entries made from paths, and what is found behind a link that is followed.
ghost use Rattle.std.specs.Prelude.{◌≡◌, ◌&&◌, ◌++◌, ◌∷◌, [], true, false, Some, Ok, Err, option_map, IfOk, MatchResult, if◌then◌else◌};
ghost use Rattle.jwalk_model.specs.Error.{io};
ghost use Rattle.jwalk_model.specs.Entry.{AtDepth, path_of, children_at};
ghost use Rattle.jwalk_model.specs.FileType.{is_symlink};
ghost use Rattle.jwalk_model.specs.Job as value;
ghost use Rattle.jwalk_model.specs.Paths.{join};
ghost use Rattle.jwalk_job.specs.Text.{text};
ghost use Rattle.jwalk_job.specs.Ancestors.{texts};
ghost use Rattle.jwalk_job.specs.Error.{failure};
ghost use Rattle.jwalk_job.specs.Entry.{entry, item, children};
ghost use Rattle.jwalk_job.specs.Given.{counted_item, counted_entry, DefaultsCount};
ghost use Rattle.jwalk_job.specs.Job.{file_system, options_of, job_by, ByValue};
ghost use Rattle.jwalk_job.specs.Inside.{IsAsked, AsksOn};

use super::inside::Inside;
use super::{Job, kept};
use crate::ancestors::Ancestors;
use crate::client_state::ClientState;
use crate::dir_entry::DirEntry;
use crate::error::Error;
use crate::item::Item;
use crate::metadata::metadata_at;
use crate::process_read_dir::ProcessReadDir;
use crate::read_children::ReadChildren;
use jwalk_fs::fault::Fault;
use jwalk_fs::file_system::FileSystem;
use jwalk_fs::path_text;
use jwalk_model::file_type::FileType;
use jwalk_model::metadata::{Identity, Metadata};
use std::alloc::{AllocError, Allocator};
use std::sync::Arc;

/// Returns the name of an entry made from a path: its file name, or its whole path if it has none.
fn own_name(path: &str) -> &str
    ensures { result.now ≡ value.own_name path.now }
{
    match path_text::file_name(path) {
        Some(name) => name,
        None => path,
    }
}

/// Returns the parent of an entry made from a path: nothing if it has no file name.
fn own_parent(path: &str) -> &str
    ensures { result.now ≡ value.own_parent path.now }
{
    if path_text::file_name(path).is_none() {
        return "";
    }
    match path_text::parent(path) {
        Some(parent) => parent,
        None => "",
    }
}

pub(super) fn shared<A: Allocator + Copy>(
    alloc: A,
    words: &str,
) -> Result<Arc<String<A>, A>, AllocError>
    ensures { IfOk result (λ shared. text shared ≡ words.now) }
{
    Ok(Arc::new(alloc, String::from_str(alloc, words)?)?)
}

pub(super) fn joined<A: Allocator + Copy>(
    alloc: A,
    path: &str,
    name: &str,
) -> Result<Arc<String<A>, A>, AllocError>
    ensures { IfOk result (λ joined. text joined ≡ join path.now name.now) }
{
    Ok(Arc::new(alloc, path_text::join(alloc, path, name)?)?)
}

pub(super) fn ancestors_below<A: Allocator + Copy>(
    alloc: A,
    follow_links: bool,
    above: &Ancestors<A>,
    path: &Arc<String<A>, A>,
) -> Result<Ancestors<A>, AllocError>
    ensures { IfOk result (λ inside. texts inside
        ≡ (if follow_links then texts above.now ++ text path.now ∷ [] else [])) }
{
    if !follow_links {
        return Ok(Ancestors::none());
    }
    above.with(alloc, path.clone()?)
}

/// Returns the parent of an entry made from a path: a handle of a text near by, if that is the same text.
fn parent_of<A: Allocator + Copy>(
    alloc: A,
    path: &str,
    near: &Arc<String<A>, A>,
) -> Result<Arc<String<A>, A>, AllocError>
    ensures { IfOk result (λ parent. text parent ≡ value.own_parent path.now) }
{
    let parent = own_parent(path);
    if parent == near.as_str() {
        return Ok(near.clone()?);
    }
    shared(alloc, parent)
}

/// Returns which file a link at a depth leads to, if a loop is told by it. A root's link is told by its text alone, since
/// a root has no directory above it but itself.
fn target_at(depth: usize, target: Metadata) -> Option<Identity>
    ensures { result ≡ value.target_at depth target }
{
    if depth == 0 {
        return None;
    }
    target.identity()
}

/// Returns whether a link leads on to its target, of which this is known. The link has a path and the path of its
/// parent. It doesn't lead on to a directory above it: to the same file, where both are known, or else to the same place
/// by its text below the parent. Nor if the text of the link to a directory can't be read.
fn leads_on<S: FileSystem, A: Allocator + Copy>(
    alloc: A,
    fs: &S,
    depth: usize,
    inside: &mut Inside<A>,
    parent: &Arc<String<A>, A>,
    path: &Arc<String<A>, A>,
    target: Metadata,
) -> Result<Result<(), Error<A>>, AllocError>
    ensures asks { S.IsFixed fs.now → IfOk result (λ _. AsksOn (S.functions fs.now) inside.old inside.new) }
    ensures value { S.IsFixed fs.now → IsAsked (S.functions fs.now) inside.old → IfOk result (λ r. MatchResult r
        (λ _. value.leads_on (S.functions fs.now) depth (texts inside.old.ancestors) (text parent.now) (text path.now) target
        ≡ Ok tt)
        (λ e. value.leads_on (S.functions fs.now) depth (texts inside.old.ancestors) (text parent.now) (text path.now) target
        ≡ Err (failure e))) }
{
    if !target.is_dir() {
        return Ok(Ok(()));
    }
    match fs.read_link(alloc, path.as_str()) {
        Ok(text) => {
            let place = path_text::join(alloc, parent.as_str(), text.as_str())?;
            match inside.nearest(alloc, fs, target_at(depth, target), place.as_str())? {
                Some(ancestor) => Ok(Err(Error::from_loop(depth, ancestor, path.clone()?))),
                None => Ok(Ok(())),
            }
        }
        Err(Fault::Io(err)) => Ok(Err(Error::from_item(depth, parent.clone()?, err))),
        Err(Fault::Memory) => Err(AllocError),
    }
}

fn directory_at<C: ClientState, A: Allocator + Copy>(
    path: &Arc<String<A>, A>,
    is_entered: bool,
) -> Result<Option<ReadChildren<C, A>>, AllocError>
    ensures { IfOk result (λ o. option_map children o ≡ children_at is_entered (text path.now)) }
{
    if !is_entered {
        return Ok(None);
    }
    Ok(Some(ReadChildren::new(path.clone()?)))
}

impl<C: ClientState, S: FileSystem, P: ProcessReadDir<C, A>, A: Allocator + Copy> Job<C, S, P, A> {
    /// `near` may be the path of the entry's parent.
    fn entry_at(
        &self,
        depth: usize,
        path: &Arc<String<A>, A>,
        near: &Arc<String<A>, A>,
        through_link: bool,
        ancestors: &Ancestors<A>,
        metadata: Metadata,
        is_entered: bool,
    ) -> Result<DirEntry<C, A>, AllocError>
        ensures depth { IfOk result (λ e. (entry e).depth ≡ depth) }
        ensures value { (g : _) → DefaultsCount C.DirEntryState.Default g
            → IfOk result (λ e. counted_entry g (entry e) ≡ record (value.made_of (job_by S.FileSystem g self.now)
            depth (text path.now) through_link (texts ancestors.now) metadata) {
              read_children = children_at is_entered (text path.now);
            }) }
    {
        let file_name = String::from_str(self.alloc, own_name(path.as_str()))?;
        let parent_path = parent_of(self.alloc, path.as_str(), near)?;
        let ancestors = ancestors.share()?;
        let kept = kept(self.alloc, self.options, Some(metadata))?;
        let read_children = directory_at(path, is_entered)?;
        Ok(DirEntry::new(
            depth,
            file_name,
            metadata.file_type(),
            kept,
            parent_path,
            read_children,
            through_link,
            ancestors,
        ))
    }

    /// `near` may be the path of the entry's parent.
    pub(super) fn entry_of_path(
        &self,
        depth: usize,
        path: &Arc<String<A>, A>,
        near: &Arc<String<A>, A>,
        through_link: bool,
        ancestors: &Ancestors<A>,
    ) -> Result<Item<C, A>, AllocError>
        ensures depth { IfOk result (λ r. AtDepth depth (item r ∷ [])) }
        ensures value { ByValue S.FileSystem C.DirEntryState.Default self.now (λ g job.
            IfOk result (λ r. counted_item g (item r)
            ≡ value.made job depth (text path.now) through_link (texts ancestors.now))) }
    {
        match metadata_at(&self.fs, path.as_str(), through_link) {
            Ok(metadata) => {
                let found = self.entry_at(
                    depth,
                    path,
                    near,
                    through_link,
                    ancestors,
                    metadata,
                    metadata.is_dir(),
                )?;
                Ok(Ok(found))
            }
            Err(Fault::Io(err)) => Ok(Err(Error::from_path(depth, path.clone()?, err))),
            Err(Fault::Memory) => Err(AllocError),
        }
    }

    /// Returns the entry that a link at a path leads to, unless that is a directory above the link.
    fn reached(
        &self,
        link: &DirEntry<C, A>,
        path: &Arc<String<A>, A>,
        target: Metadata,
        inside: &mut Inside<A>,
    ) -> Result<Item<C, A>, AllocError>
        requires { text path.now ≡ path_of (entry link.now) }
        ensures depth { IfOk result (λ r. AtDepth (entry link.now).depth (item r ∷ [])) }
        ensures asks { S.IsFixed (file_system self.now)
            → IfOk result (λ _. AsksOn (S.functions (file_system self.now)) inside.old inside.new) }
        ensures value { ByValue S.FileSystem C.DirEntryState.Default self.now (λ g job.
            IsAsked job.fs inside.old → (entry link.now).ancestors ≡ texts inside.old.ancestors
            → IfOk result (λ r. counted_item g (item r)
            ≡ value.reached job inside.old.within (counted_entry g (entry link.now)) target)) }
    {
        let leads_on = leads_on(
            self.alloc,
            &self.fs,
            link.depth,
            inside,
            &link.parent_path,
            path,
            target,
        )?;
        match leads_on {
            Ok(()) => {
                let found = self.entry_at(
                    link.depth,
                    path,
                    &link.parent_path,
                    true,
                    inside.ancestors(),
                    target,
                    inside.enters(target.file_type(), target.identity()),
                )?;
                Ok(Ok(found))
            }
            Err(error) => Ok(Err(error)),
        }
    }

    /// Returns the entry that replaces a link that is followed.
    fn follow_link(
        &self,
        link: &DirEntry<C, A>,
        inside: &mut Inside<A>,
    ) -> Result<Item<C, A>, AllocError>
        ensures depth { IfOk result (λ r. AtDepth (entry link.now).depth (item r ∷ [])) }
        ensures asks { S.IsFixed (file_system self.now)
            → IfOk result (λ _. AsksOn (S.functions (file_system self.now)) inside.old inside.new) }
        ensures value { ByValue S.FileSystem C.DirEntryState.Default self.now (λ g job.
            IsAsked job.fs inside.old → (entry link.now).ancestors ≡ texts inside.old.ancestors
            → IfOk result (λ r. counted_item g (item r)
            ≡ value.either (value.reached job inside.old.within (counted_entry g (entry link.now)))
            (λ kind. Err (io (entry link.now).depth (Some (path_of (entry link.now))) kind))
            (job.fs.meta_of (path_of (entry link.now))))) }
    {
        let path = joined(self.alloc, link.parent_path(), link.file_name())?;
        match self.fs.metadata(path.as_str()) {
            Ok(target) => self.reached(link, &path, target, inside),
            Err(Fault::Io(err)) => Ok(Err(Error::from_path(link.depth, path, err))),
            Err(Fault::Memory) => Err(AllocError),
        }
    }

    fn gives_way(&self, file_type: FileType) -> bool
        ensures { result ≡ ((options_of self.now).follow_links && is_symlink file_type) }
    {
        self.options.follow_links() && file_type.is_symlink()
    }

    pub(super) fn followed(
        &self,
        found: DirEntry<C, A>,
        inside: &mut Inside<A>,
    ) -> Result<Item<C, A>, AllocError>
        ensures depth { IfOk result (λ r. AtDepth found.depth (item r ∷ [])) }
        ensures stays { (options_of self.now).follow_links ≡ false → IfOk result (λ r. item r ≡ Ok (entry found)) }
        ensures unasked { (options_of self.now).follow_links ≡ false → IfOk result (λ _. inside.new ≡ inside.old) }
        ensures asks { S.IsFixed (file_system self.now)
            → IfOk result (λ _. AsksOn (S.functions (file_system self.now)) inside.old inside.new) }
        ensures value { ByValue S.FileSystem C.DirEntryState.Default self.now (λ g job.
            IsAsked job.fs inside.old → (entry found).ancestors ≡ texts inside.old.ancestors
            → IfOk result (λ r. counted_item g (item r)
            ≡ value.followed job inside.old.within (counted_entry g (entry found)))) }
    {
        if self.gives_way(found.file_type) {
            return self.follow_link(&found, inside);
        }
        Ok(Ok(found))
    }
}
