//! The list that a walk begins with.
ghost use Rattle.std.specs.Prelude.{◌≡◌, ◌∷◌, [], false, None, Some, Ok, Err, IfOk, MatchResult, if◌then◌else◌, length};
ghost use Rattle.jwalk_model.specs.Error.{io};
ghost use Rattle.jwalk_model.specs.Entry.{AtDepth};
ghost use Rattle.jwalk_model.specs.Job as value;
ghost use Rattle.jwalk_model.specs.Paths.{join};
ghost use Rattle.jwalk_job.specs.Text.{text};
ghost use Rattle.jwalk_job.specs.Error.{failure};
ghost use Rattle.jwalk_job.specs.Entry.{entry, item};
ghost use Rattle.jwalk_job.specs.ReadDir.{reading};
ghost use Rattle.jwalk_job.specs.Given.{Given, counted_item, counted_reading, counted_entry, IsOfRoot, KeepsLists};
ghost use Rattle.jwalk_job.specs.Job.{file_system, callback, job_by, IsSteadyJob, ByValue};

use super::Job;
use super::inside::Inside;
use super::links::{ancestors_below, joined, shared};
use crate::ancestors::Ancestors;
use crate::client_state::ClientState;
use crate::dir_entry::DirEntry;
use crate::error::Error;
use crate::item::Item;
use crate::process_read_dir::ProcessReadDir;
use crate::read_dir::ReadDir;
use jwalk_fs::fault::Fault;
use jwalk_fs::file_system::FileSystem;
use jwalk_model::metadata::Metadata;
use std::alloc::{AllocError, Allocator};
use std::sync::Arc;

/// The item of a root before the callback, and the path that the callback is called with.
#[derive(Drop)]
struct RootItem<C: ClientState, A: Allocator + Copy> {
    item: Item<C, A>,
    parent_path: Arc<String<A>, A>,
}

/// What is behind a root that is a link, and the link's path.
#[derive(Drop)]
struct Behind<A: Allocator + Copy> {
    path: Arc<String<A>, A>,
    metadata: Metadata,
}

fn behind_root<S: FileSystem, A: Allocator + Copy>(
    alloc: A,
    fs: &S,
    parent_path: &str,
    name: &str,
) -> Result<Result<Behind<A>, Error<A>>, AllocError>
    ensures path { IfOk result (λ r. IfOk r (λ b. text b.path ≡ join parent_path.now name.now)) }
    ensures value { S.IsFixed fs.now → IfOk result (λ r. MatchResult r
        (λ b. (S.functions fs.now).meta_of (join parent_path.now name.now) ≡ Ok b.metadata)
        (λ e. value.either Ok (λ kind. Err (io 0 (Some (join parent_path.now name.now)) kind))
        ((S.functions fs.now).meta_of (join parent_path.now name.now)) ≡ Err (failure e))) }
{
    let path = joined(alloc, parent_path, name)?;
    match fs.metadata(path.as_str()) {
        Ok(metadata) => Ok(Ok(Behind { path, metadata })),
        Err(Fault::Io(err)) => Ok(Err(Error::from_path(0, path, err))),
        Err(Fault::Memory) => Err(AllocError),
    }
}

impl<C: ClientState, S: FileSystem, P: ProcessReadDir<C, A>, A: Allocator + Copy> Job<C, S, P, A> {
    /// Returns a root's entry with what is behind it, if it is a link: a directory there is to be read.
    fn with_target(&self, found: DirEntry<C, A>) -> Result<Item<C, A>, AllocError>
        ensures depth { AtDepth 0 (Ok (entry found) ∷ []) → IfOk result (λ r. AtDepth 0 (item r ∷ [])) }
        ensures value { (g : Given C.ReadDirState C.DirEntryState) → S.IsFixed (file_system self.now)
            → IfOk result (λ r. counted_item g (item r)
            ≡ value.with_target (job_by S.FileSystem g self.now) (counted_entry g (entry found))) }
    {
        if !found.file_type.is_symlink() {
            return Ok(Ok(found));
        }
        match behind_root(self.alloc, &self.fs, found.parent_path(), found.file_name())? {
            Ok(behind) => Ok(Ok(found.with_directory(behind.path, behind.metadata))),
            Err(broken) => {
                drop(found);
                Ok(Err(broken))
            }
        }
    }

    fn root_target(&self, found: DirEntry<C, A>) -> Result<Item<C, A>, AllocError>
        ensures depth { AtDepth 0 (Ok (entry found) ∷ []) → IfOk result (λ r. AtDepth 0 (item r ∷ [])) }
        ensures value { ByValue S.FileSystem C.DirEntryState.Default self.now (λ g job.
            IfOk result (λ r. counted_item g (item r)
            ≡ value.either (value.with_target job) Err (value.followed job None (counted_entry g (entry found))))) }
    {
        let mut inside = Inside::new(found.ancestors().share()?, None);
        match self.followed(found, &mut inside)? {
            Ok(found) => self.with_target(found),
            Err(error) => Ok(Err(error)),
        }
    }

    fn root_entry(&self, path: &str) -> Result<Item<C, A>, AllocError>
        ensures depth { IfOk result (λ r. AtDepth 0 (item r ∷ [])) }
        ensures value { ByValue S.FileSystem C.DirEntryState.Default self.now (λ g job.
            IfOk result (λ r. counted_item g (item r)
            ≡ value.made job 0 path.now false (if job.options.follow_links then path.now ∷ [] else []))) }
    {
        let path = shared(self.alloc, path)?;
        let follow_links = self.options.follow_links();
        let ancestors = ancestors_below(self.alloc, follow_links, &Ancestors::none(), &path)?;
        self.entry_of_path(0, &path, &path, false, &ancestors)
    }

    fn root_item(&self, path: &str) -> Result<RootItem<C, A>, AllocError>
        ensures depth { IfOk result (λ r. AtDepth 0 (item r.item ∷ [])) }
        ensures value { ByValue S.FileSystem C.DirEntryState.Default self.now (λ g job.
            IfOk result (λ r. counted_item g (item r.item) ≡ value.root_item job path.now)) }
        ensures parent { ByValue S.FileSystem C.DirEntryState.Default self.now (λ g job.
            IfOk result (λ r. text r.parent_path ≡ value.root_parent job path.now)) }
    {
        match self.root_entry(path)? {
            Ok(found) => {
                let parent_path = found.parent_path.clone()?;
                let item = self.root_target(found)?;
                Ok(RootItem { item, parent_path })
            }
            Err(error) => Ok(RootItem {
                item: Err(error),
                parent_path: shared(self.alloc, "")?,
            }),
        }
    }

    /// Returns the list that a walk begins with: the root's entry, or the error met when it was asked for, after the
    /// callback. The callback is called with no depth, this state, and the path of the root's parent, or an empty one
    /// after an error.
    ///
    /// If links are followed, a root that is a link is replaced by what it leads to. Else it stays a link, and a
    /// directory behind it is read below it. A root that is a broken link is an error with its path.
    ///
    /// # Errors
    ///
    /// If memory runs out: the walk's own, the file system's or the callback's.
    pub fn root_list(&self, path: &str, state: C::ReadDirState) -> Result<ReadDir<C, A>, AllocError>
        requires { P.IsLawful (callback self.now) }
        ensures depth { IfOk result (λ r. AtDepth 0 (reading r).list) }
        ensures value { (g : _)
            → IsSteadyJob S.FileSystem P.ProcessReadDir C.ReadDirState.Clone C.DirEntryState.Default self.now g
            → IfOk result (λ r. value.root_list (job_by S.FileSystem g self.now) path.now (g.read_dir_state state)
            ≡ counted_reading g (reading r)) }
        ensures one { (g : _) → P.Makes (callback self.now) g → KeepsLists g.processed
            → IfOk result (λ r. length (reading r).list ≡ 1) }
        ensures root { P.KeepsRoot (callback self.now) → IfOk result (λ r. IsOfRoot (reading r).list) }
    {
        let RootItem { item, parent_path } = self.root_item(path)?;
        let mut state = state;
        let mut items = Vec::new(self.alloc);
        items.push(item)?;
        self.process
            .process(None, parent_path.as_str(), &mut state, &mut items)?;
        Ok(ReadDir::new(state, items))
    }
}
