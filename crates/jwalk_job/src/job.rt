//! One reading of a directory.
ghost use Rattle.std.specs.Prelude.{◌≡◌, ◌+◌, ◌<◌, ◌^◌, None, Some, if◌then◌else◌, IfOk, IfErr, length, map, option_map, option_to_list, string_bytes};
ghost use Rattle.jwalk_model.specs.Entry.{AtDepth, children_at};
ghost use Rattle.jwalk_model.specs.Paths.{join};
ghost use Rattle.jwalk_model.specs.Job as value;
ghost use Rattle.jwalk_fs.specs.Views.{named_as, FailsAs};
ghost use Rattle.jwalk_job.specs.Text.{text};
ghost use Rattle.jwalk_job.specs.Ancestors.{texts};
ghost use Rattle.jwalk_job.specs.Entry.{entry, item, children};
ghost use Rattle.jwalk_job.specs.ReadDirSpec.{spec};
ghost use Rattle.jwalk_job.specs.ReadDir.{outcome, reading};
ghost use Rattle.jwalk_job.specs.Options.{options_value};
ghost use Rattle.jwalk_job.specs.Given.{counted_spec, counted_list, counted_entry, DefaultsCount};
ghost use Rattle.jwalk_job.specs.Job.{file_system, callback, options_of, job_by, AsksKnown, ByListing, IsFromListing, IsOfListing, IsReadingOf, ProcessesItems};
ghost use Rattle.jwalk_job.specs.Inside.{AsksOn, IsInside};

mod gathering;
mod inside;
mod links;
mod plan;
mod root;

use crate::ancestors::identity_at;
use crate::client_state::ClientState;
use crate::dir_entry::DirEntry;
use crate::error::Error;
use crate::item::{Item, List};
use crate::options::Options;
use crate::process_read_dir::ProcessReadDir;
use crate::read_children::ReadChildren;
use crate::read_dir::ReadDir;
use crate::read_dir_spec::ReadDirSpec;
use crate::sorting::in_order;
use gathering::Gathering;
use inside::Inside;
use jwalk_fs::fault::Fault;
use jwalk_fs::file_system::FileSystem;
use jwalk_model::metadata::Metadata;
use jwalk_model::seen::Seen;
use links::{ancestors_below, joined};
use std::alloc::{AllocError, Allocator, Global};
use std::io;
use std::marker::PhantomData;
use std::sync::Mutex;

/// What reads one directory: a file system, a callback, and the options that a reading follows.
pub struct Job<C: ClientState, S, P, A: Allocator + Copy = Global> {
    fs: S,
    process: P,
    options: Options,
    alloc: A,
    // No lock is there: the type alone says that a job may be shared where the states may not.
    of: PhantomData<Mutex<C>>,
}

impl<C: ClientState, S: Drop, P: Drop, A: Allocator + Copy> Drop for Job<C, S, P, A> {
    fn drop(self) {
        let Job {
            fs: _,
            process: _,
            options: _,
            alloc: _,
            of: _,
        } = self;
    }
}

fn children_in<C: ClientState, A: Allocator + Copy>(
    alloc: A,
    directory: &str,
    name: &str,
    is_entered: bool,
) -> Result<Option<ReadChildren<C, A>>, AllocError>
    ensures { IfOk result (λ o. option_map children o
        ≡ children_at is_entered (join directory.now name.now)) }
{
    if !is_entered {
        return Ok(None);
    }
    Ok(Some(ReadChildren::new(joined(alloc, directory, name)?)))
}

fn kept<A: Allocator + Copy>(
    alloc: A,
    options: Options,
    seen: Option<Metadata>,
) -> Result<Option<Box<Metadata, A>>, AllocError>
    ensures { IfOk result (λ kept. option_map (λ boxed. boxed.value) kept
        ≡ (if (options_value options).keep_metadata then seen else None)) }
{
    if !options.keep_metadata() {
        return Ok(None);
    }
    match seen {
        Some(metadata) => Ok(Some(Box::new(alloc, metadata)?)),
        None => Ok(None),
    }
}

impl<C: ClientState, S: FileSystem, P: ProcessReadDir<C, A>, A: Allocator + Copy> Job<C, S, P, A> {
    /// Returns a job over a file system and a callback, by the options of a walk. A reading goes by all of them but the
    /// least depth and how directories are read.
    pub fn new(alloc: A, fs: S, process: P, options: Options) -> Self
        ensures file_system { file_system result ≡ fs }
        ensures callback { callback result ≡ process }
        ensures options { options_of result ≡ options_value options }
    {
        Job {
            fs,
            process,
            options,
            alloc,
            of: PhantomData,
        }
    }

    /// Returns the options that it follows.
    pub fn options(&self) -> Options
        ensures { options_value result ≡ options_of self.now }
    {
        self.options
    }

    /// The file system is asked which file the directory is if the walk stays on one file system.
    fn inside(&self, of: &ReadDirSpec<C, A>) -> Result<Inside<A>, AllocError>
        ensures { ByListing S.FileSystem C.DirEntryState.Default self.now (λ g job.
            IfOk result (λ inside. IsInside job (counted_spec g (spec of.now)) inside)) }
    {
        let follow_links = self.options.follow_links();
        let ancestors = ancestors_below(self.alloc, follow_links, of.ancestors(), &of.path)?;
        if !self.options.same_file_system() {
            return Ok(Inside::new(ancestors, None));
        }
        let within = identity_at(&self.fs, of.path.as_str())?;
        Ok(Inside::new(ancestors, within))
    }

    fn entry_in(
        &self,
        of: &ReadDirSpec<C, A>,
        inside: &Inside<A>,
        name: String<A>,
        seen: Seen,
    ) -> Result<DirEntry<C, A>, AllocError>
        requires fits { (spec of.now).depth + 1 < 2 ^ 64 }
        ensures depth { IfOk result (λ e. e.depth ≡ (spec of.now).depth + 1) }
        ensures ancestors { IfOk result (λ e. (entry e).ancestors ≡ texts inside.now.ancestors) }
        ensures value { (g : _) → DefaultsCount C.DirEntryState.Default g
            → IsInside (job_by S.FileSystem g self.now) (counted_spec g (spec of.now)) inside.now
            → IfOk result (λ e. counted_entry g (entry e)
            ≡ value.entry_in (job_by S.FileSystem g self.now)
            (counted_spec g (spec of.now)) (string_bytes name) seen) }
    {
        let parent_path = of.path.clone()?;
        let ancestors = inside.ancestors().share()?;
        let file_type = seen.file_type();
        let kept = kept(self.alloc, self.options, seen.metadata())?;
        let is_entered = inside.enters(file_type, seen.identity());
        let read_children = children_in(self.alloc, of.path.as_str(), name.as_str(), is_entered)?;
        Ok(DirEntry::new(
            of.depth() + 1,
            name,
            file_type,
            kept,
            parent_path,
            read_children,
            false,
            ancestors,
        ))
    }

    fn named(
        &self,
        of: &ReadDirSpec<C, A>,
        inside: &mut Inside<A>,
        name: &str,
        seen: io::Result<Seen>,
    ) -> Result<Option<Item<C, A>>, AllocError>
        requires fits { (spec of.now).depth + 1 < 2 ^ 64 }
        ensures depth { IfOk result (λ o. AtDepth ((spec of.now).depth + 1) (map item (option_to_list o))) }
        ensures asks { AsksKnown S.FileSystem self.now
            → IfOk result (λ _. AsksOn (S.functions (file_system self.now)) inside.old inside.new) }
        ensures value { ByListing S.FileSystem C.DirEntryState.Default self.now (λ g job.
            IsInside job (counted_spec g (spec of.now)) inside.old
            → IfOk result (λ o. counted_list g (option_to_list o)
            ≡ value.named job (counted_spec g (spec of.now)) (named_as name.now seen))) }
    {
        match seen {
            Err(err) => {
                let path = joined(self.alloc, of.path.as_str(), name)?;
                Ok(Some(Err(Error::from_path(of.depth() + 1, path, err))))
            }
            Ok(seen) => {
                if self.options.skips(name) {
                    return Ok(None);
                }
                let name = String::from_str(self.alloc, name)?;
                let found = self.entry_in(of, inside, name, seen)?;
                Ok(Some(self.followed(found, inside)?))
            }
        }
    }

    /// Lists a directory: returns its items in the file system's order.
    fn list_items(&self, of: &ReadDirSpec<C, A>) -> Result<List<C, A>, Fault>
        requires { (spec of.now).depth + 1 < 2 ^ 64 }
        ensures depth { IfOk result (λ v. AtDepth ((spec of.now).depth + 1) (map item v.items)) }
        ensures listed { IfOk result (λ v. IsOfListing S.FileSystem self.now (text of.now.path) (λ listing.
            ByListing S.FileSystem C.DirEntryState.Default self.now (λ g job.
            counted_list g v.items ≡ value.raw job (counted_spec g (spec of.now)) listing))) }
        ensures failed { S.IsFixed (file_system self.now) → IfErr result (λ fault.
            FailsAs fault ((S.functions (file_system self.now)).list_of (text of.now.path))) }
    {
        let inside = self.inside(of)?;
        let mut gathering = Gathering::new(self, of, inside);
        self.fs
            .read_dir_into(self.alloc, of.path.as_str(), &mut gathering)?;
        Ok(gathering.into_items())
    }

    /// The callback is called with a clone of the directory's state.
    fn run_callback(
        &self,
        of: &ReadDirSpec<C, A>,
        items: List<C, A>,
    ) -> Result<ReadDir<C, A>, AllocError>
        requires lawful { P.IsLawful (callback self.now) }
        requires fits { (spec of.now).depth + 1 < 2 ^ 64 }
        requires depth { AtDepth ((spec of.now).depth + 1) (map item items.items) }
        ensures depth { IfOk result (λ r. AtDepth ((spec of.now).depth + 1) (reading r).list) }
        ensures few { IfOk result (λ r. length (reading r).list < 2 ^ 64) }
        ensures value { ProcessesItems S.FileSystem P.ProcessReadDir C.ReadDirState.Clone C.DirEntryState.Default
            self.now (spec of.now) items.items result }
    {
        let mut items = in_order(self.options.sort, items)?;
        let mut state = of.client_read_state.clone()?;
        self.process
            .process(Some(of.depth), of.path.as_str(), &mut state, &mut items)?;
        // A vector's length fits a `usize`.
        let _count = items.len();
        Ok(ReadDir::new(state, items))
    }

    /// Reads one directory: returns its list, or the error that listing it ended in, which has the directory's depth
    /// and path. A directory whose depth is the greatest or more isn't read: its list is empty, and neither the file
    /// system nor the callback is called.
    ///
    /// # Errors
    ///
    /// If memory runs out: the walk's own, the file system's or the callback's, or for the clone of the state.
    pub fn read_one(
        &self,
        of: &ReadDirSpec<C, A>,
    ) -> Result<Result<ReadDir<C, A>, Error<A>>, AllocError>
        requires { P.IsLawful (callback self.now) }
        ensures reading { IfOk result (λ o. IsReadingOf S.FileSystem P.ProcessReadDir C.ReadDirState.Clone
            C.DirEntryState.Default self.now (spec of.now) (outcome o)) }
        ensures listed { IfOk result (λ o. IfOk o (λ r. IsFromListing S.FileSystem P.ProcessReadDir
            C.ReadDirState.Clone C.DirEntryState.Default self.now (spec of.now) (reading r))) }
    {
        if !self.options.reads(of.depth()) {
            let state = of.client_read_state.clone()?;
            return Ok(Ok(ReadDir::new(state, Vec::new(self.alloc))));
        }
        match self.list_items(of) {
            Ok(items) => Ok(Ok(self.run_callback(of, items)?)),
            Err(Fault::Io(err)) => Ok(Err(Error::from_path(of.depth(), of.path.clone()?, err))),
            Err(Fault::Memory) => Err(AllocError),
        }
    }
}
