//! An entry of a walk.
ghost use Rattle.std.specs.Prelude.{◌≡◌, Some, Ok, Err, IfOk, IfErr, IfSome, MatchResult, string_bytes};
ghost use Rattle.std.specs.declared.io.ErrorKind.{ErrorKind};
ghost use Rattle.jwalk_model.specs.Entry.{IsErrorAt};
ghost use Rattle.jwalk_model.specs.FileSystem.{metadata_at};
ghost use Rattle.jwalk_job.specs.Error.{failure, kind_of};

use crate::ancestors::Ancestors;
use crate::client_state::ClientState;
use crate::error::Error;
use crate::metadata::metadata_at;
pub use crate::read_children::ReadChildren;
use jwalk_fs::fault::Fault;
use jwalk_fs::file_system::FileSystem;
use jwalk_fs::path_text;
use jwalk_model::file_type::FileType;
use jwalk_model::metadata::Metadata;
use std::alloc::{AllocError, Allocator, Global};
use std::sync::Arc;

/// A file, a directory, a link or anything else that a walk finds.
#[derive(Drop)]
#[derive_where(Debug)]
pub struct DirEntry<C: ClientState, A: Allocator + Copy = Global> {
    /// The depth below the root, which has depth 0.
    pub depth: usize,
    /// The last part of the path. A root that has no file name, such as `..`, has its whole path here.
    pub file_name: String<A>,
    /// The type of what is at the path.
    pub file_type: FileType,
    /// What a callback keeps with the entry.
    pub client_state: C::DirEntryState,
    /// The path of the directory that the entry was listed in.
    pub parent_path: Arc<String<A>, A>,
    /// The directory to be read below the entry: set if it is a directory, or a root that is a link to one, unless a
    /// callback took it away.
    pub read_children: Option<ReadChildren<C, A>>,
    through_link: bool,
    // In a box, so that an entry without it has no room for it.
    seen: Option<Box<Metadata, A>>,
    #[derive_where(skip)]
    pub(crate) ancestors: Ancestors<A>,
}

/// Asks for the metadata of a path, of what a link there leads to if `through_link` says so.
fn asked<S: FileSystem, A: Allocator + Copy>(
    fs: &S,
    depth: usize,
    path: String<A>,
    through_link: bool,
) -> Result<Metadata, Error<A>>
    ensures value { S.IsFixed fs.now → MatchResult result
        (λ m. metadata_at (S.functions fs.now) through_link (string_bytes path) ≡ Ok m)
        (λ e. IfSome (kind_of (failure e))
        (λ kind. metadata_at (S.functions fs.now) through_link (string_bytes path) ≡ Err kind)) }
    ensures error { IfErr result (λ e. IsErrorAt depth (string_bytes path) (failure e)) }
{
    match metadata_at(fs, path.as_str(), through_link) {
        Ok(metadata) => Ok(metadata),
        Err(Fault::Io(err)) => match Arc::new(*path.allocator(), path) {
            Ok(path) => Err(Error::from_path(depth, path, err)),
            Err(_) => Err(Error::memory()),
        },
        Err(Fault::Memory) => Err(Error::memory()),
    }
}

impl<C: ClientState, A: Allocator + Copy> DirEntry<C, A> {
    ghost use Rattle.std.specs.Prelude.{◌≡◌, ◌||◌, true, Ok, Err, IfOk, IfErr, IfSome, MatchResult, option_map, option_and_then, option_copied, string_bytes, if◌then◌else◌};
    ghost use Rattle.jwalk_model.specs.Entry.{path_of, metadata_of, IsErrorOf, with_error, children_at};
    ghost use Rattle.jwalk_model.specs.FileType.{is_dir, is_symlink};
    ghost use Rattle.jwalk_model.specs.Metadata.{type_of};
    ghost use Rattle.jwalk_job.specs.Text.{text};
    ghost use Rattle.jwalk_job.specs.Ancestors.{texts};
    ghost use Rattle.jwalk_job.specs.Error.{failure, kind_of};
    ghost use Rattle.jwalk_job.specs.Entry.{entry, children};

    /// Returns an entry whose state is the default. `through_link` says that its path is that of a link which was
    /// followed.
    pub fn new(
        depth: usize,
        file_name: String<A>,
        file_type: FileType,
        seen: Option<Box<Metadata, A>>,
        parent_path: Arc<String<A>, A>,
        read_children: Option<ReadChildren<C, A>>,
        through_link: bool,
        ancestors: Ancestors<A>,
    ) -> Self
        ensures state { C.DirEntryState.Default.is_default (entry result).client_state }
        ensures entry { entry result ≡ record {
          depth = depth;
          file_name = string_bytes file_name;
          file_type = file_type;
          seen = option_map (λ boxed. boxed.value) seen;
          client_state = (entry result).client_state;
          parent_path = text parent_path;
          through_link = through_link;
          ancestors = texts ancestors;
          read_children = option_map children read_children;
        } }
    {
        DirEntry {
            depth,
            file_name,
            file_type,
            seen,
            client_state: C::DirEntryState::default(),
            parent_path,
            read_children,
            through_link,
            ancestors,
        }
    }

    /// Returns the depth below the root, which has depth 0.
    pub fn depth(&self) -> usize
        ensures { result ≡ (entry self.now).depth }
    {
        self.depth
    }

    /// Returns the last part of the path.
    pub fn file_name(&self) -> &str
        ensures { result.now ≡ (entry self.now).file_name }
    {
        self.file_name.as_str()
    }

    /// Returns the type of what is at the path.
    pub fn file_type(&self) -> FileType
        ensures { result ≡ (entry self.now).file_type }
    {
        self.file_type
    }

    /// Returns the metadata that its type came with, if the walk keeps metadata and the file system gave it then.
    pub fn metadata_seen(&self) -> Option<&Metadata>
        ensures { option_copied result ≡ (entry self.now).seen }
    {
        match &self.seen {
            Some(metadata) => Some(metadata.as_ref()),
            None => None,
        }
    }

    /// Returns whether its path is that of a link: one that is yielded as a link, or one that was followed.
    pub fn path_is_symlink(&self) -> bool
        ensures { result ≡ (is_symlink (entry self.now).file_type || (entry self.now).through_link) }
    {
        self.file_type.is_symlink() || self.through_link
    }

    /// Returns the path of the directory that the entry was listed in.
    pub fn parent_path(&self) -> &str
        ensures { result.now ≡ (entry self.now).parent_path }
    {
        self.parent_path.as_str()
    }

    /// Returns the directories above the entry, empty if links aren't followed. The root has its own path there.
    pub fn ancestors(&self) -> &Ancestors<A>
        ensures { texts result.now ≡ (entry self.now).ancestors }
    {
        &self.ancestors
    }

    /// Returns the error that reading the entry's directory ended in: `None` if it was read, or isn't to be.
    pub fn read_children_error(&self) -> Option<&Error<A>>
        ensures { option_map failure (option_copied result)
            ≡ option_and_then (λ children. children.error) (entry self.now).read_children }
    {
        match &self.read_children {
            Some(children) => children.error(),
            None => None,
        }
    }

    /// Returns the path of the entry: its `file_name` below its `parent_path`.
    ///
    /// # Errors
    ///
    /// If memory runs out.
    pub fn path(&self) -> Result<String<A>, AllocError>
        ensures { IfOk result (λ path. string_bytes path ≡ path_of (entry self.now)) }
    {
        let alloc = *self.file_name.allocator();
        path_text::join(alloc, self.parent_path.as_str(), self.file_name.as_str())
    }

    /// Returns the type and the length in bytes of what is at the entry's path. If the entry is that of a link which
    /// was followed, they are those of what the link leads to (`metadata` of the file system, else `symlink_metadata`).
    /// The file system is asked once, at each call: so the type may be another than the entry's.
    ///
    /// # Errors
    ///
    /// An error of the file system has the entry's depth and path. If memory runs out, the file system's or for the
    /// path, the error's `is_memory` is true.
    pub fn metadata<S: FileSystem>(&self, fs: &S) -> Result<Metadata, Error<A>>
        ensures value { S.IsFixed fs.now → MatchResult result
            (λ m. metadata_of (S.functions fs.now) (entry self.now) ≡ Ok m)
            (λ e. IfSome (kind_of (failure e))
            (λ kind. metadata_of (S.functions fs.now) (entry self.now) ≡ Err kind)) }
        ensures error { IfErr result (λ e. IsErrorOf (entry self.now) (failure e)) }
    {
        let Ok(path) = self.path() else {
            return Err(Error::memory());
        };
        asked(fs, self.depth, path, self.through_link)
    }

    pub(crate) fn with_directory(mut self, path: Arc<String<A>, A>, target: Metadata) -> Self
        ensures { entry result
            ≡ (if is_dir (type_of target) then record (entry self) { read_children = children_at true (text path) }
            else entry self) }
    {
        if target.is_dir() {
            self.read_children = Some(ReadChildren::new(path));
        }
        self
    }

    /// Returns the entry with the error that reading its directory ended in. An entry without a directory is unchanged.
    ///
    /// # Errors
    ///
    /// If memory runs out.
    pub fn with_error(mut self, error: Error<A>) -> Result<Self, AllocError>
        ensures { IfOk result (λ told. Ok (entry told) ≡ with_error (failure error) (Ok (entry self))) }
    {
        if let Some(children) = &mut self.read_children {
            children.error = Some(Box::new(*children.path.allocator(), error)?);
        }
        Ok(self)
    }
}
