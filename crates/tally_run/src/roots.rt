//! Which roots are counted.
ghost use Rattle.std.specs.Prelude.{◌≡◌, ◌≢◌, true, false, length, Some, IfOk, if◌then◌else◌, None};
ghost use Rattle.tally_run.specs.Above.{folder_at, folder_in, folder_of, LeadsInto, LiesBelow};
ghost use Rattle.tally_run.specs.RootKind.{IsKindOf};
ghost use Rattle.tally_run.specs.declared.roots.RootKind.TheVariants.{LeftOut};

use jwalk::file_system::{Fault, FileSystem, Identity, Metadata};
use jwalk::path_text::{join, parent};
use program_walks::folders::{has_folders, look_at};
use std::alloc::{AllocError, Global};

/// How many folders are looked at above a root. A path has at most 4,096 bytes, so no path of `..` leads further up.
const ABOVE: usize = 2048;

/// What is found at a root.
#[derive(Clone, Copy, Debug, PartialEq, Eq)]
pub(crate) enum RootKind {
    /// The same directory as an earlier root, or something below one. It is left out.
    LeftOut,
    /// A directory that others may be in.
    Directory,
    /// One that none is in; or anything else, or nothing that can be asked.
    Other,
}

/// The directories that were counted as roots.
#[derive(Drop)]
pub(crate) struct Roots {
    counted: Vec<Identity, Global>,
    // Directories on other file systems than their root's aren't read.
    one_file_system: bool,
}

/// Returns whether something is a directory, and which file it is, if that is known.
fn folder_and_identity(found: Option<Metadata>) -> (bool, Option<Identity>)
    ensures { folder_in found ≡ (if result.0 then result.1 else None) }
{
    match found {
        Some(found) => (found.is_dir(), found.identity()),
        None => (false, None),
    }
}

/// Returns `None` for what is no directory, and where its identity isn't known.
fn directory_at<S: FileSystem>(disk: &S, path: &str) -> Result<Option<Identity>, AllocError>
    ensures { S.IsFixed disk.now → IfOk result (λ own. own ≡ folder_at (S.functions disk.now) path.now) }
{
    match folder_and_identity(look_at(disk, path)?) {
        (true, own) => Ok(own),
        (false, _) => Ok(None),
    }
}

/// Returns whether there is anything at a path, be it a link that leads nowhere.
fn is_there<S: FileSystem>(disk: &S, path: &str) -> Result<bool, AllocError> {
    match disk.symlink_metadata(path) {
        Ok(_) => Ok(true),
        Err(Fault::Io(_)) => Ok(false),
        Err(Fault::Memory) => Err(AllocError),
    }
}

/// Returns the folder that a path without a directory at it lies in.
fn folder_of(path: &str) -> &str
    ensures { result.now ≡ folder_of path.now }
{
    match parent(path) {
        Some("") | None => ".",
        Some(folder) => folder,
    }
}

impl Roots {
    pub(crate) fn new(alloc: Global, one_file_system: bool) -> Self
        ensures { length result.counted.items ≡ 0 }
    {
        Roots {
            counted: Vec::new(alloc),
            one_file_system,
        }
    }

    /// Returns whether a walk of what is above a directory reads that directory.
    fn is_read_from(&self, above: Identity, at: Identity) -> bool {
        above != at && (!self.one_file_system || above.is_on_same_device(at))
    }

    /// Returns whether a directory, or one above it, is among the roots.
    fn has_above<S: FileSystem>(
        &self,
        alloc: Global,
        disk: &S,
        folder: &str,
        at: Identity,
    ) -> Result<bool, AllocError>
        ensures above { S.IsFixed disk.now → folder_at (S.functions disk.now) folder.now ≡ Some at
            → IfOk result (λ is. is ≡ true → LeadsInto (S.functions disk.now) self.now.counted.items folder.now) }
    {
        let mut path = String::from_str(alloc, folder)?;
        let mut at = at;
        for _ in 0..ABOVE {
            if self.counted.contains(&at) {
                return Ok(true);
            }
            path = join(alloc, path.as_str(), "..")?;
            match directory_at(disk, path.as_str())? {
                Some(above) if self.is_read_from(above, at) => at = above,
                _ => return Ok(false),
            }
        }
        Ok(false)
    }

    /// Returns whether a walk of a directory counts what is no directory in it, where it is known which file that is.
    fn is_counted_in(&self, folder: Identity, own: Option<Identity>) -> bool {
        match own {
            Some(own) => !self.one_file_system || folder.is_on_same_device(own),
            None => true,
        }
    }

    /// Returns whether something that is no directory lies in a directory that is among the roots, or below one.
    fn has_folder_of<S: FileSystem>(
        &self,
        alloc: Global,
        disk: &S,
        path: &str,
        own: Option<Identity>,
    ) -> Result<bool, AllocError>
        ensures above { S.IsFixed disk.now
            → IfOk result (λ b. b ≡ true → LeadsInto (S.functions disk.now) self.now.counted.items (folder_of path.now)) }
    {
        if !is_there(disk, path)? {
            return Ok(false);
        }
        let folder = folder_of(path);
        match directory_at(disk, folder)? {
            Some(at) if self.is_counted_in(at, own) => self.has_above(alloc, disk, folder, at),
            _ => Ok(false),
        }
    }

    /// Returns whether a root is the same directory as an earlier root, or lies below one. `found` is what is found there.
    /// Of what is no directory, or unknown, the folder that it lies in tells, if anything is there at all.
    fn is_below<S: FileSystem>(
        &self,
        alloc: Global,
        disk: &S,
        root: &str,
        found: Option<Metadata>,
    ) -> Result<bool, AllocError>
        ensures first { length self.now.counted.items ≡ 0 → IfOk result (λ below. below ≡ false) }
        ensures above { S.IsFixed disk.now → folder_in found ≡ folder_at (S.functions disk.now) root.now
            → IfOk result (λ below. below ≡ true → LiesBelow (S.functions disk.now) self.now.counted.items root.now) }
    {
        if self.counted.is_empty() {
            return Ok(false);
        }
        match folder_and_identity(found) {
            (true, Some(own)) => self.has_above(alloc, disk, root, own),
            (_, own) => self.has_folder_of(alloc, disk, root, own),
        }
    }

    /// Adds what is found at a root, if it is a directory.
    fn push(&mut self, found: Option<Metadata>) -> Result<(), AllocError> {
        if let (true, Some(own)) = folder_and_identity(found) {
            self.counted.push(own)?;
        }
        Ok(())
    }

    /// Adds a root, and returns what it is, where links are followed or not. The first is never left out, nor is one where
    /// nothing is found.
    ///
    /// # Errors
    ///
    /// If memory runs out.
    pub(crate) fn add<S: FileSystem>(
        &mut self,
        alloc: Global,
        disk: &S,
        root: &str,
        follow: bool,
    ) -> Result<RootKind, AllocError>
        ensures first { length self.old.counted.items ≡ 0 → IfOk result (λ kind. kind ≢ LeftOut) }
        ensures left_out { S.IsFixed disk.now
            → IfOk result (λ kind. kind ≡ LeftOut → LiesBelow (S.functions disk.now) self.old.counted.items root.now) }
        ensures kind { S.IsFixed disk.now → IfOk result (IsKindOf follow ((S.functions disk.now).meta_of root.now)) }
    {
        let found = look_at(disk, root)?;
        if self.is_below(alloc, disk, root, found)? {
            return Ok(RootKind::LeftOut);
        }
        self.push(found)?;
        if has_folders(found, follow) {
            Ok(RootKind::Directory)
        } else {
            Ok(RootKind::Other)
        }
    }
}
