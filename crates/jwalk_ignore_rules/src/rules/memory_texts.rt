//! Texts in memory.
ghost use Rattle.std.specs.Prelude.{◌≡◌, ℕ, List, None, Ok, Err, IfOk, OnOk, option_map};

use crate::rules::texts::Texts;
use jwalk_fs::fault::Fault;
use jwalk_fs::path_text;
use jwalk_model::file_type::FileType;
use std::alloc::{AllocError, Allocator, Global};
use std::collections::BTreeMap;
use std::io;
use std::io::ErrorKind;

/// What is at a path: a regular file's bytes, or something that can't be read.
#[derive(Drop)]
pub(crate) enum Content<A: Allocator + Copy> {
    /// A regular file that is read.
    Bytes(Vec<u8, A>),
    /// Something of this type, which reading ends in an error of this kind.
    Unread(FileType, ErrorKind),
}

impl<A: Allocator + Copy> Content<A> {
    ghost use Rattle.jwalk_ignore_rules.specs.Rules.MemoryTexts.{stored};

    fn file_type(&self) -> FileType
        ensures { result ≡ (stored self.now).file_type }
    {
        match self {
            Content::Bytes(_) => FileType::File,
            Content::Unread(file_type, _) => *file_type,
        }
    }
}

/// A map in memory from paths to the bytes of files. At a path is what was put there, a link leads nowhere, and a path is
/// absolute from `/` on. Paths are compared byte for byte.
pub struct MemoryTexts<A: Allocator + Copy = Global> {
    alloc: A,
    contents: BTreeMap<String<A>, Content<A>, A>,
}

impl<A: Allocator + Copy> Drop for MemoryTexts<A> {
    fn drop(self) {
        let MemoryTexts {
            alloc: _,
            contents: _,
        } = self;
    }
}

impl<A: Allocator + Copy> MemoryTexts<A> {
    ghost use Rattle.jwalk_ignore_rules.specs.Rules.MemoryTexts.{Holds, file, found_at, stored};

    /// Returns no texts. The allocator serves all that is put in.
    pub fn new(alloc: A) -> Self
        ensures { (path : List ℕ) → found_at result path ≡ None }
    {
        MemoryTexts {
            alloc,
            contents: BTreeMap::new(alloc),
        }
    }

    /// Puts a regular file with these bytes at a path, in place of what is there.
    ///
    /// # Errors
    ///
    /// If memory runs out.
    pub fn add(&mut self, path: &str, bytes: &[u8]) -> Result<(), AllocError>
        ensures { OnOk result (Holds path.now (file (Ok bytes.now)) self.old self.new) }
    {
        let bytes = copied(self.alloc, bytes)?;
        self.put(path, Content::Bytes(bytes))
    }

    /// Puts a regular file at a path that can't be read: it is an error of this kind.
    ///
    /// # Errors
    ///
    /// If memory runs out.
    pub fn deny(&mut self, path: &str, kind: ErrorKind) -> Result<(), AllocError>
        ensures { OnOk result (Holds path.now (file (Err kind)) self.old self.new) }
    {
        self.put(path, Content::Unread(FileType::File, kind))
    }

    /// Puts something of a type at a path that can't be read: it is an error of this kind. A link leads nowhere.
    ///
    /// # Errors
    ///
    /// If memory runs out.
    pub fn add_unread(
        &mut self,
        path: &str,
        file_type: FileType,
        kind: ErrorKind,
    ) -> Result<(), AllocError>
        ensures { OnOk result (Holds path.now (record { file_type = file_type; bytes = Err kind })
            self.old self.new) }
    {
        self.put(path, Content::Unread(file_type, kind))
    }

    fn put(&mut self, path: &str, there: Content<A>) -> Result<(), AllocError>
        ensures { OnOk result (Holds path.now (stored there) self.old self.new) }
    {
        let path = String::from_str(self.alloc, path)?;
        self.contents.insert(path, there)?;
        Ok(())
    }

    fn found(&self, path: &str) -> Option<&Content<A>>
        ensures { option_map (λ there. stored there.now) result ≡ found_at self.now path.now }
    {
        self.contents.get(path)
    }
}

fn copied<B: Allocator>(alloc: B, bytes: &[u8]) -> Result<Vec<u8, B>, AllocError>
    ensures { IfOk result (λ copy. copy.items ≡ bytes.now) }
{
    let mut copy = Vec::new(alloc);
    copy.extend_from_slice(bytes)?;
    Ok(copy)
}

impl<A: Allocator + Copy> Texts for MemoryTexts<A> {
    ghost use Rattle.jwalk_ignore_rules.specs.Rules.MemoryTexts.{texts_of};

    ghost IsFixed = { λ _. Unit {0} };

    ghost functions = { λ texts. texts_of texts };

    fn read<B: Allocator + Copy>(&self, alloc: B, path: &str) -> Result<Vec<u8, B>, Fault> {
        match self.found(path) {
            Some(Content::Bytes(bytes)) => Ok(copied(alloc, bytes)?),
            Some(Content::Unread(_, kind)) => Err(Fault::Io(io::Error::from(*kind))),
            None => Err(Fault::Io(io::Error::from(ErrorKind::NotFound))),
        }
    }

    fn file_type(&self, path: &str) -> Result<FileType, Fault> {
        match self.found(path) {
            Some(content) => Ok(content.file_type()),
            None => Err(Fault::Io(io::Error::from(ErrorKind::NotFound))),
        }
    }

    fn target_type(&self, path: &str) -> Result<FileType, Fault> {
        match self.found(path) {
            Some(content) if !content.file_type().is_symlink() => Ok(content.file_type()),
            _ => Err(Fault::Io(io::Error::from(ErrorKind::NotFound))),
        }
    }

    fn absolute<B: Allocator + Copy>(&self, alloc: B, path: &str) -> Result<String<B>, Fault> {
        Ok(path_text::join(alloc, "/", path)?)
    }
}
