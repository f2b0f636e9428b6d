//! A disk or texts of rules, as they are seen from a folder.
ghost use Rattle.std.specs.Prelude.{◌≡◌, option_map, string_bytes, IfOk};
ghost use Rattle.std.specs.Cow.{cow_str_bytes};
ghost use Rattle.seek_search.specs.Based.{based, IsBased};

use jwalk::file_system::{Fault, FileSystem, FileType, Listed, Metadata, Sink};
use jwalk::path_text::join;
use jwalk_ignore::texts::Texts;
use program_parts::paths::without_here;
use seek_words::asked::Asked;
use std::alloc::{AllocError, Allocator, Global};
use std::borrow::CowStr;
use std::io;

/// A disk or texts of rules, whose relative paths begin at a folder, if one is named.
#[derive(Drop)]
pub(crate) struct Based<V: Drop> {
    pub(crate) inner: V,
    pub(crate) base: Option<String>,
}

/// Returns a text of its own.
pub(crate) fn copied(alloc: Global, text: Option<&str>) -> Result<Option<String>, AllocError>
    ensures { IfOk result (λ copy. option_map string_bytes copy ≡ option_map (λ it. it.now) text.entry) }
{
    match text {
        Some(text) => Ok(Some(String::from_str(alloc, text)?)),
        None => Ok(None),
    }
}

impl<V: Drop> Based<V> {
    ghost use Rattle.seek_search.specs.Based.{base_of};

    /// Returns a disk or texts as they are seen from the folder that is asked for.
    pub(crate) fn new(alloc: Global, inner: V, asked: &Asked<'_>) -> Result<Self, AllocError>
        ensures { IfOk result (IsBased inner asked.now) }
    {
        Ok(Based {
            inner,
            base: copied(alloc, asked.base)?,
        })
    }

    fn path<'p>(&self, path: &'p str) -> Result<CowStr<'p, Global>, AllocError>
        ensures { IfOk result (λ it. cow_str_bytes it ≡ based (base_of self.now) path.entry.now) }
    {
        match &self.base {
            Some(base) => Ok(CowStr::Owned(join(
                *base.allocator(),
                base.as_str(),
                without_here(path),
            )?)),
            None => Ok(CowStr::Borrowed(path)),
        }
    }
}

impl<S: FileSystem> FileSystem for Based<S> {
    ghost use Rattle.seek_search.specs.Based.{base_of, functions_based};

    ghost IsFixed = { λ it. S.IsFixed it.inner };

    ghost functions = { λ it. functions_based (base_of it) (S.functions it.inner) };

    fn read_dir<A: Allocator + Copy>(
        &self,
        alloc: A,
        path: &str,
    ) -> Result<Vec<io::Result<Listed<A>>, A>, Fault> {
        self.inner.read_dir(alloc, self.path(path)?.as_str())
    }

    fn read_dir_into<A: Allocator + Copy, K: Sink>(
        &self,
        alloc: A,
        path: &str,
        sink: &mut K,
    ) -> Result<(), Fault> {
        self.inner
            .read_dir_into(alloc, self.path(path)?.as_str(), sink)
    }

    fn metadata(&self, path: &str) -> Result<Metadata, Fault> {
        self.inner.metadata(self.path(path)?.as_str())
    }

    fn symlink_metadata(&self, path: &str) -> Result<Metadata, Fault> {
        self.inner.symlink_metadata(self.path(path)?.as_str())
    }

    fn read_link<A: Allocator + Copy>(&self, alloc: A, path: &str) -> Result<String<A>, Fault> {
        self.inner.read_link(alloc, self.path(path)?.as_str())
    }
}

impl<X: Texts> Texts for Based<X> {
    ghost use Rattle.seek_search.specs.Based.{base_of, texts_based};

    ghost IsFixed = { λ it. X.IsFixed it.inner };

    ghost functions = { λ it. texts_based (base_of it) (X.functions it.inner) };

    fn read<A: Allocator + Copy>(&self, alloc: A, path: &str) -> Result<Vec<u8, A>, Fault> {
        self.inner.read(alloc, self.path(path)?.as_str())
    }

    fn file_type(&self, path: &str) -> Result<FileType, Fault> {
        self.inner.file_type(self.path(path)?.as_str())
    }

    fn target_type(&self, path: &str) -> Result<FileType, Fault> {
        self.inner.target_type(self.path(path)?.as_str())
    }

    fn absolute<A: Allocator + Copy>(&self, alloc: A, path: &str) -> Result<String<A>, Fault> {
        self.inner.absolute(alloc, self.path(path)?.as_str())
    }
}
