//! What a name in a directory means.
ghost use Rattle.std.specs.Prelude.{◌≡◌};

use crate::hit::Hit;
use jwalk_model::file_type::FileType;
use jwalk_model::metadata::Metadata;
use std::alloc::Allocator;

/// A directory by its index in the table, a file by its length, or a link by its target.
#[derive(Drop)]
pub enum Child<A: Allocator + Copy> {
    Dir(usize),
    File(u64),
    Link(String<A>),
}

impl<A: Allocator + Copy> Child<A> {
    ghost use Rattle.jwalk_memory_fs.specs.Child.{child_seen, metadata_of};
    ghost use Rattle.jwalk_memory_fs.specs.Hit.{hit_seen, hit_of};

    /// A directory has length 0, a link as many bytes as its target.
    pub(crate) fn metadata(&self) -> Metadata
        ensures { result ≡ metadata_of (child_seen self.now) }
    {
        match self {
            Child::Dir(_) => Metadata::new(FileType::Dir, 0),
            Child::File(len) => Metadata::new(FileType::File, *len),
            Child::Link(target) => Metadata::new(FileType::Symlink, target.len() as u64),
        }
    }

    pub(crate) fn hit(&self, holder: usize) -> Hit<'_>
        ensures { hit_seen result ≡ hit_of holder (child_seen self.now) }
    {
        match self {
            Child::Dir(index) => Hit::Dir(*index),
            Child::File(len) => Hit::File(*len),
            Child::Link(target) => Hit::Link(holder, target.as_str()),
        }
    }
}
