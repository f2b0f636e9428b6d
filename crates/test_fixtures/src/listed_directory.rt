//! A file system of one directory, whose items are given.
ghost use Rattle.jwalk_model.specs.Tree.{functions_of, only_root};

use jwalk_fs::fault::Fault;
use jwalk_fs::file_system::FileSystem;
use jwalk_fs::listed::Listed;
use jwalk_model::file_type::FileType;
use jwalk_model::metadata::Metadata;
use std::alloc::{AllocError, Allocator};
use std::io;
use std::io::ErrorKind;

/// An item of the listing.
#[derive(Clone, Copy)]
pub enum Item {
    Typed(&'static str, FileType),
    /// A name whose type could not be read.
    Untyped(&'static str, ErrorKind),
    /// An item that could not be read.
    Unread(ErrorKind),
}

/// The directory, or a link in front of it.
#[derive(Clone, Copy)]
pub struct ListedDirectory<'a> {
    /// The path at which the directory is listed, and at which links are followed.
    pub path: &'static str,
    /// The type of each path.
    pub file_type: FileType,
    /// The type of each path's target, or `None` for a broken link.
    pub target: Option<FileType>,
    pub items: &'a [Item],
}

/// A hidden name without a type, an item without a name, and two files.
pub const FAULTY: ListedDirectory<'static> = ListedDirectory {
    path: "/d",
    file_type: FileType::Dir,
    target: Some(FileType::Dir),
    items: &[
        Item::Untyped(".x", ErrorKind::PermissionDenied),
        Item::Unread(ErrorKind::InvalidData),
        Item::Typed("b", FileType::File),
        Item::Typed("a", FileType::File),
    ],
};

/// Files whose names aren't names of files.
pub const MISNAMED: ListedDirectory<'static> = ListedDirectory {
    path: "/d",
    file_type: FileType::Dir,
    target: Some(FileType::Dir),
    items: &[
        Item::Typed("/x", FileType::File),
        Item::Typed("", FileType::File),
        Item::Typed("..", FileType::File),
        Item::Typed("a/b", FileType::File),
    ],
};

fn listed<A: Allocator + Copy>(alloc: A, item: Item) -> Result<io::Result<Listed<A>>, AllocError> {
    let (name, file_type) = match item {
        Item::Typed(name, file_type) => (name, Ok(file_type)),
        Item::Untyped(name, kind) => (name, Err(io::Error::from(kind))),
        Item::Unread(kind) => return Ok(Err(io::Error::from(kind))),
    };
    let name = String::from_str(alloc, name)?;
    Ok(Ok(Listed::of_type(name, file_type)))
}

impl<'a> ListedDirectory<'a> {
    fn listing<A: Allocator + Copy>(
        &self,
        alloc: A,
    ) -> Result<Vec<io::Result<Listed<A>>, A>, AllocError> {
        let mut listing = Vec::new(alloc);
        for item in self.items {
            listing.push(listed(alloc, *item)?)?;
        }
        Ok(listing)
    }
}

impl<'a> FileSystem for ListedDirectory<'a> {
    // begin no-promise
    ghost IsFixed = { λ _. ⊥ };

    ghost functions = { λ _. functions_of only_root };
    // end no-promise

    fn read_dir<A: Allocator + Copy>(
        &self,
        alloc: A,
        path: &str,
    ) -> Result<Vec<io::Result<Listed<A>>, A>, Fault> {
        if path != self.path {
            return Err(Fault::Io(io::Error::from(ErrorKind::NotFound)));
        }
        match self.listing(alloc) {
            Ok(items) => Ok(items),
            Err(_) => Err(Fault::Memory),
        }
    }

    fn metadata(&self, path: &str) -> Result<Metadata, Fault> {
        match self.target {
            Some(file_type) if path == self.path => Ok(Metadata::new(file_type, 0)),
            _ => Err(Fault::Io(io::Error::from(ErrorKind::NotFound))),
        }
    }

    fn symlink_metadata(&self, _path: &str) -> Result<Metadata, Fault> {
        Ok(Metadata::new(self.file_type, 0))
    }

    fn read_link<A: Allocator + Copy>(&self, _alloc: A, _path: &str) -> Result<String<A>, Fault> {
        Err(Fault::Io(io::Error::from(ErrorKind::Unsupported)))
    }
}
