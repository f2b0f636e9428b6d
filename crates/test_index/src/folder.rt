//! A directory whose list and time of change a test sets.
ghost use Rattle.jwalk_model.specs.Tree.{functions_of, only_root};

use jwalk_fs::fault::Fault;
use jwalk_fs::file_system::FileSystem;
use jwalk_fs::listed::Listed;
use jwalk_model::file_type::FileType;
use jwalk_model::metadata::{Details, Identity, Metadata, Moment};
use std::alloc::{Allocator, Global};
use std::io;
use std::io::ErrorKind;
use std::sync::atomic::{AtomicUsize, Ordering};

/// An item of the list: a name with its type, a name with an error, or an error alone.
#[derive(Clone, Copy)]
pub enum Item {
    Typed(&'static str, FileType),
    Untyped(&'static str, ErrorKind),
    Unread(ErrorKind),
}

/// A file system that has one directory, at whatever path it is asked for, and counts how often that is listed.
#[derive(Drop)]
pub struct Folder {
    pub items: &'static [Item],
    /// What is at the path itself: the directory, or a link to it.
    pub file_type: FileType,
    /// The number of the directory on its device, which is 0 if that isn't known.
    pub inode: u64,
    /// The time of its last change, in seconds.
    pub changed: i64,
    pub listings: AtomicUsize,
}

impl Folder {
    /// Returns the directory with these items, which changed last at this time.
    pub fn new(items: &'static [Item], changed: i64) -> Self {
        Folder {
            items,
            file_type: FileType::Dir,
            inode: 7,
            changed,
            listings: AtomicUsize::new(0),
        }
    }

    /// Returns how often it was listed.
    pub fn listings(&self) -> usize {
        self.listings.load(Ordering::SeqCst)
    }

    fn found(&self, file_type: FileType) -> Metadata {
        let changed = Moment {
            seconds: self.changed,
            nanoseconds: 5,
        };
        Metadata::new(file_type, 0).with_details(Details {
            identity: Identity {
                device: 0,
                inode: self.inode,
            },
            links: 2,
            blocks: 0,
            modified: changed,
            accessed: changed,
            changed,
            created: None,
            mode: 0o40755,
            uid: 0,
            gid: 0,
        })
    }
}

fn item_of<A: Allocator + Copy>(alloc: A, item: Item) -> Result<io::Result<Listed<A>>, Fault> {
    match item {
        Item::Typed(name, file_type) => Ok(Ok(Listed::of_type(
            String::from_str(alloc, name)?,
            Ok(file_type),
        ))),
        Item::Untyped(name, kind) => Ok(Ok(Listed::of_type(
            String::from_str(alloc, name)?,
            Err(io::Error::from(kind)),
        ))),
        Item::Unread(kind) => Ok(Err(io::Error::from(kind))),
    }
}

impl FileSystem for Folder {
    ghost IsFixed = { λ _. ⊥ };

    ghost functions = { λ _. functions_of only_root };

    fn read_dir<A: Allocator + Copy>(
        &self,
        alloc: A,
        _path: &str,
    ) -> Result<Vec<io::Result<Listed<A>>, A>, Fault> {
        self.listings.fetch_add(1, Ordering::SeqCst);
        let mut items = Vec::new(alloc);
        for item in self.items {
            items.push(item_of(alloc, *item)?)?;
        }
        Ok(items)
    }

    fn metadata(&self, _path: &str) -> Result<Metadata, Fault> {
        Ok(self.found(FileType::Dir))
    }

    fn symlink_metadata(&self, _path: &str) -> Result<Metadata, Fault> {
        Ok(self.found(self.file_type))
    }

    fn read_link<A: Allocator + Copy>(&self, _alloc: A, _path: &str) -> Result<String<A>, Fault> {
        Err(Fault::Io(io::Error::from(ErrorKind::InvalidInput)))
    }
}

/// Returns the items of a listing as a text, in their order.
pub fn listing_of<S: FileSystem>(alloc: Global, fs: &S, path: &str) -> Result<String, Fault> {
    let mut text = String::new(alloc);
    for item in fs.read_dir(alloc, path)? {
        match item {
            Ok(item) => {
                text.push_str(item.name.as_str())?;
                match item.seen {
                    Ok(seen) => write!(text, " {:?}; ", seen.file_type())?,
                    Err(error) => write!(text, " {:?}; ", error.kind())?,
                }
            }
            Err(error) => write!(text, "{:?}; ", error.kind())?,
        }
    }
    Ok(text)
}
