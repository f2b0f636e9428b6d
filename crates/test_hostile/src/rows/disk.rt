//! A disk in a table, whose files have numbers, or lie. It counts how often a directory is listed, and how often it is
//! asked what a path leads to.
ghost use Rattle.jwalk.specs.jwalk_model.Tree.{functions_of, only_root};

use jwalk::file_system::{
    Details, Fault, FileSystem, FileType, Identity, Listed, Metadata, Moment, Seen,
};
use jwalk::path_text::{file_name, parent};
use std::alloc::Allocator;
use std::io;
use std::io::ErrorKind;
use std::sync::atomic::{AtomicUsize, Ordering};
use test_fixtures::resting::CountsLists;

/// How much of a file's identity the disk returns.
#[derive(Clone, Copy)]
pub enum Told {
    /// The numbers of its device and of its inode.
    Numbers(u64, u64),
    /// No numbers.
    Nothing,
    /// The file is listed, but gone when the disk is asked what its path leads to.
    Gone,
}

/// What is at a path.
#[derive(Clone, Copy)]
pub enum At {
    File(&'static str),
    Dir(&'static str, Told),
    /// A link to a directory: its path, its text, and what is told of the directory.
    Link(&'static str, &'static str, Told),
    /// A link to a file.
    FileLink(&'static str, &'static str, Told),
    /// A file that is listed as a directory.
    Lie(&'static str),
    /// A file that is listed in a directory by a name that may be none.
    Named(&'static str, &'static str),
    /// A directory `d` in each directory.
    Endless,
}

/// What a place has.
#[derive(Clone, Copy)]
struct Place {
    /// Its path, or none if it has no path of its own.
    path: Option<&'static str>,
    /// The text of a link.
    text: Option<&'static str>,
    /// The type of the file, or of what a link leads to.
    target_type: FileType,
    told: Told,
}

impl At {
    fn place(self) -> Place {
        let (path, text, target_type, told) = match self {
            At::File(path) => (Some(path), None, FileType::File, Told::Nothing),
            At::Dir(path, told) => (Some(path), None, FileType::Dir, told),
            At::Link(path, text, told) => (Some(path), Some(text), FileType::Dir, told),
            At::FileLink(path, text, told) => (Some(path), Some(text), FileType::File, told),
            At::Lie(path) => (Some(path), None, FileType::Dir, Told::Nothing),
            At::Named(_, _) => (None, None, FileType::File, Told::Nothing),
            At::Endless => (None, None, FileType::Dir, Told::Nothing),
        };
        Place {
            path,
            text,
            target_type,
            told,
        }
    }

    /// Returns the name by which it is listed in a directory, or none if it isn't.
    fn name_in(self, directory: &str) -> Option<&'static str> {
        match self {
            At::Named(above, name) if above == directory => return Some(name),
            At::Endless => return Some("d"),
            _ => {}
        }
        let path = self.place().path?;
        match parent(path) {
            Some(above) if above == directory => file_name(path),
            _ => None,
        }
    }

    /// A listing says of a link its type alone.
    fn seen(self) -> Seen {
        let place = self.place();
        match place.told {
            _ if place.text.is_some() => Seen::TypeAlone(FileType::Symlink),
            Told::Numbers(device, inode) => Seen::Whole(with_numbers(
                place.target_type,
                device,
                inode,
            )),
            Told::Nothing | Told::Gone => Seen::TypeAlone(place.target_type),
        }
    }
}

fn with_numbers(file_type: FileType, device: u64, inode: u64) -> Metadata {
    const NEVER: Moment = Moment {
        seconds: 0,
        nanoseconds: 0,
    };
    Metadata::new(file_type, 0).with_details(Details {
        identity: Identity { device, inode },
        links: 1,
        blocks: 0,
        modified: NEVER,
        accessed: NEVER,
        changed: NEVER,
        created: None,
        mode: 0,
        uid: 0,
        gid: 0,
    })
}

/// The disk, with its counts.
#[derive(Drop)]
pub struct Disk {
    places: &'static [At],
    lists: AtomicUsize,
    asked: AtomicUsize,
}

fn fault(kind: ErrorKind) -> Fault {
    Fault::Io(io::Error::from(kind))
}

impl Disk {
    /// Returns the disk of these places.
    pub fn new(places: &'static [At]) -> Self {
        Disk {
            places,
            lists: AtomicUsize::new(0),
            asked: AtomicUsize::new(0),
        }
    }

    /// Returns how often a directory was listed, and how often the disk was asked what a path leads to.
    pub fn counts(&self) -> (usize, usize) {
        (
            self.lists.load(Ordering::SeqCst),
            self.asked.load(Ordering::SeqCst),
        )
    }

    fn at(&self, path: &str) -> Result<At, Fault> {
        for at in self.places {
            match at.place().path {
                Some(own) if own == path => return Ok(*at),
                None if matches!(at, At::Endless) => return Ok(*at),
                _ => {}
            }
        }
        Err(fault(ErrorKind::NotFound))
    }
}

impl CountsLists for Disk {
    fn lists_so_far(&self) -> usize {
        self.counts().0
    }
}

impl FileSystem for Disk {
    ghost IsFixed = { λ _. ⊥ };

    ghost functions = { λ _. functions_of only_root };

    fn read_dir<A: Allocator + Copy>(
        &self,
        alloc: A,
        path: &str,
    ) -> Result<Vec<io::Result<Listed<A>>, A>, Fault> {
        self.lists.fetch_add(1, Ordering::SeqCst);
        if matches!(self.at(path), Ok(At::Lie(_))) {
            return Err(fault(ErrorKind::InvalidInput));
        }
        let mut items = Vec::new(alloc);
        for at in self.places {
            if let Some(name) = at.name_in(path) {
                items.push(Ok(Listed {
                    name: String::from_str(alloc, name)?,
                    seen: Ok(at.seen()),
                }))?;
            }
        }
        Ok(items)
    }

    fn metadata(&self, path: &str) -> Result<Metadata, Fault> {
        self.asked.fetch_add(1, Ordering::SeqCst);
        let place = self.at(path)?.place();
        match place.told {
            Told::Numbers(device, inode) => Ok(with_numbers(place.target_type, device, inode)),
            Told::Nothing => Ok(Metadata::new(place.target_type, 0)),
            Told::Gone => Err(fault(ErrorKind::NotFound)),
        }
    }

    fn symlink_metadata(&self, path: &str) -> Result<Metadata, Fault> {
        Ok(Metadata::new(self.at(path)?.seen().file_type(), 0))
    }

    fn read_link<A: Allocator + Copy>(&self, alloc: A, path: &str) -> Result<String<A>, Fault> {
        match self.at(path)?.place().text {
            Some(text) => Ok(String::from_str(alloc, text)?),
            None => Err(fault(ErrorKind::InvalidInput)),
        }
    }
}
