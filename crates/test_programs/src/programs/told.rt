//! What a disk says of paths in place of what its tree says.
use jwalk::file_system::{Details, FileType, Identity, Listed, Metadata, Moment, Seen};
use std::alloc::Allocator;
use std::io;
use std::io::ErrorKind;

/// What is said of a path.
#[derive(Clone, Copy)]
pub(crate) enum Told {
    /// Its type alone, in lists.
    Type(FileType),
    /// Its type and its length.
    Length(FileType, u64),
    /// Its type, its length and its details.
    Whole(FileType, u64, Details),
    /// Its details, beside what the tree says.
    Details(Details),
    /// The details of a file that everyone may read, with the second when it was modified, beside what the tree says.
    Modified(i64),
    /// Its device, its inode, the number of its names, and its blocks, beside what the tree says.
    Numbers(u64, u64, u64, u64),
    /// It can't be told, in lists.
    Unknown(ErrorKind),
    /// Its item of a list can't be read.
    Lost(ErrorKind),
}

/// The first second of 1970.
const BEGIN: Moment = Moment {
    seconds: 0,
    nanoseconds: 0,
};

/// Details of a file with one name and no blocks, in the first second of 1970.
pub(crate) const DETAILS: Details = Details {
    identity: Identity {
        device: 1,
        inode: 1,
    },
    links: 1,
    blocks: 0,
    modified: BEGIN,
    accessed: BEGIN,
    changed: BEGIN,
    created: None,
    mode: 0,
    uid: 0,
    gid: 0,
};

/// Details with these numbers.
fn numbered(device: u64, inode: u64, links: u64, blocks: u64) -> Details {
    Details {
        identity: Identity { device, inode },
        links,
        blocks,
        ..DETAILS
    }
}

/// Details of a file that everyone may read.
fn modified(seconds: i64) -> Details {
    Details {
        modified: Moment {
            seconds,
            nanoseconds: 0,
        },
        mode: 0o100_644,
        ..DETAILS
    }
}

impl Told {
    /// Returns the metadata of a path for which the tree has this.
    pub(crate) fn metadata(self, found: Metadata) -> Metadata {
        match self {
            Told::Type(_) | Told::Unknown(_) | Told::Lost(_) => found,
            Told::Length(file_type, len) => Metadata::new(file_type, len),
            Told::Whole(file_type, len, details) => {
                Metadata::new(file_type, len).with_details(details)
            }
            Told::Details(details) => found.with_details(details),
            Told::Modified(seconds) => found.with_details(modified(seconds)),
            Told::Numbers(device, inode, links, blocks) => {
                found.with_details(numbered(device, inode, links, blocks))
            }
        }
    }

    fn seen(self, found: Metadata) -> io::Result<Seen> {
        match self {
            Told::Type(file_type) => Ok(Seen::TypeAlone(file_type)),
            Told::Unknown(kind) => Err(io::Error::from(kind)),
            _ => Ok(Seen::Whole(self.metadata(found))),
        }
    }
}

/// Returns what is told of a name in a folder.
fn told_in(told: &[(&str, Told)], folder: &str, name: &str) -> Option<Told> {
    for (at, told) in told {
        let Some(rest) = at.strip_prefix(folder) else {
            continue;
        };
        if rest.strip_prefix("/") == Some(name) {
            return Some(*told);
        }
    }
    None
}

/// Returns the error of an item that can't be read.
fn told_of<A: Allocator + Copy>(told: Told, item: &mut Listed<A>) -> Option<ErrorKind> {
    if let Told::Lost(kind) = told {
        return Some(kind);
    }
    if let Ok(Seen::Whole(metadata)) = &item.seen {
        item.seen = told.seen(*metadata);
    }
    None
}

/// Gives an item of a list what is told of its path.
pub(crate) fn retell<A: Allocator + Copy>(
    told: &[(&str, Told)],
    folder: &str,
    item: &mut io::Result<Listed<A>>,
) {
    let lost = match item {
        Ok(item) => match told_in(told, folder, item.name.as_str()) {
            Some(told) => told_of(told, item),
            None => None,
        },
        Err(_) => None,
    };
    if let Some(kind) = lost {
        *item = Err(io::Error::from(kind));
    }
}
