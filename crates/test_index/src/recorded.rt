//! The records that are kept of listings.
use crate::folder::{Folder, Item, listing_of};
use jwalk_fs::fault::Fault;
use jwalk_indexed_fs::indexed_fs::IndexedFs;
use jwalk_indexed_fs::recording_fs::{RecordingFs, now};
use jwalk_indexed_fs::records::Record;
use jwalk_model::file_type::FileType;
use jwalk_model::metadata::Moment;
use std::alloc::{AllocError, Global};
use std::io;
use std::io::ErrorKind;
use std::sync::Wait;

const ITEMS: &[Item] = &[
    Item::Typed("b", FileType::File),
    Item::Typed(".a", FileType::Dir),
    Item::Typed("B", FileType::Symlink),
];

const WITH_ERROR: &[Item] = &[
    Item::Typed("b", FileType::File),
    Item::Untyped("c", ErrorKind::PermissionDenied),
    Item::Typed("a", FileType::Dir),
];

/// The time at which the walk begins, in seconds.
const START: i64 = 1000;

/// A directory that is listed, and what is kept of it.
struct Row {
    items: &'static [Item],
    changed: i64,
    inode: u64,
    has_stamp: bool,
    names: &'static str,
}

/// What is kept: all names, also hidden ones, by their bytes, with a stamp; no stamp where an item is an error, where
/// the directory changed two seconds before the start or later, and where it isn't known which one it is.
const ROWS: &[Row] = &[
    Row {
        items: ITEMS,
        changed: START - 3,
        inode: 7,
        has_stamp: true,
        names: ".a Dir; B Symlink; b File; ",
    },
    Row {
        items: WITH_ERROR,
        changed: START - 3,
        inode: 7,
        has_stamp: false,
        names: "a Dir; b File; ",
    },
    Row {
        items: ITEMS,
        changed: START - 2,
        inode: 7,
        has_stamp: false,
        names: ".a Dir; B Symlink; b File; ",
    },
    Row {
        items: ITEMS,
        changed: START + 1,
        inode: 7,
        has_stamp: false,
        names: ".a Dir; B Symlink; b File; ",
    },
    Row {
        items: ITEMS,
        changed: START - 3,
        inode: 0,
        has_stamp: false,
        names: ".a Dir; B Symlink; b File; ",
    },
];

pub fn names_of(alloc: Global, kept: &Record) -> Result<String, AllocError> {
    let mut text = String::new(alloc);
    for (name, file_type) in kept.names.iter() {
        text.push_str(name)?;
        write!(text, " {file_type:?}; ")?;
    }
    Ok(text)
}

fn recording<R: Wait + AllocGlobal + Clone + Drop>(
    rt: &R,
    folder: Folder,
) -> Result<RecordingFs<Folder, R>, Fault> {
    let start = Moment {
        seconds: START,
        nanoseconds: 0,
    };
    Ok(RecordingFs::new(rt.alloc(), rt.clone()?, folder, start))
}

impl Row {
    fn holds<R: Wait + AllocGlobal + Clone + Drop>(&self, rt: &R) -> Result<bool, Fault> {
        let mut folder = Folder::new(self.items, self.changed);
        folder.inode = self.inode;
        let recording = recording(rt, folder)?;
        listing_of(rt.alloc(), &recording, "/r")?;
        let index = recording.into_index();
        let Some(kept) = index.get("/r") else {
            return Ok(false);
        };
        let names = names_of(rt.alloc(), kept)?;
        Ok(kept.stamp.is_some() == self.has_stamp && names.as_str() == self.names)
    }
}

/// The whole listing is kept, and its stamp only where that may be used.
#[test]
fn records_of_listings(rt: HostRuntime) {
    for row in ROWS {
        assert!(rt;
            matches!(row.holds(&rt), Ok(true)),
            "{} {}",
            row.changed,
            row.names
        );
    }
}

fn listed_twice<R: Wait + AllocGlobal + Clone + Drop>(rt: &R) -> Result<bool, Fault> {
    let recording = recording(rt, Folder::new(ITEMS, START - 3))?;
    let first = listing_of(rt.alloc(), &recording, "/r")?;
    let folder = Folder::new(ITEMS, START - 3);
    let indexed = IndexedFs::new(&folder, recording.into_index());
    let second = listing_of(rt.alloc(), &indexed, "/r")?;
    Ok(
        first.as_str() == "b File; .a Dir; B Symlink; "
            && second.as_str() == ".a Dir; B Symlink; b File; "
            && folder.listings() == 0,
    )
}

/// While records are made the listing is the file system's own, in its order. Later it comes from the record, sorted.
#[test]
fn what_is_recorded_is_listed_later(rt: HostRuntime) {
    assert!(rt; matches!(listed_twice(&rt), Ok(true)));
}

/// The time now is that of the system's clock, after 2020.
#[test]
fn the_time_now(rt: HostRuntime) -> io::Result<()> {
    assert!(rt; now(&rt)?.seconds > 1_577_836_800);
    Ok(())
}
