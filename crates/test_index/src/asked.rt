//! Listings whose names are asked for.
use crate::folder::{Folder, Item};
use crate::served::index_of;
use jwalk_fs::fault::Fault;
use jwalk_fs::file_system::FileSystem;
use jwalk_fs::listed::Listed;
use jwalk_indexed_fs::asking_fs::AskingFs;
use jwalk_indexed_fs::indexed_fs::IndexedFs;
use jwalk_model::file_type::FileType;
use jwalk_model::seen::Seen;
use std::alloc::Global;
use std::io::ErrorKind;

/// What the directory holds now.
const ITEMS: &[Item] = &[
    Item::Typed("new", FileType::File),
    Item::Untyped("b", ErrorKind::PermissionDenied),
    Item::Unread(ErrorKind::InvalidFilename),
];

/// Returns the items of a listing as a text, which says of each name whether its metadata is there.
fn listing_of<S: FileSystem>(alloc: Global, fs: &S) -> Result<String, Fault> {
    let mut text = String::new(alloc);
    for item in fs.read_dir(alloc, "/r")? {
        match item {
            Ok(Listed { name, seen }) => {
                text.push_str(name.as_str())?;
                match seen {
                    Ok(Seen::Whole(found)) => write!(text, " {:?} asked; ", found.file_type())?,
                    Ok(Seen::TypeAlone(file_type)) => write!(text, " {file_type:?}; ")?,
                    Err(error) => write!(text, " {:?}; ", error.kind())?,
                }
            }
            Err(error) => write!(text, "{:?}; ", error.kind())?,
        }
    }
    Ok(text)
}

/// Whether names are asked for, what the disk says of each path, the time of a record, and what is listed.
struct Row {
    asks: bool,
    file_type: FileType,
    stamp: i64,
    listed: &'static str,
    listings: usize,
}

/// The names of a record and of the disk, asked for and not. Those of a link are asked for without following it.
const ROWS: &[Row] = &[
    Row {
        asks: true,
        file_type: FileType::Dir,
        stamp: 100,
        listed: "a Dir asked; é Dir asked; ",
        listings: 0,
    },
    Row {
        asks: false,
        file_type: FileType::Dir,
        stamp: 100,
        listed: "a Dir; é Other; ",
        listings: 0,
    },
    Row {
        asks: true,
        file_type: FileType::Symlink,
        stamp: 100,
        listed: "new Symlink asked; b PermissionDenied; InvalidFilename; ",
        listings: 1,
    },
    Row {
        asks: false,
        file_type: FileType::Dir,
        stamp: 99,
        listed: "new File; b PermissionDenied; InvalidFilename; ",
        listings: 1,
    },
];

impl Row {
    fn holds(&self, alloc: Global) -> Result<bool, Fault> {
        let mut folder = Folder::new(ITEMS, 100);
        folder.file_type = self.file_type;
        let indexed = IndexedFs::new(&folder, index_of(alloc, "/r", Some(self.stamp))?);
        let listed = listing_of(alloc, &AskingFs::new(indexed, self.asks))?;
        Ok(listed.as_str() == self.listed && folder.listings() == self.listings)
    }
}

/// Names are asked for whether they come from a record or from the disk, and errors stay.
#[test]
fn names_are_asked_for(rt: HostRuntime) {
    for row in ROWS {
        assert!(rt;
            matches!(row.holds(rt.alloc()), Ok(true)),
            "{} {}",
            row.asks,
            row.listed
        );
    }
}
