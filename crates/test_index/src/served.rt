//! Listings from records, and listings that aren't.
use crate::folder::{Folder, Item, listing_of};
use jwalk_fs::fault::Fault;
use jwalk_indexed_fs::index::Index;
use jwalk_indexed_fs::indexed_fs::IndexedFs;
use jwalk_indexed_fs::names::Names;
use jwalk_indexed_fs::records::Record;
use jwalk_indexed_fs::stamp::Stamp;
use jwalk_model::file_type::FileType;
use jwalk_model::metadata::{Identity, Moment};
use std::alloc::{AllocError, Global};
use std::io::ErrorKind;

/// What the directory holds now: not in the order of names, and with errors.
const ITEMS: &[Item] = &[
    Item::Typed("new", FileType::File),
    Item::Untyped("b", ErrorKind::PermissionDenied),
    Item::Typed("b", FileType::Symlink),
    Item::Unread(ErrorKind::InvalidFilename),
    Item::Typed("a", FileType::Dir),
];

/// What it lists itself, in the order of names: of `ITEMS`.
const LISTED: &str = "a Dir; b Symlink; new File; b PermissionDenied; InvalidFilename; ";

/// A record of the directory that changed last at a time, with the names that it had then.
pub fn index_of(alloc: Global, path: &str, changed: Option<i64>) -> Result<Index, AllocError> {
    let mut names = Names::new(alloc);
    names.push("a", FileType::Dir)?;
    names.push("é", FileType::Other)?;
    let stamp = match changed {
        Some(seconds) => Some(Stamp {
            identity: Identity {
                device: 0,
                inode: 7,
            },
            changed: Moment {
                seconds,
                nanoseconds: 5,
            },
        }),
        None => None,
    };
    let mut index = Index::new(alloc);
    index.insert(String::from_str(alloc, path)?, Record { stamp, names })?;
    Ok(index)
}

/// A record, the directory, and what is listed at its path.
struct Row {
    path: &'static str,
    stamp: Option<i64>,
    file_type: FileType,
    inode: u64,
    listed: &'static str,
    listings: usize,
}

/// What is listed where the stamp is the same, and where it isn't known, of another time, of another directory, of
/// another path, or of a link.
const ROWS: &[Row] = &[
    Row {
        path: "/r",
        stamp: Some(100),
        file_type: FileType::Dir,
        inode: 7,
        listed: "a Dir; é Other; ",
        listings: 0,
    },
    Row {
        path: "/r",
        stamp: None,
        file_type: FileType::Dir,
        inode: 7,
        listed: LISTED,
        listings: 1,
    },
    Row {
        path: "/r",
        stamp: Some(99),
        file_type: FileType::Dir,
        inode: 7,
        listed: LISTED,
        listings: 1,
    },
    Row {
        path: "/r",
        stamp: Some(100),
        file_type: FileType::Dir,
        inode: 8,
        listed: LISTED,
        listings: 1,
    },
    Row {
        path: "/q",
        stamp: Some(100),
        file_type: FileType::Dir,
        inode: 7,
        listed: LISTED,
        listings: 1,
    },
    Row {
        path: "/r",
        stamp: Some(100),
        file_type: FileType::Symlink,
        inode: 7,
        listed: LISTED,
        listings: 1,
    },
];

impl Row {
    fn holds(&self, alloc: Global) -> Result<bool, Fault> {
        let mut folder = Folder::new(ITEMS, 100);
        folder.file_type = self.file_type;
        folder.inode = self.inode;
        let indexed = IndexedFs::new(&folder, index_of(alloc, self.path, self.stamp)?);
        let listed = listing_of(alloc, &indexed, "/r")?;
        Ok(listed.as_str() == self.listed && folder.listings() == self.listings)
    }
}

/// A record is listed where it is of the directory at this path, whose stamp is the same, and nowhere else.
#[test]
fn records_are_listed_while_stamps_are_the_same(rt: HostRuntime) {
    for row in ROWS {
        assert!(rt;
            matches!(row.holds(rt.alloc()), Ok(true)),
            "{} {:?}",
            row.path,
            row.stamp
        );
    }
}

/// A record is taken out once, and another one at the same path takes its place.
#[test]
fn records_by_their_paths(rt: HostRuntime) -> Result<(), AllocError> {
    let alloc = rt.alloc();
    let mut index = index_of(alloc, "/r", Some(100))?;
    assert!(rt; index.get("/r").is_some());
    assert!(rt; index.get("/r/").is_none());
    let names = Names::new(alloc);
    index.insert(
        String::from_str(alloc, "/r")?,
        Record { stamp: None, names },
    )?;
    let taken = index.take("/r");
    assert!(rt;
        matches!(
            taken,
            Some(Record {
                stamp: None,
                names: _
            })
        )
    );
    assert!(rt; index.take("/r").is_none());
    Ok(())
}
