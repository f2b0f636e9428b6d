//! The records that a snapshot has for a walk.
use crate::recorded::names_of;
use jwalk_snapshot_index::error::IndexError;
use jwalk_snapshot_index::read::read_index;
use std::test::Fail;

/// A snapshot of `/srv`, `/srv/b` and `/srv/b/c`, the last without a stamp. The sum is that which `sha256sum` prints.
const SNAPSHOT: &str = "jwalk-snapshot 1 0 .\0/srv\0\
    3 S 2049 2 1700000000 5 2 \0f 12 1600000000 0 77 a\0d 4096 -1 999999999 78 b\0\
    S 2049 78 1700000000 6 1 b\0d 0 0 0 79 c\0R 0 b/c\03 2b5e08b5723079d13fd9cf91a37064b651c0ac15755749dbe77519c1bd433581\0";

/// There are those of directories with a stamp, at the paths at which a walk lists them.
#[test]
fn records_of_a_snapshot(rt: HostRuntime) -> Result<(), Fail> {
    let alloc = rt.alloc();
    let index = read_index(alloc, SNAPSHOT.as_bytes(), "srv", "/srv")?;
    for (path, names) in [("srv", "a File; b Dir; "), ("srv/b", "c Dir; ")] {
        match index.get(path) {
            Some(kept) => assert_eq!(rt; names_of(alloc, kept)?.as_str(), names),
            None => assert!(rt; false, "{path}"),
        }
    }
    assert!(rt; index.get("srv/b/c").is_none());
    assert!(rt; index.get("/srv").is_none());
    Ok(())
}

/// Another root is refused, and what is no snapshot.
#[test]
fn snapshots_of_other_roots(rt: HostRuntime) {
    let other = read_index(rt.alloc(), SNAPSHOT.as_bytes(), "/srv", "/srv/b");
    assert!(rt; matches!(other, Err(IndexError::OtherRoot)));
    let none = read_index(rt.alloc(), b"jwalk-snapshot", "/srv", "/srv");
    assert!(rt; matches!(none, Err(IndexError::Snapshot(_))));
}
