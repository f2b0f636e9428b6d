//! Snapshots written and read again, and damage.

use super::*;
use jwalk_model::file_type::FileType;
use jwalk_model::metadata::{Identity, Moment};
use std::alloc::Global;
use std::test::Fail;

/// The text of [`sample`], with the sum that `sha256sum` prints.
const SAMPLE: &str = "jwalk-snapshot 1 1 .\0/srv\0--exclude-hidden\0\
    2 S 2049 2 1700000000 5 2 \0f 12 1600000000 0 77 a\0d 4096 -1 999999999 78 b\0\
    R 1 b\0L c\03 4dcc67d36472b3850d5206ce522b7eb9dcb12e4a2164608cf0d291c0807bbab2\0";

const NOTHING: &str =
    "jwalk-snapshot 1 0 /\0/\00 0 9839c8f4be9282ff116ff2eae66327050cf8febe9cd6813a6fc8a80cb99176c9\0";

fn at(seconds: i64, nanoseconds: u32) -> Moment {
    Moment {
        seconds,
        nanoseconds,
    }
}

fn file(name: &str) -> Name<'_> {
    Name {
        name,
        file_type: FileType::File,
        facts: Some(Facts {
            len: u64::MAX,
            modified: at(i64::MIN, 0),
            inode: 0,
        }),
    }
}

fn nothing(alloc: Global) -> Snapshot<'static> {
    Snapshot {
        head: Head {
            root: "/",
            absolute: "/",
            words: Vec::new(alloc),
        },
        blocks: Vec::new(alloc),
    }
}

fn sample(alloc: Global) -> Result<Snapshot<'static>, Fail> {
    let a = Name {
        name: "a",
        file_type: FileType::File,
        facts: Some(Facts {
            len: 12,
            modified: at(1_600_000_000, 0),
            inode: 77,
        }),
    };
    let b = Name {
        name: "b",
        file_type: FileType::Dir,
        facts: Some(Facts {
            len: 4096,
            modified: at(-1, 999_999_999),
            inode: 78,
        }),
    };
    let c = Name {
        name: "c",
        file_type: FileType::Symlink,
        facts: None,
    };
    let stamp = Stamp {
        identity: Identity {
            device: 2049,
            inode: 2,
        },
        changed: at(1_700_000_000, 5),
    };
    let root = Block {
        path: "",
        listing: Listing::Stamped(stamp),
        names: vec![in alloc; a, b]?,
    };
    let below = Block {
        path: "b",
        listing: Listing::Unstamped,
        names: vec![in alloc; c]?,
    };
    Ok(Snapshot {
        head: Head {
            root: ".",
            absolute: "/srv",
            words: vec![in alloc; "--exclude-hidden"]?,
        },
        blocks: vec![in alloc; root, below]?,
    })
}

/// A snapshot of one directory with these names.
fn of_names<'a>(alloc: Global, listing: Listing, names: &[&'a str]) -> Result<Snapshot<'a>, Fail> {
    let mut all = Vec::new(alloc);
    for name in names {
        all.push(file(name))?;
    }
    let block = Block {
        path: "",
        listing,
        names: all,
    };
    Ok(Snapshot {
        head: Head {
            root: "",
            absolute: "/a b",
            words: Vec::new(alloc),
        },
        blocks: vec![in alloc; block]?,
    })
}

/// Returns whether what is read of the text of a snapshot is the snapshot.
fn is_read_again(alloc: Global, snapshot: &Snapshot<'_>) -> Result<bool, Fail> {
    let text = snapshot.to_text(alloc)?;
    let again = Snapshot::read(alloc, text.as_bytes())?;
    Ok(again == *snapshot)
}

#[test]
fn a_snapshot_has_this_text(rt: HostRuntime) -> Result<(), Fail> {
    assert_eq!(rt; sample(rt.alloc())?.to_text(rt.alloc())?.as_str(), SAMPLE);
    assert_eq!(rt; nothing(rt.alloc()).to_text(rt.alloc())?.as_str(), NOTHING);
    Ok(())
}

#[test]
fn what_was_written_is_read(rt: HostRuntime) -> Result<(), Fail> {
    assert_eq!(rt;
        Snapshot::read(rt.alloc(), SAMPLE.as_bytes())?,
        sample(rt.alloc())?
    );
    assert_eq!(rt;
        Snapshot::read(rt.alloc(), NOTHING.as_bytes())?,
        nothing(rt.alloc())
    );
    Ok(())
}

#[test]
fn odd_names_are_written_and_read(rt: HostRuntime) -> Result<(), Fail> {
    let rows: [&[&str]; 6] = [
        &[],
        &[" "],
        &["\n", "\n\n", " f 1 2 3", "-", "a\tb"],
        &["a", "a b", "a-b", "aa", "b"],
        &["Z", "z", "é", "日本", "🦀"],
        &["\u{1}", "\\", "\u{7f}", "\u{ffff}"],
    ];
    for names in rows {
        for listing in [Listing::Unstamped, Listing::Unread] {
            let snapshot = of_names(rt.alloc(), listing, names)?;
            assert!(rt; is_read_again(rt.alloc(), &snapshot)?);
        }
    }
    Ok(())
}

#[test]
fn what_has_no_text_is_refused(rt: HostRuntime) -> Result<(), Fail> {
    let rows: [&[&str]; 6] = [
        &[""],
        &["a/b"],
        &["a\0b"],
        &["b", "a"],
        &["a", "a"],
        &["aa", "a"],
    ];
    for names in rows {
        let snapshot = of_names(rt.alloc(), Listing::Unstamped, names)?;
        assert!(rt; !snapshot.has_text());
        assert_eq!(rt;
            snapshot.to_text(rt.alloc()).err(),
            Some(SnapshotError::NoText)
        );
    }
    Ok(())
}

#[test]
fn each_changed_byte_is_noticed(rt: HostRuntime) -> Result<(), Fail> {
    for place in 0..SAMPLE.len() {
        for mask in [1, 2, 16, 32, 128, 255u8] {
            let mut changed = SAMPLE.as_bytes().to_vec(rt.alloc())?;
            if let Some(byte) = changed.get_mut(place) {
                *byte ^= mask;
            }
            assert!(rt;
                Snapshot::read(rt.alloc(), &changed).is_err(),
                "{place} {mask}"
            );
        }
    }
    Ok(())
}

#[test]
fn each_cut_and_each_addition_is_noticed(rt: HostRuntime) -> Result<(), Fail> {
    for len in 0..SAMPLE.len() {
        let mut cut = SAMPLE.as_bytes().to_vec(rt.alloc())?;
        cut.truncate(len);
        assert!(rt; Snapshot::read(rt.alloc(), &cut).is_err(), "{len}");
    }
    for more in [0, b'0', b'\n'] {
        let mut added = SAMPLE.as_bytes().to_vec(rt.alloc())?;
        added.push(more)?;
        assert!(rt; Snapshot::read(rt.alloc(), &added).is_err(), "{more}");
    }
    Ok(())
}

#[test]
fn errors_tell_what_is_wrong(rt: HostRuntime) -> Result<(), Fail> {
    let rows = [
        ("", SnapshotError::NoSnapshot, "not a snapshot"),
        (
            "jwalk-snapshot",
            SnapshotError::NoSnapshot,
            "not a snapshot",
        ),
        (
            "jwalk-snapshot 2 0 /\0",
            SnapshotError::OtherVersion,
            "a snapshot of another version",
        ),
        (
            "jwalk-snapshot 1 0 /\0",
            SnapshotError::Damaged,
            "the snapshot is damaged",
        ),
    ];
    for (text, error, message) in rows {
        assert_eq!(rt;
            Snapshot::read(rt.alloc(), text.as_bytes()).err(),
            Some(error)
        );
        assert_eq!(rt; error.to_string(rt.alloc())?.as_str(), message);
    }
    Ok(())
}
