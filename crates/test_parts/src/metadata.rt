//! Metadata with details.
use jwalk_fs::fault::Fault;
use jwalk_fs::file_system::FileSystem;
use jwalk_memory_fs::memory_fs::MemoryFs;
use jwalk_model::file_type::FileType;
use jwalk_model::metadata::{Details, Identity, Metadata, Moment};
use std::test::Fail;
use test_fixtures::trees::{SMALL, tree};

/// The least time.
const ZERO: Moment = Moment {
    seconds: 0,
    nanoseconds: 0,
};

/// Details in which no two numbers are the same.
const DETAILS: Details = Details {
    identity: Identity {
        device: 1,
        inode: 2,
    },
    links: 3,
    blocks: 4,
    modified: Moment {
        seconds: -5,
        nanoseconds: 6,
    },
    accessed: Moment {
        seconds: 7,
        nanoseconds: 8,
    },
    changed: Moment {
        seconds: 9,
        nanoseconds: 10,
    },
    created: Some(Moment {
        seconds: 11,
        nanoseconds: 12,
    }),
    mode: 0o100644,
    uid: 13,
    gid: 14,
};

fn seen(details: Details) -> Metadata {
    Metadata::new(FileType::File, 15).with_details(details)
}

#[test]
fn a_metadata_is_written_with_all_details(rt: HostRuntime) -> Result<(), Fail> {
    let text = format!(in rt.alloc(); "{:?}", seen(DETAILS))?;
    assert_eq!(rt;
        text.as_str(),
        concat!(
            "Metadata { file_type: File, len: 15, details: Some(Details { identity: Identity { device: 1, inode: 2 }, ",
            "links: 3, blocks: 4, modified: Moment { seconds: -5, nanoseconds: 6 }, ",
            "accessed: Moment { seconds: 7, nanoseconds: 8 }, changed: Moment { seconds: 9, nanoseconds: 10 }, ",
            "created: Some(Moment { seconds: 11, nanoseconds: 12 }), mode: 33188, uid: 13, gid: 14 }) }",
        )
    );
    Ok(())
}

#[test]
fn a_time_of_creation_is_known_or_not(rt: HostRuntime) {
    let at_zero = Details {
        created: Some(ZERO),
        ..DETAILS
    };
    let unknown = Details {
        created: None,
        ..DETAILS
    };
    assert!(rt; seen(at_zero) != seen(unknown));
    assert!(rt; seen(at_zero) == seen(at_zero));
    assert!(rt; seen(unknown) == seen(unknown));
    assert!(rt; seen(at_zero).details() == Some(at_zero));
    assert!(rt; seen(unknown).details() == Some(unknown));
}

// The type of the file system is named here: the borrow checker must cover `?` and `ok` there too.
fn length_of_both(fs: &MemoryFs, one: &str, other: &str) -> Result<u64, Fault> {
    let first = fs.metadata(one)?;
    let second = fs.symlink_metadata(other)?;
    Ok(first.len().saturating_add(second.len()))
}

fn is_file_without_details(fs: &MemoryFs, path: &str) -> Option<bool> {
    let seen = fs.metadata(path).ok()?;
    Some(seen.is_file() && seen.details() == None)
}

#[test]
fn metadata_of_a_tree_in_memory(rt: HostRuntime) -> Result<(), Fail> {
    let fs = tree(rt.alloc(), SMALL)?;
    assert!(rt; matches!(length_of_both(&fs, "/r/a", "/r/b"), Ok(5)));
    assert!(rt; length_of_both(&fs, "/r/a", "/r/c").is_err());
    for (path, wanted) in [("/r/a", Some(true)), ("/r/s", Some(false)), ("/r/c", None)] {
        assert_eq!(rt; is_file_without_details(&fs, path), wanted, "{path}");
    }
    Ok(())
}
