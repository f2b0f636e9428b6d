//! The calls that build a tree.
use crate::refused::memory::{Memory, Play, Player, all_are_right};
use jwalk_fs::file_system::FileSystem;
use jwalk_memory_fs::build_error::BuildError;
use jwalk_memory_fs::memory_fs::MemoryFs;
use std::io::ErrorKind;

type Tree<'m> = MemoryFs<Memory<'m>>;

/// A call at a path.
#[derive(Clone, Copy)]
enum Call {
    Dir,
    File,
    Link,
    Deny,
    Remove,
}

fn make(fs: &mut Tree<'_>, call: Call, path: &str) -> Result<(), BuildError> {
    match call {
        Call::Dir => fs.add_dir(path),
        Call::File => fs.add_file(path, 7),
        Call::Link => fs.add_link(path, "a text that is long enough to take memory"),
        Call::Deny => fs.deny(path, ErrorKind::PermissionDenied),
        Call::Remove => fs.remove(path),
    }
}

/// The first attempt has a request refused, and must change nothing then. The second has all granted.
fn is_made(player: &Player<'_>, fs: &mut Tree<'_>, call: Call, path: &str) -> bool {
    let before = fs.symlink_metadata(path).ok();
    player.refuse();
    let first = make(fs, call, path);
    player.grant();
    match first {
        Ok(()) => true,
        Err(BuildError::Memory) => {
            fs.symlink_metadata(path).ok() == before && make(fs, call, path).is_ok()
        }
        Err(_) => false,
    }
}

const CALLS: &[(Call, &str)] = &[
    (Call::Dir, "/r"),
    (Call::Dir, "/r/a"),
    (Call::File, "/r/a/f"),
    (Call::Link, "/r/l"),
    (Call::Dir, "/r/b"),
    (Call::File, "/r/b/g"),
    (Call::Deny, "/r/b"),
    (Call::Remove, "/r/l"),
    (Call::Remove, "/r/a"),
    (Call::Dir, "/r/c"),
];

struct OfBuilding;

impl Play for OfBuilding {
    fn is_right(&self, player: &Player<'_>) -> bool {
        let mut fs = MemoryFs::new(player.memory);
        for (call, path) in CALLS {
            if !is_made(player, &mut fs, *call, *path) {
                return false;
            }
        }
        true
    }
}

#[test]
fn each_call_that_builds_a_tree_is_refused_and_made_again(rt: HostRuntime) {
    assert!(rt; all_are_right(rt.alloc(), &OfBuilding));
}
