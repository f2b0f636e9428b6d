//! A tree whose details no folder of a test can have.
use crate::programs::told::Told;

/// A file with a name in each of two directories, a file with a hole, and a directory on another device.
pub(super) const TREE: &str =
    "d /r\nd /r/b\nf 9 /r/b/x\nf 1 /r/b/own\nd /r/a\nf 9 /r/a/x\nf 100000 /r/hole\nd /r/c\nf 5 /r/c/y\n";

/// What the disk says of this tree: the device and the inode of each path, the number of its names, and its blocks.
pub(super) const TOLD: &[(&str, Told)] = &[
    ("/r", Told::Numbers(1, 1, 2, 8)),
    ("/r/a", Told::Numbers(1, 2, 2, 8)),
    ("/r/b", Told::Numbers(1, 3, 2, 8)),
    ("/r/a/x", Told::Numbers(1, 4, 2, 16)),
    ("/r/b/x", Told::Numbers(1, 4, 2, 16)),
    ("/r/b/own", Told::Numbers(1, 5, 1, 8)),
    ("/r/hole", Told::Numbers(1, 6, 1, 0)),
    ("/r/c", Told::Numbers(2, 1, 2, 8)),
    ("/r/c/y", Told::Numbers(2, 2, 1, 8)),
    ("/r/c/..", Told::Numbers(1, 1, 2, 8)),
];
