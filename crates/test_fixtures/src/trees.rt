//! Trees to walk over, as the steps that build them.
use jwalk_memory_fs::build_error::BuildError;
use jwalk_memory_fs::memory_fs::MemoryFs;
use std::alloc::Global;
use std::io::ErrorKind;

/// A step that builds a tree.
#[derive(Clone, Copy)]
pub enum Step {
    /// A directory.
    Dir(&'static str),
    /// A file: its length, and its path.
    File(u64, &'static str),
    /// A link: its text, and its path.
    Link(&'static str, &'static str),
    /// A directory that may not be listed.
    Deny(&'static str),
}

fn make(fs: &mut MemoryFs, step: Step) -> Result<(), BuildError> {
    match step {
        Step::Dir(path) => fs.add_dir(path),
        Step::File(len, path) => fs.add_file(path, len),
        Step::Link(target, path) => fs.add_link(path, target),
        Step::Deny(path) => fs.deny(path, ErrorKind::PermissionDenied),
    }
}

/// Returns the tree that these steps build.
pub fn tree(alloc: Global, steps: &[Step]) -> Result<MemoryFs, BuildError> {
    let mut fs = MemoryFs::new(alloc);
    for step in steps {
        make(&mut fs, *step)?;
    }
    Ok(fs)
}

/// A directory with two files and a directory between them.
pub const SMALL: &[Step] = &[
    Step::Dir("/r"),
    Step::File(3, "/r/b"),
    Step::Dir("/r/s"),
    Step::File(1, "/r/s/x"),
    Step::File(2, "/r/a"),
];

/// Files and two groups of files, one of which has a hidden name.
pub const GROUPED: &[Step] = &[
    Step::Dir("/t"),
    Step::File(1, "/t/c.txt"),
    Step::File(2, "/t/a.txt"),
    Step::Dir("/t/group 2"),
    Step::File(3, "/t/group 2/.hidden_file.txt"),
    Step::File(4, "/t/group 2/e.txt"),
    Step::Dir("/t/group 1"),
    Step::File(5, "/t/group 1/d.txt"),
    Step::File(6, "/t/b.txt"),
];

/// The same tree, with a group that may not be listed.
pub const DENIED: &[Step] = &[
    Step::Dir("/t"),
    Step::File(1, "/t/c.txt"),
    Step::File(2, "/t/a.txt"),
    Step::Dir("/t/group 2"),
    Step::File(3, "/t/group 2/.hidden_file.txt"),
    Step::File(4, "/t/group 2/e.txt"),
    Step::Dir("/t/group 1"),
    Step::File(5, "/t/group 1/d.txt"),
    Step::File(6, "/t/b.txt"),
    Step::Deny("/t/group 2"),
];

/// A directory with three directories, each with one more.
pub const FORKED: &[Step] = &[
    Step::Dir("/r"),
    Step::Dir("/r/a"),
    Step::Dir("/r/a/x"),
    Step::Dir("/r/b"),
    Step::Dir("/r/b/x"),
    Step::Dir("/r/c"),
    Step::Dir("/r/c/x"),
];

/// Nested directories. The innermost has a link to the second.
pub const LOOPED: &[Step] = &[
    Step::Dir("/r"),
    Step::Dir("/r/a"),
    Step::Dir("/r/a/b"),
    Step::Dir("/r/a/b/c"),
    Step::Link("/r/a", "/r/a/b/c/a-link"),
];

/// The same, with a relative text of the link.
pub const LOOPED_BACK: &[Step] = &[
    Step::Dir("/r"),
    Step::Dir("/r/a"),
    Step::Dir("/r/a/b"),
    Step::Dir("/r/a/b/c"),
    Step::Link("../..", "/r/a/b/c/a-link"),
];

/// A directory that has a link to itself.
pub const WITHIN: &[Step] = &[Step::Dir("/r"), Step::Link(".", "/r/l")];

/// A link to a directory elsewhere, which has a link to the directory above it.
pub const ELSEWHERE: &[Step] = &[
    Step::Dir("/r"),
    Step::Link("/s/t", "/r/k"),
    Step::Dir("/s"),
    Step::Dir("/s/t"),
    Step::Link("..", "/s/t/l"),
];

/// Two directories, each with a link to the other.
pub const TO_EACH_OTHER: &[Step] = &[
    Step::Dir("/r"),
    Step::Dir("/r/a"),
    Step::Link("../b", "/r/a/l"),
    Step::Dir("/r/b"),
    Step::Link("../a", "/r/b/m"),
];
