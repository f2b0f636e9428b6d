//! The returns of trees in memory, and how trees are built.
use jwalk_fs::fault::Fault;
use jwalk_fs::file_system::FileSystem;
use jwalk_fs::listed::Listed;
use jwalk_memory_fs::build_error::BuildError;
use jwalk_memory_fs::memory_fs::MemoryFs;
use jwalk_model::file_type::FileType;
use jwalk_model::metadata::Metadata;
use linked_list_allocator::LocalHeap;
use std::alloc::Global;
use std::io;
use std::io::ErrorKind;

// A call that changes a tree.
enum Change {
    Dir(&'static str),
    File(u64, &'static str),
    // Adds a link: its text, and its path.
    Link(&'static str, &'static str),
    Deny(ErrorKind, &'static str),
    Remove(&'static str),
}

// A type and a length.
type Found = Result<(FileType, u64), ErrorKind>;

// A call on a tree, with its outcome.
enum Step {
    Does(Change),
    Refuses(BuildError, Change),
    // Looks at the target of a path.
    Leads(&'static str, Found),
    // Looks at a path itself, also if it is a link.
    Is(&'static str, Found),
    // Lists a directory. A space precedes each name, and a slash follows those of directories.
    Lists(&'static str, &'static str),
    ListsNone(&'static str, ErrorKind),
    // Reads the text of a link.
    Reads(&'static str, &'static str),
    ReadsNone(&'static str, ErrorKind),
    // Adds a number of files to a directory, and lists them.
    ListsMany(u64),
    // Makes a number of nested directories, and lists them from the last up.
    IsDeep(u64),
    // Makes a link to each number below this one, at the number after it.
    DoesLinks(u64),
}

// The steps. None of them promises anything: a test that calls the tree itself carries each call's contract to its end.

fn changes(fs: &mut MemoryFs, it: &Change) -> Result<(), BuildError> {
    match it {
        Change::Dir(path) => fs.add_dir(path),
        Change::File(len, path) => fs.add_file(path, *len),
        Change::Link(target, path) => fs.add_link(path, target),
        Change::Deny(kind, path) => fs.deny(path, *kind),
        Change::Remove(path) => fs.remove(path),
    }
}

fn found(answer: Result<Metadata, Fault>) -> Found {
    match answer {
        Ok(metadata) => Ok((metadata.file_type(), metadata.len())),
        Err(Fault::Io(e)) => Err(e.kind()),
        Err(Fault::Memory) => Err(ErrorKind::OutOfMemory),
    }
}

fn names(alloc: Global, items: &[io::Result<Listed>]) -> Option<String> {
    let mut text = String::new(alloc);
    for item in items {
        let item = item.as_ref().ok()?;
        let is_dir = item.seen.as_ref().ok()?.file_type().is_dir();
        let mark = if is_dir { "/" } else { "" };
        write!(text, " {}{mark}", item.name).ok()?;
    }
    Some(text)
}

fn lists(fs: &MemoryFs, alloc: Global, path: &str, wanted: &str) -> bool {
    match fs.read_dir(alloc, path) {
        Ok(items) => names(alloc, items.as_slice()).as_deref() == Some(wanted),
        Err(_) => false,
    }
}

fn fails<T: Drop>(answer: Result<T, Fault>, wanted: ErrorKind) -> bool {
    match answer {
        Err(Fault::Io(e)) => e.kind() == wanted,
        _ => false,
    }
}

fn goes(fs: &mut MemoryFs, alloc: Global, step: &Step) -> bool {
    match step {
        Step::Does(it) => changes(fs, it).is_ok(),
        Step::Refuses(error, it) => changes(fs, it) == Err(*error),
        Step::Leads(path, wanted) => found(fs.metadata(path)) == *wanted,
        Step::Is(path, wanted) => found(fs.symlink_metadata(path)) == *wanted,
        Step::Lists(path, names) => lists(fs, alloc, path, names),
        Step::ListsNone(path, kind) => fails(fs.read_dir(alloc, path), *kind),
        Step::Reads(path, target) => {
            matches!(fs.read_link(alloc, path), Ok(text) if text.as_str() == *target)
        }
        Step::ReadsNone(path, kind) => fails(fs.read_link(alloc, path), *kind),
        Step::ListsMany(count) => lists_all_children(fs, alloc, *count) == Some(true),
        Step::IsDeep(levels) => is_deep(fs, alloc, *levels) == Some(true),
        Step::DoesLinks(count) => adds_links(fs, alloc, *count).is_some(),
    }
}

// Returns the number of the first step that is wrong, of those that build a tree and those over it.
fn first_wrong(alloc: Global, tree: &[Step], steps: &[Step]) -> Option<usize> {
    let mut fs = MemoryFs::new(alloc);
    for (number, step) in tree.iter().chain(steps).enumerate() {
        if !goes(&mut fs, alloc, step) {
            return Some(number);
        }
    }
    None
}

// Adds a number of files, and lists them.
fn lists_all_children(fs: &mut MemoryFs, alloc: Global, count: u64) -> Option<bool> {
    let mut names = String::new(alloc);
    for number in 0..count {
        let path = format!(in alloc; "/wide/{number}").ok()?;
        fs.add_file(path.as_str(), number).ok()?;
        if found(fs.metadata(path.as_str())) != Ok((FileType::File, number)) {
            return Some(false);
        }
        write!(names, " {number}").ok()?;
    }
    Some(lists(fs, alloc, "/wide", names.as_str()))
}

// Adds nested directories, and their names to the path.
fn goes_down(fs: &mut MemoryFs, path: &mut String, levels: u64) -> Option<()> {
    for level in 0..levels {
        write!(path, "/{level}").ok()?;
        fs.add_dir(path.as_str()).ok()?;
        path.push_str("/.").ok()?;
    }
    Some(())
}

// On the way up, the directory above each must have it.
fn is_deep(fs: &mut MemoryFs, alloc: Global, levels: u64) -> Option<bool> {
    let mut path = String::new(alloc);
    goes_down(fs, &mut path, levels)?;
    if found(fs.symlink_metadata(path.as_str())) != DIR {
        return Some(false);
    }
    for level in (1..levels).rev() {
        path.push_str("/..").ok()?;
        let name = format!(in alloc; " {level}/").ok()?;
        if !lists(fs, alloc, path.as_str(), name.as_str()) {
            return Some(false);
        }
    }
    path.push_str("/../0").ok()?;
    Some(lists(fs, alloc, path.as_str(), " 1/"))
}

// Makes a link to each number below the count, at the number after it.
fn adds_links(fs: &mut MemoryFs, alloc: Global, count: u64) -> Option<()> {
    for number in 0..count {
        let path = format!(in alloc; "/{}", number.wrapping_add(1)).ok()?;
        let target = format!(in alloc; "{number}").ok()?;
        fs.add_link(path.as_str(), target.as_str()).ok()?;
    }
    Some(())
}

const DIR: Found = Ok((FileType::Dir, 0));

const FILE: Found = Ok((FileType::File, 7));

const FILE_OF_3: Found = Ok((FileType::File, 3));

// A directory that has a file.
const SMALL: &[Step] = &[
    Step::Does(Change::Dir("/r")),
    Step::Does(Change::File(7, "/r/f")),
];

// A directory with two others and files on two levels.
const GROUPED: &[Step] = &[
    Step::Does(Change::Dir("/t")),
    Step::Does(Change::File(1, "/t/c.txt")),
    Step::Does(Change::File(2, "/t/a.txt")),
    Step::Does(Change::Dir("/t/group 2")),
    Step::Does(Change::File(3, "/t/group 2/.hidden_file.txt")),
    Step::Does(Change::File(4, "/t/group 2/e.txt")),
    Step::Does(Change::Dir("/t/group 1")),
    Step::Does(Change::File(5, "/t/group 1/d.txt")),
    Step::Does(Change::File(6, "/t/b.txt")),
];

// A directory that has a file and a link to it, and links that lead there and elsewhere.
const LINKED: &[Step] = &[
    Step::Does(Change::Dir("/r")),
    Step::Does(Change::File(7, "/r/f")),
    Step::Does(Change::Link("f", "/r/l")),
    Step::Does(Change::Link("r", "/q")),
    Step::Does(Change::Link("q", "/to_q")),
    Step::Does(Change::Link("./r//", "/slash")),
    Step::Does(Change::Link("../../r/f", "/r/out")),
    Step::Does(Change::Link("/r/l", "/r/whole")),
    Step::Does(Change::Link("none", "/broken")),
    Step::Does(Change::Link("", "/empty")),
    Step::Does(Change::Link("b", "/a")),
    Step::Does(Change::Link("/a", "/b")),
    Step::Does(Change::Link("r/f/x", "/below")),
    Step::Does(Change::Link("f", "/r/s")),
];

// What a row shows, the steps that build a tree, and the steps over it.
const ROWS: &[(&str, &[Step], &[Step])] = &[
    (
        "metadata of paths",
        SMALL,
        &[
            Step::Leads("/r/f", FILE),
            Step::Is("/r/f", FILE),
            Step::Leads("r", DIR),
            Step::Leads("/r/../.", DIR),
            Step::Leads("", Err(ErrorKind::NotFound)),
            Step::Leads("/r/f/x", Err(ErrorKind::Other)),
        ],
    ),
    (
        "a file is no directory and no link",
        SMALL,
        &[
            Step::ListsNone("/r/f", ErrorKind::InvalidInput),
            Step::ReadsNone("/r/f", ErrorKind::InvalidInput),
        ],
    ),
    (
        "refusals of building",
        SMALL,
        &[
            Step::Refuses(BuildError::AlreadyExists, Change::File(1, "/r/f")),
            Step::Refuses(BuildError::NotFound, Change::Dir("/n/m")),
            Step::Refuses(BuildError::NotFound, Change::Dir("/")),
        ],
    ),
    (
        "denied directory is not listed",
        GROUPED,
        &[
            Step::Does(Change::Deny(ErrorKind::PermissionDenied, "/t/group 2")),
            Step::ListsNone("/t/group 2", ErrorKind::PermissionDenied),
            Step::Lists("/t/group 1", " d.txt"),
            Step::Leads("/t/group 2", DIR),
            Step::Leads("/t/group 2/e.txt", Ok((FileType::File, 4))),
        ],
    ),
    (
        "later kind replaces the first",
        SMALL,
        &[
            Step::Does(Change::Deny(ErrorKind::PermissionDenied, "/r")),
            Step::Does(Change::Deny(ErrorKind::Other, "r/.")),
            Step::ListsNone("/r", ErrorKind::Other),
        ],
    ),
    (
        "refusals of denying",
        SMALL,
        &[
            Step::Refuses(
                BuildError::NotFound,
                Change::Deny(ErrorKind::PermissionDenied, "/r/f"),
            ),
            Step::Refuses(
                BuildError::NotFound,
                Change::Deny(ErrorKind::PermissionDenied, "/n"),
            ),
            Step::Refuses(
                BuildError::NotFound,
                Change::Deny(ErrorKind::PermissionDenied, "/"),
            ),
            Step::Refuses(
                BuildError::NotFound,
                Change::Deny(ErrorKind::PermissionDenied, ""),
            ),
        ],
    ),
    (
        "children in order of creation",
        SMALL,
        &[
            Step::Does(Change::Dir("/r/b")),
            Step::Does(Change::File(0, "/r/a")),
            Step::Lists("/r", " f b/ a"),
        ],
    ),
    (
        "a directory has five thousand children",
        &[Step::Does(Change::Dir("/wide")), Step::ListsMany(5_000)],
        &[
            Step::Leads("/wide/5000", Err(ErrorKind::NotFound)),
            Step::Refuses(BuildError::AlreadyExists, Change::Dir("/wide/2500")),
        ],
    ),
    ("directories are thirty deep", &[], &[Step::IsDeep(30)]),
    (
        "metadata through links",
        LINKED,
        &[
            Step::Leads("/q/l", FILE),
            Step::Leads("/r/f", FILE),
            Step::Leads("/r/f/x", Err(ErrorKind::Other)),
            Step::Leads("/q/..", DIR),
            Step::Leads("r", DIR),
            Step::Leads("", Err(ErrorKind::NotFound)),
            Step::Leads("/r/l/", FILE),
            Step::Leads("/r/l/x", Err(ErrorKind::Other)),
            Step::Leads("/to_q/l", FILE),
            Step::Leads("/to_q", DIR),
            Step::Leads("/slash/f", FILE),
            Step::Leads("/r/out", FILE),
            Step::Leads("/r/whole", FILE),
            Step::Leads("/broken", Err(ErrorKind::NotFound)),
            Step::Leads("/empty", Err(ErrorKind::NotFound)),
            Step::Leads("/a", Err(ErrorKind::Other)),
            Step::Leads("/b/x", Err(ErrorKind::Other)),
            Step::Leads("/below", Err(ErrorKind::Other)),
        ],
    ),
    (
        "links themselves",
        LINKED,
        &[
            Step::Is("/q/l", Ok((FileType::Symlink, 1))),
            Step::Reads("/q/l", "f"),
            Step::Is("/q", Ok((FileType::Symlink, 1))),
            Step::Reads("/q", "r"),
            Step::Is("/r/../slash/.", Ok((FileType::Symlink, 5))),
            Step::Reads("/r/../slash/.", "./r//"),
            Step::Is("/to_q/out", Ok((FileType::Symlink, 9))),
            Step::Reads("/to_q/out", "../../r/f"),
            Step::Is("/empty", Ok((FileType::Symlink, 0))),
            Step::Reads("/empty", ""),
            Step::Is("/a", Ok((FileType::Symlink, 1))),
            Step::Reads("/a", "b"),
            Step::ReadsNone("/q/..", ErrorKind::InvalidInput),
            Step::ListsNone("/q/l", ErrorKind::InvalidInput),
            Step::Lists("/to_q", " f l out whole s"),
        ],
    ),
    (
        "up after a link",
        &[
            Step::Does(Change::Dir("/r")),
            Step::Does(Change::File(1, "/r/f")),
            Step::Does(Change::Dir("/r/s")),
            Step::Does(Change::Link("r/s", "/q")),
        ],
        &[Step::Leads("/q/../f", Ok((FileType::File, 1)))],
    ),
    (
        "forty links are followed",
        &[
            Step::Does(Change::File(3, "/0")),
            Step::Does(Change::Link("/", "/root")),
            Step::DoesLinks(41),
        ],
        &[
            Step::Leads("/40", FILE_OF_3),
            Step::Leads("/41", Err(ErrorKind::Other)),
            Step::Leads("/root/39", FILE_OF_3),
            Step::Leads("/root/40", Err(ErrorKind::Other)),
            Step::Leads("/root/root/38", FILE_OF_3),
            Step::Leads("/root/root/39", Err(ErrorKind::Other)),
        ],
    ),
    (
        "building through links",
        LINKED,
        &[
            Step::Refuses(BuildError::AlreadyExists, Change::File(1, "/q/f")),
            Step::Refuses(BuildError::AlreadyExists, Change::Link("r", "/broken")),
            Step::Refuses(BuildError::NotFound, Change::Link("r", "/broken/x")),
            Step::Refuses(BuildError::NotFound, Change::Link("r", "/r/l/x")),
            Step::Refuses(BuildError::NotFound, Change::Link("r", "/q/..")),
            Step::Refuses(
                BuildError::NotFound,
                Change::Deny(ErrorKind::PermissionDenied, "/q"),
            ),
            Step::Does(Change::Dir("/to_q/d")),
            Step::Does(Change::Deny(ErrorKind::PermissionDenied, "/slash/d")),
            Step::ListsNone("/r/d", ErrorKind::PermissionDenied),
        ],
    ),
    (
        "only what is there is removed",
        LINKED,
        &[
            Step::Refuses(BuildError::NotFound, Change::Remove("/")),
            Step::Refuses(BuildError::NotFound, Change::Remove("")),
            Step::Refuses(BuildError::NotFound, Change::Remove("/r/..")),
            Step::Refuses(BuildError::NotFound, Change::Remove("/n/m")),
            Step::Refuses(BuildError::NotFound, Change::Remove("/r/none")),
            Step::Refuses(BuildError::NotFound, Change::Remove("/r/f/x")),
            Step::Refuses(BuildError::NotFound, Change::Remove("/broken/x")),
        ],
    ),
    (
        "removed children",
        LINKED,
        &[
            Step::Does(Change::Remove("/r/f")),
            Step::Does(Change::Remove("/slash/out")),
            Step::Does(Change::Remove("/q")),
            Step::Is("/r/f", Err(ErrorKind::NotFound)),
            Step::Lists("/r", " l whole s"),
        ],
    ),
    (
        "a link to a removed directory is broken",
        LINKED,
        &[
            Step::Does(Change::Remove("/r")),
            Step::Leads("/slash", Err(ErrorKind::NotFound)),
            Step::Is("/slash", Ok((FileType::Symlink, 5))),
            Step::Does(Change::Dir("/r")),
            Step::Does(Change::File(9, "/r/g")),
            Step::Lists("/slash", " g"),
        ],
    ),
];

#[test]
fn trees_go_step_by_step(rt: HostRuntime) {
    for (shown, tree, steps) in ROWS {
        assert_eq!(rt; first_wrong(rt.alloc(), tree, steps), None, "{shown}");
    }
}

// Looks through a link in it before it is removed.
fn builds_and_removes(fs: &mut MemoryFs<&LocalHeap>, len: u64) -> Result<bool, BuildError> {
    for directory in ["/t", "/t/a", "/t/a/b", "/t/c"] {
        fs.add_dir(directory)?;
    }
    fs.add_file("/t/a/b/f", len)?;
    fs.add_link("/t/l", "a/b")?;
    let is_there = found(fs.metadata("/t/l/f")) == Ok((FileType::File, len));
    fs.remove("/t")?;
    Ok(is_there)
}

// Each round but the first must leave as much of the heap in use.
fn frees_all(heap: &LocalHeap, rounds: u64) -> bool {
    let mut fs = MemoryFs::new(heap);
    let mut held = 0;
    for round in 0..rounds {
        if builds_and_removes(&mut fs, round) != Ok(true) {
            return false;
        }
        if round == 1 {
            held = heap.used();
        }
    }
    heap.used() == held
}

#[test]
fn what_is_removed_is_freed(rt: HostRuntime) {
    let made = LocalHeap::new(rt.alloc(), 1 << 16);
    assert!(rt; matches!(&made, Ok(heap) if frees_all(heap, 1000)));
}
