//! Walks whose callback uses the states of directories and entries.
use jwalk::WalkDirGeneric;
use jwalk::file_system::{BuildError, FileSystem};
use jwalk::read_dir::ByFn;
use std::alloc::{AllocError, Global};
use std::cmp::Ordering;
use std::thread::Threads;
use test_fixtures::answers::Answer;
use test_fixtures::trees::{GROUPED, tree};
use test_fixtures::ways::{Asked, Setting, WAYS, Way, all_of};

/// The state of a directory counts lists on the way down, that of an entry is its mark.
type Marks = (usize, bool);

/// The text has the path and the mark of each entry.
fn marks_of(alloc: Global, found: &[Answer<Marks>]) -> Result<String, AllocError> {
    let mut text = String::new(alloc);
    for answer in found {
        if let Ok(entry) = answer {
            let path = entry.path()?;
            let mark = entry.client_state;
            write!(text, "{path} {mark};")?;
        }
    }
    Ok(text)
}

const MARKS: &str = "/t true;/t/a.txt true;/t/b.txt false;/t/c.txt false;/t/group 1 false;\
                     /t/group 1/d.txt true;/t/group 2 false;/t/group 2/e.txt true;";

/// Returns all that a walk yields with a closure as its callback. The closure sorts each list by name, and drops hidden
/// names and errors. It leaves unread what is below depth 2, counts lists on the way down, and marks the first entry of
/// each.
fn walk_marked<S: FileSystem>(
    alloc: Global,
    fs: S,
    root: String,
) -> Result<Vec<Answer<Marks>>, AllocError> {
    // begin closure
    let walk = WalkDirGeneric::<(usize, bool), _, _, _>::new(fs, root)
        .skip_hidden(false)
        .root_read_dir_state(0)
        .process_read_dir_by(|_depth, _path, state, children| {
            children.sort_by(|a, b| match (a, b) {
                (Ok(a), Ok(b)) => a.file_name.cmp(&b.file_name),
                (Ok(_), Err(_)) => Ordering::Less,
                (Err(_), Ok(_)) => Ordering::Greater,
                (Err(_), Err(_)) => Ordering::Equal,
            })?;
            children.retain(|found| match found {
                Ok(entry) => !entry.file_name.as_str().starts_with("."),
                Err(_) => false,
            });
            for found in children.iter_mut() {
                if let Ok(entry) = found {
                    if entry.depth == 2 {
                        entry.read_children = None;
                    }
                }
            }
            *state = state.saturating_add(1);
            if let Some(Ok(first)) = children.first_mut() {
                first.client_state = true;
            }
            Ok(())
        });
    // end closure
    all_of(alloc, walk.into_iter())
}

fn has_marks(alloc: Global, wanted: &str) -> Result<bool, BuildError> {
    let root = String::from_str(alloc, "/t")?;
    let found = walk_marked(alloc, tree(alloc, GROUPED)?, root)?;
    Ok(marks_of(alloc, found.as_slice())?.as_str() == wanted)
}

#[test]
fn the_first_entry_of_each_list_is_marked(rt: HostRuntime) {
    assert!(rt; matches!(has_marks(rt.alloc(), MARKS), Ok(true)));
}

/// Errors come behind the entries, which are in order by name.
fn put_in_order(list: &mut Vec<Answer<Marks>>) -> Result<(), AllocError> {
    list.sort_by(|a, b| match (a, b) {
        (Ok(a), Ok(b)) => a.file_name.cmp(&b.file_name),
        (Ok(_), Err(_)) => Ordering::Less,
        (Err(_), Ok(_)) => Ordering::Greater,
        (Err(_), Err(_)) => Ordering::Equal,
    })
}

/// Orders each list, drops hidden names and errors, leaves the directories below depth 2 unread, counts lists on the
/// way down, and marks the first entry.
fn mark(
    _depth: Option<usize>,
    _path: &str,
    state: &mut usize,
    list: &mut Vec<Answer<Marks>>,
) -> Result<(), AllocError> {
    put_in_order(list)?;
    list.retain(|found| match found {
        Ok(entry) => !entry.file_name.as_str().starts_with("."),
        Err(_) => false,
    });
    for found in list.iter_mut() {
        if let Ok(entry) = found
            && entry.depth == 2
        {
            entry.read_children = None;
        }
    }
    *state = state.saturating_add(1);
    if let Some(Ok(first)) = list.first_mut() {
        first.client_state = true;
    }
    Ok(())
}

/// Hidden names may be asked for or not, as the callback drops them.
fn marks_by<R: Threads + AllocGlobal + Sync, S: FileSystem + Send + Sync>(
    rt: &R,
    fs: &S,
    root: &str,
    way: Way,
    wanted: &str,
) -> Result<bool, AllocError> {
    const BOTH: &[&[Setting]] = &[&[], &[Setting::Hidden]];
    let mut are_so = true;
    for settings in BOTH {
        let asked = Asked {
            fs,
            root,
            settings: *settings,
        };
        let found = asked.found(rt, ByFn::of(mark), way)?;
        are_so &= marks_of(rt.alloc(), found.as_slice())?.as_str() == wanted;
    }
    Ok(are_so)
}

#[test]
fn the_first_entry_of_each_list_is_marked_whatever_reads_the_directories(rt: HostRuntime) {
    // From `/`, the groups are at depth 2 and thus aren't read.
    const ROWS: &[(&str, &str)] = &[
        ("/t", MARKS),
        (
            "/",
            "/ true;/t true;/t/a.txt true;/t/b.txt false;/t/c.txt false;/t/group 1 false;\
             /t/group 2 false;",
        ),
    ];
    let fs = tree(rt.alloc(), GROUPED);
    for (root, wanted) in ROWS {
        for way in WAYS {
            assert!(rt;
                matches!(&fs, Ok(fs) if marks_by(&rt, fs, *root, *way, *wanted) == Ok(true)),
                "from {root}"
            );
        }
    }
}
