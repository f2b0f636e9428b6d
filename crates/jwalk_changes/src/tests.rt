//! Rows of small lists, each entry as its path, its type (`d`, `f`, `l`) and its length.
use crate::{Change, ChangesError, Facts, Kept, NotAscending, Which, changes_between};
use jwalk_model::file_type::FileType;
use jwalk_model::metadata::Moment;
use std::alloc::{AllocError, Global};

type Rows = &'static [(&'static str, char, u64)];

fn file_type(letter: char) -> FileType {
    match letter {
        'd' => FileType::Dir,
        'l' => FileType::Symlink,
        _ => FileType::File,
    }
}

fn facts(letter: char, len: u64) -> Facts {
    Facts {
        file_type: file_type(letter),
        len: Some(len),
        modified: None,
        inode: None,
    }
}

fn entries(alloc: Global, rows: Rows) -> Result<Vec<Kept>, AllocError> {
    let mut all = Vec::new(alloc);
    for (path, letter, len) in rows {
        let path = String::from_str(alloc, path)?;
        all.push(Kept {
            path,
            facts: facts(*letter, *len),
        })?;
    }
    Ok(all)
}

fn places(alloc: Global, paths: &'static [&'static str]) -> Result<Vec<&'static str>, AllocError> {
    paths.iter().copied().collect(alloc)
}

fn sign(change: &Change<Kept, Kept>) -> &'static str {
    match change {
        Change::Added(_) => "+",
        Change::Removed(_) => "-",
        Change::Changed(_, _, which) => { if which.file_type { "t" } else { "~" } }
    }
}

fn path(change: &Change<Kept, Kept>) -> &str {
    match change {
        Change::Added(new) => new.path.as_str(),
        Change::Removed(old) => old.path.as_str(),
        Change::Changed(_, new, _) => new.path.as_str(),
    }
}

fn text_of(alloc: Global, found: &[Change<Kept, Kept>]) -> Result<String, ChangesError> {
    let mut text = String::new(alloc);
    for change in found {
        text.push_str(sign(change))?;
        text.push_str(path(change))?;
        text.push_str(" ")?;
    }
    Ok(text)
}

/// Returns a line for each difference, or the input that doesn't ascend.
fn lines(
    alloc: Global,
    old: Rows,
    new: Rows,
    unknown: &'static [&'static str],
) -> Result<String, ChangesError> {
    let old = entries(alloc, old)?;
    let new = entries(alloc, new)?;
    let unknown = places(alloc, unknown)?;
    let found = changes_between(alloc, old, new, unknown)?;
    text_of(alloc, &found)
}

const ROWS: &[(Rows, Rows, &[&str], &str)] = &[
    // Nothing, and one side alone.
    (&[], &[], &[], ""),
    (&[("a", 'f', 1)], &[], &[], "-a "),
    (&[], &[("a", 'f', 1)], &[], "+a "),
    // Ends of lists.
    (
        &[("a", 'f', 1), ("b", 'f', 1)],
        &[("a", 'f', 1)],
        &[],
        "-b ",
    ),
    (
        &[("a", 'f', 1)],
        &[("a", 'f', 1), ("b", 'f', 1), ("c", 'f', 1)],
        &[],
        "+b +c ",
    ),
    // A length, and that of a directory, which doesn't count.
    (&[("a", 'f', 1)], &[("a", 'f', 2)], &[], "~a "),
    (&[("a", 'd', 1)], &[("a", 'd', 2)], &[], ""),
    // A file that became a directory.
    (
        &[("a", 'f', 1)],
        &[("a", 'd', 1), ("a/b", 'f', 1)],
        &[],
        "ta +a/b ",
    ),
    // A directory that was moved.
    (
        &[("a", 'd', 0), ("a/x", 'f', 1)],
        &[("b", 'd', 0), ("b/x", 'f', 1)],
        &[],
        "-a -a/x +b +b/x ",
    ),
    // By components: `a/b` comes before `a-b` and `a.b`.
    (
        &[("a", 'd', 0), ("a/b", 'f', 1), ("a-b", 'f', 1)],
        &[("a", 'd', 0), ("a.b", 'f', 1)],
        &[],
        "-a/b -a-b +a.b ",
    ),
    // Nothing is told of what is below a place that isn't known, but of the place itself.
    (
        &[("a", 'd', 0), ("a/b", 'f', 1), ("ab", 'f', 1)],
        &[("a", 'd', 0)],
        &["a"],
        "-ab ",
    ),
    (&[("a", 'd', 0), ("a/b", 'f', 1)], &[], &["a"], "-a "),
    (
        &[],
        &[
            ("a", 'd', 0),
            ("a/b", 'd', 0),
            ("a/b/c", 'f', 1),
            ("b", 'f', 1),
        ],
        &["a/b", "z"],
        "+a +a/b +b ",
    ),
    (&[("a", 'f', 1)], &[("b", 'f', 1)], &[""], ""),
];

#[test]
fn differences_of_small_lists(rt: HostRuntime) {
    for (old, new, unknown, want) in ROWS {
        match lines(rt.alloc(), old, new, unknown) {
            Ok(text) => assert_eq!(rt; text.as_str(), *want),
            Err(error) => assert!(rt; false, "{error}"),
        }
    }
}

const UNORDERED: &[(Rows, Rows, &[&str], NotAscending)] = &[
    (&[("b", 'f', 1), ("a", 'f', 1)], &[], &[], NotAscending::Old),
    (
        &[],
        &[("a-b", 'f', 1), ("a/b", 'f', 1)],
        &[],
        NotAscending::New,
    ),
    (&[], &[("a", 'f', 1), ("a", 'f', 1)], &[], NotAscending::New),
    (&[], &[], &["b", "a"], NotAscending::Unknown),
];

#[test]
fn lists_that_do_not_ascend(rt: HostRuntime) {
    for (old, new, unknown, want) in UNORDERED {
        let error = lines(rt.alloc(), old, new, unknown).err();
        assert!(rt; error == Some(ChangesError::NotAscending(*want)), "{want}");
    }
}

#[test]
fn what_one_side_does_not_know(rt: HostRuntime) {
    let known = Facts {
        modified: Some(Moment {
            seconds: 7,
            nanoseconds: 0,
        }),
        inode: Some(5),
        ..facts('f', 1)
    };
    let unknown = Facts {
        len: None,
        modified: None,
        inode: None,
        ..known
    };
    let later = Facts {
        modified: Some(Moment {
            seconds: 7,
            nanoseconds: 1,
        }),
        inode: Some(6),
        ..known
    };
    assert!(rt; !known.which(unknown).any());
    assert_eq!(rt;
        known.which(later),
        Which {
            file_type: false,
            len: false,
            modified: true,
            inode: true
        }
    );
}
