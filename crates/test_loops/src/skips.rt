//! What walks yield where parts are skipped, by rows of `walkdir`'s tests and of what differs from it.
ghost use Rattle.jwalk.specs.DirEntryIter.{reads_of};

use crate::three_ways::{READERS, Reader};
use jwalk::entries::Entries;
use jwalk::file_system::BuildError;
use jwalk::readings::Readings;
use std::alloc::{AllocError, Global};
use test_fixtures::answers::{Answer, are_lines};
use test_fixtures::host::Host;
use test_fixtures::trees::{GROUPED, Step, tree};

/// A tree of `walkdir`'s test of `skip_current_dir`.
const QUUX: &[Step] = &[
    Step::Dir("/r"),
    Step::Dir("/r/foo"),
    Step::Dir("/r/foo/bar"),
    Step::Dir("/r/foo/bar/baz"),
    Step::Dir("/r/foo/bar/baz/abc"),
    Step::Dir("/r/quux"),
];

/// A directory that may not be listed, and what is beside it.
const SHUT: &[Step] = &[
    Step::Dir("/r"),
    Step::Dir("/r/a"),
    Step::Dir("/r/b"),
    Step::File(1, "/r/b/f"),
    Step::Deny("/r/a"),
];

/// Two loops in a directory, and what is beside it.
const LOOPS: &[Step] = &[
    Step::Dir("/r"),
    Step::Dir("/r/b"),
    Step::Link("/r", "/r/b/l"),
    Step::Link("/r", "/r/b/m"),
    Step::Dir("/r/c"),
];

/// The name of an error.
const ERROR: &str = "!";

/// A walk, behind what it is skipped, and what comes.
struct Row {
    steps: &'static [Step],
    root: &'static str,
    follow_links: bool,
    least: usize,
    greatest: usize,
    /// The name of the entries behind which it is skipped.
    behind: &'static str,
    answers: &'static str,
}

/// Nothing is skipped.
const GROUPS: Row = Row {
    steps: GROUPED,
    root: "/t",
    follow_links: false,
    least: 0,
    greatest: usize::MAX,
    behind: "",
    answers: "0 d /t; 1 f /t/a.txt; 1 f /t/b.txt; 1 f /t/c.txt; 1 d /t/group 1; 2 f /t/group 1/d.txt; \
              1 d /t/group 2; 2 f /t/group 2/.hidden_file.txt; 2 f /t/group 2/e.txt",
};

const ROWS: &[Row] = &[
    GROUPS,
    // What is below a directory is skipped.
    Row {
        steps: QUUX,
        root: "/r",
        behind: "bar",
        answers: "0 d /r; 1 d /r/foo; 2 d /r/foo/bar; 1 d /r/quux",
        ..GROUPS
    },
    Row {
        behind: "t",
        answers: "0 d /t",
        ..GROUPS
    },
    Row {
        behind: "group 1",
        answers: "0 d /t; 1 f /t/a.txt; 1 f /t/b.txt; 1 f /t/c.txt; 1 d /t/group 1; 1 d /t/group 2; \
                  2 f /t/group 2/.hidden_file.txt; 2 f /t/group 2/e.txt",
        ..GROUPS
    },
    // The rest of a file's directory is skipped.
    Row {
        behind: "b.txt",
        answers: "0 d /t; 1 f /t/a.txt; 1 f /t/b.txt",
        ..GROUPS
    },
    Row {
        behind: "d.txt",
        ..GROUPS
    },
    Row {
        behind: ".hidden_file.txt",
        answers: "0 d /t; 1 f /t/a.txt; 1 f /t/b.txt; 1 f /t/c.txt; 1 d /t/group 1; 2 f /t/group 1/d.txt; \
                  1 d /t/group 2; 2 f /t/group 2/.hidden_file.txt",
        ..GROUPS
    },
    // The rest of an error's directory is skipped.
    Row {
        steps: LOOPS,
        root: "/r",
        follow_links: true,
        behind: ERROR,
        answers: "0 d /r; 1 d /r/b; ! 2 /r/b/l loop /r; 1 d /r/c",
        ..GROUPS
    },
    Row {
        root: "/none",
        behind: ERROR,
        answers: "! 0 /none NotFound",
        ..GROUPS
    },
    // Unlike in `walkdir`, what is beside a directory that isn't read stays.
    Row {
        greatest: 1,
        behind: "group 1",
        answers: "0 d /t; 1 f /t/a.txt; 1 f /t/b.txt; 1 f /t/c.txt; 1 d /t/group 1; 1 d /t/group 2",
        ..GROUPS
    },
    Row {
        steps: SHUT,
        root: "/r",
        behind: "a",
        answers: "0 d /r; 1 d /r/a ! 1 /r/a PermissionDenied; 1 d /r/b; 2 f /r/b/f",
        ..GROUPS
    },
    // What the least depth leaves out is not skipped behind, but what lies there is skipped.
    Row {
        least: 2,
        behind: ".hidden_file.txt",
        answers: "2 f /t/group 1/d.txt; 2 f /t/group 2/.hidden_file.txt",
        ..GROUPS
    },
    Row {
        least: 2,
        behind: "d.txt",
        answers: "2 f /t/group 1/d.txt; 2 f /t/group 2/.hidden_file.txt; 2 f /t/group 2/e.txt",
        ..GROUPS
    },
    Row {
        least: 1,
        behind: "t",
        answers: "1 f /t/a.txt; 1 f /t/b.txt; 1 f /t/c.txt; 1 d /t/group 1; 2 f /t/group 1/d.txt; \
                  1 d /t/group 2; 2 f /t/group 2/.hidden_file.txt; 2 f /t/group 2/e.txt",
        ..GROUPS
    },
];

fn is_named(answer: &Answer, name: &str) -> bool {
    match answer {
        Ok(entry) => entry.file_name() == name,
        Err(_error) => name == ERROR,
    }
}

/// Takes the answers of a walk. Before the first, behind the last and a second time nothing is skipped.
fn take_all<B: Readings<((), ()), Global>>(
    walk: &mut Entries<((), ()), Global, B>,
    behind: &str,
    found: &mut Vec<Answer>,
) -> Result<(), AllocError>
    requires { B.can_read (B.base (reads_of walk.old)) }
{
    walk.skip_current_dir();
    'answers: for _ in 0..100 {
        let Some(answer) = walk.next() else {
            walk.skip_current_dir();
            return Ok(());
        };
        if is_named(&answer, behind) {
            walk.skip_current_dir();
            walk.skip_current_dir();
        }
        found.push(answer)?;
    }
    Ok(())
}

impl Row {
    /// Returns whether the walk yields these answers.
    fn holds<R: Host>(&self, rt: &R, reader: Reader) -> Result<bool, BuildError> {
        let alloc = rt.alloc();
        let walk = reader
            .walk(
                rt,
                tree(alloc, self.steps)?,
                self.root,
                self.least,
                self.greatest,
            )?
            .follow_links(self.follow_links);
        let mut found = Vec::new(alloc);
        take_all(&mut walk.into_iter(), self.behind, &mut found)?;
        Ok(are_lines(alloc, found.as_slice(), self.answers))
    }
}

#[test]
fn what_comes_where_parts_are_skipped(rt: HostRuntime) {
    for row in ROWS {
        for reader in READERS {
            assert!(rt;
                matches!(row.holds(&rt, *reader), Ok(true)),
                "{reader:?}, behind {}: {}",
                row.behind,
                row.answers
            );
        }
    }
}

/// Returns whether the last of several answers counts, and nothing comes behind it.
fn last_counts<R: Host>(rt: &R, reader: Reader) -> Result<bool, BuildError> {
    let alloc = rt.alloc();
    let walk = reader.walk(rt, tree(alloc, GROUPED)?, "/t", 0, usize::MAX)?;
    let mut walk = walk.into_iter();
    let mut found = Vec::new(alloc);
    walk.fill(3, &mut found)?;
    walk.skip_current_dir();
    walk.fill(3, &mut found)?;
    Ok(are_lines(
        alloc,
        found.as_slice(),
        "0 d /t; 1 f /t/a.txt; 1 f /t/b.txt",
    ))
}

#[test]
fn the_last_of_several_answers_counts(rt: HostRuntime) {
    for reader in READERS {
        assert!(rt; matches!(last_counts(&rt, *reader), Ok(true)), "{reader:?}");
    }
}
