//! Walks that are read by a crew of their own.
ghost use Rattle.jwalk.specs.WalkDir.{callback_of};

use crate::crewed::all_by_own;
use jwalk::file_system::{BuildError, FileSystem};
use jwalk::read_dir::ProcessReadDir;
use jwalk::{Crew, WalkDirGeneric};
use std::alloc::{AllocError, Global};
use test_fixtures::answers::{Answer, are_lines};
use test_fixtures::builders::over_tree;
use test_fixtures::host::Host;
use test_fixtures::trees::{DENIED, FORKED, GROUPED, LOOPED, Step, tree};
use test_fixtures::watched::{Failing, Watched};
use test_fixtures::ways::Setting;

/// A tree, the root and the options of a walk over it, and its answers.
struct Row {
    steps: &'static [Step],
    root: &'static str,
    settings: &'static [Setting],
    answers: &'static str,
}

impl Row {
    fn holds<R: Host>(&self, rt: &R, workers: usize) -> Result<bool, BuildError> {
        let alloc = rt.alloc();
        let watched = Watched::new(tree(alloc, self.steps)?, Failing::Never);
        let found = all_by_own(rt, watched, self.root, self.settings, workers)?;
        Ok(are_lines(alloc, found.as_slice(), self.answers))
    }
}

/// A tree by name, in the order of the file system, with hidden names, below a depth and down to one; a file, and
/// nothing; a directory that can't be read, directories beside one another, and a loop.
const ROWS: &[Row] = &[
    Row {
        steps: GROUPED,
        root: "/t",
        settings: &[Setting::Sort],
        answers: "0 d /t; 1 f /t/a.txt; 1 f /t/b.txt; 1 f /t/c.txt; 1 d /t/group 1; \
            2 f /t/group 1/d.txt; 1 d /t/group 2; 2 f /t/group 2/e.txt",
    },
    Row {
        steps: GROUPED,
        root: "/t",
        settings: &[],
        answers: "0 d /t; 1 f /t/c.txt; 1 f /t/a.txt; 1 d /t/group 2; 2 f /t/group 2/e.txt; \
            1 d /t/group 1; 2 f /t/group 1/d.txt; 1 f /t/b.txt",
    },
    Row {
        steps: GROUPED,
        root: "/t",
        settings: &[Setting::Sort, Setting::Hidden],
        answers: "0 d /t; 1 f /t/a.txt; 1 f /t/b.txt; 1 f /t/c.txt; 1 d /t/group 1; \
            2 f /t/group 1/d.txt; 1 d /t/group 2; 2 f /t/group 2/.hidden_file.txt; \
            2 f /t/group 2/e.txt",
    },
    Row {
        steps: GROUPED,
        root: "/t",
        settings: &[Setting::Sort, Setting::Max(2), Setting::Min(5)],
        answers: "2 f /t/group 1/d.txt; 2 f /t/group 2/e.txt",
    },
    Row {
        steps: GROUPED,
        root: "/t/a.txt",
        settings: &[],
        answers: "0 f /t/a.txt",
    },
    Row {
        steps: GROUPED,
        root: "/none",
        settings: &[],
        answers: "! 0 /none NotFound",
    },
    Row {
        steps: DENIED,
        root: "/t",
        settings: &[Setting::Sort],
        answers: "0 d /t; 1 f /t/a.txt; 1 f /t/b.txt; 1 f /t/c.txt; 1 d /t/group 1; \
            2 f /t/group 1/d.txt; 1 d /t/group 2 ! 1 /t/group 2 PermissionDenied",
    },
    Row {
        steps: FORKED,
        root: "/r",
        settings: &[],
        answers: "0 d /r; 1 d /r/a; 2 d /r/a/x; 1 d /r/b; 2 d /r/b/x; 1 d /r/c; 2 d /r/c/x",
    },
    Row {
        steps: LOOPED,
        root: "/r",
        settings: &[Setting::Follow],
        answers: "0 d /r; 1 d /r/a; 2 d /r/a/b; 3 d /r/a/b/c; ! 4 /r/a/b/c/a-link loop /r/a",
    },
];

// The workers are as many as there are cores, one, three, and 300, which count as 256.
#[test]
fn the_answers_of_serial_walks_by_workers_of_their_own(rt: HostRuntime) -> Result<(), BuildError> {
    for row in ROWS {
        for workers in [0, 1, 3] {
            assert!(rt; row.holds(&rt, workers)?, "{workers}: {}", row.answers);
        }
    }
    assert!(rt; ROWS[0].holds(&rt, 300)?);
    Ok(())
}

// begin over-any-callback
/// Appends the first answers of a walk that workers read, with any callback.
fn first_answers<
    R: jwalk::Host,
    S: FileSystem + Send + Sync + 'static,
    P: ProcessReadDir<((), ()), Global> + Send + Sync + 'static,
>(
    walk: WalkDirGeneric<((), ()), S, P, Global, Crew<R>>,
    count: usize,
    found: &mut Vec<Answer>,
) -> Result<usize, AllocError>
    requires { P.IsLawful (callback_of walk) }
{
    let mut walk = walk.into_iter();
    walk.fill(count, found)
}
// end over-any-callback

#[test]
fn a_function_over_any_callback_has_the_iterator(rt: HostRuntime) -> Result<(), BuildError> {
    let alloc = rt.alloc();
    let mut found = Vec::new(alloc);
    let walk = over_tree(alloc, GROUPED, "/t")?.sort(true).workers(&rt, 2)?;
    let walk = walk.process_read_dir_by(|_, _, _, list| {
        list.reverse();
        Ok(())
    });
    first_answers(walk, 2, &mut found)?;
    assert!(rt; are_lines(alloc, found.as_slice(), "0 d /t; 1 d /t/group 2"));
    Ok(())
}
