//! Walks under way, read one after another and by threads.
use crate::rows::begun::{Begun, Coming};
use jwalk::file_system::FileSystem;
use std::alloc::Global;
use std::process::Abort;
use std::thread::Threads;
use test_fixtures::answers::are_lines;
use test_fixtures::resting::CountsLists;
use test_fixtures::trees::{Step, tree};
use test_fixtures::watched::{Failing, Watched};
use test_fixtures::ways::{Asked, Setting};

/// The steps that build the tree of a walk, where the tree fails, and the root.
pub type Start = (&'static [Step], Failing, &'static str);

/// What a test sees of a walk.
pub enum Seen {
    /// After each entry, how many readings are made and not handed on, and how many listings were made. Then the walk
    /// is over.
    Counts(&'static [(usize, usize)]),
    /// The number of entries before memory runs out.
    Refused(usize),
    /// The calls for answers: how many each asks for, how many it appends, and all the answers by then.
    Parts(&'static [(usize, usize, &'static str)]),
}

/// The options of a walk, and its course.
pub struct Course {
    pub settings: &'static [Setting],
    pub seen: Seen,
}

/// Each answer must be an entry. The end must list nothing.
fn goes_on<S: CountsLists + Send + Sync, R: Threads + Sync>(
    walk: &mut Begun<'_, S, R>,
    fs: &S,
    counts: &[(usize, usize)],
) -> bool {
    for count in counts {
        let (coming, ahead) = walk.next();
        if !matches!(coming, Coming::Entry) || (ahead, fs.lists_so_far()) != *count {
            return false;
        }
    }
    walk.is_over() && counts.last().map(|(_, lists)| *lists) == Some(fs.lists_so_far())
}

/// Nothing may be left of the walk after the error.
fn ends_with_memory<S: FileSystem + Send + Sync, R: Threads + Sync>(
    walk: &mut Begun<'_, S, R>,
    before: usize,
) -> bool {
    for _ in 0..before {
        if !matches!(walk.next(), (Coming::Entry, _)) {
            return false;
        }
    }
    matches!(walk.next(), (Coming::Memory, 0)) && walk.is_over()
}

fn comes_in_parts<S: FileSystem + Send + Sync, R: Threads + Sync>(
    alloc: Global,
    walk: &mut Begun<'_, S, R>,
    parts: &[(usize, usize, &str)],
) -> bool {
    let mut found = Vec::new(alloc);
    for (n, count, wanted) in parts {
        let is_filled = walk.fill(*n, &mut found) == Ok(*count);
        if !is_filled || !are_lines(alloc, found.as_slice(), wanted) {
            return false;
        }
    }
    true
}

fn takes_course<S: CountsLists + Send + Sync, R: Threads + Sync>(
    alloc: Global,
    walk: &mut Begun<'_, S, R>,
    fs: &S,
    seen: &Seen,
) -> bool {
    match seen {
        Seen::Counts(counts) => goes_on(walk, fs, counts),
        Seen::Refused(before) => ends_with_memory(walk, *before),
        Seen::Parts(parts) => comes_in_parts(alloc, walk, parts),
    }
}

/// Nothing may be listed before the walk is asked for an answer.
fn takes_over<S: CountsLists + Send + Sync, R: Threads + AllocGlobal + Sync>(
    rt: &R,
    fs: &S,
    root: &str,
    course: &Course,
    on_threads: bool,
) -> bool {
    let asked = Asked {
        fs,
        root,
        settings: course.settings,
    };
    match Begun::new(rt, rt.alloc(), &asked, on_threads) {
        Ok(mut walk) => {
            fs.lists_so_far() == 0 && takes_course(rt.alloc(), &mut walk, fs, &course.seen)
        }
        Err(_) => false,
    }
}

fn takes<R: Threads + AllocGlobal + Sync>(
    rt: &R,
    start: &Start,
    course: &Course,
    on_threads: bool,
) -> bool {
    let (steps, failing, root) = *start;
    match tree(rt.alloc(), steps) {
        Ok(tree) => takes_over(rt, &Watched::new(tree, failing), root, course, on_threads),
        Err(_) => false,
    }
}

/// Asserts that each walk takes its course, on threads or not.
pub fn all_take<R: Abort + Threads + AllocGlobal + Sync>(
    rt: &R,
    start: &Start,
    courses: &[Course],
) {
    for (number, course) in courses.iter().enumerate() {
        assert!(rt; takes(rt, start, course, false), "course {}", number);
        assert!(rt;
            takes(rt, start, course, true),
            "course {} on threads",
            number
        );
    }
}
