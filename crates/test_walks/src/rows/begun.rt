//! Walks under way, whose directories are read one after another or by threads, reduced to the kinds of their answers.
use jwalk::DirEntryIter;
use jwalk::file_system::FileSystem;
use jwalk::read_dir::NoProcess;
use std::alloc::{AllocError, Global};
use std::thread::Threads;
use test_fixtures::answers::Answer;
use test_fixtures::ways::Asked;

/// A walk under way, whose directories are read one after another or by threads.
#[derive(Drop)]
pub struct Begun<'a, S: FileSystem, R> {
    rt: &'a R,
    walk: DirEntryIter<((), ()), &'a S, NoProcess>,
    on_threads: bool,
}

/// The next answer of a walk.
#[derive(Clone, Copy)]
pub enum Coming {
    /// An entry.
    Entry,
    /// Memory ran out.
    Memory,
    /// An error other than memory that ran out.
    OtherError,
    /// No answer, as the walk is over.
    Nothing,
}

fn sort(answer: &Option<Answer>) -> Coming {
    match answer {
        Some(Ok(_)) => Coming::Entry,
        Some(Err(error)) if error.is_memory() => Coming::Memory,
        Some(Err(_)) => Coming::OtherError,
        None => Coming::Nothing,
    }
}

impl<'a, S: FileSystem + Send + Sync, R: Threads + Sync> Begun<'a, S, R> {
    /// Begins a walk.
    pub fn new(
        rt: &'a R,
        alloc: Global,
        asked: &Asked<'a, S>,
        on_threads: bool,
    ) -> Result<Self, AllocError> {
        match asked.builder(alloc)?.try_into_iter() {
            Ok(walk) => Ok(Begun {
                rt,
                walk,
                on_threads,
            }),
            Err(_) => Err(AllocError),
        }
    }

    /// Returns the next answer, and how many readings are made by then and not handed on.
    pub fn next(&mut self) -> (Coming, usize) {
        let answer = if self.on_threads {
            self.walk.next_on(self.rt)
        } else {
            self.walk.next()
        };
        (sort(&answer), self.walk.ahead())
    }

    /// Appends up to `n` answers.
    pub fn fill(&mut self, n: usize, found: &mut Vec<Answer>) -> Result<usize, AllocError> {
        if self.on_threads {
            self.walk.fill_on(self.rt, n, found)
        } else {
            self.walk.fill(n, found)
        }
    }

    /// Returns whether there is no further answer, and nothing is left of the walk.
    pub fn is_over(&mut self) -> bool {
        matches!(self.next(), (Coming::Nothing, _)) && matches!(self.next(), (Coming::Nothing, 0))
    }
}
