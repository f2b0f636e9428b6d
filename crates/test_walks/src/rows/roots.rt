//! Readings of directories and of everything below them, without a walk's answers.
use jwalk::file_system::FileSystem;
use jwalk::read_dir::{Job, NoProcess, Options, ReadDir};
use jwalk::read_dir_iter::ReadDirIter;
use jwalk::{DirEntry, Error};
use std::alloc::Global;
use std::thread::Threads;
use test_fixtures::trees::{FORKED, tree};
use test_fixtures::width::Width;

#[derive(Drop)]
struct Reads<'a, S: FileSystem, R> {
    rt: &'a R,
    reads: ReadDirIter<((), ()), &'a S, NoProcess>,
    on_threads: bool,
}

const WIDTHS: &[Width] = &[
    Width::Serial,
    Width::Batches(1),
    Width::Batches(2),
    Width::Batches(8),
];

fn job<S: FileSystem>(alloc: Global, fs: &S) -> Job<((), ()), &S, NoProcess> {
    Job::new(alloc, fs, NoProcess, Options::new())
}

/// Returns `Some(true)` for a reading and `Some(false)` for an error.
fn is_read(read: &Option<Result<ReadDir<((), ())>, Error>>) -> Option<bool> {
    match read {
        Some(read) => Some(read.is_ok()),
        None => None,
    }
}

fn is_three(read: &Option<Result<ReadDir<((), ())>, Error>>) -> bool {
    match read {
        Some(Ok(read)) => read.results_list().len() == 3,
        _ => false,
    }
}

impl<'a, S: FileSystem + Send + Sync, R: Threads + Sync> Reads<'a, S, R> {
    /// Reads the root and everything below it.
    fn new(rt: &'a R, alloc: Global, fs: &'a S, width: Width, on_threads: bool) -> Option<Self> {
        let job = job(alloc, fs);
        let roots = job.root_list("/r", ()).ok()?.read_children_specs().ok()?;
        let reads = ReadDirIter::try_new(job, roots, width.parallelism()).ok()?;
        Some(Reads {
            rt,
            reads,
            on_threads,
        })
    }

    /// Returns `Some(true)` for a reading and `Some(false)` for an error.
    fn next(&mut self) -> Option<bool> {
        is_read(&if self.on_threads {
            self.reads.next_on(self.rt)
        } else {
            self.reads.next()
        })
    }

    /// Asks for the reading of the entry's directory.
    fn has_three_in(&mut self, entry: &DirEntry<((), ())>) -> bool {
        entry.read_children.is_some()
            && is_three(&if self.on_threads {
                self.reads.next_of_on(self.rt, entry)
            } else {
                self.reads.next_of(entry)
            })
    }
}

const SEVEN: &[Option<bool>] = &[
    Some(true),
    Some(true),
    Some(true),
    Some(true),
    Some(true),
    Some(true),
    Some(true),
    None,
    None,
];

/// No reading may follow them.
fn are_seven<R: Threads + Sync, S: FileSystem + Send + Sync>(reads: &mut Reads<'_, S, R>) -> bool {
    for wanted in SEVEN {
        if reads.next() != *wanted {
            return false;
        }
    }
    true
}

fn gives_seven<R: Threads + AllocGlobal + Sync, S: FileSystem + Send + Sync>(
    rt: &R,
    fs: &S,
    width: Width,
    on_threads: bool,
) -> bool {
    match Reads::new(rt, rt.alloc(), fs, width, on_threads) {
        Some(mut reads) => are_seven(&mut reads),
        None => false,
    }
}

fn root<S: FileSystem>(alloc: Global, fs: &S) -> Option<DirEntry<((), ())>> {
    let list = job(alloc, fs).root_list("/r", ()).ok()?;
    list.into_results_list().pop()?.ok()
}

/// The reading that the entry asks for must be the root's.
fn asks_for_its_own<R: Threads + AllocGlobal + Sync, S: FileSystem + Send + Sync>(
    rt: &R,
    fs: &S,
    width: Width,
    on_threads: bool,
) -> bool {
    match (
        root(rt.alloc(), fs),
        Reads::new(rt, rt.alloc(), fs, width, on_threads),
    ) {
        (Some(entry), Some(mut reads)) => reads.has_three_in(&entry),
        _ => false,
    }
}

#[test]
fn readings_from_the_directories_of_a_list(rt: HostRuntime) {
    let fs = tree(rt.alloc(), FORKED);
    for width in WIDTHS {
        for on_threads in [false, true] {
            assert!(rt; matches!(&fs, Ok(fs) if gives_seven(&rt, fs, *width, on_threads)));
        }
    }
}

#[test]
fn the_reading_of_an_entrys_directory(rt: HostRuntime) {
    let fs = tree(rt.alloc(), FORKED);
    for width in WIDTHS {
        for on_threads in [false, true] {
            assert!(rt; matches!(&fs, Ok(fs) if asks_for_its_own(&rt, fs, *width, on_threads)));
        }
    }
}
