//! Walks whose batches threads read, where each request for memory is refused, or all from each on.
use crate::refused::goes::Play;
use crate::refused::rows::{GROUPS, HANDED_ON, MOVED, Row};
use jwalk::ClientState;
use jwalk::file_system::{BuildError, MemoryFs};
use jwalk::read_dir::{NoProcess, ProcessReadDir};
use std::alloc::{Allocator, Global};
use std::thread::Threads;
use test_fixtures::refused::callbacks::Texts;
use test_fixtures::refused::lines::Shown;
use test_fixtures::refused::on_threads::comes;
use test_fixtures::refused::outcome::{Call, Outcome, WAYS};
use test_fixtures::refused::turns::{MOST, Repeated, Run, run_of};
use test_fixtures::refusing_alloc::Refusing;
use test_fixtures::trees::tree;
use test_fixtures::width::Width;

/// Batches that are wide enough for two threads.
const WIDE_WAYS: &[(Width, Call)] = &[
    (Width::Batches(64), Call::TryIntoIter),
    (Width::Batches(64), Call::IntoIter),
    (Width::Batches(64), Call::Fill),
];

/// The number of directories from which threads share a batch.
const SHARED: usize = 32;

fn wide(alloc: Global) -> Result<MemoryFs, BuildError> {
    let mut fs = MemoryFs::new(alloc);
    fs.add_dir("/w")?;
    for number in 10..50usize {
        fs.add_dir(format!(in alloc; "/w/{number}")?.as_str())?;
    }
    Ok(fs)
}

/// Returns how the walk comes out with this memory and this callback.
fn comes_with<
    R: Threads + AllocGlobal + Sync,
    C: ClientState + Send,
    P: ProcessReadDir<C, A> + Send + Sync,
    A: Allocator + Copy + Send + Sync,
>(rt: &R, memory: A, play: Play<'_>, process: P) -> Outcome
where
    C::ReadDirState: Send,
    C::DirEntryState: Shown + Send,
    requires { P.IsLawful process }
{
    match play.builder::<C, P, A>(memory, process) {
        Some(walk) => comes(rt, rt.alloc(), memory, walk, play.call, play.row.lines),
        None => Outcome::Refused(0),
    }
}

/// Returns how the walk comes out with this memory and the row's callback.
fn comes_over<R: Threads + AllocGlobal + Sync, A: Allocator + Copy + Send + Sync>(
    rt: &R,
    memory: A,
    play: Play<'_>,
) -> Outcome {
    match play.row.callback {
        Some(callback) => comes_with::<R, Texts<A>, _, _>(rt, memory, play, callback),
        None => comes_with::<R, ((), ()), _, _>(rt, memory, play, NoProcess),
    }
}

/// Returns the number of the first request from which the walk comes out wrong. It may come whole after a refusal if its
/// answers are all asked for at once, or if threads share its batches. A trait's method can't start threads, so the runs
/// are here.
fn first_wrong<R: Threads + AllocGlobal + Sync>(
    rt: &R,
    play: Play<'_>,
    many: usize,
) -> Option<usize> {
    let memory = Refusing::new(rt.alloc());
    let may_be_whole = play.may_be_whole() || play.row.lines.len() > SHARED;
    for number in 1..MOST {
        memory.refuse(number, many);
        let came = comes_over(rt, &memory, play);
        match run_of(&memory, number, came, may_be_whole) {
            Run::Refused => {}
            Run::Quiet => return None,
            Run::Wrong => return Some(number),
        }
    }
    Some(MOST)
}

/// Reads in these ways, and refuses each request alone, and all from each on.
fn is_right<R: Threads + AllocGlobal + Sync>(
    rt: &R,
    fs: &MemoryFs,
    row: &Row,
    ways: &[(Width, Call)],
) -> bool {
    for (width, call) in ways {
        let play = Play {
            fs,
            row,
            width: *width,
            call: *call,
        };
        for many in [1, usize::MAX] {
            if first_wrong(rt, play, many).is_some() {
                return false;
            }
        }
    }
    true
}

const WIDE_ROW: Row = Row {
    steps: &[],
    root: "/w",
    follow: false,
    callback: None,
    lines: &[
        "0 d /w",
        "1 d /w/10",
        "1 d /w/11",
        "1 d /w/12",
        "1 d /w/13",
        "1 d /w/14",
        "1 d /w/15",
        "1 d /w/16",
        "1 d /w/17",
        "1 d /w/18",
        "1 d /w/19",
        "1 d /w/20",
        "1 d /w/21",
        "1 d /w/22",
        "1 d /w/23",
        "1 d /w/24",
        "1 d /w/25",
        "1 d /w/26",
        "1 d /w/27",
        "1 d /w/28",
        "1 d /w/29",
        "1 d /w/30",
        "1 d /w/31",
        "1 d /w/32",
        "1 d /w/33",
        "1 d /w/34",
        "1 d /w/35",
        "1 d /w/36",
        "1 d /w/37",
        "1 d /w/38",
        "1 d /w/39",
        "1 d /w/40",
        "1 d /w/41",
        "1 d /w/42",
        "1 d /w/43",
        "1 d /w/44",
        "1 d /w/45",
        "1 d /w/46",
        "1 d /w/47",
        "1 d /w/48",
        "1 d /w/49",
    ],
};

#[test]
fn requests_refused_on_threads(rt: HostRuntime) {
    for (number, row) in [GROUPS, MOVED, HANDED_ON].iter().enumerate() {
        let fs = tree(rt.alloc(), row.steps);
        for ways in [WAYS, WIDE_WAYS] {
            assert!(rt;
                matches!(&fs, Ok(fs) if is_right(&rt, fs, row, ways)),
                "row {number}"
            );
        }
    }
}

#[test]
fn requests_refused_on_threads_that_share_a_batch(rt: HostRuntime) {
    let wide = wide(rt.alloc());
    assert!(rt; matches!(&wide, Ok(fs) if is_right(&rt, fs, &WIDE_ROW, WIDE_WAYS)));
}
