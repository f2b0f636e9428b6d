//! Boards: items that are taken, finished and handed out.
use crate::given::{address, counts, is, is_at};
use jwalk_board::board::{Board, FinishFault, FinishRefusal, HandOutRefusal, TakeRefusal};
use std::alloc::Global;

type Names = Board<&'static str, &'static str>;

type Fault = FinishFault<&'static str, &'static str>;

// A step on a board, with its outcome.
enum Step {
    // Takes the item at this address, or is refused.
    Takes(Result<&'static [usize], TakeRefusal>),
    // Finishes the item at this address, with a reading and children.
    Finishes(&'static [usize], &'static str, &'static [&'static str]),
    // Finishes the root, with a number of children.
    FinishesRoot(usize),
    // Finishes nothing, as no item at this address is in hand. All must be given back.
    FinishesNone(&'static [usize]),
    // Hands out the item at this address, with a number of children, or is refused.
    HandsOut(Result<(&'static [usize], usize), HandOutRefusal>),
    // Hands out the next reading, which is ready: at this address, with a number of children.
    HandsOutNext(&'static [usize], usize),
    // Passes the next address without its reading.
    SkipsNext,
    // Takes, finishes and hands out only children of only children, on 299 levels.
    GoesDown,
    // Counts the queued, in hand, ready and pending.
    Counts([usize; 4]),
    Stops,
}

// The steps. None of them promises anything: a test that calls the board itself carries each call's contract to its
// end.

fn takes(board: &mut Names, wanted: Result<&[usize], TakeRefusal>) -> bool {
    match board.take() {
        Ok(item) => matches!(wanted, Ok(indices) if is_at(&item, indices, 0)),
        Err(refusal) => wanted.err() == Some(refusal),
    }
}

fn finish(
    board: &mut Names,
    alloc: Global,
    indices: &[usize],
    reading: &'static str,
    children: &[&'static str],
) -> Option<Result<(), Fault>> {
    let address = address(alloc, indices)?;
    let children = Vec::from_slice(alloc, children).ok()?;
    Some(board.finish(address, reading, children))
}

fn finishes_root(board: &mut Names, alloc: Global, child_count: usize) -> Option<bool> {
    let children = vec![in alloc; "n"; child_count].ok()?;
    let finished = finish(board, alloc, &[0], "r", children.as_slice())?;
    Some(finished.is_ok())
}

fn finishes_none(board: &mut Names, alloc: Global, indices: &[usize]) -> bool {
    match &finish(board, alloc, indices, "x", &["y"]) {
        Some(Err(fault)) => {
            fault.cause == FinishRefusal::NotInHand
                && is(&fault.address, indices)
                && fault.reading == "x"
                && fault.children.as_slice() == ["y"].as_slice()
        }
        _ => false,
    }
}

fn hands_out(board: &mut Names, wanted: Result<(&[usize], usize), HandOutRefusal>) -> bool {
    match board.hand_out() {
        Ok(item) => matches!(wanted, Ok((indices, children)) if is_at(&item, indices, children)),
        Err(refusal) => wanted.err() == Some(refusal),
    }
}

fn hands_out_next(board: &mut Names, indices: &[usize], child_count: usize) -> bool {
    if board.is_stopped() || !board.is_next_ready() {
        return false;
    }
    match board.hand_out_next() {
        Ok(item) => is_at(&item, indices, child_count),
        Err(_) => false,
    }
}

// Each item down to the address gets one child.
fn goes_down(board: &mut Names, alloc: Global, indices: &[usize]) -> bool {
    for length in 1..indices.len() {
        let above = &indices[..length];
        if !takes(board, Ok(above))
            || !matches!(finish(board, alloc, above, "d", &["d"]), Some(Ok(())))
            || !hands_out(board, Ok((above, 1)))
        {
            return false;
        }
    }
    true
}

fn goes(board: &mut Names, alloc: Global, step: &Step) -> bool {
    match step {
        Step::Takes(wanted) => takes(board, *wanted),
        Step::Finishes(indices, reading, children) => {
            matches!(
                finish(board, alloc, indices, reading, children),
                Some(Ok(()))
            )
        }
        Step::FinishesRoot(child_count) => finishes_root(board, alloc, *child_count) == Some(true),
        Step::FinishesNone(indices) => finishes_none(board, alloc, indices),
        Step::HandsOut(wanted) => hands_out(board, *wanted),
        Step::HandsOutNext(indices, child_count) => hands_out_next(board, indices, *child_count),
        Step::SkipsNext => {
            board.skip_next();
            true
        }
        Step::GoesDown => goes_down(board, alloc, [0; 300].as_slice()),
        Step::Counts(wanted) => counts(board) == *wanted,
        Step::Stops => {
            board.stop();
            board.is_stopped()
        }
    }
}

// Returns the number of the first step that is wrong, on a board with this number of roots.
fn first_wrong(alloc: Global, root_count: usize, steps: &[Step]) -> Option<usize> {
    let Ok(roots) = vec![in alloc; "r"; root_count] else {
        return Some(0);
    };
    let Ok(mut board) = Board::new(roots) else {
        return Some(0);
    };
    for (number, step) in steps.iter().enumerate() {
        if !goes(&mut board, alloc, step) {
            return Some(number);
        }
    }
    None
}

// What a row shows, the number of roots, and the steps.
const ROWS: &[(&str, usize, &[Step])] = &[
    (
        "a root with two leaves is handed out in order",
        1,
        &[
            Step::Takes(Ok(&[0])),
            Step::Finishes(&[0], "r", &["a", "b"]),
            Step::Takes(Ok(&[0, 0])),
            Step::Takes(Ok(&[0, 1])),
            Step::Takes(Err(TakeRefusal::Empty)),
            Step::Finishes(&[0, 1], "b", &[]),
            Step::HandsOut(Ok((&[0], 2))),
            Step::HandsOut(Err(HandOutRefusal::NotReady)),
            Step::Counts([0, 1, 1, 1]),
            Step::Finishes(&[0, 0], "a", &[]),
            Step::HandsOut(Ok((&[0, 0], 0))),
            Step::HandsOut(Ok((&[0, 1], 0))),
            Step::HandsOut(Err(HandOutRefusal::Done)),
            Step::Takes(Err(TakeRefusal::Done)),
            Step::Stops,
            Step::Takes(Err(TakeRefusal::Stopped)),
        ],
    ),
    (
        "the next reading is handed out once it is ready",
        2,
        &[
            Step::Takes(Ok(&[0])),
            Step::Takes(Ok(&[1])),
            Step::Finishes(&[1], "b", &[]),
            Step::HandsOut(Err(HandOutRefusal::NotReady)),
            Step::Finishes(&[0], "a", &["c"]),
            Step::HandsOutNext(&[0], 1),
            Step::Takes(Ok(&[0, 0])),
            Step::Finishes(&[0, 0], "c", &[]),
            Step::HandsOutNext(&[0, 0], 0),
            Step::HandsOutNext(&[1], 0),
            Step::Counts([0, 0, 0, 0]),
        ],
    ),
    (
        "only what is in hand is finished",
        1,
        &[
            Step::Takes(Ok(&[0])),
            Step::Finishes(&[0], "r", &["a", "b"]),
            Step::FinishesNone(&[0, 5]),
            Step::Counts([2, 0, 1, 2]),
            Step::FinishesNone(&[0]),
            Step::Counts([2, 0, 1, 2]),
        ],
    ),
    (
        "what is skipped leaves the board with all below it",
        2,
        &[
            Step::Takes(Ok(&[0])),
            Step::Finishes(&[0], "r", &["a", "b"]),
            Step::Takes(Ok(&[0, 0])),
            Step::Finishes(&[0, 0], "a", &["c", "d"]),
            Step::Takes(Ok(&[0, 0, 0])),
            Step::HandsOut(Ok((&[0], 2))),
            Step::Counts([3, 1, 1, 4]),
            Step::SkipsNext,
            Step::Counts([2, 0, 0, 2]),
            Step::FinishesNone(&[0, 0, 0]),
            Step::Takes(Ok(&[0, 1])),
            Step::SkipsNext,
            Step::Counts([1, 0, 0, 1]),
            Step::SkipsNext,
            Step::SkipsNext,
            Step::Counts([0, 0, 0, 0]),
            Step::HandsOut(Err(HandOutRefusal::Done)),
        ],
    ),
    (
        "a long chain is finished and handed out",
        1,
        &[Step::GoesDown, Step::Counts([1, 0, 0, 1])],
    ),
    (
        "many roots have many children",
        3000,
        &[
            Step::Takes(Ok(&[0])),
            Step::FinishesRoot(3000),
            Step::Counts([5999, 0, 1, 5999]),
            Step::HandsOut(Ok((&[0], 3000))),
            Step::Takes(Ok(&[0, 0])),
        ],
    ),
];

#[test]
fn boards_go_step_by_step(rt: HostRuntime) {
    for (shown, root_count, steps) in ROWS {
        assert_eq!(rt;
            first_wrong(rt.alloc(), *root_count, steps),
            None,
            "{shown}"
        );
    }
}
