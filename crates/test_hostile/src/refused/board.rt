//! The steps of a board.
use crate::refused::memory::{Memory, Play, Player, all_are_right, is};
use jwalk_board::board::{Board, FinishFault, FinishRefusal, HandOutRefusal, TakeRefusal};
use jwalk_order::index_path::IndexPath;
use jwalk_order::ordered::Ordered;
use std::alloc::Allocator;

type Names<'m> = Board<&'static str, &'static str, Memory<'m>>;

type Item<'m> = Ordered<&'static str, Memory<'m>>;

fn counts<T: Drop, R: Drop, A: Allocator + Copy>(board: &Board<T, R, A>) -> [usize; 4] {
    [
        board.queued(),
        board.in_hand(),
        board.ready(),
        board.pending(),
    ]
}

/// The first attempt has a request refused, and must change nothing then. The second has all granted.
fn take<'m>(player: &Player<'m>, board: &mut Names<'m>) -> Result<Item<'m>, TakeRefusal> {
    let before = counts(board);
    player.refuse();
    let first = board.take();
    player.grant();
    match first {
        Err(TakeRefusal::Memory) if counts(board) == before => board.take(),
        other => other,
    }
}

/// Tries twice, as `take` does.
fn hand_out<'m>(player: &Player<'m>, board: &mut Names<'m>) -> Result<Item<'m>, HandOutRefusal> {
    let before = counts(board);
    player.refuse();
    let first = board.hand_out();
    player.grant();
    match first {
        Err(HandOutRefusal::Memory) if counts(board) == before => board.hand_out(),
        other => other,
    }
}

/// Tries twice, as `take` does. The second attempt has what the first handed back.
fn finish<'m>(
    player: &Player<'m>,
    board: &mut Names<'m>,
    address: IndexPath<Memory<'m>>,
    children: Vec<&'static str, Memory<'m>>,
) -> bool {
    let before = counts(board);
    player.refuse();
    let first = board.finish(address, "read", children);
    player.grant();
    let Err(fault) = first else {
        return true;
    };
    let FinishFault {
        cause,
        address,
        reading,
        children,
    } = fault;
    cause == FinishRefusal::Memory
        && counts(board) == before
        && board.finish(address, reading, children).is_ok()
}

enum Step {
    /// Takes the item at this address, or is refused.
    Takes(Result<&'static [usize], TakeRefusal>),
    /// Finishes the item at this address, with these children.
    Finishes(&'static [usize], &'static [&'static str]),
    /// Hands out the item at this address, or is refused.
    HandsOut(Result<&'static [usize], HandOutRefusal>),
}

fn finishes<'m>(
    player: &Player<'m>,
    board: &mut Names<'m>,
    indices: &[usize],
    children: &[&'static str],
) -> bool {
    match (
        player.address(indices),
        Vec::from_slice(player.memory, children),
    ) {
        (Some(address), Ok(children)) => finish(player, board, address, children),
        _ => false,
    }
}

fn goes<'m>(player: &Player<'m>, board: &mut Names<'m>, step: &Step) -> bool {
    match step {
        Step::Takes(wanted) => match take(player, board) {
            Ok(item) => matches!(wanted, Ok(indices) if is(&item.index_path, *indices)),
            Err(refusal) => wanted.err() == Some(refusal),
        },
        Step::HandsOut(wanted) => match hand_out(player, board) {
            Ok(item) => matches!(wanted, Ok(indices) if is(&item.index_path, *indices)),
            Err(refusal) => wanted.err() == Some(refusal),
        },
        Step::Finishes(indices, children) => finishes(player, board, *indices, *children),
    }
}

/// A root with two leaves, the second of which is finished first.
const STEPS: &[Step] = &[
    Step::Takes(Ok(&[0])),
    Step::Finishes(&[0], &["a", "b"]),
    Step::Takes(Ok(&[0, 0])),
    Step::Takes(Ok(&[0, 1])),
    Step::Finishes(&[0, 1], &[]),
    Step::HandsOut(Ok(&[0])),
    Step::HandsOut(Err(HandOutRefusal::NotReady)),
    Step::Finishes(&[0, 0], &[]),
    Step::HandsOut(Ok(&[0, 0])),
    Step::HandsOut(Ok(&[0, 1])),
    Step::HandsOut(Err(HandOutRefusal::Done)),
    Step::Takes(Err(TakeRefusal::Done)),
];

struct OfBoard;

impl Play for OfBoard {
    fn is_right(&self, player: &Player<'_>) -> bool {
        let Ok(roots) = Vec::from_slice(player.memory, &["r"]) else {
            return false;
        };
        let Ok(mut board) = Board::new(roots) else {
            return false;
        };
        for step in STEPS {
            if !goes(player, &mut board, step) {
                return false;
            }
        }
        true
    }
}

#[test]
fn each_step_of_a_board_is_refused_and_made_again(rt: HostRuntime) {
    assert!(rt; all_are_right(rt.alloc(), &OfBoard));
}
