//! Rehearsals of a small family.
use crate::given::{counts, is, is_at, played};
use crate::levels::Levels;
use jwalk_board::board::{Move, Plan};
use jwalk_order::index_path::IndexPath;
use jwalk_order::ordered::Ordered;
use std::alloc::Global;
use std::cell::Cell;
use test_fixtures::family::{Family, MOVES};

struct Outcome {
    taken: &'static [&'static [usize]],
    // The address, the value and the number of children of each.
    handed_out: &'static [(&'static [usize], u8, usize)],
    // The numbers of those queued, in hand, ready and pending.
    left: [usize; 4],
}

// None of these promises anything: the tests compare outcomes, and no test carries the contract of a rehearsal to its
// end.

fn are_taken(taken: &[IndexPath], wanted: &[&[usize]]) -> bool {
    for (path, indices) in taken.iter().zip(wanted) {
        if !is(path, indices) {
            return false;
        }
    }
    taken.len() == wanted.len()
}

fn are_handed_out(items: &[Ordered<u8>], wanted: &[(&[usize], u8, usize)]) -> bool {
    for (item, (indices, value, child_count)) in items.iter().zip(wanted) {
        if item.value != *value || !is_at(item, indices, *child_count) {
            return false;
        }
    }
    items.len() == wanted.len()
}

fn comes_to<P: Plan<Global, Spec = u8, Reading = u8>>(
    alloc: Global,
    plan: &P,
    roots: &[u8],
    workers: usize,
    moves: &[Move],
    wanted: &Outcome,
) -> bool
    requires { P.IsLawful plan.now }
{
    match &played(alloc, plan, roots, workers, moves) {
        Ok(made) => {
            are_taken(made.taken.as_slice(), wanted.taken)
                && are_handed_out(made.handed_out.as_slice(), wanted.handed_out)
                && counts(&made.board) == wanted.left
        }
        Err(_) => false,
    }
}

// Worker 1 takes and finishes the second child, while worker 0 holds the first.
const TURNED: &[Move] = &[
    Move::Take(0),
    Move::Finish(0),
    Move::Take(0),
    Move::Take(1),
    Move::Finish(1),
    Move::HandOut,
    Move::HandOut,
];

// One child is in hand, and the other one, which is ready, waits for it.
static PART: Outcome = Outcome {
    taken: &[&[0], &[0, 0], &[0, 1]],
    handed_out: &[(&[0], 0, 2)],
    left: [0, 1, 1, 1],
};

// What a row shows, the roots, the number of workers, the moves, and what they come to.
type Row = (&'static str, &'static [u8], usize, &'static [Move], Outcome);

const ROWS: &[Row] = &[
    (
        "every move is played",
        &[0],
        2,
        MOVES,
        Outcome {
            taken: &[&[0], &[0, 0], &[0, 1], &[0, 0, 0]],
            handed_out: &[
                (&[0], 0, 2),
                (&[0, 0], 1, 1),
                (&[0, 0, 0], 3, 0),
                (&[0, 1], 2, 0),
            ],
            left: [0, 0, 0, 0],
        },
    ),
    (
        "without workers nothing moves",
        &[0],
        0,
        &[Move::Take(0), Move::HandOut],
        Outcome {
            taken: &[],
            handed_out: &[],
            left: [1, 0, 0, 1],
        },
    ),
    (
        "without roots nothing moves",
        &[],
        2,
        &[Move::Take(0), Move::HandOut],
        Outcome {
            taken: &[],
            handed_out: &[],
            left: [0, 0, 0, 0],
        },
    ),
];

#[test]
fn a_rehearsal_of_a_family_plays_every_move(rt: HostRuntime) {
    for (shown, roots, workers, moves, wanted) in ROWS {
        let is_so = comes_to(rt.alloc(), &Family, roots, *workers, moves, wanted);
        assert!(rt; is_so, "{shown}");
    }
}

// A worker may finish out of turn, in a family and if there are only two leaves.
#[test]
fn a_rehearsal_leaves_the_board_as_the_moves_did(rt: HostRuntime) {
    let leaves = Levels {
        last: 1,
        width: 2,
        reads: Cell::new(0),
    };
    assert!(rt; comes_to(rt.alloc(), &Family, &[0], 2, &MOVES[..9], &PART));
    assert!(rt; comes_to(rt.alloc(), &Family, &[0], 2, TURNED, &PART));
    assert!(rt; comes_to(rt.alloc(), &leaves, &[0], 2, TURNED, &PART));
}
