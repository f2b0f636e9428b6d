//! Rehearsals of many moves.
use crate::given::played;
use crate::levels::Levels;
use jwalk_board::board::Move;
use std::alloc::Global;
use std::cell::Cell;

// 1 + 3 + 9 + 27 + 81 + 243 + 729, down to level 6 with three children each.
const ALL: usize = 1093;

// Plays as many rounds as there are specifications. Returns how many were read, taken and handed out, and how many are
// left.
fn totals(alloc: Global, workers: usize, round: &[Move]) -> Option<[usize; 4]> {
    let mut moves = Vec::new(alloc);
    for _round in 0..ALL {
        moves.extend_from_slice(round).ok()?;
    }
    let plan = Levels {
        last: 6,
        width: 3,
        reads: Cell::new(0),
    };
    let made = played(alloc, &plan, &[0], workers, moves.as_slice()).ok()?;
    let left = made.board.pending();
    Some([
        plan.reads.get(),
        made.taken.len(),
        made.handed_out.len(),
        left,
    ])
}

#[test]
fn a_long_rehearsal_reads_takes_and_hands_out_each_once(rt: HostRuntime) {
    const ALONE: &[Move] = &[Move::Take(0), Move::Finish(0), Move::HandOut];
    const IN_PAIRS: &[Move] = &[
        Move::Take(0),
        Move::Take(1),
        Move::Finish(1),
        Move::Finish(0),
        Move::HandOut,
        Move::HandOut,
    ];
    for (workers, round) in [(1, ALONE), (2, IN_PAIRS)] {
        let found = totals(rt.alloc(), workers, round);
        assert_eq!(rt; found, Some([ALL, ALL, ALL, 0]), "{workers} workers");
    }
}
