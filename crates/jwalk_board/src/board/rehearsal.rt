//! Moves played on a board.
ghost use Rattle.std.specs.Prelude.{◌≡◌, false, IfOk, replicate};
ghost use Rattle.jwalk_board.specs.Stage.{MatchesMoves, HandsOutInOrder};

use super::Board;
use super::moves::Move;
use super::plan::{Plan, Refused};
use super::stage::{Stage, play};
use jwalk_order::index_path::IndexPath;
use jwalk_order::ordered::Ordered;
use std::alloc::{AllocError, Allocator, Global};

/// What a list of moves did.
#[derive(Drop)]
pub struct Rehearsal<T, R, A: Allocator + Copy = Global> {
    /// The readings that were handed out, in order.
    pub handed_out: Vec<Ordered<R, A>, A>,
    /// The addresses that were taken, in order.
    pub taken: Vec<IndexPath<A>, A>,
    /// The board as the moves left it.
    pub board: Board<T, R, A>,
}

/// Plays the moves of that many workers, one after another, on a new board with these roots. The plan reads what is
/// taken.
///
/// Workers are counted from 0. A move is skipped if its worker doesn't exist, would take with full hands, or would
/// finish with empty ones. A step that fails on the board for another cause than memory changes nothing.
///
/// # Errors
///
/// If memory runs out, and for nothing else, whatever the plan returns: what a worker holds is in hand, and nothing
/// stops the board.
pub fn rehearse<P: Plan<A>, A: Allocator + Copy>(
    alloc: A,
    plan: &P,
    roots: Vec<P::Spec, A>,
    workers: usize,
    moves: &[Move],
) -> Result<Rehearsal<P::Spec, P::Reading, A>, Refused>
    requires { P.IsLawful plan.now }
    ensures matches_run { MatchesMoves P.Plan plan.now roots.items result workers moves.now }
    ensures in_order { HandsOutInOrder P.Plan plan.now roots.items result }
    ensures running { IfOk result (λ made. made.board.stopped ≡ false) }
{
    let hands = empty_hands(alloc, workers)?;
    let Ok(board) = Board::new(roots) else {
        return Err(AllocError);
    };
    let done = Rehearsal {
        handed_out: Vec::new(alloc),
        taken: Vec::new(alloc),
        board,
    };
    let mut stage = Stage { hands, done };
    for next in moves {
        play(&mut stage, alloc, plan, *next)?;
    }
    let Stage { hands: _, done } = stage;
    Ok(done)
}

fn empty_hands<T, A: Allocator + Copy>(
    alloc: A,
    workers: usize,
) -> Result<Vec<Option<Ordered<T, A>>, A>, Refused>
    ensures { IfOk result (λ hands. hands.items ≡ replicate workers None) }
{
    let mut hands = Vec::with_capacity(alloc, workers)?;
    for _worker in 0..workers {
        hands.push_reserved(None);
    }
    Ok(hands)
}
