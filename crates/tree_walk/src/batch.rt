//! Specifications that are taken, read and finished, one or several together.
ghost use Rattle.std.specs.Prelude.{◌≡◌, [], false, length, min, map, IfOk, OnOk, All};
ghost use Rattle.std.specs.List.{AllZip};
ghost use Rattle.jwalk_order.specs.Addressed.{addressed};
ghost use Rattle.jwalk_order.specs.Ordered.{child_count_of};
ghost use Rattle.tree_walk.specs.ToGive.{IsHeld, MakesAll};
ghost use Rattle.tree_walk.specs.Reads.{to_give};
ghost use Rattle.tree_walk.specs.ReadAhead.{ahead_on, LeastLeave, Joins};
ghost use Rattle.tree_walk.specs.Batch.{hand_of, held_by, with_children, made_at, IsMadeOf, MakesOf};
ghost use Rattle.tree_walk.specs.BoardWalk.{ReadsBatch};

use crate::pieces::{LEAST_PIECE, try_map_on};
use crate::read::{Read, finish};
use jwalk_board::board::{Board, Plan, TakeRefusal};
use jwalk_order::index_path::IndexPath;
use jwalk_order::ordered::Ordered;
use std::alloc::{AllocError, Allocator};
use std::thread::Threads;

/// A specification that was taken and read, and isn't finished yet: its address, its reading, and its children.
#[derive(Drop)]
pub(crate) struct Made<T, R, A: Allocator + Copy> {
    pub(crate) address: IndexPath<A>,
    pub(crate) read: Read<T, R>,
    pub(crate) children: Vec<T, A>,
}

fn take_batch<T: Drop, R: Drop, A: Allocator + Copy>(
    alloc: A,
    board: &mut Board<T, Read<T, R>, A>,
    width: usize,
) -> Result<Vec<Ordered<T, A>, A>, AllocError>
    requires none_in_hand { board.old.in_hand ≡ [] }
    requires running { board.old.stopped ≡ false }
    ensures number { IfOk result (λ v. length v.items ≡ min width (length board.old.queued)) }
    ensures held { IfOk result (λ v. IsHeld board.new (hand_of v.items)) }
    ensures unread { IfOk result (λ v. All (λ item. child_count_of item ≡ 0) v.items) }
    ensures same { IfOk result (λ v. to_give board.new (hand_of v.items) ≡ to_give board.old []) }
    ensures least { IfOk result (λ v. LeastLeave (map addressed v.items) (ahead_on board.old) (ahead_on board.new)) }
    ensures frontier { OnOk result (board.new.frontier ≡ board.old.frontier) }
    ensures running { OnOk result (board.new.stopped ≡ false) }
{
    let count = width.min(board.queued());
    let mut taken = Vec::with_capacity(alloc, count)?;
    for _ in 0..count {
        // What holds of every board.
        let _pending = board.pending();
        match board.take() {
            Ok(item) => taken.push_reserved(item),
            Err(TakeRefusal::Memory) => return Err(AllocError),
            // That many are queued, and nothing stops the board.
            Err(TakeRefusal::Empty) => unreachable!(),
            Err(TakeRefusal::Done) => unreachable!(),
            Err(TakeRefusal::Stopped) => unreachable!(),
        }
    }
    Ok(taken)
}

/// Reads a specification that was taken.
fn make<T: Drop, R: Drop, J: Plan<A, Spec = T, Reading = R>, A: Allocator + Copy>(
    alloc: A,
    plan: &J,
    taken: Ordered<T, A>,
) -> Result<Made<T, R, A>, AllocError>
    requires { J.IsLawful plan.now }
    ensures { IfOk result (IsMadeOf (J.IsReading plan.now) taken) }
{
    let Ordered {
        value: of,
        index_path: address,
        ..
    } = taken;
    let (reading, children) = plan.read(alloc, &of)?;
    Ok(Made {
        address,
        read: Read { of, reading },
        children,
    })
}

fn read_in_turn<T: Drop, R: Drop, J: Plan<A, Spec = T, Reading = R>, A: Allocator + Copy>(
    alloc: A,
    plan: &J,
    taken: Vec<Ordered<T, A>, A>,
) -> Result<Vec<Made<T, R, A>, A>, AllocError>
    requires { J.IsLawful plan.now }
    ensures { IfOk result (λ v. AllZip (IsMadeOf (J.IsReading plan.now)) taken.items v.items) }
{
    let mut made = Vec::with_capacity(alloc, taken.len())?;
    for item in taken {
        made.push_reserved(make(alloc, plan, item)?);
    }
    Ok(made)
}

/// Reads what was taken, on several threads if there is enough of it.
fn read_on_threads<
    W: Threads + Sync,
    T: Drop + Send,
    R: Drop + Send,
    J: Plan<A, Spec = T, Reading = R> + Sync,
    A: Allocator + Copy + Send + Sync,
>(
    rt: &W,
    alloc: A,
    plan: &J,
    taken: Vec<Ordered<T, A>, A>,
) -> Result<Vec<Made<T, R, A>, A>, AllocError>
    requires { J.IsLawful plan.now }
    ensures { IfOk result (λ v. AllZip (IsMadeOf (J.IsReading plan.now)) taken.items v.items) }
{
    if taken.len() < 2 * LEAST_PIECE {
        return read_in_turn(alloc, plan, taken);
    }
    try_map_on(
        rt,
        alloc,
        taken,
        &|item: Ordered<T, A>| -> Result<Made<T, R, A>, AllocError>
            requires { J.IsLawful plan.now }
            ensures { MakesOf (J.IsReading plan.entry.now) item result }
        { make(alloc, plan, item) },
    )
}

/// Finishes what was made, the last first, so that the children come in order of their addresses.
fn finish_batch<T: Drop, R: Drop, A: Allocator + Copy>(
    board: &mut Board<T, Read<T, R>, A>,
    mut made: Vec<Made<T, R, A>, A>,
) -> Result<(), AllocError>
    requires held { IsHeld board.old (held_by made.items) }
    requires running { board.old.stopped ≡ false }
    ensures made { OnOk result (MakesAll (map with_children made.items)
        (to_give board.old (held_by made.items)) (to_give board.new [])) }
    ensures join { OnOk result (Joins (map made_at made.items) (ahead_on board.old) (ahead_on board.new)) }
    ensures frontier { OnOk result (board.new.frontier ≡ board.old.frontier) }
    ensures held { OnOk result (IsHeld board.new []) }
    ensures running { OnOk result (board.new.stopped ≡ false) }
{
    while let Some(one) = made.pop() {
        // What holds of every board.
        let _pending = board.pending();
        finish(board, one.address, one.read, one.children)?;
    }
    Ok(())
}

/// A batch of one is read without a list.
pub(crate) fn read_batch<T: Drop, R: Drop, J: Plan<A, Spec = T, Reading = R>, A: Allocator + Copy>(
    alloc: A,
    plan: &J,
    board: &mut Board<T, Read<T, R>, A>,
    width: usize,
) -> Result<(), AllocError>
    requires lawful { J.IsLawful plan.now }
    requires none_in_hand { board.old.in_hand ≡ [] }
    requires running { board.old.stopped ≡ false }
    ensures { OnOk result (ReadsBatch (J.IsReading plan.now) width board.old board.new) }
{
    if width == 1 {
        return read_least(alloc, plan, board);
    }
    let taken = take_batch(alloc, board, width)?;
    let made = read_in_turn(alloc, plan, taken)?;
    finish_batch(board, made)
}

/// What was taken is read on several threads if there is enough of it.
pub(crate) fn read_batch_on<
    W: Threads + Sync,
    T: Drop + Send,
    R: Drop + Send,
    J: Plan<A, Spec = T, Reading = R> + Sync,
    A: Allocator + Copy + Send + Sync,
>(
    rt: &W,
    alloc: A,
    plan: &J,
    board: &mut Board<T, Read<T, R>, A>,
    width: usize,
) -> Result<(), AllocError>
    requires lawful { J.IsLawful plan.now }
    requires none_in_hand { board.old.in_hand ≡ [] }
    requires running { board.old.stopped ≡ false }
    ensures { OnOk result (ReadsBatch (J.IsReading plan.now) width board.old board.new) }
{
    if width < 2 * LEAST_PIECE {
        return read_batch(alloc, plan, board, width);
    }
    let taken = take_batch(alloc, board, width)?;
    let made = read_on_threads(rt, alloc, plan, taken)?;
    finish_batch(board, made)
}

fn read_least<T: Drop, R: Drop, J: Plan<A, Spec = T, Reading = R>, A: Allocator + Copy>(
    alloc: A,
    plan: &J,
    board: &mut Board<T, Read<T, R>, A>,
) -> Result<(), AllocError>
    requires lawful { J.IsLawful plan.now }
    requires none_in_hand { board.old.in_hand ≡ [] }
    requires running { board.old.stopped ≡ false }
    ensures { OnOk result (ReadsBatch (J.IsReading plan.now) 1 board.old board.new) }
{
    // What holds of every board.
    let _pending = board.pending();
    let item = match board.take() {
        Ok(item) => item,
        Err(TakeRefusal::Memory) => return Err(AllocError),
        Err(TakeRefusal::Done) => return Ok(()),
        // Nothing is in hand, and nothing stops the board.
        Err(TakeRefusal::Empty) => unreachable!(),
        Err(TakeRefusal::Stopped) => unreachable!(),
    };
    let made = make(alloc, plan, item)?;
    finish(board, made.address, made.read, made.children)
}
