//! A rehearsal under way.
ghost use Rattle.std.specs.Prelude.{OnOk};
ghost use Rattle.jwalk_board.specs.Stage.{IsUnderWay, PlaysByPlan, PlaysOnAny};

use super::moves::Move;
use super::plan::{Plan, Refused};
use super::refusal::{FinishRefusal, HandOutRefusal, TakeRefusal};
use super::rehearsal::Rehearsal;
use jwalk_order::ordered::Ordered;
use std::alloc::{AllocError, Allocator};

/// What was done so far, and what each worker holds.
#[derive(Drop)]
pub(super) struct Stage<T, R, A: Allocator + Copy> {
    pub(super) hands: Vec<Option<Ordered<T, A>>, A>,
    pub(super) done: Rehearsal<T, R, A>,
}

fn take<P: Plan<A>, A: Allocator + Copy>(
    stage: &mut Stage<P::Spec, P::Reading, A>,
    worker: usize,
) -> Result<(), Refused>
    requires { IsUnderWay stage.old.hands.items stage.old.done.board }
    ensures kept { OnOk result (IsUnderWay stage.new.hands.items stage.new.done.board) }
    ensures follows { PlaysOnAny P.Plan (Move.Take worker) stage.old result stage.new }
{
    if worker >= stage.hands.len() {
        return Ok(());
    }
    if stage.hands[worker].is_some() {
        return Ok(());
    }
    match stage.done.board.take() {
        Ok(item) => {
            stage.done.taken.push(item.index_path.try_clone()?)?;
            stage.hands[worker] = Some(item);
            Ok(())
        }
        Err(refusal) => match refusal {
            TakeRefusal::Memory => Err(AllocError),
            _ => Ok(()),
        },
    }
}

fn hand_out<P: Plan<A>, A: Allocator + Copy>(
    stage: &mut Stage<P::Spec, P::Reading, A>,
) -> Result<(), Refused>
    requires { IsUnderWay stage.old.hands.items stage.old.done.board }
    ensures kept { OnOk result (IsUnderWay stage.new.hands.items stage.new.done.board) }
    ensures follows { PlaysOnAny P.Plan Move.HandOut stage.old result stage.new }
{
    match stage.done.board.hand_out() {
        Ok(item) => Ok(stage.done.handed_out.push(item)?),
        Err(refusal) => match refusal {
            HandOutRefusal::Memory => Err(AllocError),
            _ => Ok(()),
        },
    }
}

fn finish<P: Plan<A>, A: Allocator + Copy>(
    stage: &mut Stage<P::Spec, P::Reading, A>,
    alloc: A,
    plan: &P,
    worker: usize,
) -> Result<(), Refused>
    requires lawful { P.IsLawful plan.now }
    requires under_way { IsUnderWay stage.old.hands.items stage.old.done.board }
    ensures kept { OnOk result (IsUnderWay stage.new.hands.items stage.new.done.board) }
    ensures follows { PlaysByPlan P.Plan (Move.Finish worker) stage.old result stage.new plan.now }
{
    if worker >= stage.hands.len() {
        return Ok(());
    }
    let Some(item) = stage.hands[worker].take() else {
        return Ok(());
    };
    let (reading, children) = plan.read(alloc, &item.value)?;
    match stage.done.board.finish(item.index_path, reading, children) {
        Ok(()) => Ok(()),
        Err(fault) => match fault.cause {
            FinishRefusal::Memory => Err(AllocError),
            // What a worker holds is in hand, and nothing stops the board.
            _ => unreachable!(),
        },
    }
}

pub(super) fn play<P: Plan<A>, A: Allocator + Copy>(
    stage: &mut Stage<P::Spec, P::Reading, A>,
    alloc: A,
    plan: &P,
    next: Move,
) -> Result<(), Refused>
    requires lawful { P.IsLawful plan.now }
    requires under_way { IsUnderWay stage.old.hands.items stage.old.done.board }
    ensures kept { OnOk result (IsUnderWay stage.new.hands.items stage.new.done.board) }
    ensures follows { PlaysByPlan P.Plan next stage.old result stage.new plan.now }
{
    match next {
        Move::Take(worker) => take::<P, A>(stage, worker),
        Move::Finish(worker) => finish(stage, alloc, plan, worker),
        Move::HandOut => hand_out::<P, A>(stage),
    }
}
