//! All readings of a tree, by a crew.
ghost use Rattle.std.specs.Prelude.{◌≡◌, IfOk, length};
ghost use Rattle.std.specs.Arc.{arc_value};
ghost use Rattle.jwalk_order.specs.Frontier.{roots as root_addresses};
ghost use Rattle.tree_crew.specs.Session.{awaited_by, origin_of};
ghost use Rattle.tree_crew.specs.Whole.{ArePreorder};

use crate::crew::Place;
use crate::incomplete::Incomplete;
use crate::origin::Origin;
use crate::session::Session;
use jwalk_board::board::Plan;
use std::alloc::Allocator;
use std::sync::{Arc, Wait};
use std::thread::Threads;
use std::time::Clock;

fn take_all<
    R: Wait + Clock + Drop,
    T: Drop,
    U: Drop,
    J: Plan<A, Spec = T, Reading = U> + Drop,
    A: Allocator + Copy,
>(rt: &R, alloc: A, session: &mut Session<R, T, U, J, A>) -> Result<Vec<U, A>, Incomplete>
    requires { awaited_by session.old ≡ root_addresses (length (origin_of session.old).roots) }
    ensures { IfOk result (λ v. ArePreorder J.Plan (origin_of session.old).plan (origin_of session.old).roots
        v.items) }
{
    let mut found = Vec::new(alloc);
    for _ in rt.forever() {
        let Some(item) = session.next()? else {
            return Ok(found);
        };
        let reading = item.value.into_outcome()?;
        found.push(reading)?;
    }
    unreachable!()
}

/// Returns all readings of a tree, made ahead by the workers of a crew. Wherever the tree's plan is fixed, they are
/// those of its preorder, whatever the crew. It blocks until the last of them is made.
///
/// # Errors
///
/// `Memory` if memory runs out. `Busy` if no worker could be started. In any case the place is given back.
pub fn read_all<
    R: Wait + Threads + Clock + Drop + Send + Sync + 'static,
    T: Drop + Send + 'static,
    U: Drop + Send + 'static,
    J: Plan<A, Spec = T, Reading = U> + Drop + Send + Sync + 'static,
    A: Allocator + Copy + Send + Sync + 'static,
>(place: Place<R, A>, plan: Arc<J, A>, roots: Vec<T, A>) -> Result<Vec<U, A>, Incomplete>
    requires { J.IsLawful (arc_value plan) }
    ensures { IfOk result (λ v. ArePreorder J.Plan (arc_value plan) roots.items v.items) }
{
    let crew = place.crew().clone()?;
    let alloc = *roots.allocator();
    let mut session = Session::start_from(place, Origin::new(plan, roots))?;
    take_all(&crew.rt, alloc, &mut session)
}
