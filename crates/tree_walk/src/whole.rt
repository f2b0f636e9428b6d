//! All readings of a tree.
ghost use Rattle.std.specs.Prelude.{◌≡◌, ◌≤◌, IfOk, map};
ghost use Rattle.jwalk_board.specs.Plan.{readings_in_preorder, values};

use crate::board_walk::BoardWalk;
use jwalk_board::board::Plan;
use std::alloc::{AllocError, Allocator};

/// Returns all readings of a tree whose plan is fixed: those of its preorder, however many are made together.
///
/// # Errors
///
/// If memory runs out.
pub fn read_all<T: Drop, R: Drop, J: Plan<A, Spec = T, Reading = R> + Drop, A: Allocator + Copy>(
    alloc: A,
    plan: J,
    roots: Vec<T, A>,
    width: usize,
) -> Result<Vec<R, A>, AllocError>
    ghost given: { J.Given }
    requires lawful { J.IsLawful plan }
    requires fixed { J.IsFixed plan given }
    requires width { 1 ≤ width }
    ensures { IfOk result (λ v. map (J.reading_value given) v.items
        ≡ values (readings_in_preorder (J.tree plan given) (map (J.spec_value given) roots.items))) }
{
    let mut walk = BoardWalk::new(alloc, plan, width);
    let mut found = Vec::new(alloc);
    walk.begin(roots)?;
    while let Some(read) = walk.read_next()? {
        found.push(read)?;
    }
    Ok(found)
}
