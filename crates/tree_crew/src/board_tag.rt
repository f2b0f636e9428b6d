//! What the slot of a walk's board is made for.
ghost use Rattle.std.specs.Prelude.{◌≡◌};

use crate::origin::Origin;
use std::alloc::Allocator;
use std::snapshot::Snapshot;

/// What the slot of a walk's board is made for: where the walk's readings come from, and how many of them may be ready or
/// in hand. Only clauses read it.
pub(crate) struct BoardTag<T, J, A: Allocator + Copy> {
    origin: Snapshot<Origin<T, J, A>>,
    limit: Snapshot<usize>,
}

impl<T, J, A: Allocator + Copy> Drop for BoardTag<T, J, A> {
    fn drop(self) {
        let BoardTag {
            origin: _,
            limit: _,
        } = self;
    }
}

impl<T, J, A: Allocator + Copy> BoardTag<T, J, A> {
    pub(crate) fn of(origin: &Origin<T, J, A>, limit: usize) -> Self
        ensures origin { result.origin.value ≡ origin.now }
        ensures limit { result.limit.value ≡ limit }
    {
        BoardTag {
            origin: Snapshot::of(origin),
            limit: Snapshot::of(&limit),
        }
    }
}
