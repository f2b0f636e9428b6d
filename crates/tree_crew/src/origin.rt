//! Where the readings of a walk come from.
ghost use Rattle.std.specs.Prelude.{◌≡◌};
ghost use Rattle.std.specs.Arc.{arc_value};

use std::alloc::{Allocator, Global};
use std::marker::Model;
use std::sync::Arc;

/// Where the readings of a walk come from: the plan that reads, and the specifications that the walk begins with.
pub struct Origin<T, J, A: Allocator + Copy = Global> {
    plan: Arc<J, A>,
    roots: Vec<T, A>,
}

impl<T: Drop, J: Drop, A: Allocator + Copy> Drop for Origin<T, J, A> {
    fn drop(self) {
        let Origin { plan: _, roots: _ } = self;
    }
}

impl<T, J, A: Allocator + Copy> Model for Origin<T, J, A> {
    ghost use Rattle.std.specs.Arc.{arc_value};
    ghost use Rattle.tree_crew.specs.Origin.{Origin as Begun};

    ghost Value = { Begun T J };

    ghost view = { λ o. record { plan = arc_value o.plan; roots = o.roots.items } };
}

impl<T: Drop, J: Drop, A: Allocator + Copy> Origin<T, J, A> {
    /// Returns the origin of a walk by this plan that begins with these specifications.
    pub fn new(plan: Arc<J, A>, roots: Vec<T, A>) -> Self
        ensures { result ≡ record { plan = arc_value plan; roots = roots.items } }
    {
        Origin { plan, roots }
    }

    /// Returns the plan that reads.
    pub fn plan(&self) -> &Arc<J, A>
        ensures { arc_value result.now ≡ self.now.plan }
    {
        &self.plan
    }

    /// Returns the specifications that the walk begins with.
    pub fn into_roots(self) -> Vec<T, A>
        ensures { result.items ≡ self.roots }
    {
        let Origin { plan: _, roots } = self;
        roots
    }
}
