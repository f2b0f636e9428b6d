//! Readings of a tree of specifications.
use std::alloc::{AllocError, Allocator};

/// Memory ran out.
pub type Refused = AllocError;

/// How specifications are read. A reading comes with the specifications of its children.
pub trait Plan<A: Allocator + Copy> {
    ghost use Rattle.std.specs.Prelude.{◌≡◌, List, map, IfOk};
    ghost use Rattle.jwalk_board.specs.Plan.{PlanTree, Falls};

    /// What is read.
    type Spec: Drop;

    /// What the reading of a specification is.
    type Reading: Drop;

    // What a promise on values takes to be given: nothing, or how states count and what results from them.
    ghost Given: { Type 0 };

    // What a specification and a reading count as.
    ghost SpecValue: { Type 0 };

    ghost ReadingValue: { Type 0 };

    ghost spec_value: { Given → Self.Spec → SpecValue };

    ghost reading_value: { Given → Self.Reading → ReadingValue };

    // Whether it may be asked for readings.
    ghost IsLawful: { Self → Type 0 };

    // What a reading of a specification and its children are, whatever is given.
    ghost IsReading: { Self → Self.Spec → Self.Reading → List Self.Spec → Type 0 };

    // Whether its readings are those of its tree, whenever it returns one, by what is given.
    ghost IsFixed: { Self → Given → Type 0 };

    ghost tree: { Self → Given → PlanTree SpecValue ReadingValue };

    /// Returns the reading of a specification, and its children in order.
    ///
    /// # Errors
    ///
    /// If memory runs out.
    fn read(
        &self,
        alloc: A,
        spec: &Self::Spec,
    ) -> Result<(Self::Reading, Vec<Self::Spec, A>), Refused>
        requires { IsLawful self.now }
        ensures { IfOk result (λ r. IsReading self.now spec.now r.0 r.1.items) };

    // Where the plan is fixed, a reading and its children are those of its tree.
    ghost as_given: { (p : Self) (spec : Self.Spec) (reading : Self.Reading) (children : List Self.Spec)
        → IsReading p spec reading children → (given : Given) → IsFixed p given
        → (reading_value given reading ≡ (tree p given).reading (spec_value given spec))
        × (map (spec_value given) children ≡ (tree p given).children (spec_value given spec)) };

    // The children of a specification have smaller heights than it.
    ghost falls: { (p : Self) (given : Given) → IsFixed p given → Falls (tree p given) };
}
