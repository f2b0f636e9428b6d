//! Readings by workers.
ghost use Rattle.std.specs.Prelude.{◌≡◌, [], ◌↔◌, IsErr, IsTrue, MatchResult};
ghost use Rattle.std.specs.Arc.{arc_value};

use crate::arrival::Reported;
use jwalk_board::board::Plan;
use std::alloc::{AllocError, Allocator, Global};
use std::marker::Model;
use std::sync::Arc;

/// A reading by a worker: the plan that read, the specification that was read, and the outcome, or that memory ran out.
pub struct Message<T, U, J, A: Allocator + Copy = Global> {
    plan: Arc<J, A>,
    of: T,
    outcome: Result<U, AllocError>,
}

impl<T: Drop, U: Drop, J: Drop, A: Allocator + Copy> Drop for Message<T, U, J, A> {
    fn drop(self) {
        let Message {
            plan: _,
            of: _,
            outcome: _,
        } = self;
    }
}

impl<T, U, J, A: Allocator + Copy> Model for Message<T, U, J, A> {
    ghost use Rattle.std.specs.Arc.{arc_value};
    ghost use Rattle.tree_crew.specs.Message.{Message as Told};

    ghost Value = { Told T U J };

    ghost view = { λ m. record { plan = arc_value m.plan; of = m.of; outcome = m.outcome } };
}

impl<T: Drop, U: Drop, J: Plan<A, Spec = T, Reading = U> + Drop, A: Allocator + Copy> Message<
    T,
    U,
    J,
    A,
> {
    /// Reads a specification: returns the message, and the specifications below it. There are none if memory ran out.
    pub fn read(alloc: A, plan: Arc<J, A>, of: T) -> (Self, Vec<T, A>)
        requires { J.IsLawful (arc_value plan) }
        ensures plan { result.0.plan ≡ arc_value plan }
        ensures of { result.0.of ≡ of }
        ensures reading { MatchResult result.0.outcome
            (λ read. J.IsReading (arc_value plan) of read result.1.items) (λ _. result.1.items ≡ []) }
    {
        match plan.read(alloc, &of) {
            Ok((reading, children)) => (
                Message {
                    plan,
                    of,
                    outcome: Ok(reading),
                },
                children,
            ),
            Err(refused) => (
                Message {
                    plan,
                    of,
                    outcome: Err(refused),
                },
                Vec::new(alloc),
            ),
        }
    }
}

impl<T: Drop, U: Drop, J: Drop, A: Allocator + Copy> Reported for Message<T, U, J, A> {
    ghost use Rattle.tree_crew.specs.Message.{ran_out};

    ghost refused = { ran_out };

    fn is_refused(&self) -> bool {
        self.outcome.is_err()
    }
}

impl<T: Drop, U: Drop, J: Drop, A: Allocator + Copy> Message<T, U, J, A> {
    /// Returns the plan that read.
    pub fn plan(&self) -> &J
        ensures { result.now ≡ self.now.plan }
    {
        &*self.plan
    }

    /// Returns the specification that was read.
    pub fn of(&self) -> &T
        ensures { result.now ≡ self.now.of }
    {
        &self.of
    }

    /// Returns whether memory ran out.
    pub fn is_refused(&self) -> bool
        ensures { IsTrue result ↔ IsErr self.now.outcome }
    {
        self.outcome.is_err()
    }

    /// Returns the reading, or that memory ran out.
    pub fn into_outcome(self) -> Result<U, AllocError>
        ensures { result ≡ self.outcome }
    {
        let Message {
            plan: _,
            of: _,
            outcome,
        } = self;
        outcome
    }
}
