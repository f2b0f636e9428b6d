//! What may be called with a directory's depth and path, a state and a list, of whatever types these are.
ghost use Rattle.std.specs.Prelude.{ℕ, List, Option, Result};
ghost use Rattle.std.specs.declared.alloc.AllocError.{AllocError};

use std::alloc::AllocError;

/// What may be called with a directory's depth and path, a state and a list. With it a closure can be a callback
/// whatever the list's allocator is; `ByFn::new` makes the one that is needed.
pub trait Calls<R, L>: Drop {
    /// It may always be called.
    ghost IsCallable: { Self → Type 0 };

    /// What a call may return, and leave of the state and of the list.
    ghost gives: { Self → Option ℕ → List ℕ → R → L → Result Unit AllocError → R → L → Type 0 };

    /// Calls it.
    fn call(
        &self,
        depth: Option<usize>,
        path: &str,
        state: &mut R,
        list: &mut L,
    ) -> Result<(), AllocError>
        requires { IsCallable self.now }
        ensures { gives self.now depth path.now state.old list.old result state.new list.new };
}

/// A closure that is kept.
#[derive(Drop)]
pub struct Closure<F> {
    f: F,
}

impl<F> Closure<F> {
    ghost use Rattle.std.specs.Prelude.{◌≡◌};

    pub(crate) fn new(f: F) -> Self
        ensures { result.f ≡ f }
    {
        Closure { f }
    }
}

impl<R, L, F: Fn(Option<usize>, &str, &mut R, &mut L) -> Result<(), AllocError> + Drop> Calls<R, L>
    for Closure<F> {
    ghost use Rattle.std.specs.Prelude.{◌≡◌};

    ghost IsCallable = { λ s. F.IsAlwaysCallable s.f };

    ghost gives = { λ s depth path state list answer state' list'. (p : _) × (x : _) × (l : _) × (y : _) × (m : _)
        × (p.now ≡ path) × (x.now ≡ state) × (l.now ≡ list) × (y.now ≡ state') × (m.now ≡ list')
        × F.post s.f depth p x l answer y m };

    fn call(
        &self,
        depth: Option<usize>,
        path: &str,
        state: &mut R,
        list: &mut L,
    ) -> Result<(), AllocError> {
        (self.f)(depth, path, state, list)
    }
}
