//! A callback whose refusals are counted.
use jwalk::read_dir::ProcessReadDir;
use jwalk::{ClientState, DirEntry, Error};
use std::alloc::{AllocError, Allocator};
use std::sync::atomic::{AtomicUsize, Ordering};

/// A callback that passes each list to another one, and counts how often that runs out of memory.
#[derive(Drop)]
pub struct Counting<'c, P: Drop> {
    inner: P,
    refusals: &'c AtomicUsize,
}

impl<'c, P: Drop> Counting<'c, P> {
    ghost use Rattle.std.specs.Prelude.{◌≡◌};

    /// Returns a callback that passes lists to `inner`, and counts in `refusals`.
    pub fn new(inner: P, refusals: &'c AtomicUsize) -> Self
        ensures { result.inner ≡ inner }
    {
        Counting { inner, refusals }
    }
}

impl<'c, C: ClientState, A: Allocator + Copy, P: ProcessReadDir<C, A>> ProcessReadDir<C, A>
    for Counting<'c, P> {
    ghost IsLawful = { λ s. P.IsLawful s.inner };

    ghost Makes = { λ _ _. ⊥ };

    fn process(
        &self,
        depth: Option<usize>,
        path: &str,
        state: &mut C::ReadDirState,
        list: &mut Vec<Result<DirEntry<C, A>, Error<A>>, A>,
    ) -> Result<(), AllocError> {
        let processed = self.inner.process(depth, path, state, list);
        if processed.is_err() {
            self.refusals.fetch_add(1, Ordering::SeqCst);
        }
        processed
    }
}
