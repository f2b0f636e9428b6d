//! Two callbacks, one after the other.
use jwalk_job::client_state::ClientState;
use jwalk_job::item::List;
use jwalk_job::process_read_dir::ProcessReadDir;
use std::alloc::{AllocError, Allocator};

/// A callback that calls one callback and then another.
///
/// ```text
/// let both = Both::new(FilterEntry::new(test), SkipNames::new(names));
/// let walk = walk.process_read_dir(both);
/// ```
///
/// A walk has one callback, and a second call of `process_read_dir` replaces it. `Both` makes one callback of two. Both
/// are called with each list, with the same depth and path. The second is given the state and the list as the first
/// left them, so it doesn't see an entry that the first dropped. For three callbacks, one of the two is a `Both` again.
///
/// If the first callback runs out of memory, the second isn't called, and `Both` fails with that. It takes no memory of
/// its own.
#[derive(Drop)]
pub struct Both<P, Q> {
    first: P,
    second: Q,
}

impl<P, Q> Both<P, Q> {
    ghost use Rattle.std.specs.Prelude.{◌≡◌};
    ghost use Rattle.jwalk_callbacks.specs.Both.{first_of, second_of};

    /// Returns the callback that calls `first` and then `second`.
    pub fn new(first: P, second: Q) -> Self
        ensures first { first_of result ≡ first }
        ensures second { second_of result ≡ second }
    {
        Both { first, second }
    }
}

impl<
    C: ClientState,
    A: Allocator + Copy,
    P: ProcessReadDir<C, A>,
    Q: ProcessReadDir<C, A>,
> ProcessReadDir<C, A> for Both<P, Q> {
    ghost use Rattle.jwalk_callbacks.specs.Both.{first_of, second_of, MakesInTurn};

    ghost IsLawful = { λ s. P.IsLawful (first_of s) × Q.IsLawful (second_of s) };

    ghost Makes = { λ s g. MakesInTurn (P.Makes (first_of s)) (Q.Makes (second_of s)) g };

    ghost KeepsRoot = { λ s. P.KeepsRoot (first_of s) × Q.KeepsRoot (second_of s) };

    fn process(
        &self,
        depth: Option<usize>,
        path: &str,
        state: &mut C::ReadDirState,
        list: &mut List<C, A>,
    ) -> Result<(), AllocError> {
        let Both { first, second } = self;
        first.process(depth, path, state, list)?;
        second.process(depth, path, state, list)
    }
}
