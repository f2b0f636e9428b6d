//! A plan of numbers, as deep and as wide as a test wants.
use jwalk_board::board::{Plan, Refused};
use std::alloc::Global;
use std::cell::Cell;

/// A plan whose specification is a level, from a root 0 on, and whose reading is the same number. The children of a
/// specification are one level down. Its tree isn't specified.
#[derive(Drop)]
pub(crate) struct Levels {
    /// The level that has no children.
    pub(crate) last: u8,
    /// The number of children of each specification above it.
    pub(crate) width: usize,
    /// The number of readings.
    pub(crate) reads: Cell<usize>,
}

impl Plan<Global> for Levels {
    ghost use Rattle.jwalk_board.specs.Rows.{family, family-falls};
    ghost use Rattle.std.specs.Prelude.{ℕ, ◌≡◌};

    type Spec = u8;

    type Reading = u8;

    ghost Given = { Unit {0} };

    ghost SpecValue = { ℕ };

    ghost ReadingValue = { ℕ };

    ghost spec_value = { λ _ s. s };

    ghost reading_value = { λ _ r. r };

    ghost IsLawful = { λ _. Unit {0} };

    ghost IsReading = { λ _ s r _. r ≡ s };

    ghost IsFixed = { λ _ _. ⊥ };

    ghost tree = { λ _ _. family };

    ghost as_given = { λ _ _ _ _ _ _ none. absurd none };

    ghost falls = { λ _ _ _. family-falls };

    fn read(&self, alloc: Global, spec: &u8) -> Result<(u8, Vec<u8>), Refused> {
        self.reads.set(self.reads.get().wrapping_add(1));
        let children = if *spec < self.last {
            vec![in alloc; *spec + 1; self.width]?
        } else {
            Vec::new(alloc)
        };
        Ok((*spec, children))
    }
}
