//! Pseudo-random numbers.

/// Pseudo-random numbers. A seed always gives the same ones.
#[derive(Drop)]
pub struct Dice {
    state: usize,
}

impl Dice {
    /// Returns the numbers of a seed.
    pub fn new(seed: usize) -> Self {
        Dice {
            state: seed
                .wrapping_mul(2_862_933_555_777_941_757)
                .wrapping_add(3_037_000_493),
        }
    }

    /// Returns the next number, which is below `sides`.
    pub fn below(&mut self, sides: usize) -> usize {
        self.state = self
            .state
            .wrapping_mul(6_364_136_223_846_793_005)
            .wrapping_add(1_442_695_040_888_963_407);
        (self.state >> 33).checked_rem(sides).unwrap_or(0)
    }
}
