//! A small family of numbers.
use jwalk_board::board::{Move, Plan, Refused};
use std::alloc::Allocator;

/// A root 0 with the children 1 and 2, and 1 with the one child 3. A reading is the number.
#[derive(Drop)]
pub struct Family;

impl<A: Allocator + Copy> Plan<A> for Family {
    ghost use Rattle.jwalk_board.specs.Rows.{family, family-falls};
    ghost use Rattle.std.specs.Prelude.{ℕ, ◌≡◌, map};

    type Spec = u8;

    type Reading = u8;

    ghost Given = { Unit {0} };

    ghost SpecValue = { ℕ };

    ghost ReadingValue = { ℕ };

    ghost spec_value = { λ _ s. s };

    ghost reading_value = { λ _ r. r };

    ghost IsLawful = { λ _. Unit {0} };

    ghost IsReading = { λ _ s r below. (r ≡ family.reading s) × (map (λ c. c) below ≡ family.children s) };

    ghost IsFixed = { λ _ _. Unit {0} };

    ghost tree = { λ _ _. family };

    ghost as_given = { λ _ _ _ _ is _ _. is };

    ghost falls = { λ _ _ _. family-falls };

    fn read(&self, alloc: A, spec: &u8) -> Result<(u8, Vec<u8, A>), Refused> {
        let children = match *spec {
            0 => vec![in alloc; 1, 2]?,
            1 => vec![in alloc; 3]?,
            _ => Vec::new(alloc),
        };
        Ok((*spec, children))
    }
}

/// Moves by which two workers read the family and hand it out. Some can't be made, such as a third worker's.
pub const MOVES: &[Move] = &[
    Move::Take(0),
    Move::Finish(0),
    Move::Take(1),
    Move::Take(0),
    Move::Finish(0),
    Move::HandOut,
    Move::HandOut,
    Move::Take(0),
    Move::Take(2),
    Move::Finish(1),
    Move::HandOut,
    Move::HandOut,
    Move::Take(1),
    Move::Finish(1),
    Move::HandOut,
    Move::HandOut,
];
