//! Memory whose request of one number is refused, again and again.
use jwalk_order::index_path::IndexPath;
use std::alloc::Global;
use std::cell::Cell;
use test_fixtures::refusing_alloc::Refusing;

/// An allocator that refuses requests, lent.
pub type Memory<'m> = &'m Refusing<Global>;

/// Returns whether an address has these indices.
pub fn is(address: &IndexPath<Memory<'_>>, indices: &[usize]) -> bool {
    address.indices.as_slice() == indices
}

/// The player of steps.
#[derive(Drop)]
pub struct Player<'m> {
    pub memory: Memory<'m>,
    /// The number of the request that each step is refused at its first attempt.
    number: usize,
    /// The number of steps that met a refusal.
    met: Cell<usize>,
}

impl<'m> Player<'m> {
    /// Refuses the request of that number from now on.
    pub fn refuse(&self) {
        self.memory.refuse(self.number, 1);
    }

    /// Refuses nothing from now on.
    pub fn grant(&self) {
        if self.memory.refused() > 0 {
            self.met.set(self.met.get().saturating_add(1));
        }
        self.memory.refuse(0, 0);
    }

    /// Returns the address of these indices.
    pub fn address(&self, indices: &[usize]) -> Option<IndexPath<Memory<'m>>> {
        Some(IndexPath::new(Vec::from_slice(self.memory, indices).ok()?))
    }
}

/// Returns whether a play comes out right for each number, up to one where no step meets a refusal. All pieces must be
/// back after each, and some step must have met a refusal.
pub fn all_are_right(alloc: Global, play: &impl Play) -> bool {
    let memory = Refusing::new(alloc);
    let mut all: usize = 0;
    for number in 1..100 {
        let player = Player {
            memory: &memory,
            number,
            met: Cell::new(0),
        };
        if !play.is_right(&player) || memory.pieces() != 0 {
            return false;
        }
        let met = player.met.get();
        if met == 0 {
            return all > 0;
        }
        all = all.saturating_add(met);
    }
    false
}

/// Steps on a value that is made for them.
pub trait Play {
    /// Plays the steps, and returns whether each goes as it must.
    fn is_right(&self, player: &Player<'_>) -> bool;
}
