//! How many walks a crew serves.
ghost use Rattle.std.specs.Prelude.{◌≡◌, ◌+◌, ◌-◌, ◌<◌, ◌≤◌, ◌↔◌, IsTrue, max, if◌then◌else◌};

use std::marker::Model;

/// How many walks a crew serves at once, and how many it serves now.
#[derive(Debug, Drop)]
pub struct Places {
    in_use: usize,
    places: usize,
}

impl Model for Places {
    ghost use Rattle.std.specs.Prelude.{◌≤◌};
    ghost use Rattle.tree_crew.specs.Places.{Places as State};

    ghost Value = { State };

    ghost view = { λ p. record { in_use = p.in_use; places = p.places } };

    ghost invariant = { λ p. p.in_use ≤ p.places };
}

impl Places {
    /// Returns that many places, none of them in use. 0 counts as 1.
    pub fn new(places: usize) -> Self
        ensures none_in_use { result.in_use ≡ 0 }
        ensures places { result.places ≡ max 1 places }
    {
        Places {
            in_use: 0,
            places: places.max(1),
        }
    }

    /// Takes a place, if one is free, and returns whether it did.
    pub fn take(&mut self) -> bool
        ensures free { IsTrue result ↔ (self.old.in_use < self.old.places) }
        ensures taken { self.new ≡ (if result then record self.old { in_use = self.old.in_use + 1 } else self.old) }
    {
        if self.in_use < self.places {
            self.in_use += 1;
            true
        } else {
            false
        }
    }

    /// Gives a place back.
    pub fn give_back(&mut self)
        requires { 0 < self.old.in_use }
        ensures { self.new ≡ record self.old { in_use = self.old.in_use - 1 } }
    {
        self.in_use -= 1;
    }

    /// Returns how many are in use.
    pub fn in_use(&self) -> usize
        ensures value { result ≡ self.now.in_use }
        ensures fits { result ≤ self.now.places }
    {
        self.in_use
    }

    /// Returns how many there are.
    pub fn places(&self) -> usize
        ensures { result ≡ self.now.places }
    {
        self.places
    }
}
