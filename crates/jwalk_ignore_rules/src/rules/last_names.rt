//! Which patterns match only paths that end with one name.
ghost use Rattle.std.specs.Prelude.{◌≡◌, ◌<◌, ◌^◌, Some, OnOk, OnErr, MatchOption};
ghost use Rattle.jwalk_ignore_rules.specs.Rules.LastNames.{IsAdded, IsSame, NothingListed, count_of};

use std::alloc::{AllocError, Allocator};
use std::collections::BTreeMap;

/// The places of patterns, by the names with which the paths end that they match.
pub(crate) struct LastNames<A: Allocator + Copy> {
    /// For a name: how many patterns there are up to the last that matches only paths which end with it.
    counts: BTreeMap<Vec<u8, A>, usize, A>,
    /// The places of all other patterns, which ascend.
    pub(crate) others: Vec<usize, A>,
}

impl<A: Allocator + Copy> Drop for LastNames<A> {
    fn drop(self) {
        let LastNames {
            counts: _,
            others: _,
        } = self;
    }
}

impl<A: Allocator + Copy> LastNames<A> {
    pub(crate) fn new(alloc: A) -> Self
        ensures { NothingListed result }
    {
        LastNames {
            counts: BTreeMap::new(alloc),
            others: Vec::new(alloc),
        }
    }

    /// Adds a pattern at a place behind all others. It matches only paths that end with a name, if one is given.
    pub(crate) fn add(&mut self, name: Option<Vec<u8, A>>, place: usize) -> Result<(), AllocError>
        requires { place < 2 ^ 63 }
        ensures added { OnOk result (IsAdded name place self.old self.new) }
        ensures failed { OnErr result (IsSame self.old self.new) }
    {
        match name {
            Some(name) => {
                self.counts.insert(name, place + 1)?;
                Ok(())
            }
            None => Ok(self.others.push(place)?),
        }
    }

    /// Returns how many patterns there are up to the last that matches only paths which end with this name.
    pub(crate) fn count(&self, name: &[u8]) -> usize
        ensures { MatchOption (count_of self.now name.now) (result ≡ 0) (λ count. result ≡ count) }
    {
        match self.counts.get(name) {
            Some(count) => *count,
            None => 0,
        }
    }
}
