//! The patterns of an ignore file, beside the names with which the paths end that they match.
ghost use Rattle.std.specs.Prelude.{◌≡◌, ◌++◌, ◌∷◌, [], MatchOption, OnOk, map, take};
ghost use Rattle.jwalk_ignore_rules.specs.Pattern.{pattern_value};
ghost use Rattle.jwalk_ignore_rules.specs.Rules.LastNames.{IsIndexed, IsLastMatch, MatchesAt, NoneFrom, OthersMatch};

use crate::pattern::Pattern;
use crate::pattern::names::split_last_name;
use crate::rules::last_names::LastNames;
use std::alloc::{AllocError, Allocator};

/// Patterns in the order of their lines, each of which is listed by the name with which its paths end, or among others.
#[derive(Drop)]
pub(crate) struct Patterns<A: Allocator + Copy> {
    items: Vec<Pattern<A>, A>,
    last_names: LastNames<A>,
    ghost indexed: { IsIndexed (map pattern_value items.items) last_names },
}

impl<A: Allocator + Copy> Patterns<A> {
    pub(crate) fn none(alloc: A) -> Self
        ensures { map pattern_value result.items.items ≡ [] }
    {
        Patterns {
            items: Vec::new(alloc),
            last_names: LastNames::new(alloc),
        }
    }

    pub(crate) fn push(&mut self, alloc: A, pattern: Pattern<A>) -> Result<(), AllocError>
        ensures { OnOk result (map pattern_value self.new.items.items ≡ map pattern_value self.old.items.items ++ pattern_value pattern ∷ []) }
    {
        let last_name = pattern.last_name(alloc)?;
        self.last_names.add(last_name, self.items.len())?;
        self.items.push(pattern)?;
        Ok(())
    }

    /// Returns how many patterns there are up to the last that matches only paths which end as this one does.
    pub(crate) fn count_for(&self, path: &[u8]) -> usize
        ensures { (is_dir : _) → OthersMatch (map pattern_value self.now.items.items) self.now.last_names path.now is_dir result }
    {
        match split_last_name(path) {
            Some((_, name)) => self.last_names.count(name),
            None => 0,
        }
    }

    fn match_at(&self, place: usize, path: &[u8], is_dir: bool) -> Option<&Pattern<A>>
        ensures { MatchOption result ((pattern : _) → MatchesAt (map pattern_value self.now.items.items) path.now is_dir place pattern → ⊥)
            (λ found. MatchesAt (map pattern_value self.now.items.items) path.now is_dir place (pattern_value found.now)) }
    {
        let pattern = self.items.get(place)?;
        if pattern.matches(path, is_dir) {
            Some(pattern)
        } else {
            None
        }
    }

    /// Returns the last of all patterns that matches a path, if it is at this place or behind it. Only the patterns are
    /// tried there whose paths may end in several ways.
    pub(crate) fn last_other(&self, from: usize, path: &[u8], is_dir: bool) -> Option<&Pattern<A>>
        ensures { OthersMatch (map pattern_value self.now.items.items) self.now.last_names path.now is_dir from
            → MatchOption result (NoneFrom (map pattern_value self.now.items.items) path.now is_dir from)
            (λ found. IsLastMatch (map pattern_value self.now.items.items) path.now is_dir (pattern_value found.now)) }
    {
        let mut rest = self.last_names.others.as_slice();
        'others: while let Some((place, before)) = rest.split_last() {
            if *place < from {
                return None;
            }
            let found = self.match_at(*place, path, is_dir);
            if found.is_some() {
                return found;
            }
            rest = before;
        }
        None
    }

    pub(crate) fn first(&self, count: usize) -> &[Pattern<A>]
        ensures { map pattern_value result.now ≡ take count (map pattern_value self.now.items.items) }
    {
        &self.items[..count.min(self.items.len())]
    }
}
