//! The rules of one file, among those in force.
ghost use Rattle.std.specs.Prelude.{◌≡◌, drop};

use crate::rules::Rules;
use crate::rules::decision::Decision;
use std::alloc::{Allocator, Global};

/// The rules of one file, with how much of a path is before the part that they match.
#[derive(Drop)]
#[derive_where(Debug)]
pub struct Link<A: Allocator + Copy = Global> {
    before: usize,
    #[derive_where(skip)]
    rules: Rules<A>,
}

pub(crate) fn behind(path: &[u8], before: usize) -> &[u8]
    ensures { result.now ≡ drop before path.now }
{
    if before <= path.len() {
        &path[before..]
    } else {
        &[]
    }
}

impl<A: Allocator + Copy> Link<A> {
    ghost use Rattle.jwalk_ignore_rules.specs.Rules.Chain.{link_says};
    ghost use Rattle.jwalk_ignore_rules.specs.Rules.ChainViews.{link_value};
    ghost use Rattle.jwalk_ignore_rules.specs.Rules.{rules_value};

    /// Returns the rules of a file, which match what is behind this many bytes of a path.
    pub fn new(before: usize, rules: Rules<A>) -> Self
        ensures { link_value result ≡ record { before = before; patterns = rules_value rules } }
    {
        Link { before, rules }
    }

    #[tactic(auto, using(crate::proofs::MatchingFacts::says_computed))]
    pub(crate) fn decision(&self, path: &[u8], is_dir: bool) -> Decision
        ensures { result ≡ link_says (link_value self.now) path.now is_dir }
    {
        self.rules.decision(behind(path, self.before), is_dir)
    }
}
