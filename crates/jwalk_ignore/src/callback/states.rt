//! A state of directories that is the rules in force.
ghost use Rattle.std.specs.Prelude.{◌≡◌};
ghost use Rattle.jwalk_ignore.specs.Rules.Chain.{no_rules};
ghost use Rattle.jwalk_ignore.specs.Callback.States.{rules_held};

use crate::rules::chain::Chain;
use std::alloc::AllocError;
use std::fmt::Debug;

/// The rules in force in a directory, as the whole state of it. The states of a walk with ignore files are
/// `(RulesState, E)`, unless another callback has states of directories too, or the walk another allocator.
#[derive(Drop, Debug)]
pub struct RulesState {
    /// The rules.
    pub chain: Chain,
}

/// The states of a walk whose callback keeps nothing beside the rules.
pub type OnlyRules = (RulesState, ());

/// No rules.
impl Default for RulesState {
    ghost is_default = { λ state. rules_held state ≡ no_rules };

    fn default() -> Self {
        RulesState {
            chain: Chain::default(),
        }
    }
}

/// A clone is a handle of the same rules. It fails only if memory runs out.
impl Clone for RulesState {
    ghost is_clone = { λ old new. rules_held new ≡ rules_held old };

    fn clone(&self) -> Result<Self, AllocError> {
        Ok(RulesState {
            chain: self.chain.clone()?,
        })
    }
}
