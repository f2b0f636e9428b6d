//! Ignore files in git's format: their rules, which paths they match, and a callback of walks that honours them.
#![tactic(auto)]

mod callback;

pub use callback::{builder, excluding, ignore_files, states};
pub use jwalk_ignore_rules::{
    chain, decision, memory_texts, pattern, real_texts, rules, texts, with_excludes,
};
