//! The rules of ignore files in git's format: how they are read, and what they say of a path. No walk is needed for that.
#![tactic(auto)]

pub mod pattern;
pub mod rules;

pub use rules::{chain, decision, memory_texts, real_texts, texts, with_excludes};
