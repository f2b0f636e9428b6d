//! The laws that join what a walk's entries keep to what asking for it returns, and their totals.
#![tactic(auto)]

pub mod agreement;
pub mod totals;
pub mod trees;
