//! Where records come from, and what a walk over them yields, each shown by a function with a contract of its own.
#![tactic(auto)]

pub mod records;
pub mod walks;
