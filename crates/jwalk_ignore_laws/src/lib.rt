//! The laws on which rules of ignore files are in force where, and on what walks yield by them.
#![tactic(auto)]

pub mod starts;
pub mod states;
pub mod twice;
pub mod walks;
