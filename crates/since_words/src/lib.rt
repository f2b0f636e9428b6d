//! The words of a call of `since`, and what they ask for.
#![tactic(auto)]

pub mod asked;
mod command;
pub mod words;
