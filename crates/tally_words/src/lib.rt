//! The words of a call of `tally`, and what they ask for.
#![tactic(auto)]

pub mod asked;
mod command;
pub mod form;
pub mod refusal;
pub mod threshold;
pub mod unit;
pub mod words;
