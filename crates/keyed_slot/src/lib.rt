//! A value that threads take out and put back, of which the holder of a key knows a mark.
#![tactic(auto)]

pub mod marked;
mod rule;
pub mod slot;
