//! Work and results of a tree, by address.
#![tactic(auto)]

pub mod board;
