//! Readings of a tree in preorder, over a board.
#![tactic(auto)]

mod batch;
pub mod board_walk;
mod pieces;
pub mod read;
pub mod whole;
