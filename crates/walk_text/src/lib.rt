//! The texts of the program: the words that ask for a walk, the lines that a tree is built from, and the lines that
//! answers are printed as.
#![tactic(auto)]

pub mod asked;
pub mod failure;
pub mod input;
mod lines;
mod number;
pub mod print;
pub mod read_by;
pub mod tree;
mod tree_line;
pub mod words;
