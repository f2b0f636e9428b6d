//! What the program `walk` does with its words, its input, its output and a disk.
#![tactic(auto)]

mod answers;
mod asked_walk;
mod noting;
pub mod run;
mod source;
mod totals;
mod walk_printed;
