//! What the program `since` does with its words and a disk: it compares what is below a root with a snapshot, or lists it.
#![tactic(auto)]

mod call;
mod choice;
mod compare;
mod find;
mod lines;
mod rows;
pub mod run;
pub mod screen;
pub mod store;
mod style;
mod walks;
