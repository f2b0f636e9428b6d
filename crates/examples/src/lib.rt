//! Small programs to copy from, each in a module with a function `run`. The program `example` calls the one that it is
//! told.
#![tactic(auto)]

pub mod all_errors;
pub mod archive;
pub mod batch_walk;
pub mod branches;
pub mod changed;
pub mod crew_walk;
pub mod finder;
pub mod ignore_walk;
pub mod newest;
pub mod newest_first;
pub mod one_disk;
pub mod remove_tree;
pub mod snapshot;
pub mod sources;
pub mod to_csv;
pub mod totals;
pub mod unmarked;
pub mod usage_walk;
