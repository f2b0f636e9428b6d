//! A file system in memory.
#![tactic(auto)]

pub mod build_error;
mod child;
mod directory;
mod hit;
pub mod memory_fs;
mod spot;
mod table;
