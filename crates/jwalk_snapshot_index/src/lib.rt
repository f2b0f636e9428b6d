//! The records that a snapshot has of directories, for a file system that lists from them.
#![tactic(auto)]

pub mod error;
pub mod read;
pub mod records;
