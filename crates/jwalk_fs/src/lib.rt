//! What a walk needs of a file system, and path texts, taken apart and put together as `std::path` does on Unix.
#![tactic(auto)]

pub mod fault;
pub mod file_system;
pub mod listed;
pub mod path_text;
pub mod place;
pub mod sink;
