//! The file system that a runtime reaches.
#![tactic(auto)]

pub mod disk_calls;
mod listing;
pub mod patient;
pub mod real_fs;
mod seen;
mod texts;
