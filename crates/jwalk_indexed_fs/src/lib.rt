//! A file system that lists a directory from an earlier listing while the directory's stamp is the same, one that keeps
//! such listings, and one that asks for the metadata of what it lists.
#![tactic(auto)]

pub mod asking_fs;
pub mod index;
pub mod indexed_fs;
mod item;
pub mod laws;
pub mod names;
pub mod recording_fs;
pub mod records;
pub mod stamp;
mod taken;
mod typed;
