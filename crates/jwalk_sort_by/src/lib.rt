//! A callback that sorts the entries of each directory by a comparison or a key: by time, by size, by type, by the
//! number in a name.
//!
//! ```text
//! let by_length = SortBy::key(|entry: &DirEntry<((), ())>| entry.file_name().len());
//! let walk = WalkDir::at(&rt, "/usr")?.process_read_dir(by_length).into_iter();
//! ```
#![tactic(auto)]

pub mod compares;
pub mod laws;
pub mod sort_by;

pub use sort_by::SortBy;
