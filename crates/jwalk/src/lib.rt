//! Directory walks in strict depth-first order: what a directory holds comes right after it, before its next sibling.
//!
//! A walk takes a file system, a root and options, and yields entries and errors. The order is the same whichever way
//! the walk reads. A directory that could not be read is still yielded, with its error inside.
//!
//! ```text
//! for answer in WalkDir::at(&rt, "/usr")?.sort(true) {
//!     println!(rt; "{}", answer?.path()?)?;
//! }
//! ```
#![tactic(auto)]

pub mod crew;
pub mod file_system;
mod host;
pub mod read_dir;
mod walk_dir;

pub use crew::{Crew, NoCrew, Readers};
pub use host::Host;
pub use jwalk_board::board;
pub use jwalk_fs::path_text;
pub use jwalk_iter::dir_entry_iter::DirEntryIter;
pub use jwalk_iter::{dir_entry_iter, entries};
pub use jwalk_job::client_state::ClientState;
pub use jwalk_job::dir_entry::{DirEntry, ReadChildren};
pub use jwalk_job::error::{Error, Result};
pub use jwalk_job::options::Options;
pub use jwalk_job::{dir_entry, error};
pub use jwalk_order::{index_path, ordered, ordered_queue};
pub use jwalk_readings::parallelism::Parallelism;
pub use jwalk_readings::{read_dir_iter, readings};
pub use walk_dir::{WalkDir, WalkDirGeneric};
