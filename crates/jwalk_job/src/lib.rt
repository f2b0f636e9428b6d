//! One reading of a directory: a `job` lists it and gives a `read_dir`, by its `options`, the callback of
//! `process_read_dir`, and the `ancestors` that tell loops. Its items are a `dir_entry` or an `error`, each directory
//! with its `read_children`. A `read_dir_spec` says which directory is to be read.
#![tactic(auto)]

pub mod ancestors;
pub mod client_state;
pub mod dir_entry;
pub mod error;
pub mod item;
pub mod job;
pub mod laws;
mod metadata;
pub mod mode;
pub mod options;
pub mod process_read_dir;
pub mod read_children;
pub mod read_dir;
pub mod read_dir_spec;
mod sorting;
