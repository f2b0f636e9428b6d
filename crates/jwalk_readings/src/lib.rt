//! The readings of a walk's directories in preorder, whoever makes them.
//!
//! - `readings` is the trait: the next reading, and what stays the same meanwhile.
//! - Those of a walk's own are `batch_reads`, which are made in turn or on threads. `crew_reads` are made ahead by
//!   others, and `readers` give them. `read_dir_iter` is either of them, and `parallelism` says which.
//! - Those of a crew are its `session`: its workers hand in each reading as a `message`, `wanted` says which one a walk
//!   waits for, and `arrival` asks a board for it. `origin` is where they come from.
#![tactic(auto)]

pub mod arrival;
pub mod batch_reads;
pub mod crew_reads;
pub mod message;
pub mod origin;
pub mod parallelism;
pub mod read_dir_iter;
pub mod readers;
pub mod readings;
pub mod session;
pub mod wanted;
