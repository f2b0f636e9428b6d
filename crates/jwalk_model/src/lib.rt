//! What a directory walk is: its definitions, in `specs/`, and the laws on lists that proofs cite.
#![tactic(auto)]

pub mod file_type;
pub mod kept;
pub mod laws;
pub mod metadata;
mod packed_details;
pub mod seen;
pub mod states;
