//! Premises of the library's promises that no other crate meets, each met by a function that is as small as it can be.
#![tactic(auto)]

pub mod bound;
pub mod callbacks;
pub mod own_readers;
pub mod states;
