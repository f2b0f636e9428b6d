//! What is known of an entry, in columns in front of its path, over plain values.
#![tactic(auto)]

mod columns;
mod date;
pub mod details;
mod mode;
