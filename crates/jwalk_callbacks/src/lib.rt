//! Callbacks that are ready to use: a closure, a filter of entries, directories that aren't entered, and two callbacks,
//! one after the other.
#![tactic(auto)]

pub mod both;
pub mod by_fn;
pub mod calls;
pub mod filter_entry;
pub mod laws;
pub mod skip_names;
