//! A walk under way: entries and errors in strict depth-first order.
//!
//! `entries` puts the items of any readings in order. `dir_entry_iter` names those over a `ReadDirIter`.
#![tactic(auto)]

pub mod dir_entry_iter;
pub mod entries;
mod skip;
