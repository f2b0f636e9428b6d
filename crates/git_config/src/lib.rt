//! What git's configuration says.
#![tactic(auto)]

pub mod config;
mod place;
