//! A crew of workers that reads a tree ahead, whatever the tree is of.
//!
//! A `Plan` says what the tree is: how a specification is read, and which specifications are below it. Threads make the
//! readings ahead, up to a limit. Whoever started them takes the readings in preorder: each one before those of what is
//! below it.
#![tactic(auto)]

pub mod arrival;
mod board_tag;
pub mod crew;
mod hand_in;
pub mod incomplete;
pub mod message;
pub mod origin;
pub mod places;
mod read_ahead;
pub mod session;
mod shared;
mod sleepers;
mod steps;
mod waiting;
pub mod whole;
mod work;
mod worker;
