//! What the walks of `seek` and `tally` begin with: their crew, and the roots below which it reads.
#![tactic(auto)]

pub mod crew;
pub mod folders;
