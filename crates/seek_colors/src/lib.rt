//! The colors of printed paths, by the value of `LS_COLORS`.
#![tactic(auto)]

mod entries;
pub mod kind;
mod painted;
pub mod palette;
mod table;
