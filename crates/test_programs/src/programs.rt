//! Calls of the programs over one disk.
pub(crate) mod clock;
pub(crate) mod counts;
pub(crate) mod disk;
pub(crate) mod input;
mod outcome;
mod output;
pub(crate) mod rows;
pub(crate) mod run;
pub(crate) mod told;
