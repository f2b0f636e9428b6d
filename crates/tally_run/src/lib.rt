//! What the program `tally` does with its words and a disk: it counts what is below each root, and writes the results.
#![tactic(auto)]

mod counting;
mod exclude_files;
mod failure;
mod followed_root;
mod one_device;
mod progress;
mod report;
mod results;
mod roots;
pub mod run;
pub mod screen;
mod shown;
mod walks;
