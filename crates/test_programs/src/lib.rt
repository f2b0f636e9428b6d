//! What rows of text files can't say of the programs `walk`, `seek` and `tally`, and walks over the disk.
#![tactic(auto)]

#[cfg(test)]
mod disk;
#[cfg(test)]
mod parts;
#[cfg(test)]
mod programs;
#[cfg(test)]
mod seek;
#[cfg(test)]
mod tally;
#[cfg(test)]
mod walk;
