//! The decisions of ignore files on paths and trees, compared with git's, in each way of reading.
#![tactic(auto)]

#[cfg(test)]
mod left;
#[cfg(test)]
mod planted;
#[cfg(test)]
mod refused;
#[cfg(test)]
mod rows;
#[cfg(test)]
mod rules;
#[cfg(test)]
mod trees;
#[cfg(test)]
mod walks;
