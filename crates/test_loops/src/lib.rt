//! Walks by what loops of `walkdir` use: filtered, sorted, skipped and contents first, read in three ways.
#![tactic(auto)]

#[cfg(test)]
mod calls;
#[cfg(test)]
mod skips;
#[cfg(test)]
mod table;
#[cfg(test)]
mod three_ways;
