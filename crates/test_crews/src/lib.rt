//! Walks over a crew, by worked examples and over trees made at random.
#![tactic(auto)]

#[cfg(test)]
mod acts;
#[cfg(test)]
mod blocking;
#[cfg(test)]
mod bound;
#[cfg(test)]
mod busy;
#[cfg(test)]
mod crewed;
#[cfg(test)]
mod early;
#[cfg(test)]
mod faults;
#[cfg(test)]
mod options;
#[cfg(test)]
mod own_crew;
#[cfg(test)]
mod random_trees;
#[cfg(test)]
mod random_walks;
#[cfg(test)]
mod readings;
#[cfg(test)]
mod rows;
#[cfg(test)]
mod serial;
#[cfg(test)]
mod skips;
#[cfg(test)]
mod together;
