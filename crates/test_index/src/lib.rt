//! Listings from records, and the records that are kept, by worked examples.
#![tactic(auto)]

#[cfg(test)]
mod asked;
#[cfg(test)]
mod bad_names;
#[cfg(test)]
mod folder;
#[cfg(test)]
mod of_snapshot;
#[cfg(test)]
mod recorded;
#[cfg(test)]
mod served;
