//! The answers of walks and of their readings, by worked examples, and the cases of their callers: states, `for` loops,
//! getters, errors and their texts, walks of size, and totals.
#![tactic(auto)]

#[cfg(test)]
mod callers;
#[cfg(test)]
mod error_texts;
#[cfg(test)]
mod errors;
#[cfg(test)]
mod found;
#[cfg(test)]
mod getters;
#[cfg(test)]
mod rows;
#[cfg(test)]
mod sizes;
#[cfg(test)]
mod totals;
#[cfg(test)]
mod walks;
#[cfg(test)]
mod wide;
