//! Walks over file systems that fail, change or lie, over memory that runs out, and a crew under strain.
#![tactic(auto)]

#[cfg(test)]
mod by_crew;
#[cfg(test)]
mod gated;
#[cfg(test)]
mod refused;
#[cfg(test)]
mod rows;
#[cfg(test)]
mod strain;
#[cfg(test)]
mod unsteady;
