//! Walks with callbacks and their answers, each read in every way.
mod callback;
mod refusals;
mod rows;
mod table;
