//! The outcomes of walks whose memory may be refused.
pub mod callbacks;
pub mod counting;
pub mod lines;
pub mod on_threads;
pub mod outcome;
pub mod turns;
