//! Walks, and steps of the parts that they are built on, whose requests for memory are refused: each in turn, all from
//! each on, or all beyond a number of bytes.
mod board;
mod building;
mod bytes;
mod crew;
mod goes;
mod memory;
mod queue;
mod rehearsal;
mod rows;
mod threads;
mod turns;
mod within;
