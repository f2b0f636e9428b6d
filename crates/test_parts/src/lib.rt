//! The parts that a walk is built on, by worked examples: path texts, the slot, file systems, the tree in memory, the
//! texts of the program, the order and the board, and readings over a board and by a crew.
#![tactic(auto)]

#[cfg(test)]
mod batch_reads;
#[cfg(test)]
mod board;
#[cfg(test)]
mod board_walk;
#[cfg(test)]
mod child_addresses;
#[cfg(test)]
mod crew_walk;
#[cfg(test)]
mod file_system;
#[cfg(test)]
mod given;
#[cfg(test)]
mod index_path;
#[cfg(test)]
mod levels;
#[cfg(test)]
mod metadata;
#[cfg(test)]
mod ordered_matcher;
#[cfg(test)]
mod ordered_queue;
#[cfg(test)]
mod path_text;
#[cfg(test)]
mod rehearsal;
#[cfg(test)]
mod rehearsal_sizes;
#[cfg(test)]
mod sinks;
#[cfg(test)]
mod slot;
#[cfg(test)]
mod texts;
#[cfg(test)]
mod tree_in_memory;
