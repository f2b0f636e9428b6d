//! Addresses in a tree, a queue that gives what is at the least address first, and what a board is made of: queues of
//! siblings, heaps and sets by address.
#![tactic(auto)]

pub mod address_heap;
pub mod address_set;
pub mod index_path;
pub mod ordered;
pub mod ordered_queue;
pub mod sibling_queue;
