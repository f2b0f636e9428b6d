//! An entry with everything below it.
use crate::numbers::Numbers;
use crate::rest::Rest;
use std::alloc::Global;

/// An entry with its results and its children.
#[derive(Drop)]
pub struct Node {
    /// The number of directories above it.
    pub depth: usize,
    /// Its name.
    pub name: String<Global>,
    /// The totals of it and everything below it.
    pub numbers: Numbers,
    /// Its children, the largest first.
    pub children: Vec<Node, Global>,
    /// Its children beyond those.
    pub rest: Rest,
}
