//! The standard library's heap alone.
use crate::digest::Digest;
use crate::tree::Tree;
use std::alloc::Global;
use std::cmp::Reverse;
use std::collections::BinaryHeap;

/// Pushes all addresses and then pops them all.
pub fn run_heap(alloc: Global, addresses: Vec<Vec<usize>>) -> Option<Digest> {
    let count = addresses.len();
    let mut heap = BinaryHeap::new(alloc);
    for indices in addresses {
        heap.push(Reverse(indices)).ok()?;
    }
    let mut digest = Digest::new();
    for _address in 0..count {
        let Reverse(indices) = heap.pop()?;
        digest.add(indices.as_slice());
    }
    Some(digest)
}

fn push_child(
    heap: &mut BinaryHeap<Reverse<Vec<usize>>>,
    alloc: Global,
    parent: &[usize],
    index: usize,
) -> Option<()> {
    let mut indices = Vec::with_capacity(alloc, parent.len() + 1).ok()?;
    indices.extend_from_slice(parent).ok()?;
    indices.push(index).ok()?;
    heap.push(Reverse(indices)).ok()
}

/// Pushes the roots of a tree, and then pops each directory and pushes its children.
pub fn run_tree_heap(alloc: Global, tree: &Tree) -> Option<Digest> {
    let mut heap = BinaryHeap::new(alloc);
    for i in 0..tree.roots {
        push_child(&mut heap, alloc, &[], i)?;
    }
    let mut digest = Digest::new();
    for count in tree.child_counts.iter() {
        let Reverse(indices) = heap.pop()?;
        digest.add(indices.as_slice());
        for i in 0..*count {
            push_child(&mut heap, alloc, indices.as_slice(), i)?;
        }
    }
    Some(digest)
}
