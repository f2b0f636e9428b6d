//! The ordered queue, and the board with one worker.
use crate::digest::Digest;
use crate::tree::Tree;
use jwalk_board::board::Board;
use jwalk_order::index_path::IndexPath;
use jwalk_order::ordered::Ordered;
use jwalk_order::ordered_queue::{OrderedQueue, Ordering};
use std::alloc::Global;

/// Pushes an item at each address, and then takes them all.
pub fn run_queue(alloc: Global, addresses: Vec<Vec<usize>>) -> Option<Digest> {
    let count = addresses.len();
    let mut queue = OrderedQueue::new(alloc, Ordering::Relaxed).ok()?;
    let mut rest = addresses.into_iter();
    for value in 0..count {
        let indices = rest.next()?;
        queue
            .push(Ordered::new(value, IndexPath::new(indices), 0))
            .ok()?;
    }
    let mut digest = Digest::new();
    for item in queue.iter() {
        digest.add(item.index_path.indices.as_slice());
    }
    Some(digest)
}

/// Takes each directory of a tree, finishes it with its children and hands it out.
pub fn run_board(alloc: Global, tree: &Tree) -> Option<Digest> {
    let mut board = Board::new(vec![in alloc; 0; tree.roots].ok()?).ok()?;
    let mut digest = Digest::new();
    for count in tree.child_counts.iter() {
        let taken = board.take().ok()?;
        let children = vec![in alloc; 0; *count].ok()?;
        board.finish(taken.index_path, taken.value, children).ok()?;
        digest.add(board.hand_out().ok()?.index_path.indices.as_slice());
    }
    Some(digest)
}
