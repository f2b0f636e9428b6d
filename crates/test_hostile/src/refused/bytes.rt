//! Walks over heaps of every size.
use crate::refused::goes::Play;
use crate::refused::rows::ROWS;
use linked_list_allocator::LocalHeap;
use std::alloc::Global;
use test_fixtures::refused::outcome::{Outcome, WAYS};
use test_fixtures::trees::tree;

/// The greatest heap, in pieces of 64 bytes.
const GREATEST: usize = 1_000;

/// All of the heap must be free again afterwards.
fn comes_over(alloc: Global, size: usize, play: Play<'_>) -> Outcome {
    let Ok(heap) = LocalHeap::new(alloc, size) else {
        return Outcome::Wrong;
    };
    let before = heap.used();
    let came = play.comes_over(alloc, &heap);
    if heap.used() == before {
        came
    } else {
        Outcome::Wrong
    }
}

/// Returns the size of the first heap over which the walk comes out wrong. The heaps grow until the walk comes out
/// whole, and the first five must be too small.
fn first_wrong(alloc: Global, play: Play<'_>) -> Option<usize> {
    for pieces in 1..GREATEST {
        let size = pieces.wrapping_mul(64);
        match comes_over(alloc, size, play) {
            Outcome::Whole if pieces > 5 => return None,
            Outcome::Refused(_) => {}
            _ => return Some(size),
        }
    }
    Some(usize::MAX)
}

#[test]
fn a_limit_on_bytes(rt: HostRuntime) {
    for (number, row) in ROWS.iter().enumerate() {
        let fs = tree(rt.alloc(), row.steps);
        for (width, call) in WAYS {
            let wrong = match &fs {
                Ok(fs) => {
                    let play = Play {
                        fs,
                        row,
                        width: *width,
                        call: *call,
                    };
                    first_wrong(rt.alloc(), play)
                }
                Err(_) => Some(0),
            };
            assert_eq!(rt; wrong, None, "row {number}");
        }
    }
}
