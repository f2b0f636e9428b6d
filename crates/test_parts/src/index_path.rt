//! Addresses in a heap, in a set and side by side.
use crate::given::{address, is};
use jwalk_order::index_path::IndexPath;
use std::alloc::Global;
use std::collections::BinaryHeap;

fn gives(heap: &mut BinaryHeap<IndexPath>, indices: &[usize]) -> bool {
    match heap.pop() {
        Some(address) => is(&address, indices),
        None => false,
    }
}

// Takes a root, its first child and its second from a greatest-first heap.
fn come_in_order(alloc: Global, lists: &[&[usize]]) -> Option<bool> {
    let mut heap = BinaryHeap::new(alloc);
    for indices in lists {
        heap.push(address(alloc, indices)?).ok()?;
    }
    Some(gives(&mut heap, &[0]) && gives(&mut heap, &[0, 0]) && gives(&mut heap, &[0, 1]))
}

#[test]
fn a_heap_gives_the_least_address_first(rt: HostRuntime) {
    const ORDERS: &[&[&[usize]]] = &[
        &[&[0], &[0, 0], &[0, 1]],
        &[&[0], &[0, 1], &[0, 0]],
        &[&[0, 0], &[0], &[0, 1]],
        &[&[0, 0], &[0, 1], &[0]],
        &[&[0, 1], &[0], &[0, 0]],
        &[&[0, 1], &[0, 0], &[0]],
    ];
    for lists in ORDERS {
        assert!(rt;
            come_in_order(rt.alloc(), lists) == Some(true),
            "{:?}",
            lists
        );
    }
}

// Goes from the root 0 down to its child 1, to the next child, and up again.
fn goes_about(address: &mut IndexPath) -> bool {
    if address.push(1).is_err() || !is(address, &[0, 1]) {
        return false;
    }
    address.increment_last();
    address.pop() == Some(2)
        && address.pop() == Some(0)
        && address.pop().is_none()
        && address.is_empty()
}

// Compares `adding` and `push`, over a number of indices, of which the greatest is first.
fn leads_down(alloc: Global, count: usize) -> Option<bool> {
    let mut indices = Vec::new(alloc);
    let mut added = address(alloc, &[])?;
    let mut pushed = address(alloc, &[])?;
    for index in (0..count).rev() {
        indices.push(index).ok()?;
        added = added.adding(index).ok()?;
        pushed.push(index).ok()?;
    }
    let copy = pushed.try_clone().ok()?;
    Some(is(&pushed, indices.as_slice()) && added == pushed && copy == pushed)
}

#[test]
fn an_address_goes_down_and_up_and_may_be_long(rt: HostRuntime) {
    let Some(mut root) = address(rt.alloc(), &[0]) else {
        panic!(rt; "memory is there")
    };
    assert!(rt; matches!(root.adding(2), Ok(child) if is(&child, &[0, 2])));
    assert!(rt; matches!(root.try_clone(), Ok(copy) if copy == root));
    assert!(rt; goes_about(&mut root));
    assert!(rt; leads_down(rt.alloc(), 300) == Some(true));
}
