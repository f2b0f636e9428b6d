//! Addresses in a pseudo-random order.
use std::alloc::Global;

/// Returns the address of a node. The nodes of a tree have numbers from 0 on, level by level, and each has ten
/// children.
fn address(alloc: Global, number: usize) -> Option<Vec<usize>> {
    let mut indices = Vec::new(alloc);
    let mut node = number;
    while node > 0 {
        indices.push((node - 1) % 10).ok()?;
        node = (node - 1) / 10;
    }
    indices.push(0).ok()?;
    indices.reverse();
    Some(indices)
}

/// Returns the addresses of the first nodes, in a pseudo-random order that is always the same.
pub fn scrambled_addresses(alloc: Global, count: usize) -> Option<Vec<Vec<usize>>> {
    let mut addresses = Vec::new(alloc);
    let mut state: u64 = 1;
    for number in 0..count {
        addresses.push(address(alloc, number)?).ok()?;
        state = state
            .wrapping_mul(6364136223846793005)
            .wrapping_add(1442695040888963407);
        let last = addresses.len() - 1;
        addresses.swap(last, (state >> 33) as usize % addresses.len());
    }
    Some(addresses)
}
