//! Trees of directories.
use std::alloc::Global;

/// A tree as the numbers of its children.
#[derive(Drop)]
pub struct Tree {
    pub roots: usize,
    /// The number of children of each directory, in preorder.
    pub child_counts: Vec<usize>,
}

/// Returns how many directories are at and below each root of a tree of `count` directories.
fn root_sizes(alloc: Global, shape: &str, count: usize) -> Option<Vec<usize>> {
    match shape {
        "wide" | "bushy" => vec![in alloc; count].ok(),
        "chains" => vec![in alloc; 100; count / 100].ok(),
        _ => None,
    }
}

/// The shares are as equal as possible. Those of none are left out.
fn ten_shares(alloc: Global, count: usize) -> Option<Vec<usize>> {
    let mut shares = Vec::new(alloc);
    for i in 0..count.min(10) {
        shares.push(count / 10 + usize::from(i < count % 10)).ok()?;
    }
    Some(shares)
}

/// Returns how many directories are at and below each child of a directory with `below` below it. In a `wide` tree one
/// directory has all others. In a `bushy` tree each directory has ten as long as there are enough. In `chains` a
/// hundred are nested.
fn child_sizes(alloc: Global, shape: &str, below: usize) -> Option<Vec<usize>> {
    match shape {
        "wide" => vec![in alloc; 1; below].ok(),
        "bushy" => ten_shares(alloc, below),
        _ if below > 0 => vec![in alloc; below].ok(),
        _ => Some(Vec::new(alloc)),
    }
}

impl Tree {
    /// Returns a tree of `count` directories. Only whole chains are made.
    pub fn new(alloc: Global, shape: &str, count: usize) -> Option<Self> {
        let mut sizes = root_sizes(alloc, shape, count)?;
        let roots = sizes.len();
        let mut child_counts = Vec::new(alloc);
        for _directory in 0..count {
            let Some(size) = sizes.pop() else {
                break;
            };
            let mut below = child_sizes(alloc, shape, size.saturating_sub(1))?;
            child_counts.push(below.len()).ok()?;
            below.reverse();
            sizes.append(&mut below).ok()?;
        }
        Some(Tree {
            roots,
            child_counts,
        })
    }
}
