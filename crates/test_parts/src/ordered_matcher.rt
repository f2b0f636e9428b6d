//! The address that comes next.
use crate::given::address;
use jwalk_order::ordered::Ordered;
use jwalk_order::ordered_queue::OrderedMatcher;
use std::alloc::Global;

// The address must be the one that the matcher looks for.
fn passes(
    alloc: Global,
    matcher: &mut OrderedMatcher,
    indices: &[usize],
    child_count: usize,
) -> bool {
    let Some(path) = address(alloc, indices) else {
        return false;
    };
    if matcher.is_none() || path != *matcher.looking_for() {
        return false;
    }
    matcher
        .advance_past(&Ordered::new((), path, child_count))
        .is_ok()
}

// The number of roots, if it is told, and the addresses that come, each with its number of children.
type Row = (Option<usize>, &'static [(&'static [usize], usize)]);

// No address may be left after them.
fn passes_all(alloc: Global, (roots, addresses): &Row) -> Option<bool> {
    let made = match roots {
        Some(count) => OrderedMatcher::with_roots(alloc, *count),
        None => OrderedMatcher::new(alloc),
    };
    let mut matcher = made.ok()?;
    for (indices, child_count) in *addresses {
        if !passes(alloc, &mut matcher, indices, *child_count) {
            return Some(false);
        }
    }
    Some(matcher.is_none() && matcher.looking_for().is_empty())
}

// A root with two leaves, a leaf below the first child, two roots, and none.
#[test]
fn each_address_comes_after_the_one_before(rt: HostRuntime) {
    const ROWS: &[Row] = &[
        (None, &[(&[0], 2), (&[0, 0], 0), (&[0, 1], 0)]),
        (
            None,
            &[(&[0], 2), (&[0, 0], 1), (&[0, 0, 0], 0), (&[0, 1], 0)],
        ),
        (Some(2), &[(&[0], 0), (&[1], 0)]),
        (Some(0), &[]),
    ];
    for row in ROWS {
        assert_eq!(rt; passes_all(rt.alloc(), row), Some(true), "{:?}", row);
    }
}
