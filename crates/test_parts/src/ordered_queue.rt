//! Queues by address.
use crate::given::{address, is};
use jwalk_order::ordered::Ordered;
use jwalk_order::ordered_queue::{OrderedQueue, Ordering, Step};
use std::alloc::Global;

// The outcome of a step.
#[derive(Clone, Copy)]
enum Next<'a> {
    // The item at this address.
    Item(&'a [usize]),
    // No item yet.
    Nothing,
    // No item any more.
    End,
}

// A call on a queue, with its outcome.
enum Turn {
    // Lets in an item at this address, with a number of children.
    LetsIn(&'static [usize], usize),
    Gives(Next<'static>),
    Pends(usize),
    // Completes everything that is pending.
    Completes,
    Stops,
    // Asks an iterator whether it has one more.
    HasNext(bool),
    Reserves(usize),
    // Lets in a number of children of a root, the last first, and takes them in order.
    SortsChildren(usize),
    // Lets in only children of only children, the last first, and takes them in order.
    SortsChain,
}

// The turns. None of them promises anything: a test that calls the queue itself carries each call's contract to its
// end.

fn lets_in(
    queue: &mut OrderedQueue<()>,
    alloc: Global,
    indices: &[usize],
    children: usize,
) -> bool {
    match address(alloc, indices) {
        Some(path) => {
            let item = Ordered::new((), path, children);
            queue.pending() < usize::MAX && queue.push(item).is_ok()
        }
        None => false,
    }
}

fn gives(queue: &mut OrderedQueue<()>, wanted: Next<'_>) -> bool {
    match queue.iter().step() {
        Ok(Step::Item(item)) => {
            matches!(wanted, Next::Item(indices) if is(&item.index_path, indices))
        }
        Ok(Step::Empty) => matches!(wanted, Next::Nothing),
        Ok(Step::Done) => matches!(wanted, Next::End),
        Err(_) => false,
    }
}

fn completes(queue: &mut OrderedQueue<()>) -> bool {
    for _ in 0..queue.pending() {
        if queue.pending() > 0 {
            queue.complete_item();
        }
    }
    queue.pending() == 0
}

fn sorts_children(queue: &mut OrderedQueue<()>, alloc: Global, count: usize) -> bool {
    for i in (0..count).rev() {
        if !lets_in(queue, alloc, &[0, i], 0) {
            return false;
        }
    }
    for i in 0..count {
        if !gives(queue, Next::Item(&[0, i])) {
            return false;
        }
    }
    true
}

// Lets in the only children above the address.
fn sorts_chain(queue: &mut OrderedQueue<()>, alloc: Global, indices: &[usize]) -> bool {
    for length in (1..indices.len()).rev() {
        if !lets_in(queue, alloc, &indices[..length], 1) {
            return false;
        }
    }
    for length in 1..indices.len() {
        if !gives(queue, Next::Item(&indices[..length])) {
            return false;
        }
    }
    true
}

fn goes(queue: &mut OrderedQueue<()>, alloc: Global, turn: &Turn) -> bool {
    match turn {
        Turn::LetsIn(indices, children) => lets_in(queue, alloc, indices, *children),
        Turn::Gives(wanted) => gives(queue, *wanted),
        Turn::Pends(count) => queue.pending() == *count,
        Turn::Completes => completes(queue),
        Turn::Stops => {
            queue.stop();
            true
        }
        Turn::HasNext(wanted) => queue.iter().next().is_some() == *wanted,
        Turn::Reserves(count) => queue.reserve(*count).is_ok(),
        Turn::SortsChildren(count) => sorts_children(queue, alloc, *count),
        Turn::SortsChain => sorts_chain(queue, alloc, [0; 300].as_slice()),
    }
}

// What a row shows, the order of the queue, the number of its roots, if it is told, and the turns.
type Row = (&'static str, Ordering, Option<usize>, &'static [Turn]);

// Returns the number of the first turn that is wrong.
fn first_wrong(alloc: Global, (_, ordering, roots, turns): &Row) -> Option<usize> {
    let made = match roots {
        Some(count) => OrderedQueue::with_roots(alloc, *ordering, *count),
        None => OrderedQueue::new(alloc, *ordering),
    };
    let Ok(mut queue) = made else {
        return Some(0);
    };
    for (number, turn) in turns.iter().enumerate() {
        if !goes(&mut queue, alloc, turn) {
            return Some(number);
        }
    }
    None
}

const ROWS: &[Row] = &[
    (
        "a relaxed queue gives the least that is there",
        Ordering::Relaxed,
        None,
        &[
            Turn::LetsIn(&[0, 1], 0),
            Turn::LetsIn(&[0], 0),
            Turn::LetsIn(&[0, 0], 0),
            Turn::Gives(Next::Item(&[0])),
            Turn::Gives(Next::Item(&[0, 0])),
            Turn::Gives(Next::Item(&[0, 1])),
            Turn::Gives(Next::Nothing),
            Turn::Pends(3),
            Turn::Completes,
            Turn::Gives(Next::End),
        ],
    ),
    (
        "a strict queue waits for the next address",
        Ordering::Strict,
        None,
        &[
            Turn::LetsIn(&[0, 0], 0),
            Turn::Gives(Next::Nothing),
            Turn::LetsIn(&[0], 1),
            Turn::Gives(Next::Item(&[0])),
            Turn::Gives(Next::Item(&[0, 0])),
            Turn::Gives(Next::End),
            Turn::Pends(2),
        ],
    ),
    (
        "a second item at a passed address holds a strict queue up",
        Ordering::Strict,
        None,
        &[
            Turn::LetsIn(&[0], 1),
            Turn::LetsIn(&[0], 1),
            Turn::LetsIn(&[0, 0], 0),
            Turn::Gives(Next::Item(&[0])),
            Turn::Gives(Next::Nothing),
        ],
    ),
    (
        "a queue without roots yields nothing",
        Ordering::Strict,
        Some(0),
        &[Turn::Gives(Next::End)],
    ),
    (
        "nothing comes after a stop",
        Ordering::Relaxed,
        None,
        &[Turn::LetsIn(&[0], 0), Turn::Stops, Turn::Gives(Next::End)],
    ),
    (
        "an iterator gives what can come",
        Ordering::Strict,
        None,
        &[
            Turn::LetsIn(&[0, 1], 0),
            Turn::LetsIn(&[0], 2),
            Turn::HasNext(true),
            Turn::HasNext(false),
            Turn::Gives(Next::Nothing),
        ],
    ),
    (
        "many pushes succeed after a reserve",
        Ordering::Relaxed,
        None,
        &[Turn::Reserves(3000), Turn::SortsChildren(3000)],
    ),
    (
        "a strict queue gives a long chain",
        Ordering::Strict,
        None,
        &[Turn::SortsChain, Turn::Gives(Next::Nothing)],
    ),
];

#[test]
fn queues_go_turn_by_turn(rt: HostRuntime) {
    for row in ROWS {
        assert_eq!(rt; first_wrong(rt.alloc(), row), None, "{}", row.0);
    }
}

// Reserves two first.
fn takes_two(alloc: Global) -> Option<bool> {
    let first = Ordered::new((), address(alloc, &[0])?, 0);
    let second = Ordered::new((), address(alloc, &[0, 0])?, 0);
    let mut queue = OrderedQueue::new(alloc, Ordering::Relaxed).ok()?;
    if queue.reserve(2).is_err() {
        return Some(false);
    }
    let first = queue.push(first).is_ok();
    prove!(first);
    let second = queue.push(second).is_ok();
    prove!(second);
    Some(first && second)
}

#[test]
fn two_pushes_succeed_after_a_reserve_of_two(rt: HostRuntime) {
    assert!(rt; takes_two(rt.alloc()) == Some(true));
}
