//! The steps of a queue by address and of its matcher.
use crate::refused::memory::{Memory, Play, Player, all_are_right, is};
use jwalk_order::ordered::Ordered;
use jwalk_order::ordered_queue::{OrderedMatcher, OrderedQueue, Ordering, Step};

type Queue<'m> = OrderedQueue<(), Memory<'m>>;

type Item<'m> = Ordered<(), Memory<'m>>;

/// The first attempt has a request refused, and must hand the item back and change nothing then. The second has all
/// granted.
fn lets_in<'m>(player: &Player<'m>, queue: &mut Queue<'m>, item: Item<'m>) -> bool {
    let before = queue.pending();
    if before > 1_000 {
        return false;
    }
    player.refuse();
    let first = queue.push(item);
    player.grant();
    match first {
        Ok(()) => true,
        Err(item) => queue.pending() == before && before < 1_001 && queue.push(item).is_ok(),
    }
}

fn gives(player: &Player<'_>, queue: &mut Queue<'_>, wanted: Option<&[usize]>) -> bool {
    player.refuse();
    let first = queue.iter().step();
    player.grant();
    let step = match first {
        Ok(step) => step,
        Err(_) => match queue.iter().step() {
            Ok(step) => step,
            Err(_) => return false,
        },
    };
    match step {
        Step::Item(item) => matches!(wanted, Some(indices) if is(&item.index_path, indices)),
        Step::Empty => wanted.is_none(),
        Step::Done => false,
    }
}

/// A push of an item at an address with a number of children, or a step.
enum Turn {
    LetsIn(&'static [usize], usize),
    Gives(Option<&'static [usize]>),
}

fn goes<'m>(player: &Player<'m>, queue: &mut Queue<'m>, turn: &Turn) -> bool {
    match turn {
        Turn::LetsIn(indices, children) => match player.address(*indices) {
            Some(address) => lets_in(player, queue, Ordered::new((), address, *children)),
            None => false,
        },
        Turn::Gives(wanted) => gives(player, queue, *wanted),
    }
}

const RELAXED: &[Turn] = &[
    Turn::LetsIn(&[0, 1], 0),
    Turn::LetsIn(&[0], 0),
    Turn::LetsIn(&[0, 0], 0),
    Turn::Gives(Some(&[0])),
    Turn::Gives(Some(&[0, 0])),
    Turn::Gives(Some(&[0, 1])),
    Turn::Gives(None),
];

const STRICT: &[Turn] = &[
    Turn::LetsIn(&[0, 0], 0),
    Turn::Gives(None),
    Turn::LetsIn(&[0], 1),
    Turn::Gives(Some(&[0])),
    Turn::Gives(Some(&[0, 0])),
];

struct OfQueue(Ordering, &'static [Turn]);

impl Play for OfQueue {
    fn is_right(&self, player: &Player<'_>) -> bool {
        let Ok(mut queue) = OrderedQueue::new(player.memory, self.0) else {
            return false;
        };
        for turn in self.1 {
            if !goes(player, &mut queue, turn) {
                return false;
            }
        }
        true
    }
}

/// The first attempt has a request refused, the second has all granted.
fn passes<'m>(
    player: &Player<'m>,
    matcher: &mut OrderedMatcher<Memory<'m>>,
    indices: &[usize],
    children: usize,
) -> bool {
    let Some(address) = player.address(indices) else {
        return false;
    };
    if matcher.is_none() || address != *matcher.looking_for() {
        return false;
    }
    let item = Ordered::new((), address, children);
    player.refuse();
    let first = matcher.advance_past(&item);
    player.grant();
    first.is_ok()
        || (item.index_path == *matcher.looking_for() && matcher.advance_past(&item).is_ok())
}

/// Deep enough that the matcher's memory has to grow.
const PASSED: &[(&[usize], usize)] = &[
    (&[0], 2),
    (&[0, 0], 1),
    (&[0, 0, 0], 1),
    (&[0, 0, 0, 0], 1),
    (&[0, 0, 0, 0, 0], 1),
    (&[0, 0, 0, 0, 0, 0], 1),
    (&[0, 0, 0, 0, 0, 0, 0], 1),
    (&[0, 0, 0, 0, 0, 0, 0, 0], 1),
    (&[0, 0, 0, 0, 0, 0, 0, 0, 0], 0),
    (&[0, 1], 0),
];

struct OfMatcher;

impl Play for OfMatcher {
    fn is_right(&self, player: &Player<'_>) -> bool {
        let Ok(mut matcher) = OrderedMatcher::new(player.memory) else {
            return false;
        };
        for (indices, children) in PASSED {
            if !passes(player, &mut matcher, *indices, *children) {
                return false;
            }
        }
        matcher.is_none()
    }
}

#[test]
fn each_step_of_a_queue_and_of_its_matcher_is_refused_and_made_again(rt: HostRuntime) {
    assert!(rt; all_are_right(rt.alloc(), &OfQueue(Ordering::Relaxed, RELAXED)));
    assert!(rt; all_are_right(rt.alloc(), &OfQueue(Ordering::Strict, STRICT)));
    assert!(rt; all_are_right(rt.alloc(), &OfMatcher));
}
