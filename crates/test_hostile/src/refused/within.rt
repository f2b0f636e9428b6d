//! Requests for memory that are refused within a callback.
use crate::refused::goes::Play;
use crate::refused::rows::HANDED_ON;
use std::alloc::{Allocator, Global};
use std::sync::atomic::{AtomicUsize, Ordering};
use test_fixtures::refused::callbacks::{Callback, Texts};
use test_fixtures::refused::counting::Counting;
use test_fixtures::refused::outcome::{Outcome, WAYS};
use test_fixtures::refused::turns::MOST;
use test_fixtures::refusing_alloc::Refusing;
use test_fixtures::trees::tree;

/// Returns also how often the callback ran out of memory.
fn comes<A: Allocator + Copy>(alloc: Global, memory: A, play: Play<'_>) -> (Outcome, usize) {
    let within = AtomicUsize::new(0);
    let counting = Counting::new(Callback::HandsOnNames, &within);
    let came = play.comes_with::<Texts<A>, _, _>(alloc, memory, counting);
    (came, within.load(Ordering::SeqCst))
}

/// Returns how many of the requests, refused one at a time, are the callback's. Returns `None` if the first `next`,
/// which reads the list that the callback works on, or the start of the walk doesn't report one of them, or if a piece
/// isn't back.
fn refused_within(alloc: Global, play: Play<'_>) -> Option<usize> {
    let memory = Refusing::new(alloc);
    let mut refusals: usize = 0;
    for number in 1..MOST {
        memory.refuse(number, 1);
        match comes(alloc, &memory, play) {
            _ if memory.pieces() != 0 => return None,
            (_, 0) => {}
            (Outcome::Refused(0), 1) => refusals = refusals.saturating_add(1),
            _ => return None,
        }
        if memory.refused() == 0 {
            return Some(refusals);
        }
    }
    None
}

/// The requests of the callback. For the root it asks for the name alone, which has no state to copy, and for each of
/// the groups for a copy of the state and the name.
const REQUESTS: usize = 5;

#[test]
fn each_request_of_a_callback_is_refused_and_reported_by_that_next(rt: HostRuntime) {
    let fs = tree(rt.alloc(), HANDED_ON.steps);
    for (width, call) in WAYS {
        let refused = match &fs {
            Ok(fs) => {
                let play = Play {
                    fs,
                    row: &HANDED_ON,
                    width: *width,
                    call: *call,
                };
                refused_within(rt.alloc(), play)
            }
            Err(_) => None,
        };
        assert_eq!(rt; refused, Some(REQUESTS));
    }
}
