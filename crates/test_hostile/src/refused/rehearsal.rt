//! A rehearsal of a small family.
use crate::refused::memory::{Memory, Play, Player, all_are_right, is};
use jwalk_board::board::{Rehearsal, rehearse};
use test_fixtures::family::{Family, MOVES};

/// In the order in which they are taken.
const TAKEN: &[&[usize]] = &[&[0], &[0, 0], &[0, 1], &[0, 0, 0]];

/// The address, the value and the number of children of each.
const HANDED_OUT: &[(&[usize], u8, usize)] = &[
    (&[0], 0, 2),
    (&[0, 0], 1, 1),
    (&[0, 0, 0], 3, 0),
    (&[0, 1], 2, 0),
];

fn are_taken(made: &Rehearsal<u8, u8, Memory<'_>>) -> bool {
    for (path, indices) in made.taken.iter().zip(TAKEN) {
        if !is(path, indices) {
            return false;
        }
    }
    made.taken.len() == TAKEN.len()
}

fn are_handed_out(made: &Rehearsal<u8, u8, Memory<'_>>) -> bool {
    for (item, (indices, value, children)) in made.handed_out.iter().zip(HANDED_OUT) {
        let is_there = is(&item.index_path, indices);
        if !is_there || item.value != *value || item.child_count() != *children {
            return false;
        }
    }
    made.handed_out.len() == HANDED_OUT.len() && made.board.pending() == 0
}

struct OfRehearsal;

impl Play for OfRehearsal {
    fn is_right(&self, player: &Player<'_>) -> bool {
        let Ok(roots) = Vec::from_slice(player.memory, &[0]) else {
            return false;
        };
        player.refuse();
        let made = rehearse(player.memory, &Family, roots, 2, MOVES);
        let is_refused = player.memory.refused() > 0;
        player.grant();
        match &made {
            Ok(made) => !is_refused && are_taken(made) && are_handed_out(made),
            Err(_) => is_refused,
        }
    }
}

#[test]
fn a_rehearsal_is_refused_or_whole(rt: HostRuntime) {
    assert!(rt; all_are_right(rt.alloc(), &OfRehearsal));
}
