//! The value of a slot, taken and put back, without the key and with it.
ghost use Rattle.std.specs.Prelude.{◌≤◌};

use keyed_slot::marked::Marked;
use keyed_slot::slot::KeyedSlot;
use std::alloc::Global;

/// A number that is at most its tag. It is its own mark.
#[derive(Drop)]
struct Small(u64);

impl Marked for Small {
    type Tag = u64;

    type Mark = u64;

    ghost fits = { λ most x. x.0 ≤ most };

    ghost mark = { λ x. x.0 };
}

/// Puts the value back at once.
fn is_there(slot: &KeyedSlot<Small>) -> bool {
    match slot.take() {
        Ok((value, loan)) => {
            slot.put_back(value, loan);
            true
        }
        Err(_) => false,
    }
}

/// Takes the value once more after it was put back.
fn is_taken_and_put_back(slot: &KeyedSlot<Small>) -> bool {
    let Ok((value, loan)) = slot.take() else {
        return false;
    };
    let was_there = value.0 == 3 && !is_there(slot);
    slot.put_back(value, loan);
    was_there && is_there(slot)
}

/// The new mark is put back with the key.
fn changes_its_mark(alloc: Global) -> bool {
    let Ok((slot, mut key)) = KeyedSlot::new(alloc, Small(3), &9) else {
        return false;
    };
    let Some(value) = slot.take_with(&mut key) else {
        return false;
    };
    prove!(value.0 == 3);
    let was_there = !is_there(&slot);
    slot.put_back_with(Small(5), &mut key);
    was_there && matches!(slot.take_with(&mut key), Some(value) if value.0 == 5)
}

#[test]
fn a_value_is_taken_and_put_back_and_with_the_key_its_mark_changes(rt: HostRuntime) {
    let made = KeyedSlot::new(rt.alloc(), Small(3), &9);
    assert!(rt; matches!(&made, Ok((slot, _)) if is_taken_and_put_back(slot)));
    assert!(rt; changes_its_mark(rt.alloc()));
}
