//! A slot, its key, and what is lent from it.
ghost use Rattle.std.specs.Prelude.{◌≡◌};

use crate::marked::Marked;
use crate::rule::{Begun, Known, Law, Put, PutWith, Take, TakeWith};
use atomic_table::{Refused, Seat, Table};
use std::alloc::{AllocError, Allocator, Global};
use std::snapshot::Snapshot;

/// A value in a slot that threads share. Whoever takes it out has to put it back: until then nobody else finds it.
///
/// All that is in the slot fits what it was made for. The holder of the slot's one key knows the mark of what is there:
/// whoever takes the value without the key puts back one with the same mark.
#[derive(Drop)]
pub struct KeyedSlot<X: Marked, A: Allocator = Global> {
    table: Table<Option<X>, Known<X::Tag, X::Mark, X>, Begun<X::Tag, X>, Law<X>, A>,
    ghost sized: { (table.shared.table_id.words ≡ 1) × (table.shared.table_id.slots ≡ 1) },
}

/// The key of a slot, which knows the mark of what is there. A slot has one key.
#[derive(Drop)]
pub struct Key<X: Marked> {
    seat: Seat<Option<X>, Known<X::Tag, X::Mark, X>>,
}

/// What is owed to a slot by whoever took its value without the key. It isn't `Drop`: nobody can let it go but by
/// `put_back`.
pub struct Loan<X: Marked> {
    seat: Seat<Option<X>, Known<X::Tag, X::Mark, X>>,
}

/// That a value was put back: into which slot, which one, and for which one. `put_back` alone makes a receipt.
#[derive(Drop)]
pub struct Receipt<X: Marked> {
    seat: Seat<Option<X>, Known<X::Tag, X::Mark, X>>,
}

/// That a slot was empty, since its value was out. `take` alone makes one of these.
#[derive(Drop)]
pub struct Empty<X: Marked> {
    seat: Seat<Option<X>, Known<X::Tag, X::Mark, X>>,
}

impl<X: Marked + Drop, A: Allocator + Copy> KeyedSlot<X, A> {
    ghost use Rattle.std.specs.Prelude.{true, false, IfOk, IfErr, IfSome};
    ghost use Rattle.keyed_slot.specs.Keyed.{
      tag_of,
      key_mark,
      is_out,
      loan_mark,
      lent,
      receipt_of,
      handled,
      Opens,
      IsOwed,
      IsReceiptOf,
      WasEmpty,
    };

    /// Returns a slot with this value, and its key.
    ///
    /// # Errors
    ///
    /// If memory runs out.
    pub fn new(alloc: A, value: X, tag: &X::Tag) -> Result<(Self, Key<X>), AllocError>
        requires { X.fits tag.now value }
        ensures tag { IfOk result (λ made. tag_of made.0 ≡ tag.now) }
        ensures opens { IfOk result (λ made. Opens made.1 made.0) }
        ensures mark { IfOk result (λ made. key_mark made.1 ≡ X.mark value) }
        ensures home { IfOk result (λ made. is_out made.1 ≡ false) }
    {
        let begun = Begun {
            tag: Snapshot::of(tag),
            value: Snapshot::of(&value),
        };
        let mut slots = Vec::with_capacity(alloc, 1)?;
        slots.push_reserved(Some(value));
        match Table::new(alloc, &[0], slots, &begun) {
            Ok((table, seat)) => Ok((KeyedSlot { table }, Key { seat })),
            Err(Refused { slots: _ }) => Err(AllocError),
        }
    }

    /// Takes the value out, if it is there.
    ///
    /// # Errors
    ///
    /// If it isn't.
    pub fn take(&self) -> Result<(X, Loan<X>), Empty<X>>
        ensures fits { IfOk result (λ taken. X.fits (tag_of self.now) taken.0) }
        ensures mark { IfOk result (λ taken. loan_mark taken.1 ≡ X.mark taken.0) }
        ensures owed { IfOk result (λ taken. IsOwed taken.1 self.now) }
        ensures lent { IfOk result (λ taken. lent taken.1 ≡ Some taken.0) }
        ensures absent { IfErr result (λ empty. WasEmpty empty self.now) }
    {
        let shared = &self.table.shared;
        let (found, mut seat) = shared.swap_new_seat::<Take<X>>(0, 1);
        if found != 0 {
            return Err(Empty { seat });
        }
        match shared.exchange(&mut seat, 0, None) {
            Some(value) => Ok((value, Loan { seat })),
            None => unreachable!(),
        }
    }

    /// Puts a value back whose mark is that of the one that was taken.
    pub fn put_back(&self, value: X, loan: Loan<X>) -> Receipt<X>
        requires fits { X.fits (tag_of self.now) value }
        requires mark { X.mark value ≡ loan_mark loan }
        requires owed { IsOwed loan self.now }
        ensures slot { IsReceiptOf result self.now }
        ensures values { receipt_of result ≡ (lent loan, Some value) }
    {
        let Loan { mut seat } = loan;
        let shared = &self.table.shared;
        drop(shared.exchange(&mut seat, 0, Some(value)));
        shared.store::<Put<X>>(&mut seat, 0, 0);
        Receipt { seat }
    }

    /// Takes the value out by the key, if it is there. It has the mark that the key knows.
    pub fn take_with(&self, key: &mut Key<X>) -> Option<X>
        requires opens { Opens key.old self.now }
        requires home { is_out key.old ≡ false }
        ensures opens { Opens key.new self.now }
        ensures key { key_mark key.new ≡ key_mark key.old }
        ensures out { IfSome result (λ _. is_out key.new ≡ true) }
        ensures home { result ≡ None → is_out key.new ≡ false }
        ensures fits { IfSome result (X.fits (tag_of self.now)) }
        ensures mark { IfSome result (λ value. X.mark value ≡ key_mark key.old) }
        ensures taken { IfSome result (λ value. handled key.new ≡ (Some value, None)) }
        ensures none { result ≡ None → handled key.new ≡ (None, None) }
    {
        let shared = &self.table.shared;
        if shared.swap::<TakeWith<X>>(&mut key.seat, 0, 1) != 0 {
            return None;
        }
        match shared.exchange(&mut key.seat, 0, None) {
            Some(value) => Some(value),
            None => unreachable!(),
        }
    }

    /// Puts a value back by the key, which knows the mark of this one from then on.
    pub fn put_back_with(&self, value: X, key: &mut Key<X>)
        requires opens { Opens key.old self.now }
        requires out { is_out key.old ≡ true }
        requires fits { X.fits (tag_of self.now) value }
        ensures opens { Opens key.new self.now }
        ensures home { is_out key.new ≡ false }
        ensures mark { key_mark key.new ≡ X.mark value }
        ensures put { handled key.new ≡ ((handled key.old).0, Some value) }
    {
        let shared = &self.table.shared;
        drop(shared.exchange(&mut key.seat, 0, Some(value)));
        shared.store::<PutWith<X>>(&mut key.seat, 0, 0);
    }
}
