//! The table of a slot: one word, 0 while the value is at home and 1 while it is out, and one place for the value.
ghost use Rattle.std.specs.Prelude.{false, None};
ghost use Rattle.keyed_slot.specs.Rule.{IsKept, with_key, Takes, Puts, TakesWith, PutsWith};

use crate::marked::Marked;
use atomic_table::{Play, TableRule};
use std::marker::PhantomData;
use std::snapshot::Snapshot;

/// What a seat at the table knows. No value of it is made.
pub struct Known<T, M, X> {
    pub has_key: bool,
    /// The value is out with it.
    pub holds: bool,
    pub tag: T,
    pub mark: M,
    /// What it found when it took the value last.
    pub took: Option<X>,
    /// What it has put back since.
    pub put: Option<X>,
}

/// What a slot begins with.
pub struct Begun<T, X> {
    pub tag: Snapshot<T>,
    pub value: Snapshot<X>,
}

impl<T, X> Drop for Begun<T, X> {
    fn drop(self) {
        let Begun { tag: _, value: _ } = self;
    }
}

/// The rule of the table.
pub struct Law<X> {
    of: PhantomData<X>,
}

impl<X: Marked> TableRule<Option<X>, Known<X::Tag, X::Mark, X>, Begun<X::Tag, X>> for Law<X> {
    ghost holds = { λ begun. IsKept X.fits X.mark begun.tag.value };

    ghost first = { λ begun. with_key false begun.tag.value (X.mark begun.value.value) None None };
}

/// The value is taken, if it is at home. The new seat knows which it was, or that there was none.
pub(crate) struct Take<X> {
    of: PhantomData<X>,
}

impl<X: Marked> Play<Option<X>, Known<X::Tag, X::Mark, X>> for Take<X> {
    ghost then = { λ _ before found after. Takes X.fits X.mark before found after };
}

/// The holder of the key takes the value, if it is at home.
pub(crate) struct TakeWith<X> {
    of: PhantomData<X>,
}

impl<X: Marked> Play<Option<X>, Known<X::Tag, X::Mark, X>> for TakeWith<X> {
    ghost then = { λ _ before found after. TakesWith X.fits X.mark before found after };
}

/// The value is put back. The seat knows which it was.
pub(crate) struct Put<X> {
    of: PhantomData<X>,
}

impl<X: Marked> Play<Option<X>, Known<X::Tag, X::Mark, X>> for Put<X> {
    ghost then = { λ _ before _ after. Puts before after };
}

/// The holder of the key puts the value back.
pub(crate) struct PutWith<X> {
    of: PhantomData<X>,
}

impl<X: Marked> Play<Option<X>, Known<X::Tag, X::Mark, X>> for PutWith<X> {
    ghost then = { λ _ before _ after. PutsWith X.mark before after };
}
