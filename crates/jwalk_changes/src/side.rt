//! One input of a comparison.
ghost use Rattle.std.specs.Prelude.{◌≡◌, ◌<◌, false, option_to_list};
ghost use Rattle.std.specs.Iterator.{size};
ghost use Rattle.jwalk_changes.specs.Side.{CanGoOnAt, MayAsk, Asks, Advances, ascends_with, is_over, is_fallen, is_fresh_in, items_of, turns_in, turns_left, waiting};

use crate::at_path::{AtPath, compare};
use std::mem;

/// What is known of the next item.
#[derive(Drop)]
pub(crate) enum Ahead<T> {
    /// It wasn't asked for yet.
    Unasked,
    /// It was taken, and isn't compared yet.
    Taken(T),
    /// There is none: the input has ended.
    Over,
    /// The last one taken doesn't come after the one before it. Nothing more is asked.
    Fallen,
}

/// One input, and the item that was taken of it and isn't compared yet.
#[derive(Drop)]
pub(crate) struct Side<T, I> {
    items: I,
    pub(crate) ahead: Ahead<T>,
}

/// Returns whether an item may come next.
fn ascends<T: AtPath>(ahead: &Ahead<T>, next: &T) -> bool
    ensures { result ≡ ascends_with T.path ahead.now next.now }
{
    match ahead {
        Ahead::Taken(last) => compare(last, next).is_lt(),
        _ => true,
    }
}

fn item_of<T: AtPath>(ahead: Ahead<T>) -> Option<T>
    ensures { option_to_list result ≡ waiting ahead }
{
    match ahead {
        Ahead::Taken(item) => Some(item),
        Ahead::Unasked | Ahead::Over | Ahead::Fallen => None,
    }
}

impl<T: AtPath, I: Iterator<Item = T>> Side<T, I> {
    ghost use Rattle.jwalk_changes.specs.declared.side.Ahead.TheVariants.{Unasked, Taken};

    pub(crate) fn new(items: I) -> Self
        ensures items { items_of result ≡ items }
        ensures unasked { result.ahead ≡ Unasked }
    {
        Side {
            items,
            ahead: Ahead::Unasked,
        }
    }

    /// Asks for the next item.
    fn ask(&mut self) -> Ahead<T>
        requires can { CanGoOnAt I.can_next I.remaining self.old }
        requires goes_on { is_over self.old ≡ false }
        requires ascends { is_fallen self.old ≡ false }
        ensures asks { Asks I.next_gives T.path self.old.ahead (items_of self.old) result (items_of self.new) }
        ensures ahead { self.new.ahead ≡ self.old.ahead }
        ensures can { MayAsk I.can_next I.remaining result (items_of self.new) }
        ensures falls { turns_in result (size (I.remaining (items_of self.new))) < turns_left I.remaining self.old }
    {
        match self.items.next() {
            None => Ahead::Over,
            Some(item) if ascends(&self.ahead, &item) => Ahead::Taken(item),
            Some(_) => Ahead::Fallen,
        }
    }

    /// Returns the item that was taken, and takes the next.
    pub(crate) fn advance(&mut self) -> Option<T>
        requires can { CanGoOnAt I.can_next I.remaining self.old }
        requires goes_on { is_over self.old ≡ false }
        requires ascends { is_fallen self.old ≡ false }
        ensures passes { Advances I.next_gives T.path self.old self.new }
        ensures compared { option_to_list result ≡ waiting self.old.ahead }
        ensures can { CanGoOnAt I.can_next I.remaining self.new }
        ensures falls { turns_left I.remaining self.new < turns_left I.remaining self.old }
        ensures asked { is_fresh_in self.new.ahead ≡ false }
    {
        let next = self.ask();
        item_of(mem::replace(&mut self.ahead, next))
    }
}
