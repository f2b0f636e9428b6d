//! The items of a listing, kept until they are given on.
ghost use Rattle.std.specs.Prelude.{◌≡◌, ◌++◌, [], ◌∷◌, OnOk, map};
ghost use Rattle.jwalk_fs.specs.Views.{TakesAll};
ghost use Rattle.jwalk_indexed_fs.specs.Item.{item_of};

use jwalk_fs::listed::Listed;
use jwalk_fs::sink::Sink;
use jwalk_model::seen::Seen;
use std::alloc::{AllocError, Allocator};
use std::io;

/// An item of a listing.
#[derive(Drop)]
pub enum Item<A: Allocator + Copy> {
    /// A name in UTF-8.
    Named(Listed<A>),
    /// The bytes of another name.
    BadName(Vec<u8, A>),
    /// What could not be read.
    Unread(io::Error),
}

impl<A: Allocator + Copy> Item<A> {
    /// Gives it to a sink.
    pub fn give<K: Sink>(self, sink: &mut K) -> Result<(), AllocError>
        ensures { OnOk result (TakesAll K.Took (item_of self ∷ []) sink.old sink.new) }
    {
        match self {
            Item::Named(Listed { name, seen }) => sink.take_seen(name.as_str(), seen),
            Item::BadName(name) => sink.take_bad_name(&name),
            Item::Unread(error) => sink.take_error(error),
        }
    }
}

/// A sink that keeps the items.
#[derive(Drop)]
pub struct Items<A: Allocator + Copy> {
    pub items: Vec<Item<A>, A>,
}

impl<A: Allocator + Copy> Items<A> {
    pub fn new(alloc: A) -> Self
        ensures { result.items.items ≡ [] }
    {
        Items {
            items: Vec::new(alloc),
        }
    }
}

impl<A: Allocator + Copy> Sink for Items<A> {
    ghost Took = { λ first items last. map item_of last.items.items ≡ map item_of first.items.items ++ items };

    fn take_seen(&mut self, name: &str, seen: io::Result<Seen>) -> Result<(), AllocError> {
        let name = String::from_str(*self.items.allocator(), name)?;
        self.items.push(Item::Named(Listed { name, seen }))?;
        Ok(())
    }

    fn take_error(&mut self, error: io::Error) -> Result<(), AllocError> {
        self.items.push(Item::Unread(error))?;
        Ok(())
    }

    fn take_bad_name(&mut self, name: &[u8]) -> Result<(), AllocError> {
        let name = name.to_vec(*self.items.allocator())?;
        self.items.push(Item::BadName(name))?;
        Ok(())
    }
}
