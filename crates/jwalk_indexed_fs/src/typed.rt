//! Listings that say types alone, in the order of names.
ghost use Rattle.std.specs.Prelude.{◌≡◌, List, ◌++◌, [], ◌∷◌, Ok, IfOk, IfErr, OnOk, map, option_copied};
ghost use Rattle.std.specs.Ordering.{is_lt};
ghost use Rattle.jwalk_model.specs.FileSystem as value;
ghost use Rattle.jwalk_fs.specs.Views.{AnswersValue, FailsAs, IfIo, TakesAll};
ghost use Rattle.jwalk_indexed_fs.specs.Item.{item_of};
ghost use Rattle.jwalk_indexed_fs.specs.Listing.{bare, name_of, listed_before, in_order, typed_answer};

use crate::item::Item;
use jwalk_fs::fault::Fault;
use jwalk_fs::file_system::FileSystem;
use jwalk_fs::listed::Listed;
use jwalk_fs::sink::Sink;
use jwalk_model::seen::Seen;
use std::alloc::{AllocError, Allocator};
use std::cmp::Ordering;
use std::io;

/// A sink that keeps of the items their types alone.
#[derive(Drop)]
pub struct Typed<A: Allocator + Copy> {
    pub items: Vec<Item<A>, A>,
}

impl<A: Allocator + Copy> Typed<A> {
    pub fn new(alloc: A) -> Self
        ensures { result.items.items ≡ [] }
    {
        Typed {
            items: Vec::new(alloc),
        }
    }
}

impl<A: Allocator + Copy> Sink for Typed<A> {
    ghost Took = { λ first items last. map item_of last.items.items ≡ map item_of first.items.items ++ map bare items };

    fn take_seen(&mut self, name: &str, seen: io::Result<Seen>) -> Result<(), AllocError> {
        let name = String::from_str(*self.items.allocator(), name)?;
        let file_type = match seen {
            Ok(seen) => Ok(seen.file_type()),
            Err(error) => Err(error),
        };
        self.items
            .push(Item::Named(Listed::of_type(name, file_type)))?;
        Ok(())
    }

    fn take_error(&mut self, error: io::Error) -> Result<(), AllocError> {
        self.items.push(Item::Unread(error))?;
        Ok(())
    }

    fn take_bad_name(&mut self, name: &[u8]) -> Result<(), AllocError> {
        let name = name.to_vec(*self.items.allocator())?;
        self.items.push(Item::BadName(name))?;
        Ok(())
    }
}

/// Returns the name of an item, if something is seen of it.
fn name_of<A: Allocator + Copy>(item: &Item<A>) -> Option<&str>
    ensures { option_copied result ≡ name_of (item_of item.now) }
{
    match item {
        Item::Named(item) if item.seen.is_ok() => Some(item.name.as_str()),
        _ => None,
    }
}

fn by_name<A: Allocator + Copy>(a: &Item<A>, b: &Item<A>) -> Ordering
    ensures { is_lt result ≡ listed_before (item_of a.now) (item_of b.now) }
{
    match (name_of(a), name_of(b)) {
        (Some(a), Some(b)) => a.cmp(b),
        (Some(_), None) => Ordering::Less,
        (None, Some(_)) => Ordering::Greater,
        (None, None) => Ordering::Equal,
    }
}

fn sorted<A: Allocator + Copy>(mut items: Vec<Item<A>, A>) -> Result<Vec<Item<A>, A>, AllocError>
    ensures { IfOk result (λ v. map item_of v.items ≡ in_order (map item_of items.items)) }
{
    items.sort_by(by_name)?;
    Ok(items)
}

/// Lists a directory as a file system does, with types alone and in the order of names.
fn list<S: FileSystem, A: Allocator + Copy>(
    fs: &S,
    alloc: A,
    path: &str,
) -> Result<Vec<Item<A>, A>, Fault>
    ensures { S.IsFixed fs.now
        → AnswersValue (λ v. map item_of v.items) result (typed_answer ((S.functions fs.now).list_of path.now)) }
{
    let mut typed = Typed::new(alloc);
    fs.read_dir_into(alloc, path, &mut typed)?;
    Ok(sorted(typed.items)?)
}

/// Gives a sink the items of such a listing.
pub fn list_into<S: FileSystem, A: Allocator + Copy, K: Sink>(
    fs: &S,
    alloc: A,
    path: &str,
    sink: &mut K,
) -> Result<(), Fault>
    ensures taken { OnOk result ((items : List value.Listed) × TakesAll K.Took items sink.old sink.new
        × (S.IsFixed fs.now → typed_answer ((S.functions fs.now).list_of path.now) ≡ Ok items)) }
    ensures failed { S.IsFixed fs.now → IfErr result (λ fault. FailsAs fault
        (typed_answer ((S.functions fs.now).list_of path.now))) }
    ensures unchanged { IfErr result (λ fault. IfIo fault (sink.new ≡ sink.old)) }
{
    for item in list(fs, alloc, path)? {
        item.give(sink)?;
    }
    Ok(())
}
