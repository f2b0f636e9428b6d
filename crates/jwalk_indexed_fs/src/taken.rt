//! A listing that is given on, and of which a record is kept.
ghost use Rattle.std.specs.Prelude.{◌≡◌, ◌++◌, ◌&&◌, List, [], ◌∷◌, true, Some, None, Ok, OnOk, IfOk, IfErr, map, if◌then◌else◌};
ghost use Rattle.std.specs.Ordering.{is_lt};
ghost use Rattle.jwalk_model.specs.FileSystem as value;
ghost use Rattle.jwalk_fs.specs.Views.{FailsAs, IfIo, TakesAll};
ghost use Rattle.jwalk_indexed_fs.specs.Index.{HasStamp, IsRecordOf};
ghost use Rattle.jwalk_indexed_fs.specs.Item.{item_of};
ghost use Rattle.jwalk_indexed_fs.specs.Listing.{listed_before, in_order};
ghost use Rattle.jwalk_indexed_fs.specs.Records.{list_kept};
ghost use Rattle.jwalk_indexed_fs.specs.Stamp.{IsSettled};
ghost use Rattle.jwalk_indexed_fs.specs.Taken.{item_typed, is_seen, is_whole, seen_items, IsKeptOf};
ghost use Rattle.jwalk_indexed_fs.specs.declared.stamp.Stamp.{Stamp as StampValue};

use crate::item::{Item, Items};
use crate::names::Names;
use crate::records::Record;
use crate::stamp::Stamp;
use jwalk_fs::fault::Fault;
use jwalk_fs::file_system::FileSystem;
use jwalk_fs::listed::Listed;
use jwalk_fs::sink::Sink;
use jwalk_model::file_type::FileType;
use jwalk_model::metadata::Moment;
use std::alloc::{AllocError, Allocator, Global};
use std::cmp::Ordering;

/// A name with its type.
#[derive(Drop)]
pub struct TypedName<A: Allocator + Copy> {
    name: String<A>,
    file_type: FileType,
}

/// What is kept of the items that were given on so far.
#[derive(Drop)]
struct Taken<A: Allocator + Copy> {
    names: Vec<TypedName<A>, A>,
    /// None of the items was an error.
    is_whole: bool,
}

impl<A: Allocator + Copy> Taken<A> {
    fn new(alloc: A) -> Self
        ensures names { result.names.items ≡ [] }
        ensures whole { result.is_whole ≡ true }
    {
        Taken {
            names: Vec::new(alloc),
            is_whole: true,
        }
    }

    /// Gives an item on, and keeps its name and type.
    fn give<K: Sink>(&mut self, sink: &mut K, item: Item<A>) -> Result<(), AllocError>
        ensures given { OnOk result (TakesAll K.Took (item_of item ∷ []) sink.old sink.new) }
        ensures names { OnOk result (map item_typed self.new.names.items
            ≡ map item_typed self.old.names.items ++ seen_items (item_of item ∷ [])) }
        ensures whole { OnOk result (self.new.is_whole ≡ (self.old.is_whole && is_seen (item_of item))) }
    {
        match item {
            Item::Named(Listed { name, seen }) => match seen {
                Ok(seen) => {
                    let file_type = seen.file_type();
                    sink.take_seen(name.as_str(), Ok(seen))?;
                    self.names.push(TypedName { name, file_type })?;
                    Ok(())
                }
                Err(error) => {
                    self.is_whole = false;
                    sink.take_seen(name.as_str(), Err(error))
                }
            },
            Item::BadName(name) => {
                self.is_whole = false;
                sink.take_bad_name(&name)
            }
            Item::Unread(error) => {
                self.is_whole = false;
                sink.take_error(error)
            }
        }
    }
}

/// Gives items on, and returns what is kept of them.
fn give_all<A: Allocator + Copy, K: Sink>(
    alloc: A,
    items: Vec<Item<A>, A>,
    sink: &mut K,
) -> Result<Taken<A>, AllocError>
    ensures given { OnOk result (TakesAll K.Took (map item_of items.items) sink.old sink.new) }
    ensures names { IfOk result (λ taken. map item_typed taken.names.items ≡ seen_items (map item_of items.items)) }
    ensures whole { IfOk result (λ taken. taken.is_whole ≡ is_whole (map item_of items.items)) }
{
    let mut taken = Taken::new(alloc);
    for item in items {
        taken.give(sink, item)?;
    }
    Ok(taken)
}

fn by_name<A: Allocator + Copy>(a: &TypedName<A>, b: &TypedName<A>) -> Ordering
    ensures { is_lt result ≡ listed_before (item_typed a.now) (item_typed b.now) }
{
    a.name.cmp(&b.name)
}

fn sort<A: Allocator + Copy>(names: &mut Vec<TypedName<A>, A>) -> Result<(), AllocError>
    ensures { OnOk result (map item_typed names.new.items ≡ in_order (map item_typed names.old.items)) }
{
    names.sort_by(by_name)
}

/// Returns the names in order, in one text.
fn ordered<A: Allocator + Copy>(
    alloc: Global,
    mut names: Vec<TypedName<A>, A>,
) -> Result<Names, AllocError>
    ensures { IfOk result (λ kept. list_kept kept ≡ in_order (map item_typed names.items)) }
{
    sort(&mut names)?;
    let mut kept = Names::new(alloc);
    for named in &names {
        kept.push(named.name.as_str(), named.file_type)?;
    }
    Ok(kept)
}

/// Returns the stamp of a directory that is about to be listed, if it had settled before the time `start`.
fn settled_stamp<S: FileSystem>(fs: &S, start: Moment, path: &str) -> Result<Option<Stamp>, Fault>
    ensures memory { IfErr result (λ fault. fault ≡ Fault.Memory) }
    ensures settled { IfOk result (λ kept. (s : StampValue) → kept ≡ Some s → IsSettled start s) }
    ensures is_there { S.IsFixed fs.now → IfOk result (λ kept. (s : StampValue) → kept ≡ Some s
        → HasStamp (S.functions fs.now) path.now s) }
{
    match fs.symlink_metadata(path) {
        Ok(found) => match Stamp::of(&found) {
            Some(stamp) if stamp.is_settled(start) => Ok(Some(stamp)),
            _ => Ok(None),
        },
        Err(Fault::Memory) => Err(Fault::Memory),
        Err(Fault::Io(_)) => Ok(None),
    }
}

/// Returns the stamp of a listing, if that has no error.
fn stamp_of_whole(is_whole: bool, stamp: Option<Stamp>) -> Option<Stamp>
    ensures { result ≡ (if is_whole then stamp else None) }
{
    if is_whole { stamp } else { None }
}

/// Lists a directory to a sink as a file system does, and returns what is kept of the whole listing.
pub fn list_into<S: FileSystem, A: Allocator + Copy, K: Sink>(
    fs: &S,
    start: Moment,
    records: Global,
    alloc: A,
    path: &str,
    sink: &mut K,
) -> Result<Record, Fault>
    ensures taken { IfOk result (λ kept. (items : List value.Listed) × TakesAll K.Took items sink.old sink.new
        × IsKeptOf start items kept × (S.IsFixed fs.now → (S.functions fs.now).list_of path.now ≡ Ok items)) }
    ensures is_of { S.IsFixed fs.now → IfOk result (λ kept. (s : StampValue) → kept.stamp ≡ Some s
        → IsRecordOf start (S.functions fs.now) path.now kept s) }
    ensures failed { S.IsFixed fs.now → IfErr result (λ fault. FailsAs fault
        ((S.functions fs.now).list_of path.now)) }
    ensures unchanged { IfErr result (λ fault. IfIo fault (sink.new ≡ sink.old)) }
{
    let stamp = settled_stamp(fs, start, path)?;
    let mut listing = Items::new(alloc);
    fs.read_dir_into(alloc, path, &mut listing)?;
    let Taken { names, is_whole } = give_all(alloc, listing.items, sink)?;
    let names = ordered(records, names)?;
    Ok(Record {
        stamp: stamp_of_whole(is_whole, stamp),
        names,
    })
}
