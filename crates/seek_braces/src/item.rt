//! The items of a glob.
ghost use Rattle.std.specs.Prelude.{◌≡◌, ◌+◌, ◌<◌, ◌^◌, IfOk};
ghost use Rattle.seek_braces.specs.Item.{after_item, item_of, items_in};
ghost use Rattle.seek_braces.specs.declared.place.Place.TheVariants.{Outside};

use crate::place::Place;
use std::alloc::{AllocError, Global};

/// An item of a glob.
#[derive(Clone, Copy)]
pub(crate) enum Item {
    /// This byte.
    Byte(u8),
    /// A brace that begins a group, if the group has an end.
    Open,
    /// A comma that ends an alternative, if it is in a group.
    Comma,
    /// A brace that ends a group, if the group has a beginning.
    Close,
}

fn item_of(place: Place, depth: usize, byte: u8) -> Item
    ensures { result ≡ item_of place depth byte }
{
    match (place, byte) {
        (Place::Outside, b'{') => Item::Open,
        (Place::Outside, b',') => Item::Comma,
        (Place::Outside, b'}') if depth > 0 => Item::Close,
        _ => Item::Byte(byte),
    }
}

/// Returns how many braces are open behind an item.
fn after_item(depth: usize, item: Item) -> usize
    requires { depth + 1 < 2 ^ 64 }
    ensures { result ≡ after_item depth item }
{
    match item {
        Item::Open => depth + 1,
        Item::Close => depth.saturating_sub(1),
        Item::Byte(_) | Item::Comma => depth,
    }
}

/// Returns the items of a glob.
pub(crate) fn items_of(alloc: Global, text: &[u8]) -> Result<Vec<Item>, AllocError>
    ensures { IfOk result (λ items. items.items ≡ items_in Outside 0 text.now) }
{
    let mut items = Vec::new(alloc);
    let mut place = Place::Outside;
    let mut depth = 0;
    for byte in text {
        let item = item_of(place, depth, *byte);
        items.push(item)?;
        depth = after_item(depth, item);
        place = place.after(*byte);
    }
    Ok(items)
}
