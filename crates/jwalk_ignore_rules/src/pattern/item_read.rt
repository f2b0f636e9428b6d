//! How the items of a class are read.
ghost use Rattle.std.specs.Prelude.{◌≡◌, ◌+◌, ◌<◌, length, position, IfSome};
ghost use Rattle.jwalk_ignore_rules.specs.Pattern.ItemRead.{IsWithin, bracket_in, escaped_in, escaped_range, hyphen_in, is_close, item_in, named_in, named_up_to, range, range_in, single};

use crate::pattern::byte_class::ByteClass;
use crate::pattern::class_item::ClassItem;

/// An item of a class, as it was read.
#[derive(Clone, Copy)]
pub(crate) struct ItemRead {
    /// The item.
    pub(crate) item: ClassItem,
    /// The byte that a range behind the item begins with. None behind a range or a named class.
    pub(crate) last: Option<u8>,
    /// How many bytes the item takes.
    pub(crate) len: usize,
}

fn single(byte: u8, len: usize) -> ItemRead
    ensures { result ≡ single byte len }
{
    ItemRead {
        item: ClassItem::Range(byte, byte),
        last: Some(byte),
        len,
    }
}

fn escaped_in(behind: &[u8]) -> Option<ItemRead>
    ensures read { result ≡ escaped_in behind.now }
    ensures within { IfSome result (IsWithin (length behind.now + 1)) }
{
    match behind {
        [] => None,
        [byte, ..] => Some(single(*byte, 2)),
    }
}

fn range(low: u8, high: u8, len: usize) -> ItemRead
    ensures { result ≡ range low high len }
{
    ItemRead {
        item: ClassItem::Range(low, high),
        last: None,
        len,
    }
}

/// Reads the end of a range behind a backslash.
fn escaped_range(low: u8, behind: &[u8]) -> Option<ItemRead>
    ensures read { result ≡ escaped_range low behind.now }
    ensures within { IfSome result (IsWithin (length behind.now + 2)) }
{
    match behind {
        [] => None,
        [high, ..] => Some(range(low, *high, 3)),
    }
}

/// Reads the end of a range, behind its hyphen.
fn range_in(low: u8, behind: &[u8]) -> Option<ItemRead>
    ensures read { result ≡ range_in low behind.now }
    ensures within { IfSome result (IsWithin (length behind.now + 1)) }
{
    match behind {
        [] => None,
        [b'\\', behind @ ..] => escaped_range(low, behind),
        [high, ..] => Some(range(low, *high, 2)),
    }
}

fn close_in(text: &[u8]) -> Option<usize>
    ensures { result ≡ position is_close text.now }
{
    text.iter().position(|byte| *byte == b']')
}

/// Reads the name of a class in front of the closing bracket at `end`. Without `:` there the bracket in front means
/// itself.
fn named_up_to(behind: &[u8], end: usize) -> Option<ItemRead>
    requires { end < length behind.now }
    ensures read { result ≡ named_up_to behind.now end }
    ensures within { IfSome result (IsWithin (length behind.now + 2)) }
{
    if end == 0 || behind[end - 1] != b':' {
        return Some(single(b'[', 1));
    }
    Some(ItemRead {
        item: ClassItem::Named(ByteClass::by_name(&behind[..end - 1])?),
        last: None,
        len: end + 3,
    })
}

/// Reads the name of a class, behind `[:`.
fn named_in(behind: &[u8]) -> Option<ItemRead>
    ensures read { result ≡ named_in behind.now }
    ensures within { IfSome result (IsWithin (length behind.now + 2)) }
{
    named_up_to(behind, close_in(behind)?)
}

fn hyphen_in(last: Option<u8>, behind: &[u8]) -> Option<ItemRead>
    ensures read { result ≡ hyphen_in last behind.now }
    ensures within { IfSome result (IsWithin (length behind.now + 1)) }
{
    match (last, behind) {
        (None, _) | (_, [] | [b']', ..]) => Some(single(b'-', 1)),
        (Some(low), _) => range_in(low, behind),
    }
}

fn bracket_in(behind: &[u8]) -> Option<ItemRead>
    ensures read { result ≡ bracket_in behind.now }
    ensures within { IfSome result (IsWithin (length behind.now + 1)) }
{
    match behind {
        [b':', name @ ..] => named_in(name),
        _ => Some(single(b'[', 1)),
    }
}

/// Reads the first item of a text. `last` is the last byte of the item in front. None if it is malformed.
pub(crate) fn item_in(last: Option<u8>, text: &[u8]) -> Option<ItemRead>
    ensures read { result ≡ item_in last text.now }
    ensures within { IfSome result (IsWithin (length text.now)) }
{
    match text {
        [] => None,
        [b'\\', behind @ ..] => escaped_in(behind),
        [b'-', behind @ ..] => hyphen_in(last, behind),
        [b'[', behind @ ..] => bracket_in(behind),
        [byte, ..] => Some(single(*byte, 1)),
    }
}
