//! Classes of bytes in brackets.
ghost use Rattle.std.specs.Prelude.{◌≡◌, ◌<◌, ◌≤◌, [], length, IfOk, IfSome};
ghost use Rattle.std.specs.Option.{option_map};
ghost use Rattle.jwalk_ignore_rules.specs.Pattern.Class.{class_in, class_of, closes, items_in};
ghost use Rattle.jwalk_ignore_rules.specs.Pattern.ClassItem.{lists};

use crate::pattern::class_item::ClassItem;
use crate::pattern::item_read::item_in;
use std::alloc::{AllocError, Allocator, Global};

fn is_listed(either_case: bool, items: &[ClassItem], byte: u8) -> bool
    ensures { result ≡ lists either_case items.now byte }
{
    items.iter().any(|item| item.takes(either_case, byte))
}

fn closes(byte: u8, count: usize) -> bool
    ensures { result ≡ closes byte count }
{
    byte == b']' && count != 0
}

/// Reads the items of a class up to its closing bracket, and returns what is behind it. None if they are malformed or
/// there is no such bracket. A bracket that is the first item closes nothing.
fn read_items<A: Allocator + Copy>(
    alloc: A,
    text: &[u8],
) -> Result<Option<(Vec<ClassItem, A>, &[u8])>, AllocError>
    ensures read { IfOk result (λ r. option_map (λ x. (x.0.items, x.1.now)) r ≡ items_in [] None 0 text.now) }
    ensures shorter { IfOk result (λ r. IfSome r (λ x. length x.1.now < length text.now)) }
{
    let mut items = Vec::new(alloc);
    let mut last = None;
    let mut rest = text;
    'items: while let Some((byte, behind)) = rest.split_first() {
        if closes(*byte, items.len()) {
            return Ok(Some((items, behind)));
        }
        let Some(read) = item_in(last, rest) else {
            return Ok(None);
        };
        items.push(read.item)?;
        last = read.last;
        (_, rest) = rest.split_at(read.len);
    }
    Ok(None)
}

/// Returns whether a class is of all other bytes, by its first byte, and the text of its items.
fn negation_in(text: &[u8]) -> (bool, &[u8])
    ensures class { class_in text.now ≡ class_of result.0 (items_in [] None 0 result.1.now) }
    ensures within { length result.1.now ≤ length text.now }
{
    match text.split_first() {
        Some((byte, behind)) if *byte == b'!' || *byte == b'^' => (true, behind),
        _ => (false, text),
    }
}

/// A class of bytes, as `[a-z]`, or `[!a-z]` and `[^a-z]` for all other bytes.
#[derive(Drop)]
pub(crate) struct Class<A: Allocator + Copy = Global> {
    negated: bool,
    /// Its items take letters in either case.
    either_case: bool,
    items: Vec<ClassItem, A>,
}

impl<A: Allocator + Copy> Class<A> {
    ghost use Rattle.jwalk_ignore_rules.specs.Pattern.Class.{class_in, class_in_either_case, class_value, has};

    /// Reads a class behind its opening bracket, and returns what is behind its closing bracket. None if it is
    /// malformed.
    pub(crate) fn read(alloc: A, text: &[u8]) -> Result<Option<(Self, &[u8])>, AllocError>
        ensures read { IfOk result (λ r. option_map (λ x. (class_value x.0, x.1.now)) r ≡ class_in text.now) }
        ensures shorter { IfOk result (λ r. IfSome r (λ x. length x.1.now < length text.now)) }
    {
        let (negated, listed) = negation_in(text);
        match read_items(alloc, listed)? {
            Some((items, behind)) => Ok(Some((
                Class {
                    negated,
                    either_case: false,
                    items,
                },
                behind,
            ))),
            None => Ok(None),
        }
    }

    pub(crate) fn ignore_case(&mut self)
        ensures { class_value self.new ≡ class_in_either_case (class_value self.old) }
    {
        self.either_case = true;
    }

    pub(crate) fn has(&self, byte: u8) -> bool
        ensures { result ≡ has (class_value self.now) byte }
    {
        is_listed(self.either_case, &self.items, byte) != self.negated
    }
}
