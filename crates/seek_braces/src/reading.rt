//! How the texts of a glob are made.
ghost use Rattle.std.specs.Prelude.{◌≡◌, ◌<◌, [], map, reverse, string_bytes, IfOk, OnOk, MatchBool, MatchOption};
ghost use Rattle.std.specs.List.{slice_get, All};
ghost use Rattle.std.specs.Str.{IsUtf8};
ghost use Rattle.seek_braces.specs.Expanded.{read_of, with_byte, with_item};
ghost use Rattle.seek_braces.specs.Reading.{bytes_of, copied, forward, last_len, pushed, size, Exceeds, Follows, Holds};
ghost use Rattle.seek_braces.specs.declared.item.Item.TheVariants.{Open, Comma, Close};

use crate::MOST;
use crate::item::Item;
use std::alloc::{AllocError, Global};

/// A group of which the beginning isn't read yet.
#[derive(Clone, Copy)]
pub(crate) struct OpenGroup {
    /// Where the texts of the group begin.
    start: usize,
    /// How many texts there are behind the group.
    width: usize,
    /// How long the last one of them is.
    len: usize,
}

/// What was read of a glob, from its end. The texts are in reverse, and so is each of them.
#[derive(Drop)]
pub(crate) struct Reading {
    texts: Vec<Vec<u8>>,
    /// Where the texts of the alternative begin.
    start: usize,
    /// The groups that the alternative is in, the innermost one last.
    groups: Vec<OpenGroup>,
}

fn push_each(texts: &mut [Vec<u8>], start: usize, byte: u8) -> Result<(), AllocError>
    ensures { OnOk result (bytes_of texts.new ≡ pushed start byte (bytes_of texts.old)) }
{
    let mut at = start;
    while at < texts.len() {
        texts[at].push(byte)?;
        at += 1;
    }
    Ok(())
}

/// Adds copies of the last texts, without the end of each.
fn push_copies(
    alloc: Global,
    texts: &mut Vec<Vec<u8>>,
    width: usize,
    cut: usize,
) -> Result<(), AllocError>
    ensures { OnOk result (bytes_of texts.new.items ≡ copied width cut (bytes_of texts.old.items)) }
{
    let len = texts.len();
    for at in len.saturating_sub(width)..len {
        let kept = texts[at].len().saturating_sub(cut);
        let copy = Vec::from_slice(alloc, &texts[at][..kept])?;
        texts.push(copy)?;
    }
    Ok(())
}

fn last_len(texts: &[Vec<u8>]) -> usize
    ensures { result ≡ last_len (bytes_of texts.now) }
{
    match texts.last() {
        Some(text) => text.len(),
        None => 0,
    }
}

fn innermost(groups: &[OpenGroup]) -> Option<OpenGroup>
    ensures { result ≡ slice_get (reverse groups.now) 0 }
{
    groups.last().copied()
}

fn text_of(reversed: Vec<u8>) -> String
    requires { IsUtf8 (reverse reversed.items) }
    ensures { string_bytes result ≡ reverse reversed.items }
{
    let mut text = reversed;
    text.as_mut_slice().reverse();
    String::from_utf8(text).unwrap()
}

impl Reading {
    fn new(alloc: Global) -> Result<Self, AllocError>
        ensures { IfOk result (Holds (read_of [])) }
    {
        let mut texts = Vec::new(alloc);
        texts.push(Vec::new(alloc))?;
        Ok(Reading {
            texts,
            start: 0,
            groups: Vec::new(alloc),
        })
    }

    fn push(&mut self, byte: u8) -> Result<(), AllocError>
        ensures { OnOk result (Follows (with_byte byte) self.old self.new) }
    {
        push_each(self.texts.as_mut_slice(), self.start, byte)
    }

    fn open(&mut self) -> Result<(), AllocError>
        ensures { OnOk result (Follows (with_item Open) self.old self.new) }
    {
        let Some(group) = self.groups.pop() else {
            return self.push(b'{');
        };
        self.start = group.start;
        Ok(())
    }

    /// Returns whether there are at most as many texts as there may be.
    fn separate(&mut self, alloc: Global) -> Result<bool, AllocError>
        ensures { IfOk result (λ fits. MatchBool fits (Follows (with_item Comma) self.old self.new) (Exceeds (with_item Comma) self.old)) }
    {
        let Some(group) = innermost(self.groups.as_slice()) else {
            self.push(b',')?;
            return Ok(true);
        };
        if group.width > MOST.saturating_sub(self.texts.len()) {
            return Ok(false);
        }
        let cut = last_len(self.texts.as_slice()).saturating_sub(group.len);
        self.start = self.texts.len();
        push_copies(alloc, &mut self.texts, group.width, cut)?;
        Ok(true)
    }

    fn close(&mut self) -> Result<(), AllocError>
        ensures { OnOk result (Follows (with_item Close) self.old self.new) }
    {
        self.groups.push(OpenGroup {
            start: self.start,
            width: self.texts.len().saturating_sub(self.start),
            len: last_len(self.texts.as_slice()),
        })?;
        Ok(())
    }

    /// Returns whether there are at most as many texts as there may be.
    fn add(&mut self, alloc: Global, item: Item) -> Result<bool, AllocError>
        ensures { IfOk result (λ fits. MatchBool fits (Follows (with_item item) self.old self.new) (Exceeds (with_item item) self.old)) }
    {
        match item {
            Item::Byte(byte) => self.push(byte)?,
            Item::Open => self.open()?,
            Item::Comma => return self.separate(alloc),
            Item::Close => self.close()?,
        }
        Ok(true)
    }

    /// Returns the texts.
    pub(crate) fn finish(self, alloc: Global) -> Result<Vec<String>, AllocError>
        requires { All IsUtf8 (forward (bytes_of self.texts.items)) }
        ensures { IfOk result (λ texts. map string_bytes texts.items ≡ forward (bytes_of self.texts.items)) }
    {
        let mut reversed = self.texts;
        let mut texts = Vec::with_capacity(alloc, reversed.len())?;
        while let Some(text) = reversed.pop() {
            texts.push(text_of(text))?;
        }
        Ok(texts)
    }
}

/// Reads all items of a glob. Returns `None` if there are more texts than there may be.
pub(crate) fn read(alloc: Global, items: &[Item]) -> Result<Option<Reading>, AllocError>
    ensures { IfOk result (λ r. MatchOption r (1024 < size (read_of items.now)) (Holds (read_of items.now))) }
{
    let mut reading = Reading::new(alloc)?;
    let mut at = items.len();
    while at > 0 {
        at -= 1;
        if !reading.add(alloc, items[at])? {
            return Ok(None);
        }
    }
    Ok(Some(reading))
}
