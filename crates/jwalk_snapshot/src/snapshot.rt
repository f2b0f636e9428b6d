//! All of a snapshot, written and read.
ghost use Rattle.std.specs.Prelude.{◌≡◌, ◌++◌, ◌<◌, ◌^◌, ℕ, List, length, Some, map, nat_eq, flat_map, option_map, string_bytes, false, IfOk, IfErr, OnOk, IsErrOf, true, ◌⊎◌};
ghost use Rattle.std.specs.List.{list_all, starts_with, AllByRecursion};
ghost use Rattle.std.specs.Io.KnownBytes.{Appends};
ghost use Rattle.std.specs.Str.{IsUtf8, bytes_eq};
ghost use Rattle.jwalk_snapshot.specs.Reading.{after_mark, body_at, folder_at, folders_at, list_at, Gives};
ghost use Rattle.jwalk_snapshot.specs.Text.{body_text, content_of, count_in, folder_of, folder_text, folders_text, is_folder, is_snapshot, mark, sum_text, text_in, text_of, Content, ContentFits, FolderFits, IsSnapshot};

use crate::block::{Block, block_at, is_block, push_block};
use crate::error::SnapshotError;
use crate::head::{Head, head_at, is_head, push_head};
use crate::numbers::{number_at, push_number, word_at};
use sha2::{Digest, Sha256};
use std::alloc::{AllocError, Global};
use std::io::{self, ErrorKind, Write};
use std::str;

/// What a snapshot begins with: what it is, and the version of its text.
const MARK: &str = "jwalk-snapshot 1 ";

/// How many bytes the sum at the end takes.
const SUM_LEN: usize = 65;

/// What a walk found below its root.
#[derive(Debug, PartialEq, Eq, Drop)]
pub struct Snapshot<'a> {
    pub head: Head<'a>,
    /// The directories: each behind the one that it is in.
    pub blocks: Vec<Block<'a>>,
}

/// Returns how many names are in all directories.
fn name_count(blocks: &[Block<'_>]) -> Option<u64>
    ensures { result ≡ count_in (map folder_of blocks.now) }
{
    let mut count: u64 = 0;
    for block in blocks {
        count = count.checked_add(block.names.len() as u64)?;
    }
    Some(count)
}

fn push_each(out: &mut String, blocks: &[Block<'_>]) -> Result<(), AllocError>
    ensures text { OnOk result (string_bytes out.new ≡ string_bytes out.old ++ flat_map folder_text (map folder_of blocks.now)) }
    ensures fits { OnOk result (AllByRecursion FolderFits (map folder_of blocks.now)) }
{
    for block in blocks {
        push_block(out, block)?;
    }
    Ok(())
}

/// Adds the directories, between how many they are and how many names they have.
fn push_blocks(out: &mut String, blocks: &[Block<'_>], count: u64) -> Result<(), AllocError>
    requires { count_in (map folder_of blocks.now) ≡ Some count }
    ensures text { OnOk result (string_bytes out.new ≡ string_bytes out.old ++ folders_text (map folder_of blocks.now)) }
    ensures fits { OnOk result (AllByRecursion FolderFits (map folder_of blocks.now)) }
    ensures count { length (map folder_of blocks.now) < 2 ^ 64 }
{
    push_number(out, blocks.len() as u64)?;
    push_each(out, blocks)?;
    push_number(out, count)
}

/// Returns this many directories from the front, and what is behind them.
fn each_at<'a>(
    alloc: Global,
    count: u64,
    text: &'a str,
) -> Result<(Vec<Block<'a>>, &'a str), SnapshotError>
    ensures { Gives (λ x. (map folder_of x.0.items, x.1.now)) result (list_at folder_at count text.now) }
{
    let mut blocks = Vec::new(alloc);
    let mut rest = text;
    for _ in 0..count {
        let (block, after) = block_at(alloc, rest)?;
        blocks.push(block)?;
        rest = after;
    }
    Ok((blocks, rest))
}

/// Returns all directories, and what is behind the number of their names.
#[tactic(auto, unfolding(crate::specs::Reading::folders_at))]
fn blocks_at<'a>(alloc: Global, text: &'a str) -> Result<(Vec<Block<'a>>, &'a str), SnapshotError>
    ensures { Gives (λ x. (map folder_of x.0.items, x.1.now)) result (folders_at text.now) }
{
    let Some((count, rest)) = number_at(text) else {
        return Err(SnapshotError::Damaged);
    };
    let (blocks, rest) = each_at(alloc, count, rest)?;
    let Some((total, rest)) = number_at(rest) else {
        return Err(SnapshotError::Damaged);
    };
    if name_count(&blocks) != Some(total) {
        return Err(SnapshotError::Damaged);
    }
    Ok((blocks, rest))
}

/// Returns whether each directory can be written.
fn are_blocks(blocks: &[Block<'_>]) -> bool
    ensures { result ≡ list_all is_folder (map folder_of blocks.now) }
{
    for block in blocks {
        if !is_block(block) {
            return false;
        }
    }
    true
}

/// Returns what is behind the mark, if the text begins with it.
#[tactic(auto, unfolding(crate::specs::Reading::after_mark))]
fn after_mark(text: &str) -> Option<&str>
    ensures { option_map text_in result ≡ after_mark text.now }
{
    let (name, rest) = word_at(text)?;
    let (version, rest) = word_at(rest)?;
    if name == "jwalk-snapshot" && version == "1" {
        Some(rest)
    } else {
        None
    }
}

/// Returns the snapshot that has this text in front of its sum.
#[tactic(auto, unfolding(crate::specs::Reading::body_at))]
fn snapshot_at<'a>(alloc: Global, text: &'a str) -> Result<Snapshot<'a>, SnapshotError>
    ensures { Gives content_of result (body_at text.now) }
{
    let Some(rest) = after_mark(text) else {
        return Err(SnapshotError::Damaged);
    };
    let (head, rest) = head_at(alloc, rest)?;
    let (blocks, rest) = blocks_at(alloc, rest)?;
    let snapshot = Snapshot { head, blocks };
    if rest.is_empty() && snapshot.has_text() {
        Ok(snapshot)
    } else {
        Err(SnapshotError::Damaged)
    }
}

/// Returns the sum of a text, as the end of a snapshot has it.
fn sum_of(alloc: Global, text: &[u8]) -> Result<String, AllocError>
    ensures { IfOk result (λ sum. string_bytes sum ≡ sum_text text.now) }
{
    let digest = Sha256::digest(text);
    let mut sum = hex::encode(alloc, &digest)?;
    sum.push_str("\0")?;
    Ok(sum)
}

/// Returns whether this is the sum of the text.
fn has_sum(alloc: Global, text: &[u8], sum: &[u8]) -> Result<bool, AllocError>
    ensures { IfOk result (λ same. same ≡ bytes_eq (sum_text text.now) sum.now) }
{
    let expected = sum_of(alloc, text)?;
    Ok(expected.as_bytes() == sum)
}

/// Returns the text in front of the sum, if that is its sum.
fn body_of<'a>(alloc: Global, bytes: &'a [u8]) -> Result<&'a str, SnapshotError>
    ensures found { IfOk result (λ text. bytes.now ≡ text.now ++ sum_text text.now) }
    ensures only { (text : List ℕ) → IsUtf8 text → bytes.now ≡ text ++ sum_text text → Gives text_in result (Some text) }
    ensures utf8 { IfOk result (λ text. IsUtf8 text.now) }
    ensures errors { IfErr result (λ e. (e ≡ SnapshotError.Memory) ⊎ (e ≡ SnapshotError.Damaged)) }
{
    let (body, sum) = bytes.split_at(bytes.len().saturating_sub(SUM_LEN));
    let is_whole = has_sum(alloc, body, sum)?;
    if !is_whole {
        return Err(SnapshotError::Damaged);
    }
    match str::from_utf8(body) {
        Ok(text) => Ok(text),
        Err(_) => Err(SnapshotError::Damaged),
    }
}

/// Returns why bytes that don't begin with the mark are no snapshot.
fn stranger(bytes: &[u8]) -> SnapshotError
    ensures { (result ≡ SnapshotError.NoSnapshot) ⊎ (result ≡ SnapshotError.OtherVersion) }
{
    if bytes.starts_with(b"jwalk-snapshot ") {
        SnapshotError::OtherVersion
    } else {
        SnapshotError::NoSnapshot
    }
}

impl<'a> Snapshot<'a> {
    /// Returns whether it has a text: no text in it holds a NUL, names aren't empty and hold no slash, and the names of
    /// each directory ascend in the order of bytes.
    pub fn has_text(&self) -> bool
        ensures { result ≡ is_snapshot (content_of self.now) }
    {
        is_head(&self.head) && are_blocks(&self.blocks) && name_count(&self.blocks).is_some()
    }

    /// Returns the text in front of the sum.
    fn body(&self, alloc: Global, count: u64) -> Result<String, AllocError>
        requires { count_in (content_of self.now).folders ≡ Some count }
        ensures text { IfOk result (λ text. string_bytes text ≡ body_text (content_of self.now)) }
        ensures fits { OnOk result (ContentFits (content_of self.now)) }
    {
        let mut out = String::from_str(alloc, MARK)?;
        push_head(&mut out, &self.head)?;
        push_blocks(&mut out, &self.blocks, count)?;
        Ok(out)
    }

    /// Returns the text of the snapshot.
    ///
    /// # Errors
    ///
    /// `NoText` if it [has none](Self::has_text), and `Memory` if memory runs out.
    pub fn to_text(&self, alloc: Global) -> Result<String, SnapshotError>
        ensures text { IfOk result (λ text. string_bytes text ≡ text_of (content_of self.now)) }
        ensures is { OnOk result (IsSnapshot (content_of self.now)) }
        ensures refused { IsErrOf result SnapshotError.NoText → is_snapshot (content_of self.now) ≡ false }
        ensures errors { IfErr result (λ e. (e ≡ SnapshotError.Memory) ⊎ (e ≡ SnapshotError.NoText)) }
    {
        let Some(count) = name_count(&self.blocks) else {
            return Err(SnapshotError::NoText);
        };
        if !self.has_text() {
            return Err(SnapshotError::NoText);
        }
        let mut text = self.body(alloc, count)?;
        let sum = sum_of(alloc, text.as_str().as_bytes())?;
        text.push_str(sum.as_str())?;
        Ok(text)
    }

    /// Writes the text of the snapshot.
    ///
    /// # Errors
    ///
    /// The error of the writer, `InvalidInput` if the snapshot [has no text](Self::has_text), and `OutOfMemory` if memory
    /// runs out. Nothing is written in the last two cases.
    pub fn write<W: Write>(&self, alloc: Global, out: &mut W) -> io::Result<()>
        ensures { OnOk result (Appends (W.contents out.old) (W.contents out.new) (text_of (content_of self.now))) }
    {
        match self.to_text(alloc) {
            Ok(text) => out.write_all(text.as_bytes()),
            Err(SnapshotError::Memory) => Err(io::Error::from(ErrorKind::OutOfMemory)),
            Err(_) => Err(io::Error::from(ErrorKind::InvalidInput)),
        }
    }

    /// Returns the snapshot that has this text. Its texts are borrowed from the bytes.
    ///
    /// # Errors
    ///
    /// `NoSnapshot` if the bytes don't begin as a snapshot does, `OtherVersion` if they begin as one of another version,
    /// `Damaged` if they are no text that [`to_text`](Self::to_text) returns, and `Memory` if memory runs out.
    pub fn read(alloc: Global, bytes: &'a [u8]) -> Result<Snapshot<'a>, SnapshotError>
        // What is read has this text.
        ensures found { IfOk result (λ s. IsSnapshot (content_of s) × (bytes.now ≡ text_of (content_of s))) }
        // What has this text is read, unless memory runs out.
        ensures only { (c : Content) → IsSnapshot c → bytes.now ≡ text_of c → Gives content_of result (Some c) }
        ensures no_snapshot { IsErrOf result SnapshotError.NoSnapshot → starts_with nat_eq bytes.now mark ≡ false }
        ensures other { IsErrOf result SnapshotError.OtherVersion → starts_with nat_eq bytes.now mark ≡ false }
    {
        if !bytes.starts_with(MARK.as_bytes()) {
            return Err(stranger(bytes));
        }
        let body = body_of(alloc, bytes)?;
        snapshot_at(alloc, body)
    }
}
