//! A directory.
ghost use Rattle.std.specs.Prelude.{◌≡◌, ◌++◌, map, flat_map, option_map, string_bytes, OnOk};
ghost use Rattle.std.specs.List.{list_all, AllByRecursion};
ghost use Rattle.jwalk_snapshot.specs.Reading.{entry_at, folder_at, list_at, listing_at, listing_of, stamp_at, Gives};
ghost use Rattle.jwalk_snapshot.specs.Text.{entry_of, entry_text, folder_of, folder_text, is_ascending, is_entry, is_folder, listing_text, may_follow, stamp_text, text_in, EntryFits, FolderFits, ListingFits, StampFits};

use crate::error::SnapshotError;
use crate::name::{Name, is_name, name_at, push_name};
use crate::numbers::{
    ended_at, is_text, moment_at, number_at, push_ended, push_moment, push_number, word_at,
};
use jwalk_model::metadata::{Identity, Moment};
use std::alloc::{AllocError, Global};

/// What tells that a directory is unchanged: while it has this stamp, it has the same names of the same types.
#[derive(Clone, Copy, Debug, PartialEq, Eq)]
pub struct Stamp {
    /// Which directory it is.
    pub identity: Identity,
    /// When it last changed.
    pub changed: Moment,
}

/// How a directory was listed.
#[derive(Clone, Copy, Debug, PartialEq, Eq)]
pub enum Listing {
    /// It was read whole, and had this stamp before.
    Stamped(Stamp),
    /// It was read, and has no stamp that may be used.
    Unstamped,
    /// It couldn't be read. The names are those of an earlier snapshot.
    Unread,
}

/// A directory, and the names in it.
#[derive(Debug, PartialEq, Eq, Drop)]
pub struct Block<'a> {
    /// Its path behind the root: that of the root is empty.
    pub path: &'a str,
    pub listing: Listing,
    /// In ascending order of bytes.
    pub names: Vec<Name<'a>>,
}

fn push_stamp(out: &mut String, stamp: &Stamp) -> Result<(), AllocError>
    ensures text { OnOk result (string_bytes out.new ≡ string_bytes out.old ++ stamp_text stamp.now) }
    ensures fits { OnOk result (StampFits stamp.now) }
{
    push_number(out, stamp.identity.device)?;
    push_number(out, stamp.identity.inode)?;
    push_moment(out, stamp.changed)
}

fn push_listing(out: &mut String, listing: &Listing) -> Result<(), AllocError>
    ensures text { OnOk result (string_bytes out.new ≡ string_bytes out.old ++ listing_text listing.now) }
    ensures fits { OnOk result (ListingFits listing.now) }
{
    match listing {
        Listing::Stamped(stamp) => {
            out.push_str("S ")?;
            push_stamp(out, stamp)
        }
        Listing::Unstamped => out.push_str("R "),
        Listing::Unread => out.push_str("U "),
    }
}

fn push_names(out: &mut String, names: &[Name<'_>]) -> Result<(), AllocError>
    ensures text { OnOk result (string_bytes out.new ≡ string_bytes out.old ++ flat_map entry_text (map entry_of names.now)) }
    ensures fits { OnOk result (AllByRecursion EntryFits (map entry_of names.now)) }
{
    for name in names {
        push_name(out, name)?;
    }
    Ok(())
}

/// Adds the text of a directory.
pub fn push_block(out: &mut String, block: &Block<'_>) -> Result<(), AllocError>
    ensures text { OnOk result (string_bytes out.new ≡ string_bytes out.old ++ folder_text (folder_of block.now)) }
    ensures fits { OnOk result (FolderFits (folder_of block.now)) }
{
    push_listing(out, &block.listing)?;
    push_number(out, block.names.len() as u64)?;
    push_ended(out, block.path)?;
    push_names(out, &block.names)
}

#[tactic(auto, unfolding(crate::specs::Reading::stamp_at))]
fn stamp_at(text: &str) -> Option<(Stamp, &str)>
    ensures { option_map (λ x. (x.0, x.1.now)) result ≡ stamp_at text.now }
{
    let (device, rest) = number_at(text)?;
    let (inode, rest) = number_at(rest)?;
    let (changed, rest) = moment_at(rest)?;
    let stamp = Stamp {
        identity: Identity { device, inode },
        changed,
    };
    Some((stamp, rest))
}

/// Returns how a directory was listed, from the word before the text, and what is behind that.
#[tactic(auto, unfolding(crate::specs::Reading::listing_of))]
fn listing_of<'a>(word: &str, text: &'a str) -> Option<(Listing, &'a str)>
    ensures { option_map (λ x. (x.0, x.1.now)) result ≡ listing_of word.now text.now }
{
    match word.as_bytes() {
        [b'S'] => {
            let (stamp, rest) = stamp_at(text)?;
            Some((Listing::Stamped(stamp), rest))
        }
        [b'R'] => Some((Listing::Unstamped, text)),
        [b'U'] => Some((Listing::Unread, text)),
        _ => None,
    }
}

#[tactic(auto, unfolding(crate::specs::Reading::listing_at))]
fn listing_at(text: &str) -> Option<(Listing, &str)>
    ensures { option_map (λ x. (x.0, x.1.now)) result ≡ listing_at text.now }
{
    let (word, rest) = word_at(text)?;
    listing_of(word, rest)
}

/// Returns this many names from the front, and what is behind them.
fn names_at<'a>(
    alloc: Global,
    count: u64,
    text: &'a str,
) -> Result<(Vec<Name<'a>>, &'a str), SnapshotError>
    ensures { Gives (λ x. (map entry_of x.0.items, x.1.now)) result (list_at entry_at count text.now) }
{
    let mut names = Vec::new(alloc);
    let mut rest = text;
    for _ in 0..count {
        let Some((name, after)) = name_at(rest) else {
            return Err(SnapshotError::Damaged);
        };
        names.push(name)?;
        rest = after;
    }
    Ok((names, rest))
}

/// Returns the directory at the front, and what is behind it.
#[tactic(auto, unfolding(crate::specs::Reading::folder_at))]
pub fn block_at<'a>(alloc: Global, text: &'a str) -> Result<(Block<'a>, &'a str), SnapshotError>
    ensures { Gives (λ x. (folder_of x.0, x.1.now)) result (folder_at text.now) }
{
    let Some((listing, rest)) = listing_at(text) else {
        return Err(SnapshotError::Damaged);
    };
    let Some((count, rest)) = number_at(rest) else {
        return Err(SnapshotError::Damaged);
    };
    let Some((path, rest)) = ended_at(rest) else {
        return Err(SnapshotError::Damaged);
    };
    let (names, rest) = names_at(alloc, count, rest)?;
    let block = Block {
        path,
        listing,
        names,
    };
    Ok((block, rest))
}

/// Returns whether a name may follow the one before it, if there is one.
fn may_follow(before: Option<&str>, name: &str) -> bool
    ensures { result ≡ may_follow (option_map text_in before.entry) name.now }
{
    match before {
        None => true,
        Some(before) => before < name,
    }
}

/// Returns whether each name is above the one before it, in the order of bytes.
fn is_ascending(names: &[Name<'_>]) -> bool
    ensures { result ≡ is_ascending (map entry_of names.now) }
{
    let mut before = None;
    for name in names {
        if !may_follow(before, name.name) {
            return false;
        }
        before = Some(name.name);
    }
    true
}

/// Returns whether each name can be written.
fn are_names(names: &[Name<'_>]) -> bool
    ensures { result ≡ list_all is_entry (map entry_of names.now) }
{
    for name in names {
        if !is_name(name) {
            return false;
        }
    }
    true
}

/// Returns whether a directory can be written.
pub fn is_block(block: &Block<'_>) -> bool
    ensures { result ≡ is_folder (folder_of block.now) }
{
    is_text(block.path) && are_names(&block.names) && is_ascending(&block.names)
}
