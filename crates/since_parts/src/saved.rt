//! The snapshot of what a walk finds.
ghost use Rattle.std.specs.Prelude.{◌≡◌, [], ◌∷◌, true, map, string_bytes, IfOk};
ghost use Rattle.jwalk_snapshot.specs.Text.{content_of, folder_of, text_in};
ghost use Rattle.since_parts.specs.Saved.{dir_paths, keeps, listing_in, path_in, AreSame, IsSame, IsTextOf, KeepsAll};

use crate::failure::Failure;
use crate::found::Found;
use crate::held::{Held, all_held};
use crate::tree::Tree;
use jwalk_changes::{Entry, Facts as Compared, Kept};
use jwalk_fs::path_text::{file_name, parent};
use jwalk_snapshot::{Block, Facts, Head, Listing, Name, Snapshot, SnapshotError};
use program_parts::halt::Halt;
use std::alloc::{AllocError, Global};

/// The directories of a snapshot that is made.
#[derive(Drop)]
struct Blocks<'a> {
    all: Vec<Block<'a>>,
    // How each of them was listed, and those to come.
    listings: &'a [Listing],
    // Which of them are above the last entry, the root first.
    open: Vec<usize>,
}

/// Returns what a snapshot keeps, if all of it is known.
fn kept_of(facts: Compared) -> Option<Facts> {
    match (facts.len, facts.modified, facts.inode) {
        (Some(len), Some(modified), Some(inode)) => Some(Facts {
            len,
            modified,
            inode,
        }),
        _ => None,
    }
}

impl<'a> Blocks<'a> {
    fn begin(&mut self, alloc: Global, path: &'a str) -> Result<(), AllocError> {
        let place = self.all.len();
        let listing = match self.listings.get(place) {
            Some(listing) => *listing,
            None => Listing::Unstamped,
        };
        self.open.push(place)?;
        self.all.push(Block {
            path,
            listing,
            names: Vec::new(alloc),
        })?;
        Ok(())
    }

    /// Returns the last directory that is open, if it has this path.
    fn last_at(&mut self, path: &str) -> Option<&mut Block<'a>> {
        let last = *self.open.last()?;
        let block = self.all.get_mut(last)?;
        if block.path == path {
            Some(block)
        } else {
            None
        }
    }

    /// Closes the last directory, to which no name comes any more.
    fn close_last(&mut self) {
        if let Some(last) = self.open.pop()
            && let Some(block) = self.all.get_mut(last)
        {
            block.names.shrink_to_fit();
        }
    }

    /// Closes directories until the last has this path.
    fn close_up_to(&mut self, path: &str) {
        for _ in 0..self.open.len() {
            if self.last_at(path).is_some() {
                return;
            }
            self.close_last();
        }
    }

    fn add(&mut self, alloc: Global, entry: &'a Kept) -> Result<(), AllocError> {
        let path = entry.path.as_str();
        let (Some(folder), Some(name)) = (parent(path), file_name(path)) else {
            return Ok(());
        };
        let file_type = entry.facts.file_type;
        self.close_up_to(folder);
        if let Some(block) = self.last_at(folder) {
            block.names.push(Name {
                name,
                file_type,
                facts: kept_of(entry.facts),
            })?;
        }
        if file_type.is_dir() {
            self.begin(alloc, path)?;
        }
        Ok(())
    }
}

/// Returns the directories of what was found, in the order of the walk.
fn blocks_of<'a>(alloc: Global, found: &'a Found) -> Result<Vec<Block<'a>>, AllocError> {
    let mut blocks = Blocks {
        all: Vec::new(alloc),
        listings: &found.listings,
        open: Vec::new(alloc),
    };
    blocks.begin(alloc, "")?;
    for entry in &found.entries {
        blocks.add(alloc, entry)?;
    }
    Ok(blocks.all)
}

/// Returns whether what is known of an entry that was found is known of one that is kept.
fn keeps(kept: Compared, found: Compared) -> bool
    ensures { result ≡ keeps kept found }
{
    (kept.len.is_some() || found.len.is_none())
        && (kept.modified.is_some() || found.modified.is_none())
        && (kept.inode.is_some() || found.inode.is_none())
}

/// Returns whether an entry that is kept is the same as one that was found.
fn is_same(kept: &Held<'_, '_>, found: &Kept) -> bool
    ensures { result ≡ true → IsSame kept.now found.now }
{
    let facts = kept.facts();
    kept.is_at(found.path.as_str()) && !facts.which(found.facts).any() && keeps(facts, found.facts)
}

/// Returns whether all that was found is kept, one after another, and nothing else.
fn are_same(kept: &[Held<'_, '_>], found: &[Kept]) -> bool
    ensures { result ≡ true → AreSame kept.now found.now }
{
    if kept.len() != found.len() {
        return false;
    }
    for at in 0..kept.len() {
        if !is_same(&kept[at], &found[at]) {
            return false;
        }
    }
    true
}

/// Returns whether directories are those among these entries.
fn are_below(blocks: &[Block<'_>], entries: &[Kept]) -> bool
    ensures { result ≡ true → map path_in (map folder_of blocks.now) ≡ dir_paths entries.now }
{
    let mut left = blocks;
    for entry in entries {
        if entry.facts.file_type.is_dir() {
            let [block, others @ ..] = left else {
                return false;
            };
            if block.path != entry.path.as_str() {
                return false;
            }
            left = others;
        }
    }
    left.is_empty()
}

/// Returns whether directories are the root, and then those among these entries.
fn are_dirs(blocks: &[Block<'_>], entries: &[Kept]) -> bool
    ensures { result ≡ true → map path_in (map folder_of blocks.now) ≡ [] ∷ dir_paths entries.now }
{
    let [root, below @ ..] = blocks else {
        return false;
    };
    root.path.is_empty() && are_below(below, entries)
}

fn is_listed_as(block: &Block<'_>, listing: Listing) -> bool
    ensures { result ≡ true → block.now.listing ≡ listing }
{
    block.listing == listing
}

/// Returns whether directories were listed in these ways, one after another.
fn have_listings(blocks: &[Block<'_>], listings: &[Listing]) -> bool
    ensures { result ≡ true → map listing_in (map folder_of blocks.now) ≡ listings.now }
{
    if blocks.len() != listings.len() {
        return false;
    }
    for at in 0..blocks.len() {
        if !is_listed_as(&blocks[at], listings[at]) {
            return false;
        }
    }
    true
}

/// Returns texts that are borrowed.
pub fn texts_of<'t>(alloc: Global, words: &'t [String]) -> Result<Vec<&'t str>, AllocError>
    ensures { IfOk result (λ texts. map text_in texts.items ≡ map string_bytes words.now) }
{
    let mut texts = Vec::new(alloc);
    for word in words {
        texts.push(word.as_str())?;
    }
    Ok(texts)
}

/// Returns whether directories hold just what was found, and were listed as they were found.
fn keep_all(alloc: Global, snapshot: &Snapshot<'_>, found: &Found) -> Result<bool, AllocError>
    ensures { IfOk result (λ keep. keep ≡ true → KeepsAll found.now (content_of snapshot.now)) }
{
    let kept = all_held(alloc, snapshot, true)?;
    Ok(
        are_same(&kept, &found.entries)
            && are_dirs(&snapshot.blocks, &found.entries)
            && have_listings(&snapshot.blocks, &found.listings),
    )
}

/// Returns the text of the snapshot of what is found, which is compared with that. It has the words for what of the tree
/// was looked at.
pub fn saved_text(alloc: Global, file: &str, tree: &Tree, found: &Found) -> Result<String, Failure>
    ensures { IfOk result (λ text. IsTextOf (string_bytes tree.now.absolute) tree.now.choice found.now (string_bytes text)) }
{
    let words = tree.choice.words(alloc)?;
    let words = texts_of(alloc, &words)?;
    let head = Head {
        root: tree.root.as_str(),
        absolute: tree.absolute.as_str(),
        words,
    };
    let blocks = blocks_of(alloc, found)?;
    let snapshot = Snapshot { head, blocks };
    if !keep_all(alloc, &snapshot, found)? {
        return Err(Failure::at(alloc, file, &"what was found can't be kept"));
    }
    match snapshot.to_text(alloc) {
        Ok(text) => Ok(text),
        Err(SnapshotError::Memory) => Err(Failure::Halt(Halt::Memory)),
        Err(error) => Err(Failure::at(alloc, file, &error)),
    }
}
