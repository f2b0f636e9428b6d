//! What is kept of a tree of which not all could be read.
ghost use Rattle.std.specs.Prelude.{◌≡◌, false, IfOk};

use crate::facts::compared;
use crate::found::Found;
use crate::held::Held;
use jwalk_changes::{Entry, Facts, Kept, compare, is_below};
use jwalk_snapshot::Listing;
use std::alloc::{AllocError, Global};

/// Returns places in ascending order, each once.
pub(crate) fn ascending<'p>(
    alloc: Global,
    places: &'p [String],
) -> Result<Vec<&'p str>, AllocError> {
    let mut sorted = Vec::new(alloc);
    for place in places {
        sorted.push(place.as_str())?;
    }
    sorted.sort_by(|one, other| compare(one, other))?;
    let mut once = Vec::new(alloc);
    for place in sorted {
        match once.last() {
            Some(last) if *last == place => {}
            _ => once.push(place)?,
        }
    }
    Ok(once)
}

/// Returns whether a path is one of these places, which ascend.
fn is_among(places: &[&str], path: &str) -> bool {
    places
        .binary_search_by(|place| compare(place, &path))
        .is_ok()
}

/// Returns what is kept of a name that was held. If its number doesn't count, it is of another tree: then that is its type.
fn facts_kept(held: &Held<'_, '_>) -> Facts {
    if held.numbers {
        held.facts()
    } else {
        compared(held.name.file_type, None, true)
    }
}

/// Returns the names that are held behind a path, in the order of a walk: those below it are the first.
fn behind<'h, 's, 'a>(held: &'h [Held<'s, 'a>], path: &str) -> &'h [Held<'s, 'a>] {
    let start = held.partition_point(|one| compare(one, &path).is_le());
    let (_, behind) = held.split_at(start);
    behind
}

/// What is kept, while what was found is taken in the order of the walk.
#[derive(Drop)]
struct Keeping<'f, 's, 'a> {
    // What an earlier snapshot holds, if there is one.
    held: Option<&'f [Held<'s, 'a>]>,
    // The directories that could not be read, in ascending order.
    unread: Vec<&'f str>,
    // Those with a name that isn't UTF-8.
    unnamed: Vec<&'f str>,
    // How the directories to come were listed.
    listings: &'f [Listing],
    // The last directory below which is what was held.
    restored: Option<&'f str>,
    kept: Found,
}

impl<'f, 's, 'a> Keeping<'f, 's, 'a> {
    /// Keeps a path with what is compared there, and if it is a directory how that was listed.
    fn keep(&mut self, path: String, facts: Facts, listing: Listing) -> Result<(), AllocError> {
        if facts.file_type.is_dir() {
            self.kept.listings.push(listing)?;
        }
        self.kept.entries.push(Kept { path, facts })?;
        Ok(())
    }

    /// Keeps what was held below a directory.
    fn restore(
        &mut self,
        alloc: Global,
        held: &[Held<'s, 'a>],
        path: &str,
    ) -> Result<(), AllocError> {
        for one in behind(held, path) {
            if !is_below(&path, one) {
                return Ok(());
            }
            self.keep(one.path(alloc)?, facts_kept(one), Listing::Unread)?;
        }
        Ok(())
    }

    /// Returns how the next directory was listed, which has this path. A directory of which not all names are known has no
    /// stamp.
    fn next_listing(&mut self, path: &str) -> Listing {
        let [next, others @ ..] = self.listings else {
            return Listing::Unstamped;
        };
        self.listings = others;
        if is_among(&self.unread, path) {
            Listing::Unread
        } else if is_among(&self.unnamed, path) {
            Listing::Unstamped
        } else {
            *next
        }
    }

    fn is_restored(&self, entry: &Kept) -> bool {
        match self.restored {
            Some(place) => is_below(&place, entry),
            None => false,
        }
    }

    /// Takes an entry that was found. It is kept if it isn't below a directory that has what was held.
    fn take(&mut self, alloc: Global, entry: &'f Kept) -> Result<(), AllocError> {
        let path = entry.path.as_str();
        let listing = if entry.facts.file_type.is_dir() {
            self.next_listing(path)
        } else {
            Listing::Unstamped
        };
        if self.is_restored(entry) {
            return Ok(());
        }
        self.keep(entry.path.clone()?, entry.facts, listing)?;
        match self.held {
            Some(held) if listing == Listing::Unread => {
                self.restored = Some(path);
                self.restore(alloc, held, path)
            }
            _ => Ok(()),
        }
    }
}

/// Returns what is kept of what was found, where not all could be read but the root: below a directory that could not be
/// read is what a snapshot holds, if there is one. These directories are marked, and have no stamps.
pub fn with_held<'f, 's, 'a>(
    alloc: Global,
    held: Option<&'f [Held<'s, 'a>]>,
    found: &'f Found,
) -> Result<Found, AllocError>
    ensures { IfOk result (λ kept. kept.clean ≡ false) }
{
    let mut keeping = Keeping {
        held,
        unread: ascending(alloc, &found.unread)?,
        unnamed: ascending(alloc, &found.unnamed)?,
        listings: &found.listings,
        restored: None,
        kept: Found::new(alloc),
    };
    let root = keeping.next_listing("");
    keeping.kept.listings.push(root)?;
    for entry in &found.entries {
        keeping.take(alloc, entry)?;
    }
    let mut kept = keeping.kept;
    kept.clean = false;
    Ok(kept)
}
