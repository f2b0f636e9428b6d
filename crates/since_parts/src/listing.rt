//! How a directory was listed.
ghost use Rattle.std.specs.Prelude.{◌≡◌};
ghost use Rattle.jwalk_job.specs.Entry.{entry};
ghost use Rattle.since_parts.specs.Listing.{is_listed, listing_by, listing_seen};

use crate::choice::Choice;
use crate::tree::Tree;
use jwalk_indexed_fs::stamp::Stamp;
use jwalk_job::client_state::ClientState;
use jwalk_job::dir_entry::DirEntry;
use jwalk_model::metadata::Moment;
use jwalk_snapshot::{Listing, Stamp as KeptStamp};
use std::alloc::Allocator;

/// Returns whether the directory of an entry was listed: if it is one, and isn't at the greatest depth.
fn is_listed<C: ClientState, A: Allocator + Copy>(choice: &Choice, found: &DirEntry<C, A>) -> bool
    ensures { result ≡ is_listed choice.now (entry found.now) }
{
    found.read_children.is_some() && found.depth() < choice.max_depth()
}

/// Returns how a directory was listed that had this stamp before. It may be used later if the directory had settled.
fn listing_by(start: Moment, stamp: Option<Stamp>) -> Listing
    ensures { result ≡ listing_by start stamp }
{
    match stamp {
        Some(stamp) if stamp.is_settled(start) => Listing::Stamped(KeptStamp {
            identity: stamp.identity,
            changed: stamp.changed,
        }),
        _ => Listing::Unstamped,
    }
}

/// Returns how the directory of an entry was listed, whose path behind the root is this. If no name of it is left out, the
/// stamp is that which the walk saw before it listed the directory.
pub(crate) fn listing_seen<C: ClientState, A: Allocator + Copy>(
    tree: &Tree,
    path: &str,
    found: &DirEntry<C, A>,
) -> Listing
    ensures { result ≡ listing_seen tree.now path.now (entry found.now) }
{
    match found.metadata_seen() {
        Some(seen) if tree.keeps_all(path) && is_listed(&tree.choice, found) => {
            listing_by(tree.start, Stamp::of(seen))
        }
        _ => Listing::Unstamped,
    }
}
